// The files that `simulate` reads, and what they stand for.
ghost use Rattle.std.specs.Prelude.{◌≡◌, ◌≤◌, ◌<◌, ◌^◌, length, vec_len, IfOk};
ghost use Rattle.std.specs.List.{All};
ghost use Rattle.std.specs.Option.{option_copied};
ghost use Rattle.board_base.specs.Shelf.{OnlyReads};
ghost use Rattle.rs274_sim.specs.Few.{HasFewSettings};
ghost use Rattle.rs274_sim.specs.Reading.{program_of};
ghost use Rattle.endings.specs.Answers.{MakesOf};
ghost use Rattle.endings.specs.Limits.{most_bytes};
ghost use Rattle.endings.specs.Works.{Gives};
ghost use Rattle.simulation.specs.Words.{named_of};
ghost use Rattle.simulation.specs.Answers.{answers_of};
ghost use Rattle.simulation.specs.Simulated.{IsProbeBytes, sources_of, sources_in, read_as, refused_as};

use crate::answers::read_probes;
use crate::words::Names;
use board_base::{Role, Shelf};
use endings::{NgcOrSim, Status, read_input};
use ngc_reader::{NgcError, NgcKind, read_program};
use rs274_sim::Line;
use std::alloc::Global;

/// The bytes of the program and those of the probe's answers.
#[derive(Drop)]
pub struct Sources {
    pub program: Vec<u8>,
    pub probes: Vec<u8>,
}

// The bytes of the file with the probe's answers, or none where there is no file.
fn read_probe_bytes<S: Shelf>(
    alloc: Global,
    shelf: &mut S,
    name: Option<&str>,
) -> Result<Vec<u8>, Status>
    ensures keeps { OnlyReads (S.state shelf.old) (S.state shelf.new) }
    ensures gives { IsProbeBytes (option_copied name.entry) (S.state shelf.old) (S.state shelf.new) result }
{
    match name {
        Some(name) => read_input(alloc, shelf, Role::Probes, name),
        None => Ok(Vec::new(alloc)),
    }
}

/// Reads both files, the program's first.
///
/// # Errors
///
/// `ReadFault` and `TooLong` with the file's role, `Memory`.
pub fn read_sources<S: Shelf>(
    alloc: Global,
    shelf: &mut S,
    names: Names<'_>,
) -> Result<Sources, Status>
    ensures keeps { OnlyReads (S.state shelf.old) (S.state shelf.new) }
    ensures gives { Gives sources_of (S.state shelf.old) (S.state shelf.new) (sources_in (named_of names.entry)) result }
    ensures program { IfOk result (λ s. length s.program.items ≤ most_bytes) }
    ensures probes { IfOk result (λ s. length s.probes.items ≤ most_bytes) }
{
    let program = match read_input(alloc, shelf, Role::Ngc, names.program) {
        Ok(program) => program,
        Err(status) => return Err(status),
    };
    let probes = match read_probe_bytes(alloc, shelf, names.probes) {
        Ok(probes) => probes,
        Err(status) => return Err(status),
    };
    Ok(Sources { program, probes })
}

// What a refusal of a file's line is to the command.
fn refusal(role: Role, error: NgcError) -> Status
    ensures { result ≡ refused_as role error.kind error.line }
{
    match error.kind {
        NgcKind::Memory => Status::Memory,
        _ => Status::Ngc {
            role,
            fault: NgcOrSim::Reader(error.kind),
            line: error.line,
        },
    }
}

/// The lines of the program.
///
/// # Errors
///
/// `Ngc` with the first line outside the grammar, `Memory`.
pub fn read_lines(alloc: Global, program: &[u8]) -> Result<Vec<Line>, Status>
    requires { length program.now < 2 ^ 32 }
    ensures made { MakesOf (λ v. v.items) (read_as Role.Ngc (program_of program.now)) result }
    ensures settings { IfOk result (λ lines. All HasFewSettings lines.items) }
    ensures few { IfOk result (λ lines. vec_len lines < 2 ^ 32) }
{
    match read_program(alloc, program) {
        Ok(lines) => Ok(lines),
        Err(error) => Err(refusal(Role::Ngc, error)),
    }
}

/// The answers of the probe, in nanometres.
///
/// # Errors
///
/// `Ngc` with the role Probes and the first line that is no answer, `Memory`.
pub fn read_answers(alloc: Global, probes: &[u8]) -> Result<Vec<i64>, Status>
    requires { length probes.now < 2 ^ 32 }
    ensures made { MakesOf (λ v. v.items) (read_as Role.Probes (answers_of probes.now)) result }
{
    match read_probes(alloc, probes) {
        Ok(answers) => Ok(answers),
        Err(error) => Err(refusal(Role::Probes, error)),
    }
}
