// The command.
ghost use Rattle.std.specs.Prelude.{◌≡◌, ◌≤◌, ◌^◌, length, map, string_bytes, vec_len, MatchResult};
ghost use Rattle.std.specs.List.{All};
ghost use Rattle.board_base.specs.Shelf.{OnlyReads};
ghost use Rattle.move_watch.specs.Watch.{IsFresh};
ghost use Rattle.endings.specs.Answers.{MakesOf};
ghost use Rattle.endings.specs.Limits.{most_bytes};
ghost use Rattle.endings.specs.Works.{Gives, Works, WorksAlone, status_of};
ghost use Rattle.job_file.specs.Reading.{texts};
ghost use Rattle.endings.specs.Words.{IsExactUsage};
ghost use Rattle.simulation.specs.Words.{words_of};
ghost use Rattle.simulation.specs.Simulated.{sources_of, told_of, outcome_of, simulated, stopped_as, SimulationEnds};

use crate::patrolled::run_patrolled;
use crate::report::{Simulation, report};
use crate::sources::{Sources, read_answers, read_lines, read_sources};
use crate::words::read_words;
use board_base::{Role, Shelf};
use endings::{NgcOrSim, Status};
use move_watch::Watcher;
use rs274_sim::RunFault;
use std::alloc::Global;

// What a stop of the machine is to the command.
fn stopped(fault: RunFault) -> Status
    ensures { result ≡ stopped_as fault }
{
    match fault {
        RunFault::Memory => Status::Memory,
        RunFault::Sim { fault, line } => Status::Ngc {
            role: Role::Ngc,
            fault: NgcOrSim::Machine(fault),
            line,
        },
    }
}

// Runs what was read.
fn simulate_sources(
    alloc: Global,
    sources: &Sources,
    watchers: Vec<Box<dyn Watcher>>,
) -> Result<Simulation, Status>
    requires program { length (sources.now).program.items ≤ most_bytes }
    requires probes { length (sources.now).probes.items ≤ most_bytes }
    requires fresh { All (λ w. IsFresh (watch w)) watchers.items }
    requires few { vec_len watchers ≤ 2 ^ 32 }
    ensures made { MakesOf told_of (outcome_of (map (λ w. (watch w).limits) watchers.items) (sources_of sources.now)) result }
{
    let lines = match read_lines(alloc, &sources.program) {
        Ok(lines) => lines,
        Err(status) => return Err(status),
    };
    let answers = match read_answers(alloc, &sources.probes) {
        Ok(answers) => answers,
        Err(status) => return Err(status),
    };
    let run = match run_patrolled(alloc, &lines, &answers, watchers) {
        Ok(run) => run,
        Err(fault) => return Err(stopped(fault)),
    };
    match report(alloc, &run) {
        Ok(simulation) => Ok(simulation),
        Err(_) => Err(Status::Memory),
    }
}

/// Reads the program and the answers of its probe that the words name, runs the program and shows each move to the
/// watchers, and gives the lines and the status to be told. Nothing is written and nothing is put.
///
/// # Errors
///
/// In this order: `Usage`; `ReadFault` and `TooLong` of the program and then of the answers; `Ngc` of a line outside the
/// grammar, in the same order; `Ngc` of the first line that the machine has no step for, or of the last where the
/// lines end before the program does. `Memory` may come at any step.
pub fn simulate<S: Shelf>(
    alloc: Global,
    words: &Vec<String>,
    shelf: &mut S,
    watchers: Vec<Box<dyn Watcher>>,
) -> Result<Simulation, Status>
    requires fresh { All (λ w. IsFresh (watch w)) watchers.items }
    requires few { vec_len watchers ≤ 2 ^ 32 }
    ensures keeps { OnlyReads (S.state shelf.old) (S.state shelf.new) }
    ensures gives { Gives told_of (S.state shelf.old) (S.state shelf.new)
        (simulated (map (λ w. (watch w).limits) watchers.items) (texts words.now)) result }
    ensures usage { IsExactUsage (words_of (texts words.now)) (status_of result) }
    // What was done before any line is put: an ending of the command, with these lines, or one that is a refusal.
    ensures works { MatchResult result
        (λ s. WorksAlone (SimulationEnds (map (λ w. (watch w).limits) watchers.items) (texts words.now)) (string_bytes s.lines) s.status
        (S.state shelf.old) (S.state shelf.new))
        (λ status. Works (SimulationEnds (map (λ w. (watch w).limits) watchers.items) (texts words.now)) status
        (S.state shelf.old) (S.state shelf.new)) }
{
    let names = match read_words(words) {
        Ok(names) => names,
        Err(word) => return Err(Status::Usage { word }),
    };
    let sources = match read_sources(alloc, shelf, names) {
        Ok(sources) => sources,
        Err(status) => return Err(status),
    };
    simulate_sources(alloc, &sources, watchers)
}
