// The command.
ghost use Rattle.std.specs.Prelude.{◌≡◌, ◌⊎◌, string_bytes, MatchResult, IsErrOf};
ghost use Rattle.board_base.specs.Shelf.{OnlyReads};
ghost use Rattle.endings.specs.declared.status.Status.TheVariants as Statuses;
ghost use Rattle.endings.specs.Answers.{IfTold};
ghost use Rattle.endings.specs.Ending.{Ending};
ghost use Rattle.endings.specs.Reads.{held_in};
ghost use Rattle.endings.specs.Run.{IsAnswer};
ghost use Rattle.endings.specs.Words.{IsExactUsage};
ghost use Rattle.endings.specs.Works.{Works, WorksAlone, status_of};
ghost use Rattle.job_file.specs.Reading.{texts};
ghost use Rattle.checking.specs.Words.{words_of};
ghost use Rattle.checking.specs.Checked.{refused_as, CheckEnds};

use crate::acceptance::accept;
use crate::report::joined_lines;
use board_base::{Role, Shelf};
use endings::{NgcOrSim, SimFault, Status};
use side_check::{SideFault, check_side};
use std::alloc::Global;

/// What is told of a program that passed: a line for each group of islands that it leaves joined, but not the last line of
/// the command.
#[derive(Drop)]
pub struct Joined {
    pub lines: String,
}

// What a fault of the check is to the command.
fn refusal(fault: SideFault) -> Status
    ensures { result ≡ refused_as fault }
{
    match fault {
        SideFault::Limit(hit) => Status::Limit(hit),
        SideFault::NoProbeAnswer { count } => Status::Ngc {
            role: Role::Ngc,
            fault: NgcOrSim::Machine(SimFault::NoProbeAnswer { count }),
            line: 0,
        },
        SideFault::Sim { fault, line } => Status::Ngc {
            role: Role::Ngc,
            fault: NgcOrSim::Machine(fault),
            line,
        },
        SideFault::Hit { cell, line } => Status::Cell {
            i: cell.i,
            j: cell.j,
            line,
        },
        SideFault::Memory => Status::Memory,
    }
}

/// Checks the program that the words name against the layer of a side, and gives the lines that are to be told. Nothing is
/// written and nothing is put.
///
/// # Errors
///
/// In this order: `Usage`; `ReadFault` and `TooLong` of the job's file; `Job`; `ReadFault` and `TooLong` of the layer, of the
/// program and of the answers; `Gerber`; `Ngc` of a line of the program, and then of the answers; `Limit` of the frame, of
/// the islands and of the probes; `Ngc` at line 0 where answers are missing; `Ngc` of the first line that the machine has no
/// step for; `Cell` of the first line that hits a kept cell. `Memory` may come at any step.
pub fn check<S: Shelf>(alloc: Global, words: &Vec<String>, shelf: &mut S) -> Result<Joined, Status>
    ensures usage { IsExactUsage (words_of (texts words.now)) (status_of result) }
    // No refusal is Done.
    ensures refused { IsErrOf result Statuses.Done → ⊥ }
    // What was done before any line is put: an ending of the command, with these lines, or one that is a refusal.
    ensures works { MatchResult result
        (λ c. WorksAlone (CheckEnds (texts words.now)) (string_bytes c.lines) Statuses.Done (S.state shelf.old) (S.state shelf.new))
        (λ status. Works (CheckEnds (texts words.now)) status (S.state shelf.old) (S.state shelf.new)) }
    // This answers each ending of the command.
    ensures answers { IfTold (S.state shelf.old).files (λ files. (e : Ending) → CheckEnds (texts words.now) (held_in files) e
        → IsAnswer (CheckEnds (texts words.now)) files e (status_of result) (S.state shelf.old) (S.state shelf.new)) }
{
    let accepted = match accept(alloc, words, shelf) {
        Ok(accepted) => accepted,
        Err(status) => return Err(status),
    };
    let groups = match check_side(
        alloc,
        &accepted.painted,
        &accepted.job,
        accepted.side,
        &accepted.lines,
        &accepted.answers,
    ) {
        Ok(groups) => groups,
        Err(fault) => return Err(refusal(fault)),
    };
    match joined_lines(alloc, &groups) {
        Ok(lines) => Ok(Joined { lines }),
        Err(_) => Err(Status::Memory),
    }
}
