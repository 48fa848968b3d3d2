// The moves of a program.
ghost use Rattle.std.specs.Prelude.{◌≡◌, ◌⊎◌, ◌<◌, ◌^◌, Ok, Err, vec_len, IfOk, MatchResult};
ghost use Rattle.std.specs.List.{All};
ghost use Rattle.rs274_sim.specs.Few.{HasFewSettings};
ghost use Rattle.rs274_sim.specs.Machine.{run_of};
ghost use Rattle.side_check.specs.Ends.{HasNearEnds};
ghost use Rattle.side_check.specs.Found.{moves_or_fault, stopped_as};
ghost use Rattle.side_check.specs.declared.fault.SideFault.TheVariants.{Memory};

use crate::SideFault;
use board_base::Move;
use rs274_sim::{Line, RunFault, moves};
use std::alloc::Global;

// What a stop of the machine is to the check.
fn stopped(fault: RunFault) -> SideFault
    ensures { result ≡ stopped_as fault }
{
    match fault {
        RunFault::Sim { fault, line } => SideFault::Sim { fault, line },
        RunFault::Memory => SideFault::Memory,
    }
}

/// The moves of a program with these answers of the probe.
pub(crate) fn moves_of(
    alloc: Global,
    lines: &Vec<Line>,
    answers: &Vec<i64>,
) -> Result<Vec<Move>, SideFault>
    requires settings { All HasFewSettings (lines.now).items }
    requires few { vec_len lines.now < 2 ^ 32 }
    ensures run { MatchResult result
        (λ made. run_of (answers.now).items (lines.now).items ≡ Ok made.items)
        (λ e. (e ≡ Memory) ⊎ (moves_or_fault (run_of (answers.now).items (lines.now).items) ≡ Err e)) }
    ensures ends { IfOk result (λ made. All HasNearEnds made.items) }
{
    match moves(alloc, lines, answers) {
        Ok(made) => Ok(made),
        Err(fault) => Err(stopped(fault)),
    }
}
