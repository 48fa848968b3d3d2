// Why a program isn't accepted.
ghost use Rattle.std.specs.Prelude.{◌≡◌};
ghost use Rattle.side_check.specs.Found.{fault_of};

use board_base::Cell;
use mill_plan::{LimitHit, PlanError};
use rs274_sim::SimFault;
use thiserror::Error;

/// Why a program isn't accepted for a side.
#[derive(Clone, Copy, Debug, PartialEq, Eq, Error)]
pub enum SideFault {
    /// The frame, the count of islands or the count of probes passes a limit.
    #[error("{0}")]
    Limit(LimitHit),
    /// There are only so many answers of the probe, and fewer than probes.
    #[error("no more than {count} answers of the probe")]
    NoProbeAnswer { count: u64 },
    /// The machine refuses the line of this number; `NoEnd` with the number of lines.
    #[error("{fault} at line {line}")]
    Sim { fault: SimFault, line: u32 },
    /// The cutter may bite this kept cell, at the line of this number.
    #[error("the cutter may bite the cell {}, {} at line {line}", .cell.i, .cell.j)]
    Hit { cell: Cell, line: u32 },
    /// Memory is wanting.
    #[error("out of memory")]
    Memory,
}

/// What a refusal of a plan is to the check.
pub(crate) fn refused(error: PlanError) -> SideFault
    ensures { result ≡ fault_of error }
{
    match error {
        PlanError::Limit(hit) => SideFault::Limit(hit),
        PlanError::Memory => SideFault::Memory,
    }
}
