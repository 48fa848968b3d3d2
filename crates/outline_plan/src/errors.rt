// Why a board isn't cut out.
ghost use Rattle.std.specs.Prelude.{◌≡◌};
ghost use Rattle.outline_plan.specs.declared.errors.OutlinePlanError.TheVariants.{Memory};

use mill_plan::LimitHit;
use outline_loops::OutlineError;
use std::alloc::AllocError;
use thiserror::Error;

/// Why a board isn't cut out.
#[derive(Clone, Copy, Debug, PartialEq, Eq, Error)]
pub enum OutlinePlanError {
    /// The outline is open at an end, or has no loop.
    #[error("{0}")]
    Outline(OutlineError),
    /// The outline passes a limit.
    #[error("{0}")]
    Limit(LimitHit),
    /// Memory is wanting.
    #[error("out of memory")]
    Memory,
}

impl From<AllocError> for OutlinePlanError {
    ghost from_gives = { λ _ e. e ≡ Memory };

    fn from(_error: AllocError) -> OutlinePlanError {
        OutlinePlanError::Memory
    }
}
