//! Why a macro can't be read or evaluated.
ghost use Rattle.std.specs.Prelude.{◌≡◌};
ghost use Rattle.macro_eval.specs.declared.fault.MacroFault.TheVariants.{Memory};

use std::alloc::AllocError;
use thiserror::Error;

/// Why a macro can't be read, or has no primitives for its arguments (Ucamco Gerber Layer Format Specification, 4.5).
#[derive(Clone, Copy, Debug, PartialEq, Eq, Error)]
pub enum MacroFault {
    /// A statement is outside the grammar, or its fields aren't those of its primitive.
    #[error("no statement of a macro")]
    BadExpression,
    /// A quotient by 0.
    #[error("a division by 0")]
    ZeroDivisor,
    /// A value above 1,000,000,000 in size.
    #[error("a value past the range")]
    Overflow,
    /// No primitive has this code, or a thermal stands behind another primitive.
    #[error("no primitive has the code {code}")]
    UnknownPrimitive {
        /// The code.
        code: u32,
    },
    /// More than 32 brackets are open at one place.
    #[error("more than 32 brackets in one another")]
    TooDeep,
    /// The memory doesn't suffice.
    #[error("out of memory")]
    Memory,
}

impl From<AllocError> for MacroFault {
    ghost from_gives = { λ _ e. e ≡ Memory };

    fn from(_error: AllocError) -> MacroFault {
        MacroFault::Memory
    }
}
