//! Apertures.
ghost use Rattle.std.specs.Prelude.{◌≡◌, IfSome};
ghost use Rattle.shape_parts.specs.Parts.{IsWidth};
ghost use Rattle.apertures.specs.declared.aperture.ApertureError.TheVariants.{Memory};

use macro_eval::MacroFault;
use shape_parts::Shape;
use std::alloc::AllocError;
use std::marker::Model;
use thiserror::Error;

/// Why there is no aperture, or no shape of it at a place.
#[derive(Clone, Copy, Debug, PartialEq, Eq, Error)]
pub enum ApertureError {
    /// The text is outside the grammar of apertures.
    #[error("no aperture")]
    Syntax,
    /// The hole is a rectangle.
    #[error("a rectangular hole")]
    Unsupported,
    /// What is wrong with the macro for these arguments.
    #[error("a macro with {0}")]
    Macro(MacroFault),
    /// A size is above 1,000,000,000 nm, or a point above 500,000,000 nm.
    #[error("a size or a point past the range")]
    OutOfRange,
    /// The memory doesn't suffice.
    #[error("out of memory")]
    Memory,
}

impl From<AllocError> for ApertureError {
    ghost from_gives = { λ _ e. e ≡ Memory };

    fn from(_error: AllocError) -> ApertureError {
        ApertureError::Memory
    }
}

/// What a flash paints and what a stroke is drawn with.
#[derive(Drop)]
pub struct Aperture {
    pub(crate) shape: Shape,
    pub(crate) stroke: Option<i64>,
}

impl Model for Aperture {
    ghost use Rattle.apertures.specs.Figures.{Figure, IsFigure};

    ghost Value = { Figure };

    ghost view = { λ a. record { pieces = a.shape; stroke = a.stroke } };

    ghost invariant = { λ a. IsFigure (record { pieces = a.shape; stroke = a.stroke }) };
}

/// The diameter in nanometres of the strokes of a circle without a hole. No other aperture makes strokes.
pub fn stroke(a: &Aperture) -> Option<i64>
    ensures value { result ≡ a.now.stroke }
    ensures width { IfSome result IsWidth }
{
    a.stroke
}
