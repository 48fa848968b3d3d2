// Why a file has no image.
use macro_eval::MacroFault;
use thiserror::Error;

/// Why a Gerber file has no image. The kinds stand in the order in which a command is checked.
#[derive(Clone, Copy, Debug, PartialEq, Eq, Error)]
pub enum GerberKind {
    /// No command, or one that may not stand here.
    #[error("no command, or one that may not stand here")]
    Syntax,
    /// A command that is left out, an aperture with a rectangular hole, a stroke with an aperture that makes
    /// none, or an arc where arcs may not be longer than a quarter.
    #[error("a command that is left out")]
    Unsupported,
    /// A coordinate before the format.
    #[error("a coordinate before the format")]
    NoFormat,
    /// A length before the unit.
    #[error("a length before the unit")]
    NoUnit,
    /// An aperture that isn't defined, or none selected.
    #[error("no such aperture, or none selected")]
    NoAperture,
    /// In a region a command that it may not hold.
    #[error("a command that a region may not hold")]
    OpenRegion,
    /// The end with an open repeat.
    #[error("the end with an open repeat")]
    OpenRepeat,
    /// An arc whose ends aren't equally far from its centre.
    #[error("an arc whose ends aren't equally far from its centre")]
    OpenArc,
    /// A macro that can't be read or, for the arguments of an aperture, not be evaluated.
    #[error("a macro with {0}")]
    Macro(MacroFault),
    /// A point past 500,000,000 nm, or a size past 1,000,000,000 nm.
    #[error("a point or a size past the range")]
    OutOfRange,
    /// More than 2^20 objects.
    #[error("more than 1048576 objects")]
    TooManyObjects,
    /// More than 2^22 vertices of areas.
    #[error("more than 4194304 vertices")]
    TooManyVertices,
    /// The bytes end before the command that ends a file.
    #[error("the file ends too early")]
    NoEnd,
    /// The memory doesn't suffice.
    #[error("out of memory")]
    Memory,
}

/// Why a Gerber file has no image, and where.
#[derive(Clone, Copy, Debug, PartialEq, Eq, Error)]
#[error("{kind} at {at}")]
pub struct GerberError {
    /// The first check that fails.
    pub kind: GerberKind,
    /// The offset of the first byte of the refused command, from 0; of NoEnd the number of bytes.
    pub at: usize,
}
