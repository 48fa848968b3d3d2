// Holes and slots, and why a file has none.
use board_base::{Items, Point};
use thiserror::Error;

/// A hole. Lengths are in nanometres.
#[derive(Clone, Copy, Debug, PartialEq, Eq)]
pub struct Hole {
    /// From 1 to 20,000,000.
    pub diameter: i64,
    /// Its centre.
    pub at: Point,
}

/// A slot from a point to another, or to the same one. Lengths are in nanometres.
#[derive(Clone, Copy, Debug, PartialEq, Eq)]
pub struct Slot {
    /// From 1 to 20,000,000.
    pub diameter: i64,
    /// Where it begins.
    pub from: Point,
    /// Where it ends.
    pub to: Point,
}

/// What a drill file drills, in its order.
#[derive(Drop)]
pub struct DrillFile {
    /// The holes, in the order of the file.
    pub holes: Items<Hole>,
    /// The slots, in the order of the file.
    pub slots: Items<Slot>,
}

/// Why a drill file drills nothing. The kinds stand in the order in which a line is checked.
#[derive(Clone, Copy, Debug, PartialEq, Eq, Error)]
pub enum DrillKind {
    /// No line of such a file, or one that may not stand here.
    #[error("no line, or one that may not stand here")]
    Syntax,
    /// A repeat, an arc, steps in place of coordinates.
    #[error("a line that is left out")]
    Unsupported,
    /// A coordinate or a tool before any unit.
    #[error("a length before the unit")]
    NoUnit,
    /// A hole or a slot with no tool, or one that isn't defined.
    #[error("no such tool, or none selected")]
    NoTool,
    /// A hole or a slot with a tool that has no diameter, or 0.
    #[error("a tool without a diameter")]
    NoDiameter,
    /// A point past 500,000,000 nm, or a diameter past 20,000,000 nm.
    #[error("a point or a diameter past the range")]
    OutOfRange,
    /// More than 10,000 holes and slots.
    #[error("more than 10000 holes and slots")]
    TooMany,
    /// The lines end before the one that ends a file.
    #[error("the file ends too early")]
    NoEnd,
    /// The memory doesn't suffice.
    #[error("out of memory")]
    Memory,
}

/// Why a drill file drills nothing, and where.
#[derive(Clone, Copy, Debug, PartialEq, Eq, Error)]
#[error("{kind} at {at}")]
pub struct DrillError {
    /// The first check that fails.
    pub kind: DrillKind,
    /// The offset of the first byte of the refused line, from 0; of NoEnd the number of bytes.
    pub at: usize,
}
