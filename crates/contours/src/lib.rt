//! The contour of the cells that a cutter may visit: which of them have a neighbour that it may not; and
//! which of them lie on the clearing rows of a box. How the cells are gone over, and what is read again,
//! may change; the words of specs/Contour, and what `contour` and `rows` leave as it was, may not.
#![tactic(auto)]

mod cells;
mod cleared;
mod quiet;
mod traced;

pub use cleared::rows;
pub use traced::contour;
