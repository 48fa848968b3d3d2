//! Which cells of the lattice painted objects keep, one or all of a frame, and the rectangle round what is
//! dark. One cell is named by its centre and half its diagonal, so that finer lattices may use the same
//! rule. `cover` works by rows of bits (specs/Rows), `plain_cover` cell by cell, under one contract. The
//! words of specs/Kept are cited by every crate that cuts copper; proofs/KeptLaws is for those.
#![tactic(auto)]

ghost use Rattle.copper_cover.specs.Kept.{KeptLaw};

mod cells;
mod columns;
mod objects;
mod rows;
mod runs;
mod segments;
mod sweeps;

pub use cells::plain_cover;
pub use objects::{dark_rectangle, is_kept};
pub use sweeps::cover;

/// A kept cell has its centre in the dark rectangle, grown by half its diagonal.
pub fn kept_law()
    ensures { KeptLaw }
{}
