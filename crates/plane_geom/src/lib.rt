//! Which points and cells are near a segment, in whole nanometres, and the law of a step. The
//! definition of near stands in board_base (specs/Near), and no file here may repeat it;
//! proofs/Segment, proofs/NearLaws and proofs/Axis are for the crates above.
#![tactic(auto)]

ghost use Rattle.plane_geom.specs.NearStep.{NearStep};

mod cells;
mod nearness;

pub use cells::reach;
pub use nearness::near;

/// A step of at most `h` takes a point near with `d` to one near with `d + 2 h`.
pub fn near_step_law()
    ensures { NearStep }
{}
