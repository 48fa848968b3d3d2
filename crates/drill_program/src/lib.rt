//! The program that drills a drill list: a tool run for each tool, numbered from 1 by ascending diameter, with a cut
//! for each hole and each slot. The whole program stands in specs/Program, what its run drills, in the words of the
//! drill file, in specs/Holes, and what it drills in tiles in specs/Tiled; none of them may change.
#![tactic(auto)]

mod program;

pub use program::{drill_program, holes_law, tiled_holes_law};
