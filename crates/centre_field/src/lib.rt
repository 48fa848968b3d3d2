//! How far each cell is from the kept cells, and which cells the centre of a tool may visit. How the
//! clearances are found may change, and where in the scratch numbers their work stands; the clause
//! `least` of the two programs is one, and may not.
#![tactic(auto)]

mod centres;
mod clearances;
mod columns;
mod gaps;
mod plain;
mod rows;

pub use centres::allowed;
pub use clearances::clearance;
pub use plain::plain_clearance;
