//! The holes and slots of a drill file: what its lines say, what is in force at each one, and what they drill.
//! A further line is a row of specs/Header or specs/Body, a setter of specs/InForce and a check of specs/Checks;
//! that the kept state is what the last setters have set (specs/State) may not change.
#![tactic(auto)]

mod acts;
mod body;
mod file;
mod header;
mod line;
mod numbers;
mod numerals;
mod reader;
mod state;
mod words;

pub use file::{DrillError, DrillFile, DrillKind, Hole, Slot};
pub use reader::{keeps_pace, memory_law, read_drill, stays_set};
