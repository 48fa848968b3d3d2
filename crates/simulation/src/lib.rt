//! The command `simulate`: it reads a program by whomever it was made, and the answers of its probe, runs it by the
//! written meaning of RS-274 and shows each move to watchers (specs/Simulated). Nothing is written. What watchers keep
//! watch over is known to their own crate, and the lines are put to the sink by the top call.
#![tactic(auto)]

mod answers;
mod command;
mod patrolled;
mod report;
mod sources;
mod words;

pub use answers::{answers_law, read_probes};
pub use command::simulate;
pub use report::Simulation;
pub use sources::{Sources, read_answers, read_lines, read_sources};
pub use words::{Names, file_at, read_words};
