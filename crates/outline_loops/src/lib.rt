//! The outline of a board as closed loops. What its segments are stands in specs/Segments, what the board
//! and its refusals are in specs/Board and specs/Answers; the numbers by which segments are sorted
//! (specs/Ways) are this crate's own.
#![tactic(auto)]

mod areas;
mod ends;
mod laws;
mod outline;
mod refusals;
mod tracing;
mod ways;

pub use laws::{one_answer_law, one_board_law};
pub use outline::loops;
pub use refusals::OutlineError;
