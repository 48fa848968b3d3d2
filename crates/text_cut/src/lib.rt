//! Cutting texts: what stands behind a start, round the first such byte, behind leading digits, the lines, and a
//! text without the spaces at its ends. It stands under all readers and knows the grammar of none; what one of them
//! alone needs stays there. A cut copies nothing.
#![tactic(auto)]

mod digits;
mod lines;
mod spaces;
mod split;

pub use digits::split_digits;
pub use lines::{lines_law, next_line};
pub use spaces::trimmed;
pub use split::{after, position_of, split_once};
