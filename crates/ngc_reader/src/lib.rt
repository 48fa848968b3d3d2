//! Reads programs in RS-274 from bytes. What bytes stand for, and what stops their reading, is defined in
//! rs274_sim (specs/Text and specs/Reading); here is only the code that finds it.
#![tactic(auto)]

mod error;
mod front;
mod lines;
mod numbers;
mod pieces;
mod program;
mod values;

pub use error::{NgcError, NgcKind};
pub use program::read_program;
