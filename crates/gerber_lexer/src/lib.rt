//! The commands of a Gerber file: where each one stands in the bytes, in a block of percent signs or as
//! a word, and where the bytes can't be cut. What a command says is no matter of this crate; a further
//! kind of block changes specs/Cut, and what ends a command may not change without it.
#![tactic(auto)]

mod lexer;

pub use lexer::{LexError, Span, blocks_hold, commands_tile, commands_within, next_command};
