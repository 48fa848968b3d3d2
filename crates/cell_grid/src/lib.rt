//! The packed grid of cells: a frame of the lattice, its planes of bits, its tables of numbers, one
//! queue and some rows of bits, over memory that is taken once. The layout of the memory may change:
//! contracts see lists in the order of rows (specs/Grid). What a call changes, and that nothing else
//! changes, may not. Loops that fill, count, list or copy whole planes and tables stand here.
#![tactic(auto)]

mod bits;
mod boxes;
mod frames;
mod queues;
mod rows;
mod tables;
mod windows;

pub use bits::Plane;
pub use boxes::{cells_within, frame_of};
pub use frames::{Frame, GridError, cell_at, is_in_frame, place_at};
pub use rows::RowBits;
pub use tables::Workbench;
pub use windows::{Span, Window, span_of, window_of};
