//! The check of a program on a side of the board: which kept cells its low moves hit, which cells its deep moves mark,
//! and the groups of islands that are left joined (specs/Found). What cells, cuttings and moves are, and the laws that
//! make a check sound, stand in the crates below; words, files and statuses are matters of the crates above.
#![tactic(auto)]

mod fault;
mod grids;
mod heights;
mod hits;
mod marks;
mod runs;
mod side;
mod widths;

pub use fault::SideFault;
pub use side::check_side;
