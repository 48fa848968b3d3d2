//! The classes of cells under chains of neighbours, corners too, numbered in the working labels of a
//! grid; and the islands of kept cells, numbered in its labels. How they are found may change: which
//! cells have which number (cell_sets), that more than 65,535 islands are refused, that no call takes
//! memory, and which parts of the grid a call changes, may not.
#![tactic(auto)]

mod classes;
mod counts;
mod forests;
mod joins;
mod labels;
mod ways;

pub use classes::{number_classes, number_rest};
pub use labels::{TooManyIslands, label};
pub use ways::neighbour;
