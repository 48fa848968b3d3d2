//! The bottom of everything: places, cells and moves, lists, and the shelf and sink that a command
//! works on, with the definitions that all crates above share (specs/). Nothing here knows a file
//! format. A change here is checked again in every crate, so only what several of them need is added.
#![tactic(auto)]

mod items;
mod lattice;
mod memory;
mod memory_sink;
mod name;
mod places;
mod shelf;
mod sink;
mod steady;

pub use items::Items;
pub use lattice::{centre, first_at, half_diagonal, last_at};
pub use memory::MemoryShelf;
pub use memory_sink::{MemorySink, SteadySink};
pub use name::Name;
pub use places::{Bounds, Cell, CellBox, Move, MoveKind, Point, Pos, Role, Side, is_coordinate};
pub use shelf::{Shelf, ShelfError};
pub use sink::{Sink, SinkError};
pub use steady::SteadyShelf;
