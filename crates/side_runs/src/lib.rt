//! What the run of a side's program does, of one board and of several in tiles: the program is one of those that a
//! check accepts, and in tiles each copy of the board is milled as the board alone would be. All of it is laws over
//! definitions of the crates below: no code belongs here, and nothing about how a program is made or written.
#![tactic(auto)]

mod laws;

pub use laws::{
    alone_law, apart_law, own_check_law, own_moves_law, own_side_law, side_tests_law,
    tile_stretches_law, tiled_side_law, tiled_strokes_law, tiled_value_law,
};
