//! How far the tiles of a board stand apart: as far as the widest of its frames, and far enough for its holes. A
//! further layer that is milled in tiles is a further frame of `Frames`. Where the tiles are used isn't known here.
#![tactic(auto)]

mod drilled;
mod steps;

pub use drilled::drilled_box;
pub use steps::{Frames, TileStep, tile_step};
