//! Boards that were worked out by hand, and commands that are carried out on shelves and sinks in memory: what the test
//! crates share. No program stands on it.
#![tactic(auto)]

mod boards;
mod commands;
mod programs;

pub use boards::{
    CONTOUR_THROUGH_A_CORNER, HOLE_WITH_A_LONE_PAD, JOINED_REGIONS, NEAR_DISCS, ONE_DISC, POINT,
    SEPARATED_REGIONS, TRACK, TWO_DISCS,
};
pub use commands::{
    WORDS, carried_out, shelf_with, two_discs, watched, watched_with_a_put_that_fails,
    with_a_put_that_fails,
};
pub use programs::{CUTS_OF_TWO_DISCS, FINE, FOOT, HEAD, USUAL};
