//! The image of a Gerber file: what is in force at each of its commands, and the objects that they paint, dark or
//! clear: flashes, strokes along lines and arcs, and regions with contours of lines and arcs. A further command of
//! gerber_words is a setter of specs/InForce and a check of specs/Checks; that the kept state is what the last
//! setters have set (specs/State) may not change.
#![tactic(auto)]

mod block;
mod contour;
mod definitions;
mod draws;
mod numbers;
mod objects;
mod operate;
mod reader;
mod refusal;
mod regions;
mod repeat;
mod settings;
mod state;

pub use reader::{keeps_pace, one_outcome, read_image, some_outcome, stays_set};
pub use refusal::{GerberError, GerberKind};
