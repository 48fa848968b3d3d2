//! Watchers over the moves of a program: what they are asked to keep, the four kinds that there are, and
//! the patrol that shows them each move and takes out those that objected. Where the moves come from isn't
//! known here. A further kind is a type that implements `Watcher`; a further bound is a variant of `Limits`
//! and a line of specs/Bounds.
#![tactic(auto)]

mod bounds;
mod finding;
mod kinds;
mod laws;
mod patrol;
mod posts;
mod viewer;
mod watcher;

pub use bounds::{Limits, breaks};
pub use finding::{Finding, Findings};
pub use kinds::{DepthFloor, FeedCap, ToolList, TravelBox};
pub use laws::findings_law;
pub use patrol::Patrol;
pub use viewer::Viewer;
pub use watcher::Watcher;
