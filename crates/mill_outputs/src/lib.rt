//! What `mill` makes of what it accepted: the plan of each side, of the holes and of the outline, their programs, and the
//! report; and what Done means (specs/Headline). A further output is a plan (specs/Planned), an entry of `files_of` (specs/Mill)
//! and its lines of the report. Nothing is read or written here.
#![tactic(auto)]

mod drill_report;
mod laws;
mod make;
mod outline_report;
mod planned;
mod plans;
mod programs;
mod report;

pub use laws::{headline_law, one_of_each_law};
pub use make::make_files;
pub use planned::make_plans;
pub use plans::{Plans, Programs};
pub use programs::make_programs;
