//! The job: what a command is asked to make, of which files, with which cutters and speeds. A further key is a row of
//! the table (src/keys.rt, specs/Keys), a field of `Job`, and its value in src/build.rt and specs/Job.
#![tactic(auto)]

mod build;
mod checks;
mod error;
mod given;
mod job;
mod keys;
mod number;
mod reader;
mod sheet;
mod value;

pub use error::{JobError, JobKind};
pub use job::Job;
pub use reader::read_job;
