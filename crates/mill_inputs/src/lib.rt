//! What `mill` reads before it makes anything: its words, the job, the layers and the drill file that the job names;
//! and in which order it refuses them (specs/Accepted). A further input is a line in each of specs/Accepted's lists, and
//! a field of `Inputs` and of `Accepted`. Nothing is planned or written here.
#![tactic(auto)]

mod acceptance;
mod contents;
mod inputs;
mod words;

pub use acceptance::{Accepted, accept, job_refusal, usage};
pub use contents::read_image;
pub use inputs::read_job_text;
pub use words::{read_place, read_rest, read_words};
