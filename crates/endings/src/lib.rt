//! How a command ends, for every command alike: its status and the line of it, what it reads and writes by a shelf
//! and tells a sink, and what a run leaves, tells and answers (specs/Run), over the endings that a command may have.
//! A further status is a variant, its number and its line; what a command reads and makes stands in the crates above.
#![tactic(auto)]

mod delivery;
mod inputs;
mod lines;
mod out_file;
mod status;
mod telling;
mod words;

pub use board_base::{Role, Shelf, Sink};
pub use delivery::deliver;
pub use excellon::{DrillError, DrillKind};
pub use gerber_image::{GerberError, GerberKind};
pub use inputs::{MOST_BYTES, read_input};
pub use job_file::{JobError, JobKind};
pub use mill_plan::LimitHit;
pub use ngc_reader::NgcKind;
pub use out_file::OutFile;
pub use outline_loops::OutlineError;
pub use rs274_sim::SimFault;
pub use status::{NgcOrSim, Status};
pub use telling::{tell, tell_lines};
pub use words::{begins_with, is_dashed, is_file_word, text_at};
