//! That one job and one image have one program, and one report of it. Laws alone, for who says that something of a
//! program, such as a refusal that its corners bring about, is determined: no file here defines what a program is.
#![tactic(auto)]

mod laws;

pub use laws::{one_outline_law, one_outline_report_law, one_side_law, one_side_report_law};
