//! The plan that cuts a board out: along the walks round it, level by level, lifted over the bridges that hold
//! it. What of a job it goes by stands in specs/Job, the cuts in specs/Cuts, what their run must do in
//! specs/CutOut, and what is answered in specs/Answers. In which order walks come is mill_plan's.
#![tactic(auto)]

mod board;
mod cuts;
mod cutting;
mod errors;
mod plan;

pub use cutting::outline_cutting;
pub use errors::OutlinePlanError;
pub use plan::{OutlineCut, cut_out, levels_law, one_answer_law};
