//! The drill list of a drill file: which tools drill it, and what each of them drills, once, in which order.
//! What the list is stands in specs/Tools, specs/Entries and specs/Plan, and in the words of the file in specs/Listed;
//! it may not change.
#![tactic(auto)]

mod entries;
mod laws;
mod plans;
mod tools;

pub use laws::{entries_law, few_diameters_law, limits_law, one_plan_law};
pub use plans::{DrillCounts, DrillPlan, ToolPlan, counts, plan};
pub use tools::tool_law;
