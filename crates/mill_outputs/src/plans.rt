// What is planned, and what is written of it.
use drill_plan::DrillPlan;
use mill_plan::Isolation;
use mill_program::Program;
use outline_plan::OutlineCut;

/// The isolation of each side that is milled, the drill list of the drill file, and what cuts the board out along its
/// outline.
#[derive(Drop)]
pub struct Plans {
    pub front: Option<Isolation>,
    pub back: Option<Isolation>,
    pub drill: Option<DrillPlan>,
    pub outline: Option<OutlineCut>,
}

/// The programs as they are written, as far as they are planned.
#[derive(Drop)]
pub struct Programs {
    pub front: Option<Program>,
    pub back: Option<Program>,
    pub drill: Option<Program>,
    pub outline: Option<Program>,
}
