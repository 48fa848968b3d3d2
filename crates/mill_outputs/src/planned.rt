// The plans of what was accepted.
ghost use Rattle.std.specs.Prelude.{◌≡◌, true, is_some, None, Ok, IfOk, IfSome, MatchResult};
ghost use Rattle.std.specs.Option.{option_map};
ghost use Rattle.excellon.specs.Fits.{IsDrilled};
ghost use Rattle.drill_plan.specs.Plan.{IsDrillPlan};
ghost use Rattle.job_file.specs.Ranges.{IsInRanges};
ghost use Rattle.job_file.specs.Together.{GoTogether};
ghost use Rattle.mill_plan.specs.Job.{IsSideJob};
ghost use Rattle.outline_plan.specs.Job.{IsOutlineJob};
ghost use Rattle.mill_inputs.specs.Accepted.{accepts_of, IsNamed};
ghost use Rattle.mill_outputs.specs.Planned.{IsSidePlan, IsSide, IfGiven, IsDrill, outline_refused, IsOutline, ArePlanned, IsOneRefusal};

use crate::Plans;
use drill_plan::{DrillPlan, plan};
use endings::Status;
use excellon::DrillFile;
use job_file::Job;
use mill_inputs::Accepted;
use mill_plan::{Isolation, PlanError, isolate};
use outline_plan::{OutlineCut, OutlinePlanError, cut_out};
use shape_parts::Painted;
use std::alloc::{AllocError, Global};

// The plan of a side.
fn plan_side(alloc: Global, painted: &Vec<Painted>, job: &Job) -> Result<Isolation, Status>
    requires { IsSideJob job.now }
    ensures { MatchResult result (IsSidePlan job.now painted.now.items) (IsOneRefusal (IsSide job.now painted.now.items)) }
{
    match isolate(alloc, painted, job) {
        Ok(plan) => Ok(plan),
        Err(PlanError::Limit(hit)) => Err(Status::Limit(hit)),
        Err(PlanError::Memory) => Err(Status::Memory),
    }
}

// The plan of a side that has an image.
fn plan_side_if(
    alloc: Global,
    painted: &Option<Vec<Painted>>,
    job: &Job,
) -> Result<Option<Isolation>, Status>
    requires { is_some painted.now ≡ true → IsSideJob job.now }
    ensures { MatchResult result
        (λ plan. IfGiven (option_map (λ v. v.items) painted.now) (IsSide job.now) (Ok plan))
        (IsOneRefusal (IfGiven (option_map (λ v. v.items) painted.now) (IsSide job.now))) }
{
    match painted {
        None => Ok(None),
        Some(painted) => match plan_side(alloc, painted, job) {
            Ok(plan) => Ok(Some(plan)),
            Err(status) => Err(status),
        },
    }
}

// The drill list of a file.
fn plan_drill(alloc: Global, file: &DrillFile, job: &Job) -> Result<DrillPlan, AllocError>
    requires { IsDrilled file.now }
    ensures { IfOk result (IsDrillPlan file.now (job.now).drills_available) }
{
    plan(alloc, file, job.drills_available.inner())
}

// The drill list where there is a file.
fn plan_drill_if(
    alloc: Global,
    file: &Option<DrillFile>,
    job: &Job,
) -> Result<Option<DrillPlan>, AllocError>
    requires { IfSome file.now IsDrilled }
    ensures { IfOk result (λ plan. IfGiven file.now (IsDrill job.now) (Ok plan)) }
{
    match file {
        None => Ok(None),
        Some(file) => Ok(Some(plan_drill(alloc, file, job)?)),
    }
}

// What a refusal of the outline is to the command.
fn outline_refusal(error: OutlinePlanError) -> Status
    ensures { result ≡ outline_refused error }
{
    match error {
        OutlinePlanError::Outline(error) => Status::Outline(error),
        OutlinePlanError::Limit(hit) => Status::Limit(hit),
        OutlinePlanError::Memory => Status::Memory,
    }
}

// The plan that cuts the board out.
fn plan_outline(alloc: Global, painted: &Vec<Painted>, job: &Job) -> Result<OutlineCut, Status>
    requires { IsOutlineJob job.now }
    ensures { MatchResult result
        (λ plan. IsOutline job.now painted.now.items (Ok plan)) (IsOneRefusal (IsOutline job.now painted.now.items)) }
{
    match cut_out(alloc, painted, job) {
        Ok(plan) => Ok(plan),
        Err(error) => Err(outline_refusal(error)),
    }
}

// The plan that cuts the board out where there is an outline.
fn plan_outline_if(
    alloc: Global,
    painted: &Option<Vec<Painted>>,
    job: &Job,
) -> Result<Option<OutlineCut>, Status>
    requires { is_some painted.now ≡ true → IsOutlineJob job.now }
    ensures { MatchResult result
        (λ plan. IfGiven (option_map (λ v. v.items) painted.now) (IsOutline job.now) (Ok plan))
        (IsOneRefusal (IfGiven (option_map (λ v. v.items) painted.now) (IsOutline job.now))) }
{
    match painted {
        None => Ok(None),
        Some(painted) => match plan_outline(alloc, painted, job) {
            Ok(plan) => Ok(Some(plan)),
            Err(status) => Err(status),
        },
    }
}

/// The plans of what was accepted: of the front, of the back, of the holes, of the outline.
///
/// # Errors
///
/// `Limit` where a side passes a limit, then `Outline` where the outline is open at an end or has no loop, then `Limit`
/// where it passes a limit, and `Memory`.
pub fn make_plans(alloc: Global, accepted: &Accepted) -> Result<Plans, Status>
    requires named { IsNamed (accepts_of accepted.now) }
    requires ranges { IsInRanges (accepted.now).job }
    requires together { GoTogether None (accepted.now).job }
    requires drilled { IfSome (accepted.now).drill IsDrilled }
    ensures { MatchResult result
        (λ plans. ArePlanned (accepts_of accepted.now) (Ok plans))
        (IsOneRefusal (ArePlanned (accepts_of accepted.now))) }
{
    let front = match plan_side_if(alloc, &accepted.front, &accepted.job) {
        Ok(front) => front,
        Err(status) => return Err(status),
    };
    let back = match plan_side_if(alloc, &accepted.back, &accepted.job) {
        Ok(back) => back,
        Err(status) => return Err(status),
    };
    let drill = match plan_drill_if(alloc, &accepted.drill, &accepted.job) {
        Ok(drill) => drill,
        Err(_) => return Err(Status::Memory),
    };
    match plan_outline_if(alloc, &accepted.outline, &accepted.job) {
        Ok(outline) => Ok(Plans {
            front,
            back,
            drill,
            outline,
        }),
        Err(status) => Err(status),
    }
}
