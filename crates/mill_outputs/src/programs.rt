// The programs over the surface that is probed, and in the tiles of the job.
ghost use Rattle.std.specs.Prelude.{◌≡◌, ◌⊎◌, ◌≤◌, ◌*◌, ◌*ℤ◌, ◌≤ℤ◌, pos, unsigned_abs, Ok, Err, IfOk, IfSome, MatchResult};
ghost use Rattle.std.specs.Option.{option_map};
ghost use Rattle.board_base.specs.Lattice.{IsPitch};
ghost use Rattle.drill_plan.specs.Limits.{IsWithinLimits};
ghost use Rattle.drill_program.specs.Program.{program_of};
ghost use Rattle.job_file.specs.Ranges.{IsInRanges};
ghost use Rattle.mill_program.specs.declared.cuts.Program.{Program};
ghost use Rattle.mill_plan.specs.declared.isolation.Isolation.{Isolation};
ghost use Rattle.outline_plan.specs.declared.plan.OutlineCut.{OutlineCut};
ghost use Rattle.mill_program.specs.Probes.{IsGrid};
ghost use Rattle.levelling.specs.Pieces.{IsLatticeProgram, levelled};
ghost use Rattle.side_levels.specs.Probed.{MayBeProbed};
ghost use Rattle.tiling.specs.Tiles.{IsShort};
ghost use Rattle.tiling.specs.declared.TileError.TheVariants as TileErrors;
ghost use Rattle.tile_steps.specs.Steps.{AreNarrow, IsShortStep};
ghost use Rattle.endings.specs.declared.status.Status.{Status};
ghost use Rattle.endings.specs.declared.status.Status.TheVariants as Statuses;
ghost use Rattle.mill_outputs.specs.Written.{frames_of, step_by, front_step as front_step_of, back_step as back_step_of, tile_refused as tile_refused_of, front_grid as front_grid_of, levelled_if, in_tiles as in_tiles_of, in_tiles_if, plain_of, all_in_tiles, HasTiles};

use crate::{Plans, Programs};
use board_base::Point;
use drill_plan::DrillPlan;
use drill_program::drill_program;
use endings::Status;
use job_file::Job;
use levelling::{level, probe_grid};
use mill_plan::{Isolation, LimitHit};
use mill_program::{ProbeGrid, Program};
use outline_plan::OutlineCut;
use std::alloc::Global;
use tile_steps::{Frames, TileStep, tile_step};
use tiling::{TileError, tile};

// So many cells, in nanometres.
fn way(cells: u32, pitch: i64) -> i64
    requires pitch { IsPitch pitch }
    requires short { cells * unsigned_abs pitch ≤ 1100000000 }
    ensures value { result ≡ pos cells *ℤ pitch }
    ensures size { unsigned_abs result ≤ 1100000000 }
{
    cells as i64 * pitch
}

// The step from tile to tile where the board is seen from the front.
fn front_step(job: &Job, step: TileStep) -> Point
    requires pitch { IsPitch (job.now).pitch }
    requires step { IsShortStep (job.now).pitch step }
    ensures value { result ≡ front_step_of job.now step }
    ensures short { IsShort result }
{
    Point {
        x: way(step.east, job.pitch),
        y: way(step.north, job.pitch),
    }
}

// And where it is seen from the back.
fn back_step(job: &Job, step: TileStep) -> Point
    requires pitch { IsPitch (job.now).pitch }
    requires step { IsShortStep (job.now).pitch step }
    ensures value { result ≡ back_step_of job.now step }
    ensures short { IsShort result }
{
    Point {
        x: -way(step.east, job.pitch),
        y: way(step.north, job.pitch),
    }
}

// The frames of what was planned.
fn frames(plans: &Plans) -> Frames
    ensures { result ≡ frames_of plans.now }
{
    Frames {
        front: plans.front.as_ref().map(|plan| plan.frame),
        back: plans.back.as_ref().map(|plan| plan.frame),
        outline: plans.outline.as_ref().map(|plan| plan.frame),
    }
}

// The grid over the frame of the front, where there is a front and the job levels it.
#[tactic(auto, unfolding(crate::specs::Written::front_grid))]
fn front_grid(job: &Job, plan: &Option<Isolation>) -> Result<Option<ProbeGrid>, Status>
    requires { IfSome plan.now (λ (p : Isolation). MayBeProbed job.now p.frame) }
    ensures value { result ≡ front_grid_of job.now (option_map (λ (p : Isolation). p.frame) plan.now) }
    ensures grid { IfOk result (λ grid. IfSome grid IsGrid) }
{
    let Some(plan) = plan else {
        return Ok(None);
    };
    if !job.al_front {
        return Ok(None);
    }
    match probe_grid(
        plan.frame,
        job.al_x,
        job.al_y,
        job.al_range,
        job.al_probefeed,
    ) {
        Ok(grid) => Ok(Some(grid)),
        Err(many) => Err(Status::Limit(LimitHit::Probes(many.count))),
    }
}

// What a refusal of tiles is to the command.
fn tile_refused(error: TileError) -> Status
    ensures { result ≡ tile_refused_of error }
{
    match error {
        TileError::OutOfRange { x, y } => Status::Limit(LimitHit::Tile { x, y }),
        TileError::Memory => Status::Memory,
    }
}

// A program in the tiles of the job.
#[tactic(auto, unfolding(crate::specs::Written::in_tiles))]
fn in_tiles(alloc: Global, job: &Job, by: Point, program: &Program) -> Result<Program, Status>
    requires tiles { HasTiles job.now }
    requires by { IsShort by }
    ensures { MatchResult result
        (λ q. in_tiles_of job.now by program.now ≡ Ok q)
        (λ status. (status ≡ Statuses.Memory) ⊎ (in_tiles_of job.now by program.now ≡ Err status)) }
{
    match tile(alloc, program, job.tile_x, job.tile_y, by) {
        Ok(program) => Ok(program),
        Err(error) => Err(tile_refused(error)),
    }
}

// The program of a side in the tiles of the job, where the side was planned.
fn side_in_tiles(
    alloc: Global,
    job: &Job,
    by: Point,
    plan: &Option<Isolation>,
) -> Result<Option<Program>, Status>
    requires tiles { HasTiles job.now }
    requires by { IsShort by }
    ensures { MatchResult result
        (λ q. in_tiles_if job.now by (option_map (λ (p : Isolation). p.program) plan.now) ≡ Ok q)
        (λ status. (status ≡ Statuses.Memory) ⊎ (in_tiles_if job.now by (option_map (λ (p : Isolation). p.program) plan.now) ≡ Err status)) }
{
    match plan {
        None => Ok(None),
        Some(plan) => match in_tiles(alloc, job, by, &plan.program) {
            Ok(program) => Ok(Some(program)),
            Err(status) => Err(status),
        },
    }
}

// A program over a grid in the tiles of the job.
fn levelled_in_tiles(
    alloc: Global,
    job: &Job,
    by: Point,
    grid: ProbeGrid,
    program: &Program,
) -> Result<Program, Status>
    requires pitch { IsPitch (job.now).pitch }
    requires tiles { HasTiles job.now }
    requires by { IsShort by }
    requires grid { IsGrid grid }
    requires lattice { IsLatticeProgram (job.now).pitch program.now }
    ensures { MatchResult result
        (λ q. in_tiles_of job.now by (levelled grid (job.now).pitch program.now) ≡ Ok q)
        (λ status. (status ≡ Statuses.Memory) ⊎ (in_tiles_of job.now by (levelled grid (job.now).pitch program.now) ≡ Err status)) }
{
    match level(alloc, program, grid, job.pitch) {
        Ok(program) => in_tiles(alloc, job, by, &program),
        Err(_) => Err(Status::Memory),
    }
}

// The program of the front in the tiles of the job, over its grid, if any, where the front was planned.
fn front_in_tiles(
    alloc: Global,
    job: &Job,
    by: Point,
    grid: Option<ProbeGrid>,
    plan: &Option<Isolation>,
) -> Result<Option<Program>, Status>
    requires pitch { IsPitch (job.now).pitch }
    requires tiles { HasTiles job.now }
    requires by { IsShort by }
    requires grid { IfSome grid IsGrid }
    requires lattice { IfSome plan.now (λ (p : Isolation). IsLatticeProgram (job.now).pitch p.program) }
    ensures { MatchResult result
        (λ q. in_tiles_if job.now by (option_map (levelled_if grid (job.now).pitch) (option_map (λ (p : Isolation). p.program) plan.now)) ≡ Ok q)
        (λ status. (status ≡ Statuses.Memory) ⊎ (in_tiles_if job.now by (option_map (levelled_if grid (job.now).pitch) (option_map (λ (p : Isolation). p.program) plan.now)) ≡ Err status)) }
{
    let Some(grid) = grid else {
        return side_in_tiles(alloc, job, by, plan);
    };
    match plan {
        None => Ok(None),
        Some(plan) => match levelled_in_tiles(alloc, job, by, grid, &plan.program) {
            Ok(program) => Ok(Some(program)),
            Err(status) => Err(status),
        },
    }
}

// The program of the holes in the tiles of the job, where there is a drill list.
fn holes_in_tiles(
    alloc: Global,
    job: &Job,
    by: Point,
    plan: &Option<DrillPlan>,
) -> Result<Option<Program>, Status>
    requires ranges { IsInRanges job.now }
    requires change { (job.now).zsafe ≤ℤ (job.now).zchange }
    requires tiles { HasTiles job.now }
    requires by { IsShort by }
    requires limits { IfSome plan.now IsWithinLimits }
    ensures { MatchResult result
        (λ q. in_tiles_if job.now by (option_map (program_of job.now) plan.now) ≡ Ok q)
        (λ status. (status ≡ Statuses.Memory) ⊎ (in_tiles_if job.now by (option_map (program_of job.now) plan.now) ≡ Err status)) }
{
    let plan = match plan {
        None => return Ok(None),
        Some(plan) => plan,
    };
    let program = match drill_program(alloc, plan, job) {
        Ok(program) => program,
        Err(_) => return Err(Status::Memory),
    };
    match in_tiles(alloc, job, by, &program) {
        Ok(program) => Ok(Some(program)),
        Err(status) => Err(status),
    }
}

// The program of the outline in the tiles of the job, where there is one.
fn outline_in_tiles(
    alloc: Global,
    job: &Job,
    by: Point,
    plan: &Option<OutlineCut>,
) -> Result<Option<Program>, Status>
    requires tiles { HasTiles job.now }
    requires by { IsShort by }
    ensures { MatchResult result
        (λ q. in_tiles_if job.now by (option_map (λ (p : OutlineCut). p.program) plan.now) ≡ Ok q)
        (λ status. (status ≡ Statuses.Memory) ⊎ (in_tiles_if job.now by (option_map (λ (p : OutlineCut). p.program) plan.now) ≡ Err status)) }
{
    match plan {
        None => Ok(None),
        Some(plan) => match in_tiles(alloc, job, by, &plan.program) {
            Ok(program) => Ok(Some(program)),
            Err(status) => Err(status),
        },
    }
}

/// The programs of what was planned, that of the front over the surface that is probed where the job levels it, and each
/// in the tiles of the job.
///
/// # Errors
///
/// `Limit` where there would be more than 900 probes, then where a corner of a program would be more than 500 mm from an
/// axis: the first such corner, of the front's program before the back's, then of the holes' and of the outline's. And
/// `Memory`.
#[tactic(auto, unfolding(crate::specs::Written::all_in_tiles))]
pub fn make_programs(alloc: Global, job: &Job, plans: &Plans) -> Result<Programs, Status>
    requires ranges { IsInRanges job.now }
    requires change { (job.now).zsafe ≤ℤ (job.now).zchange }
    requires tiles { HasTiles job.now }
    requires pitch { IsPitch (job.now).pitch }
    requires frames { AreNarrow (job.now).pitch (frames_of plans.now) }
    requires probed { IfSome (plans.now).front (λ (p : Isolation). MayBeProbed job.now p.frame) }
    requires lattice { IfSome (plans.now).front (λ (p : Isolation). IsLatticeProgram (job.now).pitch p.program) }
    requires drill { IfSome (plans.now).drill IsWithinLimits }
    ensures { MatchResult result
        (λ programs. all_in_tiles job.now (plain_of job.now plans.now) ≡ Ok programs)
        (λ status. (status ≡ Statuses.Memory) ⊎ (all_in_tiles job.now (plain_of job.now plans.now) ≡ Err status)) }
{
    let grid = match front_grid(job, &plans.front) {
        Ok(grid) => grid,
        Err(status) => return Err(status),
    };
    let step = tile_step(job.pitch, frames(plans), &plans.drill);
    let rightward = front_step(job, step);
    let front = match front_in_tiles(alloc, job, rightward, grid, &plans.front) {
        Ok(front) => front,
        Err(status) => return Err(status),
    };
    let back = match side_in_tiles(alloc, job, back_step(job, step), &plans.back) {
        Ok(back) => back,
        Err(status) => return Err(status),
    };
    let drill = match holes_in_tiles(alloc, job, rightward, &plans.drill) {
        Ok(drill) => drill,
        Err(status) => return Err(status),
    };
    match outline_in_tiles(alloc, job, rightward, &plans.outline) {
        Ok(outline) => Ok(Programs {
            front,
            back,
            drill,
            outline,
        }),
        Err(status) => Err(status),
    }
}
