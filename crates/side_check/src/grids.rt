// The grid of probes over a side, and whether there are answers enough.
ghost use Rattle.std.specs.Prelude.{◌≡◌, ◌≤◌, ◌*◌, length, Ok, Err, IfOk, IfSome, IsTrue, ◌↔◌, MatchResult};
ghost use Rattle.board_base.specs.declared.places.Side.TheVariants as sides;
ghost use Rattle.mill_program.specs.Probes.{surface};
ghost use Rattle.levelling.specs.Grids.{IsInReach};
ghost use Rattle.mill_plan.specs.Job.{IsSideJob};
ghost use Rattle.side_check.specs.Found.{grid_over_side, surface_or_missing};
ghost use Rattle.side_check.specs.Surfaces.{IsProbed};

use crate::SideFault;
use board_base::Side;
use cell_grid::Frame;
use job_file::Job;
use levelling::probe_grid;
use mill_plan::LimitHit;
use mill_program::ProbeGrid;

// The grid over the frame of the front.
fn front_grid(frame: Frame, job: &Job) -> Result<Option<ProbeGrid>, SideFault>
    requires job { IsSideJob job.now }
    requires frame { IsInReach frame }
    ensures value { result ≡ grid_over_side sides.Front job.now frame }
    ensures probed { IfOk result (λ grid. IfSome grid IsProbed) }
{
    if !job.al_front {
        return Ok(None);
    }
    match probe_grid(frame, job.al_x, job.al_y, job.al_range, job.al_probefeed) {
        Ok(grid) => Ok(Some(grid)),
        Err(many) => Err(SideFault::Limit(LimitHit::Probes(many.count))),
    }
}

/// The grid over the frame of a side; there is none on the back, and none where the job doesn't level the front.
pub(crate) fn side_grid(frame: Frame, job: &Job, side: Side) -> Result<Option<ProbeGrid>, SideFault>
    requires job { IsSideJob job.now }
    requires frame { IsInReach frame }
    ensures value { result ≡ grid_over_side side job.now frame }
    ensures probed { IfOk result (λ grid. IfSome grid IsProbed) }
{
    match side {
        Side::Front => front_grid(frame, job),
        Side::Back => Ok(None),
    }
}

// Whether there is an answer for each probe.
fn has_enough(grid: &ProbeGrid, answers: &Vec<i64>) -> bool
    requires { IsProbed grid.now }
    ensures { IsTrue result ↔ (grid.now).nx * (grid.now).ny ≤ length (answers.now).items }
{
    (grid.nx * grid.ny) as usize <= answers.len()
}

/// Finds that there is an answer for each probe, or how many there are.
pub(crate) fn enough_answers(grid: &Option<ProbeGrid>, answers: &Vec<i64>) -> Result<(), SideFault>
    requires { IfSome grid.now IsProbed }
    ensures { MatchResult result
        (λ _. surface_or_missing grid.now (answers.now).items ≡ Ok (surface grid.now (answers.now).items))
        (λ e. surface_or_missing grid.now (answers.now).items ≡ Err e) }
{
    let Some(grid) = grid else {
        return Ok(());
    };
    if has_enough(grid, answers) {
        return Ok(());
    }
    Err(SideFault::NoProbeAnswer {
        count: answers.len() as u64,
    })
}
