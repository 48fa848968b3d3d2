// The cutting of an outline, its levels and bridges.
ghost use Rattle.std.specs.Prelude.{◌≡◌, ◌≤◌, ℤ, pos, ◌*ℤ◌, ◌≤ℤ◌, int_lt, IfOk};
ghost use Rattle.std.specs.Int.{int_max};
ghost use Rattle.std.specs.List.{All};
ghost use Rattle.board_base.specs.Lattice.{IsPitch, IsHalfDiagonal, half_diagonal_of};
ghost use Rattle.board_base.specs.Places.{IsPlace, IsSpan};
ghost use Rattle.outline_bridges.specs.Chains.{IsChain};
ghost use Rattle.job_file.specs.Checks.{radius_of};
ghost use Rattle.mill_plan.specs.Cutting.{IsCutting};
ghost use Rattle.outline_plan.specs.Job.{IsOutlineJob, outline_cutting as outline_cutting_of, levels_count as levels_count_of, level_at, count_levels, IsDown, bridge_width as bridge_width_of, listed_bridges};

use board_base::{Point, half_diagonal};
use chain_walk::Chain;
use job_file::Job;
use mill_plan::Cutting;
use outline_bridges::place;
use std::alloc::{AllocError, Global};

// Half of the cutter's diameter.
#[tactic(auto, unfolding(job_file::specs::Checks::radius_of))]
fn radius(job: &Job) -> i64
    ensures { result ≡ radius_of job.now.cutter_diameter }
{
    job.cutter_diameter.div_euclid(2)
}

/// The cutting that a job gives its outline.
#[tactic(auto, unfolding(crate::specs::Job::outline_cutting))]
pub fn outline_cutting(job: &Job) -> Cutting
    requires { IsOutlineJob job.now }
    ensures value { result ≡ outline_cutting_of job.now }
    ensures cutting { IsCutting result }
{
    Cutting {
        pitch: job.pitch,
        radius: radius(job),
        tolerance: 0,
        step: 0,
        last: 0,
        stride: None,
    }
}

/// Half the diagonal of a cell is the least number that reaches its corners.
pub(crate) fn diagonal_law(job: &Job)
    requires { IsPitch job.now.pitch }
    ensures { IsHalfDiagonal job.now.pitch (half_diagonal_of job.now.pitch) }
{
    half_diagonal(job.pitch);
}

// As many infeeds as reach down to a depth.
#[tactic(auto, unfolding(crate::specs::Job::count_levels))]
fn levels_down(infeed: u64, depth: u64) -> u32
    requires some { 10000 ≤ infeed }
    requires infeed { infeed ≤ 50000000 }
    requires depth { depth ≤ 50000000 }
    ensures { result ≡ count_levels infeed depth }
{
    ((depth + infeed - 1) / infeed) as u32
}

/// How many levels there are.
pub(crate) fn levels_count(job: &Job) -> u32
    requires { IsOutlineJob job.now }
    ensures { result ≡ levels_count_of job.now }
{
    levels_down(job.cut_infeed.unsigned_abs(), job.zcut.unsigned_abs())
}

// So many infeeds.
fn infeeds(count: i64, infeed: i64) -> i64
    requires some { pos 0 ≤ℤ count }
    requires few { count ≤ℤ pos 4294967296 }
    requires low { pos 0 ≤ℤ infeed }
    requires high { infeed ≤ℤ pos 50000000 }
    ensures value { result ≡ count *ℤ infeed }
    ensures down { IsDown result }
{
    count * infeed
}

// The higher of two heights.
fn higher(a: i64, b: i64) -> i64
    ensures { result ≡ int_max a b }
{
    if b < a { a } else { b }
}

/// The height of level `k`, counted from 0.
#[tactic(auto, unfolding(crate::specs::Job::level_at))]
pub(crate) fn level(job: &Job, k: u32) -> i64
    requires { IsOutlineJob job.now }
    ensures { result ≡ level_at job.now k }
{
    higher(job.zcut, -infeeds(k as i64 + 1, job.cut_infeed))
}

/// Twice the distance from a bridge within which a cut is lifted.
#[tactic(auto, unfolding(crate::specs::Job::bridge_width))]
pub(crate) fn bridge_width(job: &Job) -> i64
    requires { IsOutlineJob job.now }
    ensures value { result ≡ bridge_width_of job.now }
    ensures span { IsSpan result }
{
    job.bridges + job.cutter_diameter
}

// Whether the job has bridges.
fn has_bridges(job: &Job) -> bool
    ensures { result ≡ int_lt (pos 0) job.now.bridges }
{
    0 < job.bridges
}

/// The bridges on walks, where the job has bridges.
pub(crate) fn bridges(
    alloc: Global,
    walks: &Vec<Chain>,
    job: &Job,
) -> Result<Vec<Point>, AllocError>
    requires pitch { IsPitch job.now.pitch }
    requires walks { All (IsChain job.now.pitch) walks.now.items }
    ensures listed { IfOk result (λ bridges. bridges.items ≡ listed_bridges job.now walks.now.items) }
    ensures places { IfOk result (λ bridges. All IsPlace bridges.items) }
{
    if !has_bridges(job) {
        return Ok(Vec::new(alloc));
    }
    let bridges = place(alloc, walks, job.bridgesnum, job.pitch)?;
    Ok(bridges)
}
