// How a cutter isolates.
ghost use Rattle.std.specs.Prelude.{◌≡◌, ◌+◌, ◌-◌, ◌/◌, ◌≤◌, pos, ◌-ℤ◌, ◌*ℤ◌, ◌≤ℤ◌, ◌<ℤ◌, cond, Some, None};
ghost use Rattle.std.specs.Int.{int_div_euclid};
ghost use Rattle.board_base.specs.Lattice.{IsPitch, half_diagonal_of};
ghost use Rattle.cell_sets.specs.Cleared.{stride_of};
ghost use Rattle.job_file.specs.Checks.{radius_of};
ghost use Rattle.mill_plan.specs.Cutting.{IsCutting, side_cutting as side_cutting_of, step_of, last_of};
ghost use Rattle.mill_plan.specs.Job.{IsSideJob};
ghost use Rattle.mill_plan.specs.Passes.{IsEnough};

use board_base::half_diagonal;
use job_file::Job;

/// How a cutter isolates: the lattice, the cutter, and where it goes. Lengths are in nanometres.
#[derive(Clone, Copy, Debug, PartialEq, Eq)]
pub struct Cutting {
    /// The width of a cell.
    pub pitch: i64,
    /// Half of the cutter's diameter.
    pub radius: i64,
    /// How far the cutter may reach into the copper.
    pub tolerance: i64,
    /// How much farther out each pass goes than the one before it.
    pub step: i64,
    /// How many passes there are past the first.
    pub last: u32,
    /// How many rows it is from one clearing row to the next, where rows are cleared.
    pub stride: Option<u32>,
}

// Half of the cutter's diameter.
fn radius(job: &Job) -> i64
    requires { IsSideJob job.now }
    ensures value { result ≡ radius_of job.now.mill_diameters }
    ensures low { pos 10000 ≤ℤ result }
    ensures high { result ≤ℤ pos 5000000 }
{
    job.mill_diameters.div_euclid(2)
}

// A length less the overlap, which is told in hundredths.
fn less_overlap(length: i64, overlap: u32) -> i64
    requires low { pos 0 ≤ℤ length }
    requires high { length ≤ℤ pos 10000000 }
    requires overlap { overlap ≤ 99 }
    ensures value { result ≡ int_div_euclid (length *ℤ (pos 100 -ℤ pos overlap)) (pos 100) }
    ensures low { pos 0 ≤ℤ result }
    ensures high { result ≤ℤ pos 10000000 }
{
    (length * (100 - overlap as i64)).div_euclid(100)
}

// From pass to pass.
#[tactic(auto, unfolding(crate::specs::Cutting::step_of))]
fn step(job: &Job) -> i64
    requires { IsSideJob job.now }
    ensures value { result ≡ step_of job.now }
    ensures low { pos 200 ≤ℤ result }
    ensures high { result ≤ℤ pos 10000000 }
{
    less_overlap(2 * radius(job), job.milling_overlap)
}

// The quotient, rounded up.
fn quotient_up(n: u64, d: u64) -> u32
    requires n { n ≤ 9980000 }
    requires low { 200 ≤ d }
    requires high { d ≤ 10000000 }
    ensures value { result ≡ (n + d - 1) / d }
    ensures few { result ≤ 49900 }
{
    ((n + d - 1) / d) as u32
}

// So many steps make up what is wanting; none where nothing is.
fn steps_over(wanting: i64, step: i64) -> u32
    requires wanting { wanting ≤ℤ pos 9980000 }
    requires low { pos 200 ≤ℤ step }
    requires high { step ≤ℤ pos 10000000 }
    ensures enough { IsEnough wanting step result }
    ensures few { result ≤ 49900 }
{
    if wanting <= 0 {
        return 0;
    }
    quotient_up(wanting as u64, step as u64)
}

// How much one pass is narrower than the isolation that the job asks.
fn wanting(job: &Job) -> i64
    requires { IsSideJob job.now }
    ensures value { result ≡ job.now.isolation_width -ℤ pos 2 *ℤ radius_of job.now.mill_diameters }
    ensures high { result ≤ℤ pos 9980000 }
{
    job.isolation_width - 2 * radius(job)
}

// The passes past the first.
fn last(job: &Job) -> u32
    requires { IsSideJob job.now }
    ensures { result ≡ last_of job.now }
{
    steps_over(wanting(job), step(job)).max(job.extra_passes)
}

// The whole pitches that the radius less half a diagonal holds.
fn pitches(pitch: i64, radius: i64) -> i64
    requires pitch { IsPitch pitch }
    requires wide { pos 2000 ≤ℤ pitch }
    requires fine { half_diagonal_of pitch <ℤ radius }
    requires thick { radius ≤ℤ pos 5000000 }
    ensures value { result ≡ int_div_euclid (radius -ℤ half_diagonal_of pitch) pitch }
    ensures low { pos 0 ≤ℤ result }
    ensures high { result ≤ℤ pos 5000000 }
{
    (radius - half_diagonal(pitch)).div_euclid(pitch)
}

// The rows from one clearing row to the next.
fn stride(pitch: i64, radius: i64, overlap: u32) -> u32
    requires pitch { IsPitch pitch }
    requires wide { pos 2000 ≤ℤ pitch }
    requires fine { half_diagonal_of pitch <ℤ radius }
    requires thick { radius ≤ℤ pos 5000000 }
    requires overlap { overlap ≤ 99 }
    ensures { result ≡ stride_of pitch (half_diagonal_of pitch) radius overlap }
{
    let rows = less_overlap(2 * pitches(pitch, radius), overlap);
    (rows as u32).max(1)
}

// The same, where rows are cleared.
fn clearing_stride(job: &Job) -> Option<u32>
    requires { IsSideJob job.now }
    ensures { result
        ≡ cond job.now.clear (Some (stride_of job.now.pitch (half_diagonal_of job.now.pitch) (radius_of job.now.mill_diameters) job.now.milling_overlap)) None }
{
    if !job.clear {
        return None;
    }
    Some(stride(job.pitch, radius(job), job.milling_overlap))
}

/// The cutting that a job gives its sides.
#[tactic(auto, unfolding(crate::specs::Cutting::side_cutting))]
pub fn side_cutting(job: &Job) -> Cutting
    requires { IsSideJob job.now }
    ensures value { result ≡ side_cutting_of job.now }
    ensures cutting { IsCutting result }
{
    Cutting {
        pitch: job.pitch,
        radius: radius(job),
        tolerance: job.tolerance,
        step: step(job),
        last: last(job),
        stride: clearing_stride(job),
    }
}
