// The check of a program on a side.
ghost use Rattle.std.specs.Prelude.{◌≡◌, ◌⊎◌, ℕ, ◌<◌, ◌^◌, Result, Ok, Err, IfOk, IsErrOf, MatchResult, vec_len};
ghost use Rattle.std.specs.List.{All};
ghost use Rattle.rs274_sim.specs.Few.{HasFewSettings};
ghost use Rattle.levelling.specs.Grids.{IsInReach};
ghost use Rattle.mill_plan.specs.Cutting.{IsCutting};
ghost use Rattle.mill_plan.specs.Job.{IsSideJob};
ghost use Rattle.mill_plan.specs.Side.{IsNumberedSide};
ghost use Rattle.side_check.specs.Found.{IsSideRefused, Findings, AreFound};
ghost use Rattle.side_check.specs.declared.fault.SideFault.{SideFault};
ghost use Rattle.side_check.specs.declared.fault.SideFault.TheVariants.{Memory};

use crate::SideFault;
use crate::fault::refused;
use crate::grids::{enough_answers, side_grid};
use crate::hits::first_strike;
use crate::marks::{left_groups, mark_deep};
use crate::runs::moves_of;
use crate::widths::{hit_width, mark_width};
use board_base::Side;
use cell_grid::Workbench;
use cell_sets::one_count_law;
use job_file::Job;
use mill_plan::{Cutting, numbered_side, side_cutting};
use program_check::{one_hit_law, plane_law, rising_law, scan_law, unit_law, whole_law};
use rs274_sim::Line;
use separation_check::Group;
use shape_parts::Painted;
use std::alloc::Global;

// The grid of the side, with its islands.
fn side_bench(
    alloc: Global,
    painted: &Vec<Painted>,
    cutting: Cutting,
) -> Result<Workbench, SideFault>
    requires { IsCutting cutting }
    ensures numbered { MatchResult result
        (λ bench. (count : ℕ) × IsNumberedSide cutting painted.now.items count bench)
        (λ e. (e ≡ Memory) ⊎ IsSideRefused cutting painted.now.items e) }
    ensures reach { IfOk result (λ bench. IsInReach bench.frame) }
{
    match numbered_side(alloc, painted, cutting) {
        Ok(bench) => Ok(bench),
        Err(error) => Err(refused(error)),
    }
}

// What the check finds, or its first refusal.
fn checked(
    alloc: Global,
    painted: &Vec<Painted>,
    job: &Job,
    side: Side,
    lines: &Vec<Line>,
    answers: &Vec<i64>,
) -> Result<Vec<Group>, SideFault>
    requires job { IsSideJob job.now }
    requires settings { All HasFewSettings (lines.now).items }
    requires few { vec_len lines.now < 2 ^ 32 }
    ensures { MatchResult result
        (λ groups. (found : Findings) × AreFound job.now side painted.now.items (lines.now).items (answers.now).items (Ok found) × (found.groups ≡ groups.items))
        (λ e. (e ≡ Memory) ⊎ AreFound job.now side painted.now.items (lines.now).items (answers.now).items (Err e)) }
{
    unit_law();
    whole_law();
    rising_law();
    scan_law();
    plane_law();
    let cutting = side_cutting(job);
    let mut bench = match side_bench(alloc, painted, cutting) {
        Ok(bench) => bench,
        Err(fault) => return Err(fault),
    };
    let grid = match side_grid(bench.frame(), job, side) {
        Ok(grid) => grid,
        Err(fault) => return Err(fault),
    };
    if let Err(fault) = enough_answers(&grid, answers) {
        return Err(fault);
    }
    let moves = match moves_of(alloc, lines, answers) {
        Ok(moves) => moves,
        Err(fault) => return Err(fault),
    };
    if let Some(strike) = first_strike(&bench, hit_width(cutting), job.zsafe, &moves) {
        return Err(SideFault::Hit {
            cell: strike.cell,
            line: strike.line,
        });
    }
    let width = mark_width(cutting);
    mark_deep(&mut bench, &grid, answers, job.zwork, width, &moves);
    match left_groups(alloc, &mut bench) {
        Ok(groups) => Ok(groups),
        Err(_) => Err(SideFault::Memory),
    }
}

/// Checks the lines of a program against the image of a side, as it is milled: no low move may hit a kept cell. Gives
/// the groups of islands that the cells which the deep moves don't sweep leave joined.
///
/// # Errors
///
/// In this order: `Limit` of the frame, of the islands and of the probes; `NoProbeAnswer`; `Sim`; `Hit` of the first
/// line that hits a kept cell, and of its first such cell. `Memory` may come at any step.
pub fn check_side(
    alloc: Global,
    painted: &Vec<Painted>,
    job: &Job,
    side: Side,
    lines: &Vec<Line>,
    answers: &Vec<i64>,
) -> Result<Vec<Group>, SideFault>
    requires job { IsSideJob job.now }
    requires settings { All HasFewSettings (lines.now).items }
    requires few { vec_len lines.now < 2 ^ 32 }
    ensures found { IfOk result (λ groups. (found : Findings)
        × AreFound job.now side painted.now.items (lines.now).items (answers.now).items (Ok found) × (found.groups ≡ groups.items)) }
    ensures refused { (e : SideFault) → IsErrOf result e → (e ≡ Memory) ⊎ AreFound job.now side painted.now.items (lines.now).items (answers.now).items (Err e) }
    // No other answer than this one is that of the check.
    ensures accepted { IfOk result (λ _. (e : SideFault) → AreFound job.now side painted.now.items (lines.now).items (answers.now).items (Err e) → ⊥) }
    ensures one_answer { (e : SideFault) (answer : Result Findings SideFault) → IsErrOf result e
        → AreFound job.now side painted.now.items (lines.now).items (answers.now).items answer → (e ≡ Memory) ⊎ (answer ≡ Err e) }
{
    one_count_law();
    one_hit_law();
    match checked(alloc, painted, job, side, lines, answers) {
        Ok(groups) => Ok(groups),
        Err(fault) => Err(fault),
    }
}
