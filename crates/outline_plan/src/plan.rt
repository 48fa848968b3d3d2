// The plan that cuts a board out.
ghost use Rattle.std.specs.Prelude.{◌≡◌, Ok, IfOk, IfErr};
ghost use Rattle.std.specs.List.{All};
ghost use Rattle.board_base.specs.Lattice.{IsPitch};
ghost use Rattle.outline_bridges.specs.Chains.{IsChain};
ghost use Rattle.mill_plan.specs.Frame.{IsFrameOf};
ghost use Rattle.mill_plan.specs.Cuts.{ArePassWalks};
ghost use Rattle.outline_plan.specs.Job.{IsOutlineJob, outline_cutting as outline_cutting_of};
ghost use Rattle.outline_plan.specs.Answers.{Answers};
ghost use Rattle.outline_plan.specs.Laws.{OneAnswer, LevelsLaw};
ghost use Rattle.outline_plan.specs.Made.{error_of, IsFrameRefusal};

use crate::board::board;
use crate::cuts::{cuts, program};
use crate::cutting::{bridges, diagonal_law, levels_count};
use crate::{OutlinePlanError, outline_cutting};
use board_base::Point;
use cell_grid::Frame;
use chain_walk::{Chain, walk_law};
use job_file::Job;
use mill_plan::{PlanError, first_contour, ordered_walks};
use mill_program::{Program, run_law, stroke_law};
use outline_bridges::{cut_law, over_law};
use shape_parts::{Painted, cover_law};
use std::alloc::Global;

/// What cuts a board out: the frame of the board, the count of walks round it, the count of levels, the places of
/// the bridges in nanometres, walk after walk, and the program.
#[derive(Drop)]
pub struct OutlineCut {
    pub frame: Frame,
    pub chains: u64,
    pub passes: u32,
    pub bridges: Vec<Point>,
    pub program: Program,
}

// What a refusal of a grid is to the plan.
fn plan_error(error: PlanError) -> OutlinePlanError
    ensures { result ≡ error_of error }
{
    match error {
        PlanError::Limit(hit) => OutlinePlanError::Limit(hit),
        PlanError::Memory => OutlinePlanError::Memory,
    }
}

// The frame of a board, and the walks round it in the order of a program.
fn walks(
    alloc: Global,
    board: &Vec<Painted>,
    job: &Job,
) -> Result<(Frame, Vec<Chain>), OutlinePlanError>
    requires job { IsOutlineJob job.now }
    requires pitch { IsPitch job.now.pitch }
    ensures framed { IfOk result (λ r. IsFrameOf (outline_cutting_of job.now) board.now.items (Ok r.0)) }
    ensures walks { IfOk result (λ r. ArePassWalks (outline_cutting_of job.now) board.now.items 0 r.1.items) }
    ensures chains { IfOk result (λ r. All (IsChain job.now.pitch) r.1.items) }
    ensures refused { IfErr result (IsFrameRefusal (outline_cutting_of job.now) board.now.items) }
{
    walk_law();
    let mut bench = match first_contour(alloc, board, outline_cutting(job)) {
        Ok(bench) => bench,
        Err(error) => return Err(plan_error(error)),
    };
    let frame = bench.frame();
    let walks = ordered_walks(alloc, &mut bench, job.pitch)?;
    Ok((frame, walks))
}

/// Cuts a board out: one tool run of tool 1 that goes along each level of the walk of each component of the contour
/// round the board, lifted over the bridges.
///
/// # Errors
///
/// `Outline` where the outline is open at an end or has no loop, then `Limit` where its board has too many points
/// or the frame passes a limit, and `Memory` where memory is wanting.
#[tactic(auto, using(crate::proofs::JobLaws::outline_pitch))]
pub fn cut_out(
    alloc: Global,
    painted: &Vec<Painted>,
    job: &Job,
) -> Result<OutlineCut, OutlinePlanError>
    requires { IsOutlineJob job.now }
    ensures { Answers job.now painted.now.items result }
{
    diagonal_law(job);
    cover_law();
    walk_law();
    cut_law();
    over_law();
    run_law();
    stroke_law();
    let board = match board(alloc, painted) {
        Ok(board) => board,
        Err(error) => return Err(error),
    };
    let (frame, walks) = match walks(alloc, &board, job) {
        Ok(found) => found,
        Err(error) => return Err(error),
    };
    let bridges = bridges(alloc, &walks, job)?;
    let cuts = cuts(alloc, &walks, &bridges, job)?;
    let program = program(alloc, cuts, job)?;
    Ok(OutlineCut {
        frame,
        chains: walks.len() as u64,
        passes: levels_count(job),
        bridges,
        program,
    })
}

/// But for want of memory, an outline has one answer.
pub fn one_answer_law()
    ensures { OneAnswer }
{}

/// Each level but the last is one infeed below the one before it, and the last is at the depth of the cut.
pub fn levels_law()
    ensures { LevelsLaw }
{}
