// The board of an outline.
ghost use Rattle.std.specs.Prelude.{◌≡◌, ◌<◌, ◌+◌, ◌≤◌, ◌++◌, ◌∷◌, [], ℕ, length, IfOk, IfErr, OnOk, IfSome};
ghost use Rattle.std.specs.List.{All};
ghost use Rattle.board_base.specs.Places.{IsPlace};
ghost use Rattle.poly_area.specs.Area.{edges_of};
ghost use Rattle.outline_loops.specs.Board.{area_loops};
ghost use Rattle.outline_loops.specs.Ways.{AreWays};
ghost use Rattle.outline_loops.specs.Ends.{AreTwos};
ghost use Rattle.outline_loops.specs.Answers.{Answers, IsOpening, IsTracedOutline};

use crate::OutlineError;
use crate::areas::{add_areas, area_points};
use crate::ends::first_open;
use crate::tracing::traced;
use crate::ways::{start, ways};
use board_base::{Items, Point};
use poly_area::{Poly, PolyError};
use shape_parts::Painted;
use std::alloc::{AllocError, Global};

// The greatest number of points that a board's loops may have together.
const MOST_POINTS: u64 = 1 << 22;

// The ways along the segments of a closed outline.
fn closed_ways(alloc: Global, painted: &Vec<Painted>) -> Result<Vec<u128>, OutlineError>
    ensures ways { IfOk result (λ ways. AreWays painted.now.items ways.items) }
    ensures twos { IfOk result (λ ways. AreTwos ways.items (length ways.items)) }
    ensures refused { IfErr result (IsOpening painted.now.items) }
{
    let ways = ways(alloc, painted)?;
    let Some((at, n)) = first_open(&ways) else {
        return Ok(ways);
    };
    if n > u32::MAX as usize {
        return Err(OutlineError::Memory);
    }
    Err(OutlineError::OpenOutline {
        at: start(ways[at]),
        degree: n as u32,
    })
}

// The loops along the segments of a closed outline.
fn traced_outline(
    alloc: Global,
    painted: &Vec<Painted>,
) -> Result<Items<Items<Point>>, OutlineError>
    ensures loops { IfOk result (IsTracedOutline painted.now.items) }
    ensures refused { IfErr result (IsOpening painted.now.items) }
{
    let ways = closed_ways(alloc, painted)?;
    let loops = traced(alloc, &ways)?;
    Ok(loops)
}

// How many points loops have; `None` where a number can't say it.
fn loop_points(loops: &Items<Items<Point>>) -> Option<u64>
    ensures { IfSome result (λ n. n ≡ length (edges_of loops.now)) }
{
    let mut all: u64 = 0;
    'loops: for points in loops.inner() {
        all = all.checked_add(points.len() as u64)?;
    }
    Some(all)
}

// How many points the board has; `None` where a number can't say it.
fn board_points(painted: &Vec<Painted>, loops: &Items<Items<Point>>) -> Option<u64>
    ensures { IfSome result (λ n. n ≡ length (edges_of loops.now) + length (edges_of (area_loops painted.now.items))) }
{
    let areas = area_points(painted)?;
    let all = loop_points(loops)?.checked_add(areas)?;
    Some(all)
}

// Adds a loop.
fn add_loop(board: &mut Poly, points: &[Point]) -> Result<(), AllocError>
    requires room { length (edges_of board.old) + length points.now ≤ 4194304 }
    requires long { 3 ≤ length points.now }
    requires places { All IsPlace points.now }
    ensures { OnOk result (board.new ≡ board.old ++ points.now ∷ []) }
{
    match board.add_loop(points) {
        Ok(()) => Ok(()),
        Err(PolyError::Memory) => Err(AllocError),
        Err(PolyError::TooFewPoints { .. }) => unreachable!(),
        Err(PolyError::TooManyPoints { .. }) => unreachable!(),
    }
}

// Adds loops.
fn add_loops(board: &mut Poly, loops: &Items<Items<Point>>) -> Result<(), AllocError>
    requires room { length (edges_of board.old) + length (edges_of loops.now) ≤ 4194304 }
    requires long { All (λ points. 3 ≤ length points) loops.now }
    requires places { All (All IsPlace) loops.now }
    ensures { OnOk result (board.new ≡ board.old ++ loops.now) }
{
    'loops: for points in loops.inner() {
        add_loop(board, points.inner())?;
    }
    Ok(())
}

// The board of these loops and those of the dark areas.
fn board(
    alloc: Global,
    painted: &Vec<Painted>,
    loops: &Items<Items<Point>>,
) -> Result<Poly, AllocError>
    requires room { length (edges_of loops.now) + length (edges_of (area_loops painted.now.items)) ≤ 4194304 }
    requires long { All (λ points. 3 ≤ length points) loops.now }
    requires places { All (All IsPlace) loops.now }
    ensures { IfOk result (λ board. board ≡ area_loops painted.now.items ++ loops.now) }
{
    let mut board = Poly::empty(alloc);
    add_areas(&mut board, painted)?;
    add_loops(&mut board, loops)?;
    Ok(board)
}

/// The loops of the board: those of dark areas as they stand, and loops along the centre lines of dark
/// capsules, each line once. Two lines must meet at each of their ends.
///
/// # Errors
///
/// `OpenOutline` at the first end where not two lines meet, `EmptyOutline` where there is no loop,
/// `TooManyPoints` where the loops have more than 2^22 points, and `Memory` where memory is wanting.
pub fn loops(alloc: Global, painted: &Vec<Painted>) -> Result<Poly, OutlineError>
    ensures { Answers painted.now.items result }
{
    let loops = traced_outline(alloc, painted)?;
    let Some(count) = board_points(painted, &loops) else {
        return Err(OutlineError::Memory);
    };
    if count == 0 {
        return Err(OutlineError::EmptyOutline);
    }
    if count > MOST_POINTS {
        return Err(OutlineError::TooManyPoints { count });
    }
    let board = board(alloc, painted, &loops)?;
    Ok(board)
}
