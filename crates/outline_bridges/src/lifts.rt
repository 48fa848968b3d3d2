// Cuts along chains, lifted near bridges.
ghost use Rattle.std.specs.Prelude.{◌≡◌, ◌++◌, ◌<◌, ℤ, ◌-ℤ◌, length, IfOk, OnOk, int_lt, ◌&&◌};
ghost use Rattle.std.specs.List.{All};
ghost use Rattle.std.specs.Ordering.{int_eq};
ghost use Rattle.board_base.specs.Lattice.{IsPitch};
ghost use Rattle.board_base.specs.Places.{IsPlace, IsCoordinate, IsSpan};
ghost use Rattle.outline_bridges.specs.Chains.{IsChain};
ghost use Rattle.outline_bridges.specs.Steps.{steps_of, HasPlaces};
ghost use Rattle.outline_bridges.specs.Corners.{corner_at, is_straight_on, corners_between, corners_of};

use crate::steps::{Lifting, Step, steps};
use board_base::{Items, Point};
use chain_walk::Chain;
use mill_program::{Corner, Cut};
use std::alloc::{AllocError, Global};

// A place at a height.
fn corner(p: Point, z: i64) -> Corner
    ensures { result ≡ corner_at p z }
{
    Corner { x: p.x, y: p.y, z }
}

// The way from one coordinate to another.
fn span(from: i64, to: i64) -> i64
    requires from { IsCoordinate from }
    requires to { IsCoordinate to }
    ensures { result ≡ to -ℤ from }
{
    to - from
}

// Whether two numbers are equal.
fn is_equal(a: i64, b: i64) -> bool
    ensures { result ≡ int_eq a b }
{
    a == b
}

// Whether both are so.
fn both(a: bool, b: bool) -> bool
    ensures { result ≡ (a && b) }
{
    a && b
}

// Whether the second step goes as far and in the same direction as the first.
#[tactic(auto, unfolding(crate::specs::Corners::is_straight_on))]
fn goes_straight_on(s: Step, t: Step) -> bool
    requires s { HasPlaces s }
    requires t { HasPlaces t }
    ensures { result ≡ is_straight_on s t }
{
    let along = is_equal(span(s.from.x, s.to.x), span(t.from.x, t.to.x));
    let across = is_equal(span(s.from.y, s.to.y), span(t.from.y, t.to.y));
    both(along, across)
}

// Adds the corners where one step ends and the next begins.
#[tactic(auto, unfolding(crate::specs::Corners::corners_between))]
fn add_between(cut: &mut Cut, s: Step, t: Step) -> Result<(), AllocError>
    requires s { HasPlaces s }
    requires t { HasPlaces t }
    ensures { OnOk result (cut.new ≡ cut.old ++ corners_between s t) }
{
    if !is_equal(s.z, t.z) {
        cut.push(corner(s.to, s.z))?;
        cut.push(corner(s.to, t.z))?;
        return Ok(());
    }
    if !goes_straight_on(s, t) {
        cut.push(corner(s.to, s.z))?;
    }
    Ok(())
}

// The corners of the cut along steps.
fn corners(alloc: Global, steps: &[Step]) -> Result<Cut, AllocError>
    requires some { 0 < length steps.now }
    requires places { All HasPlaces steps.now }
    ensures { IfOk result (λ cut. cut ≡ corners_of steps.now) }
{
    let Some((first, rest)) = steps.split_first() else {
        unreachable!();
    };
    let mut cut = Items::empty(alloc);
    cut.push(corner(first.from, first.z))?;
    let mut last = *first;
    'steps: for next in rest {
        add_between(&mut cut, last, *next)?;
        last = *next;
    }
    cut.push(corner(last.to, last.z))?;
    Ok(cut)
}

/// One level of a chain: each unit step near one of the bridges with `d` is at the height `lifted`, where
/// that is above the level; every other step is at the level. The only error is want of memory.
pub fn lift(
    alloc: Global,
    chain: &Chain,
    pitch: i64,
    level: i64,
    lifted: i64,
    bridges: &Vec<Point>,
    d: i64,
) -> Result<Cut, AllocError>
    requires chain { IsChain pitch chain.now }
    requires pitch { IsPitch pitch }
    requires bridges { All IsPlace bridges.now.items }
    requires d { IsSpan d }
    ensures { IfOk result (λ cut. cut ≡ corners_of (steps_of (record { level = level; lifted = lifted; d = d }) bridges.now.items pitch chain.now)) }
{
    let l = Lifting { level, lifted, d };
    let steps = steps(alloc, l, bridges, chain.inner(), pitch)?;
    let cut = corners(alloc, &steps)?;
    Ok(cut)
}
