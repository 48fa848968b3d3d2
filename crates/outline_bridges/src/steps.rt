// Unit steps along a chain, and their heights.
ghost use Rattle.std.specs.Prelude.{◌≡◌, ◌++◌, ◌<◌, ℤ, pos, ◌<ℤ◌, ◌+ℤ◌, ◌*ℤ◌, length, IfOk, OnOk, int_lt, true};
ghost use Rattle.std.specs.List.{All};
ghost use Rattle.board_base.specs.Lattice.{IsPitch};
ghost use Rattle.board_base.specs.Near.{near_of};
ghost use Rattle.board_base.specs.Places.{IsPlace, IsCoordinate, IsSpan};
ghost use Rattle.outline_bridges.specs.Chains.{IsChain, centres_of};
ghost use Rattle.outline_bridges.specs.Steps.{is_near_bridge, height_of, step_of, steps_from, steps_along, steps_of, IsLifting, IsOutside, HasPlaces};

use board_base::{Cell, Point, centre};
use plane_geom::near;
use std::alloc::{AllocError, Global};

/// A step from one centre to the next, at a height, in nanometres.
#[derive(Clone, Copy, Debug, PartialEq, Eq)]
pub struct Step {
    pub from: Point,
    pub to: Point,
    pub z: i64,
}

/// A level, the height to which steps are lifted, and twice the distance from bridges at which they are.
#[derive(Clone, Copy, Debug, PartialEq, Eq)]
pub struct Lifting {
    pub level: i64,
    pub lifted: i64,
    pub d: i64,
}

// Whether, along an axis, the second is more than half of `d` past the first.
fn is_past(from: i64, to: i64, d: i64) -> bool
    requires from { IsCoordinate from }
    requires to { IsCoordinate to }
    requires d { IsSpan d }
    ensures { result ≡ true → (pos 2 *ℤ from +ℤ d) <ℤ (pos 2 *ℤ to) }
{
    2 * from + d < 2 * to
}

// Whether, along an axis, `c` is more than half of `d` below both `a` and `b`, or above both.
fn is_outside(c: i64, a: i64, b: i64, d: i64) -> bool
    requires c { IsCoordinate c }
    requires a { IsCoordinate a }
    requires b { IsCoordinate b }
    requires d { IsSpan d }
    ensures { result ≡ true → IsOutside c a b d }
{
    if is_past(c, a, d) {
        return is_past(c, b, d);
    }
    if is_past(a, c, d) {
        return is_past(b, c, d);
    }
    false
}

// Whether `q` is near the segment `uv` with `d`. Most are told by their coordinates alone.
#[tactic(auto, using(board_base::proofs::LatticeLaws::near_place))]
fn is_near(q: Point, u: Point, v: Point, d: i64) -> bool
    requires q { IsPlace q }
    requires u { IsPlace u }
    requires v { IsPlace v }
    requires d { IsSpan d }
    ensures { result ≡ near_of q u v d }
{
    if is_outside(q.x, u.x, v.x, d) {
        return false;
    }
    if is_outside(q.y, u.y, v.y, d) {
        return false;
    }
    near(q, u, v, d)
}

// Whether a bridge is near the segment `uv` with `d`.
#[tactic(auto, unfolding(crate::specs::Steps::is_near_bridge))]
fn near_bridge(bridges: &Vec<Point>, d: i64, u: Point, v: Point) -> bool
    requires bridges { All IsPlace bridges.now.items }
    requires d { IsSpan d }
    requires u { IsPlace u }
    requires v { IsPlace v }
    ensures { result ≡ is_near_bridge bridges.now.items d u v }
{
    'bridges: for q in bridges {
        if is_near(*q, u, v, d) {
            return true;
        }
    }
    false
}

// Whether the first is below the second.
fn is_below(a: i64, b: i64) -> bool
    ensures { result ≡ int_lt a b }
{
    a < b
}

// The step from `u` to `v`.
#[tactic(auto, unfolding(crate::specs::Steps::height_of))]
fn make_step(l: Lifting, bridges: &Vec<Point>, u: Point, v: Point) -> Step
    requires l { IsLifting l }
    requires bridges { All IsPlace bridges.now.items }
    requires u { IsPlace u }
    requires v { IsPlace v }
    ensures { result ≡ step_of l bridges.now.items u v }
{
    let lifts = is_below(l.level, l.lifted) && near_bridge(bridges, l.d, u, v);
    let z = if lifts { l.lifted } else { l.level };
    Step { from: u, to: v, z }
}

// The centres of a chain.
fn centres(alloc: Global, chain: &[Cell], pitch: i64) -> Result<Vec<Point>, AllocError>
    requires pitch { IsPitch pitch }
    ensures { IfOk result (λ points. points.items ≡ centres_of pitch chain.now) }
{
    let mut points = Vec::new(alloc);
    'cells: for c in chain {
        points.push(centre(*c, pitch))?;
    }
    Ok(points)
}

// The steps from a point along others.
fn steps_through(
    alloc: Global,
    l: Lifting,
    bridges: &Vec<Point>,
    first: Point,
    rest: &[Point],
) -> Result<Vec<Step>, AllocError>
    requires l { IsLifting l }
    requires bridges { All IsPlace bridges.now.items }
    requires first { IsPlace first }
    requires rest { All IsPlace rest.now }
    ensures { IfOk result (λ steps. steps.items ≡ steps_from l bridges.now.items first rest.now) }
{
    let mut steps = Vec::new(alloc);
    let mut last = first;
    'points: for next in rest {
        steps.push(make_step(l, bridges, last, *next))?;
        last = *next;
    }
    Ok(steps)
}

// The steps along points; a single point has the step from it to itself.
fn steps_over(
    alloc: Global,
    l: Lifting,
    bridges: &Vec<Point>,
    points: &[Point],
) -> Result<Vec<Step>, AllocError>
    requires l { IsLifting l }
    requires bridges { All IsPlace bridges.now.items }
    requires some { 0 < length points.now }
    requires points { All IsPlace points.now }
    ensures { IfOk result (λ steps. steps.items ≡ steps_along l bridges.now.items points.now) }
{
    let first = points[0];
    if points.len() == 1 {
        let steps = steps_through(alloc, l, bridges, first, points)?;
        return Ok(steps);
    }
    let steps = steps_through(alloc, l, bridges, first, &points[1..])?;
    Ok(steps)
}

/// The unit steps of a chain, with their heights.
pub(crate) fn steps(
    alloc: Global,
    l: Lifting,
    bridges: &Vec<Point>,
    chain: &[Cell],
    pitch: i64,
) -> Result<Vec<Step>, AllocError>
    requires l { IsLifting l }
    requires bridges { All IsPlace bridges.now.items }
    requires chain { IsChain pitch chain.now }
    requires pitch { IsPitch pitch }
    ensures value { IfOk result (λ steps. steps.items ≡ steps_of l bridges.now.items pitch chain.now) }
    ensures places { IfOk result (λ steps. All HasPlaces steps.items) }
{
    let points = centres(alloc, chain, pitch)?;
    let steps = steps_over(alloc, l, bridges, &points)?;
    Ok(steps)
}
