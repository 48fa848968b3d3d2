// Tours: orders that are swept until no reversal of a stretch shortens them.
ghost use Rattle.std.specs.Prelude.{◌≡◌, ◌<◌, ◌≤◌, ◌+◌, ◌-◌, ◌*◌, ℕ, true, false, nat_lt, drop, length, slice_index, IfOk, map};
ghost use Rattle.board_base.specs.Places.{IsPlace, origin};
ghost use Rattle.path_order.specs.Orders.{point_at, ArePlaces, IsOrder, IsNearestOrder};
ghost use Rattle.path_order.specs.Tours.{way_of, turned, tried, tries, swept as swept_of, IsSettled, IsImproved, OneTour};
ghost use Rattle.path_order.specs.Trials.{way_from, from_place, IsStart, AreIndices, IsTried, IsQuietRow, IsQuiet};

use crate::nearest::{far, nearest_order, point};
use board_base::Point;
use std::alloc::{AllocError, Global};

/// How often a tour was swept.
#[derive(Clone, Copy, Debug, PartialEq, Eq)]
pub struct Sweeps {
    /// The number of sweeps that shortened the travel, at most 64.
    pub shortened: u32,
    /// Whether a sweep came to shorten nothing.
    pub stable: bool,
}

// Entry k of an order.
fn stop(points: &Vec<Point>, order: &[u32], k: usize) -> Point
    requires places { ArePlaces points.now.items }
    requires indices { AreIndices points.now.items order.now }
    requires k { k < length order.now }
    ensures value { result ≡ point_at points.now.items (slice_index order.now k) }
    ensures place { IsPlace result }
{
    point(points, order[k] as usize)
}

// Where the stretches of one row begin: what all of them share.
#[derive(Clone, Copy)]
pub(crate) struct Start {
    // The entry before the stretches; their first where there is none.
    before: Point,
    // Their first entry.
    first: Point,
    // The distance between the two, or 0 where there is none before.
    way: u64,
}

// The distance to p from the entry before entry i, or 0.
fn way_to(i: usize, before: Point, p: Point) -> u64
    requires before { IsPlace before }
    requires p { IsPlace p }
    ensures value { result ≡ way_from i before p }
    ensures small { result ≤ 1000000000 }
{
    if i == 0 { 0 } else { far(before, p) }
}

// Where the stretches that begin at i begin.
fn start_of(points: &Vec<Point>, order: &[u32], i: usize) -> Start
    requires places { ArePlaces points.now.items }
    requires indices { AreIndices points.now.items order.now }
    requires i { i < length order.now }
    ensures { IsStart points.now.items order.now i result }
{
    let before = stop(points, order, i.saturating_sub(1));
    let first = stop(points, order, i);
    Start {
        before,
        first,
        way: way_to(i, before, first),
    }
}

// The distance from p to the entry after entry j, or 0.
fn after(points: &Vec<Point>, order: &[u32], j: usize, p: Point) -> u64
    requires places { ArePlaces points.now.items }
    requires indices { AreIndices points.now.items order.now }
    requires j { j < length order.now }
    requires p { IsPlace p }
    ensures value { result ≡ from_place p (map (point_at points.now.items) (drop (j + 1) order.now)) }
    ensures small { result ≤ 1000000000 }
{
    if j + 1 == order.len() {
        0
    } else {
        far(p, stop(points, order, j + 1))
    }
}

// Whether turning a stretch round shortens the travel. Only the ways to its ends change.
fn shortens(points: &Vec<Point>, order: &[u32], start: Start, i: usize, j: usize) -> bool
    requires places { ArePlaces points.now.items }
    requires indices { AreIndices points.now.items order.now }
    requires i { i < j }
    requires j { j < length order.now }
    requires start { IsStart points.now.items order.now i start }
    ensures { result ≡ nat_lt (way_of points.now.items (turned i j order.now)) (way_of points.now.items order.now) }
{
    let last = stop(points, order, j);
    let now = start.way + after(points, order, j, last);
    let then = way_to(i, start.before, last) + after(points, order, j, start.first);
    then < now
}

// Turns a stretch round.
fn turn(order: &mut [u32], i: usize, j: usize)
    requires i { i < j }
    requires j { j < length order.old }
    ensures { order.new ≡ turned i j order.old }
{
    let stretch = &mut order[i..j + 1];
    stretch.reverse();
}

// Turns a stretch round where that shortens the travel, and tells whether it did.
fn try_stretch(
    points: &Vec<Point>,
    order: &mut [u32],
    start: &mut Start,
    i: usize,
    j: usize,
) -> bool
    requires places { ArePlaces points.now.items }
    requires indices { AreIndices points.now.items order.old }
    requires i { i < j }
    requires j { j < length order.old }
    requires start { IsStart points.now.items order.old i start.old }
    ensures tried { order.new ≡ tried points.now.items i j order.old }
    ensures change { IsTried points.now.items order.old order.new result }
    ensures quiet { result ≡ false → way_of points.now.items order.old ≤ way_of points.now.items (turned i j order.old) }
    ensures start { IsStart points.now.items order.new i start.new }
{
    if shortens(points, order, *start, i, j) {
        turn(order, i, j);
        *start = start_of(points, order, i);
        true
    } else {
        false
    }
}

// Tries all stretches that begin at i, and tells whether one was turned round.
fn try_row(points: &Vec<Point>, order: &mut [u32], i: usize) -> bool
    requires places { ArePlaces points.now.items }
    requires indices { AreIndices points.now.items order.old }
    requires i { i < length order.old }
    ensures tried { order.new ≡ tries points.now.items i (i + 1) (length order.old - (i + 1)) order.old }
    ensures change { IsTried points.now.items order.old order.new result }
    ensures quiet { result ≡ false → IsQuietRow points.now.items order.old i (length order.old) }
{
    let mut any = false;
    let mut start = start_of(points, order, i);
    'ends: for j in i + 1..order.len() {
        if try_stretch(points, order, &mut start, i, j) {
            any = true;
        }
    }
    any
}

// Tries all stretches in their order, and tells whether one was turned round.
fn sweep(points: &Vec<Point>, order: &mut [u32]) -> bool
    requires places { ArePlaces points.now.items }
    requires indices { AreIndices points.now.items order.old }
    ensures swept { order.new ≡ swept_of points.now.items order.old }
    ensures change { IsTried points.now.items order.old order.new result }
    ensures quiet { result ≡ false → IsQuiet points.now.items order.old (length order.old) }
{
    let mut any = false;
    'rows: for i in 0..order.len() {
        if try_row(points, order, i) {
            any = true;
        }
    }
    any
}

// Sweeps an order until a sweep shortens nothing, or until 64 sweeps shortened it.
fn sweep_all(points: &Vec<Point>, order: &mut [u32]) -> Sweeps
    requires places { ArePlaces points.now.items }
    requires nearest { IsNearestOrder points.now.items origin order.old }
    ensures improved { IsImproved points.now.items order.new result }
    ensures order { IsOrder (length points.now.items) order.new }
    ensures settled { result.stable ≡ true → IsSettled points.now.items order.new }
    ensures cut_off { result.stable ≡ false → result.shortened ≡ 64 }
{
    'sweeps: for shortened in 0..64 {
        if !sweep(points, order) {
            return Sweeps {
                shortened,
                stable: true,
            };
        }
    }
    Sweeps {
        shortened: 64,
        stable: false,
    }
}

/// A tour of the points, at most 10,000: the nearest order from the origin, swept until a sweep shortens
/// nothing or 64 sweeps shortened it. A sweep takes the square of their number in time.
///
/// # Errors
///
/// Want of memory.
pub fn improve(alloc: Global, points: &Vec<Point>) -> Result<(Vec<u32>, Sweeps), AllocError>
    requires places { ArePlaces points.now.items }
    requires few { length points.now.items ≤ 10000 }
    ensures improved { IfOk result (λ r. IsImproved points.now.items r.0.items r.1) }
    ensures order { IfOk result (λ r. IsOrder (length points.now.items) r.0.items) }
    ensures settled { IfOk result (λ r. r.1.stable ≡ true → IsSettled points.now.items r.0.items) }
    ensures cut_off { IfOk result (λ r. r.1.stable ≡ false → r.1.shortened ≡ 64) }
{
    let mut order = nearest_order(alloc, points, Point { x: 0, y: 0 })?;
    let sweeps = sweep_all(points, &mut order);
    Ok((order, sweeps))
}

/// There is one tour of given points: any two that are improved as `improve` says are the same order, swept
/// as often.
pub fn one_tour_law()
    ensures { OneTour }
{}
