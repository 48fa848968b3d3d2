// The order that goes to the nearest point first.
ghost use Rattle.std.specs.Prelude.{◌≡◌, ◌<◌, ◌≤◌, ◌+◌, ◌-ℤ◌, unsigned_abs, max, length, replicate, false, IfOk};
ghost use Rattle.board_base.specs.Places.{IsCoordinate, IsPlace};
ghost use Rattle.path_order.specs.Orders.{far_of, point_at, ArePlaces, IsNearestOrder, OneOrder};
ghost use Rattle.path_order.specs.Trials.{IsBest};

use board_base::Point;
use std::alloc::{AllocError, Global};

// The distance along one axis.
fn span(a: i64, b: i64) -> u64
    requires a { IsCoordinate a }
    requires b { IsCoordinate b }
    ensures value { result ≡ unsigned_abs (a -ℤ b) }
    ensures small { result ≤ 1000000000 }
{
    (a - b).unsigned_abs()
}

// The greater of two distances.
fn greater(x: u64, y: u64) -> u64
    ensures { result ≡ max x y }
{
    if x < y { y } else { x }
}

// The Chebyshev distance of two places.
#[tactic(auto, unfolding(crate::specs::Orders::far_of))]
pub(crate) fn far(a: Point, b: Point) -> u64
    requires a { IsPlace a }
    requires b { IsPlace b }
    ensures value { result ≡ far_of a b }
    ensures small { result ≤ 1000000000 }
{
    greater(span(a.x, b.x), span(a.y, b.y))
}

// The point with an index.
pub(crate) fn point(points: &Vec<Point>, k: usize) -> Point
    requires places { ArePlaces points.now.items }
    requires k { k < length points.now.items }
    ensures value { result ≡ point_at points.now.items k }
    ensures place { IsPlace result }
{
    points[k]
}

// Of the best index below k and k itself, the better one.
fn better(
    points: &Vec<Point>,
    used: &[bool],
    from: Point,
    best: Option<usize>,
    k: usize,
) -> Option<usize>
    requires places { ArePlaces points.now.items }
    requires from { IsPlace from }
    requires sized { length used.now ≡ length points.now.items }
    requires k { k < length points.now.items }
    requires best { IsBest points.now.items used.now from k best }
    ensures { IsBest points.now.items used.now from (k + 1) result }
{
    if used[k] {
        return best;
    }
    let Some(b) = best else {
        return Some(k);
    };
    if far(point(points, k), from) < far(point(points, b), from) {
        Some(k)
    } else {
        Some(b)
    }
}

// The unused index nearest to a place, the lower one on a tie.
fn nearest_unused(points: &Vec<Point>, used: &[bool], from: Point) -> Option<usize>
    requires places { ArePlaces points.now.items }
    requires from { IsPlace from }
    requires sized { length used.now ≡ length points.now.items }
    ensures { IsBest points.now.items used.now from (length points.now.items) result }
{
    let mut best = None;
    'points: for k in 0..points.len() {
        best = better(points, used, from, best, k);
    }
    best
}

// So many indices that aren't used.
fn none_used(alloc: Global, n: usize) -> Result<Vec<bool>, AllocError>
    ensures { IfOk result (λ v. v.items ≡ replicate n false) }
{
    vec![in alloc; false; n]
}

/// The indices of the points in the order in which one goes to the nearest point that is left, by the
/// Chebyshev distance from the last one, the lower index on a tie. It begins at `from`. Places are in
/// nanometres. It takes the square of their number in time.
///
/// # Errors
///
/// Want of memory.
pub fn nearest_order(
    alloc: Global,
    points: &Vec<Point>,
    from: Point,
) -> Result<Vec<u32>, AllocError>
    requires places { ArePlaces points.now.items }
    requires from { IsPlace from }
    ensures { IfOk result (λ v. IsNearestOrder points.now.items from v.items) }
{
    let mut used = none_used(alloc, points.len())?;
    let mut order = Vec::new(alloc);
    let mut place = from;
    'order: while let Some(k) = nearest_unused(points, &used, place) {
        used[k] = true;
        order.push(k as u32)?;
        place = point(points, k);
    }
    Ok(order)
}

/// There is one nearest order of given points from a place.
pub fn one_order_law()
    ensures { OneOrder }
{}
