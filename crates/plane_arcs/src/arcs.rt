//! Circular arcs as chains of chords.
ghost use Rattle.std.specs.Prelude.{◌≡◌, ◌≤◌, ◌+◌, ◌+ℤ◌, ◌++◌, ◌∷◌, [], OnOk, IfOk, MatchResult, Ok, Err, Some, None, true, false, pos, nat_lt, not, ◌||◌, ◌&&◌, if◌then◌else◌, ◌⊎◌};
ghost use Rattle.std.specs.List.{All};
ghost use Rattle.board_base.specs.Places.{IsPlace, same_point};
ghost use Rattle.plane_arcs.specs.declared.arcs.ArcError.TheVariants.{Memory};
ghost use Rattle.plane_arcs.specs.Vectors.{IsArcPlace, IsUpTo, added, turned, is_zero as is_zero_of, vector_length};
ghost use Rattle.plane_arcs.specs.Arcs.{bisections as bisections_of, bisected, quarters, pieces, round_to, points_round, apart, is_open, is_inside, all_inside, chain_of, Stops};

use crate::turned::point_at;
use crate::vectors::{between, is_same, is_zero, last_quarter, quarter_on, radius_of, vector};
use board_base::Point;
use number_laws::sum;
use std::alloc::Global;
use thiserror::Error;

/// A circular arc from a point to another, or a full circle where the two are one. All in nanometres.
#[derive(Clone, Copy, Debug, PartialEq, Eq)]
pub struct Arc {
    pub start: Point,
    pub end: Point,
    pub centre: Point,
    /// Whether it runs counterclockwise.
    pub ccw: bool,
}

/// Why an arc has no chain.
#[derive(Clone, Copy, Debug, PartialEq, Eq, Error)]
pub enum ArcError {
    /// The ends don't lie on one circle round the centre.
    #[error("an arc whose ends are {start_radius} and {end_radius} nm from its centre")]
    OpenArc {
        /// The distance of the start from the centre, cut to whole nanometres.
        start_radius: i64,
        /// That of the end.
        end_radius: i64,
    },
    /// A point of the chain is more than 500 mm from an axis.
    #[error("an arc past the range")]
    PastRange,
    /// The memory doesn't suffice.
    #[error("out of memory")]
    Memory,
}

// Where an arc lies, and how finely it is cut.
#[derive(Clone, Copy, Debug)]
struct Circle {
    centre: Point,
    radius: u64,
    // How many times a quarter is halved.
    times: u32,
}

// How many times a quarter of a circle of this radius is halved.
#[tactic(auto, unfolding(crate::specs::Arcs::bisections))]
fn bisections(radius: u64) -> u32
    ensures { result ≡ bisections_of radius }
{
    if radius < 100_000 {
        3
    } else if radius < 1_000_000 {
        5
    } else if radius < 10_000_000 {
        6
    } else if radius < 100_000_000 {
        8
    } else {
        9
    }
}

// The point where a vector ends that begins at the centre; `None` where it leaves the range.
#[tactic(auto, unfolding(crate::specs::Vectors::added))]
fn point_from(centre: Point, v: Point) -> Option<Point>
    ensures { result ≡ (if is_inside (added centre v) then Some (added centre v) else None) }
{
    point_at(sum(centre.x, v.x), sum(centre.y, v.y))
}

// Adds a point.
fn keep(chain: &mut Vec<Point>, point: Point) -> Result<(), ArcError>
    ensures { MatchResult result (λ _. chain.new.items ≡ chain.old.items ++ point ∷ []) (λ e. e ≡ Memory) }
{
    match chain.push(point) {
        Ok(()) => Ok(()),
        Err(_) => Err(ArcError::Memory),
    }
}

// Adds the point where a vector ends.
fn add(chain: &mut Vec<Point>, centre: Point, v: Point) -> Result<(), ArcError>
    ensures chain { OnOk result (chain.new.items ≡ chain.old.items ++ points_round centre (v ∷ [])) }
    ensures stops { MatchResult result
        (λ _. all_inside (points_round centre (v ∷ [])) ≡ true)
        (λ e. Stops (points_round centre (v ∷ [])) e) }
{
    match point_from(centre, v) {
        Some(point) => keep(chain, point),
        None => Err(ArcError::PastRange),
    }
}

// Adds the points after one vector, up to and with another, the way between them halved so many times.
fn bisect(
    chain: &mut Vec<Point>,
    circle: Circle,
    a: Point,
    c: Point,
    times: u32,
) -> Result<(), ArcError>
    requires circle { circle.radius ≤ 100000000000000 }
    requires a { IsUpTo 100000000000000 a }
    requires c { IsUpTo 100000000000000 c }
    ensures chain { OnOk result (chain.new.items ≡ chain.old.items ++ points_round circle.centre (bisected times circle.radius a c)) }
    ensures stops { MatchResult result
        (λ _. all_inside (points_round circle.centre (bisected times circle.radius a c)) ≡ true)
        (λ e. Stops (points_round circle.centre (bisected times circle.radius a c)) e) }
{
    if times == 0 {
        return add(chain, circle.centre, c);
    }
    let middle = between(circle.radius, a, c);
    bisect(chain, circle, a, middle, times - 1)?;
    bisect(chain, circle, middle, c, times - 1)
}

// Adds the points after a vector through so many quarters, and gives the vector there.
fn add_quarters(
    chain: &mut Vec<Point>,
    circle: Circle,
    ccw: bool,
    u: Point,
    count: u32,
) -> Result<Point, ArcError>
    requires circle { circle.radius ≤ 100000000000000 }
    requires u { IsUpTo 100000000000000 u }
    ensures last { IfOk result (λ q. q ≡ turned count ccw u) }
    ensures size { IfOk result (IsUpTo 100000000000000) }
    ensures chain { OnOk result (chain.new.items ≡ chain.old.items ++ points_round circle.centre (quarters circle.times circle.radius ccw u count)) }
    ensures stops { MatchResult result
        (λ _. all_inside (points_round circle.centre (quarters circle.times circle.radius ccw u count)) ≡ true)
        (λ e. Stops (points_round circle.centre (quarters circle.times circle.radius ccw u count)) e) }
{
    let mut q = u;
    'quarters: for _k in 0..count {
        let next = quarter_on(ccw, q);
        bisect(chain, circle, q, next, circle.times)?;
        q = next;
    }
    Ok(q)
}

// Adds the points after a vector through so many quarters, and then on to another vector.
fn add_pieces(
    chain: &mut Vec<Point>,
    circle: Circle,
    ccw: bool,
    u: Point,
    count: u32,
    v: Point,
) -> Result<(), ArcError>
    requires circle { circle.radius ≤ 100000000000000 }
    requires u { IsUpTo 100000000000000 u }
    requires v { IsUpTo 100000000000000 v }
    ensures chain { OnOk result (chain.new.items ≡ chain.old.items ++ points_round circle.centre (pieces circle.times circle.radius ccw u count v)) }
    ensures stops { MatchResult result
        (λ _. all_inside (points_round circle.centre (pieces circle.times circle.radius ccw u count v)) ≡ true)
        (λ e. Stops (points_round circle.centre (pieces circle.times circle.radius ccw u count v)) e) }
{
    let q = add_quarters(chain, circle, ccw, u, count)?;
    bisect(chain, circle, q, v, circle.times)
}

// Whether two distances from the centre differ by more than the tolerance.
fn are_apart(start_radius: u64, end_radius: u64) -> bool
    ensures { result ≡ nat_lt 50000 (apart start_radius end_radius) }
{
    start_radius.abs_diff(end_radius) > 50_000
}

// Whether one end of an arc is the centre and the other one isn't.
fn is_lone(u: Point, v: Point) -> bool
    ensures { result ≡ (is_zero_of u || is_zero_of v) && not (same_point u v) }
{
    let central = is_zero(u) || is_zero(v);
    central && !is_same(u, v)
}

// The radius of an arc, if its ends lie on one circle.
#[tactic(auto, unfolding(crate::specs::Arcs::is_open))]
fn common_radius(u: Point, v: Point) -> Result<u64, ArcError>
    requires u { IsUpTo 60000000000000 u }
    requires v { IsUpTo 60000000000000 v }
    ensures value { MatchResult result
        (λ r. (is_open u v ≡ false) × (r ≡ vector_length u))
        (λ e. (is_open u v ≡ true) × (e ≡ ArcError.OpenArc (pos (vector_length u)) (pos (vector_length v)))) }
    ensures size { IfOk result (λ r. r ≤ 100000000000000) }
{
    let start_radius = radius_of(u);
    let end_radius = radius_of(v);
    if are_apart(start_radius, end_radius) || is_lone(u, v) {
        return Err(ArcError::OpenArc {
            start_radius: start_radius as i64,
            end_radius: end_radius as i64,
        });
    }
    Ok(start_radius)
}

// Adds the points of an arc after its start.
#[tactic(auto, unfolding(crate::specs::Arcs::round_to))]
fn add_arc(
    chain: &mut Vec<Point>,
    circle: Circle,
    ccw: bool,
    u: Point,
    v: Point,
) -> Result<(), ArcError>
    requires radius { circle.radius ≡ vector_length u }
    requires times { circle.times ≡ bisections_of circle.radius }
    requires size { circle.radius ≤ 100000000000000 }
    requires u { IsUpTo 100000000000000 u }
    requires v { IsUpTo 100000000000000 v }
    ensures chain { OnOk result (chain.new.items ≡ chain.old.items ++ points_round circle.centre (round_to ccw u v)) }
    ensures stops { MatchResult result
        (λ _. all_inside (points_round circle.centre (round_to ccw u v)) ≡ true)
        (λ e. Stops (points_round circle.centre (round_to ccw u v)) e) }
{
    if is_zero(u) {
        add(chain, circle.centre, v)
    } else {
        let count = last_quarter(ccw, u, v);
        add_pieces(chain, circle, ccw, u, count, v)
    }
}

/// The chain of chords that stands for an arc: its start, the points between in their order, and its end. All are at
/// most 500,000,000 nm in size on each axis.
///
/// # Errors
///
/// `OpenArc` where the distances of the ends from the centre differ by more than 50,000 nm, or one of them is the
/// centre and the other one isn't; else `PastRange` where a point of the chain leaves the range. `Memory` in place of
/// any answer, where it doesn't suffice.
#[tactic(auto, unfolding(crate::specs::Arcs::chain_of))]
pub fn arc_chain(alloc: Global, arc: &Arc) -> Result<Vec<Point>, ArcError>
    requires start { IsPlace (arc.now).start }
    requires end { IsArcPlace (arc.now).end }
    requires centre { IsArcPlace (arc.now).centre }
    ensures value { MatchResult result
        (λ v. chain_of arc.now ≡ Ok v.items)
        (λ e. (e ≡ Memory) ⊎ (chain_of arc.now ≡ Err e)) }
    ensures places { IfOk result (λ v. All IsPlace v.items) }
{
    let u = vector(arc.centre, arc.start);
    let v = vector(arc.centre, arc.end);
    let radius = common_radius(u, v)?;
    let circle = Circle {
        centre: arc.centre,
        radius,
        times: bisections(radius),
    };
    let mut chain = Vec::new(alloc);
    keep(&mut chain, arc.start)?;
    add_arc(&mut chain, circle, arc.ccw, u, v)?;
    Ok(chain)
}
