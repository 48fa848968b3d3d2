// How low and how deep moves are.
ghost use Rattle.std.specs.Prelude.{◌≡◌, ◌↔◌, ◌+◌, ◌<◌, ◌≤◌, ◌^◌, ◌+ℤ◌, ◌*ℤ◌, ◌<ℤ◌, ◌≤ℤ◌, unsigned_abs, IsTrue, IfSome};
ghost use Rattle.rs274_sim.specs.Cutter.{nanometre, IsLow};
ghost use Rattle.mill_program.specs.Probes.{answer_of, surface_of, surface};
ghost use Rattle.program_check.specs.Deep.{point_under, IsDeepAt, IsDeepOver};
ghost use Rattle.side_check.specs.Surfaces.{IsProbed};

use board_base::{Move, Point, Pos};
use mill_program::{ProbeGrid, weights_at};

// A nanometre, in the units of a machine's position.
const NANOMETRE: i64 = 1_000_000;

/// The point under a position.
pub(crate) fn under(p: Pos) -> Point
    ensures { result ≡ point_under p }
{
    Point {
        x: p.x.div_euclid(NANOMETRE),
        y: p.y.div_euclid(NANOMETRE),
    }
}

// A height in nanometres, in the units of a machine's position.
fn height_of(z: i64) -> i128
    ensures value { result ≡ z *ℤ nanometre }
    ensures size { unsigned_abs result ≤ 9223372036854775808000000 }
{
    z as i128 * NANOMETRE as i128
}

// Whether a height is below another one, which is in nanometres.
fn is_below(z: i64, safe: i64) -> bool
    ensures { IsTrue result ↔ z <ℤ (safe *ℤ nanometre) }
{
    (z as i128) < height_of(safe)
}

/// Whether the spindle turns and an end of a move is below a height in nanometres.
pub(crate) fn is_low(m: &Move, safe: i64) -> bool
    ensures { IsTrue result ↔ IsLow (safe *ℤ nanometre) m.now }
{
    if !m.turning {
        return false;
    }
    if is_below(m.from.z, safe) {
        return true;
    }
    is_below(m.to.z, safe)
}

// The answer of a probe, or 0 where there is none.
fn answer(answers: &Vec<i64>, k: u32) -> i64
    ensures { result ≡ answer_of (answers.now).items k }
{
    match answers.get(k as usize) {
        Some(answer) => *answer,
        None => 0,
    }
}

// So many millionths of an answer.
fn share(weight: i64, answer: i64) -> i128
    requires { unsigned_abs weight ≤ 1000000 }
    ensures value { result ≡ weight *ℤ answer }
    ensures size { unsigned_abs result ≤ 9223372036854775808000000 }
{
    weight as i128 * answer as i128
}

// The sum, where it fits.
fn plus(a: i128, b: i128) -> i128
    requires { unsigned_abs a + unsigned_abs b < 2 ^ 127 }
    ensures value { result ≡ a +ℤ b }
    ensures size { unsigned_abs result ≤ unsigned_abs a + unsigned_abs b }
{
    a + b
}

// The sum of four shares.
fn total(a: i128, b: i128, c: i128, d: i128) -> i128
    requires a { unsigned_abs a ≤ 9223372036854775808000000 }
    requires b { unsigned_abs b ≤ 9223372036854775808000000 }
    requires c { unsigned_abs c ≤ 9223372036854775808000000 }
    requires d { unsigned_abs d ≤ 9223372036854775808000000 }
    ensures value { result ≡ a +ℤ (b +ℤ (c +ℤ d)) }
    ensures size { unsigned_abs result ≤ 36893488147419103232000000 }
{
    plus(a, plus(b, plus(c, d)))
}

// The surface that the answers of a grid's probes give at a point.
fn surface_by(grid: &ProbeGrid, answers: &Vec<i64>, q: Point) -> i128
    requires { IsProbed grid.now }
    ensures value { result ≡ surface_of grid.now (answers.now).items q }
    ensures size { unsigned_abs result ≤ 36893488147419103232000000 }
{
    let weights = weights_at(grid, q);
    let first = weights.first;
    total(
        share(weights.w[0], answer(answers, first)),
        share(weights.w[1], answer(answers, first + 1)),
        share(weights.w[2], answer(answers, first + grid.nx)),
        share(weights.w[3], answer(answers, first + grid.nx + 1)),
    )
}

// The surface at a point; it is flat where nothing is probed.
fn surface_at(grid: &Option<ProbeGrid>, answers: &Vec<i64>, q: Point) -> i128
    requires { IfSome grid.now IsProbed }
    ensures value { result ≡ surface grid.now (answers.now).items q }
    ensures size { unsigned_abs result ≤ 36893488147419103232000000 }
{
    match grid {
        Some(grid) => surface_by(grid, answers, q),
        None => 0,
    }
}

// The height in a machine's units down to which copper is milled at a place.
fn deep_limit(grid: &Option<ProbeGrid>, answers: &Vec<i64>, work: i64, p: Pos) -> i128
    requires { IfSome grid.now IsProbed }
    ensures { result ≡ work *ℤ nanometre +ℤ surface grid.now (answers.now).items (point_under p) }
{
    plus(height_of(work), surface_at(grid, answers, under(p)))
}

// Whether a height is no higher than a limit.
fn is_within(z: i64, limit: i128) -> bool
    ensures { IsTrue result ↔ z ≤ℤ limit }
{
    z as i128 <= limit
}

// Whether a position is at the depth of work over the surface, or below.
fn is_deep_at(grid: &Option<ProbeGrid>, answers: &Vec<i64>, work: i64, p: Pos) -> bool
    requires { IfSome grid.now IsProbed }
    ensures { IsTrue result ↔ IsDeepAt (surface grid.now (answers.now).items) work p }
{
    is_within(p.z, deep_limit(grid, answers, work, p))
}

/// Whether the spindle turns and both ends of a move are at the depth of work over the surface, or below.
pub(crate) fn is_deep(grid: &Option<ProbeGrid>, answers: &Vec<i64>, work: i64, m: &Move) -> bool
    requires { IfSome grid.now IsProbed }
    ensures { IsTrue result ↔ IsDeepOver (surface grid.now (answers.now).items) work m.now }
{
    if !m.turning {
        return false;
    }
    if !is_deep_at(grid, answers, work, m.from) {
        return false;
    }
    is_deep_at(grid, answers, work, m.to)
}
