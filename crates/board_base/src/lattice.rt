// Cells, their centres, the half of their diagonal, and the columns and rows on one side of a limit.
ghost use Rattle.std.specs.Prelude.{◌≡◌, ℤ, ℕ, pos, neg_ℤ, ◌+ℤ◌, ◌-ℤ◌, ◌*ℤ◌, ◌≤ℤ◌, ◌<ℤ◌, ◌<◌, ◌≤◌, ◌+◌, ◌-◌, ◌*◌, ◌^◌, ◌/◌, unsigned_abs};
ghost use Rattle.board_base.specs.Lattice.{half_of, middle as middle_of, centre_of, IsPitch, IsHalfDiagonal, half_diagonal_of, least_diagonal, IsLimit, most_index, IsFirst, IsLast, IsQuotient};

use crate::{Cell, Point};

// The least whole number whose square, taken twice, is no less than the square of an even `p`.
fn diagonal(p: u64) -> u64
    requires even { p ≡ 2 * (p / 2) }
    requires low { 0 < p }
    requires high { p ≤ 200000 }
    ensures value { result ≡ least_diagonal p }
    ensures positive { 0 < result }
    ensures enough { p * p ≤ 2 * (result * result) }
    ensures least { 2 * ((result - 1) * (result - 1)) < p * p }
    ensures high { result ≤ p }
{
    (p * p / 2 - 1).isqrt() + 1
}

/// The least whole number whose square, taken twice, is no less than the square of the pitch.
#[tactic(auto, unfolding(crate::specs::Lattice::half_diagonal_of))]
pub fn half_diagonal(pitch: i64) -> i64
    requires { IsPitch pitch }
    ensures value { result ≡ half_diagonal_of pitch }
    ensures diagonal { IsHalfDiagonal pitch result }
    ensures high { result ≤ℤ pos 200000 }
{
    diagonal(pitch as u64) as i64
}

// The product, where it fits.
fn times(a: i64, b: i64) -> i64
    requires { unsigned_abs a * unsigned_abs b < 2 ^ 62 }
    ensures value { result ≡ a *ℤ b }
    ensures size { unsigned_abs result ≡ unsigned_abs a * unsigned_abs b }
{
    a * b
}

#[tactic(auto, unfolding(crate::specs::Lattice::half_of))]
fn half(pitch: i64) -> i64
    requires { IsPitch pitch }
    ensures value { result ≡ half_of pitch }
    ensures size { unsigned_abs result ≤ 200000 }
{
    pitch.div_euclid(2)
}

// From the start of the lattice to the row or column `i`.
fn start(i: i32, pitch: i64) -> i64
    requires { IsPitch pitch }
    ensures value { result ≡ i *ℤ pitch }
    ensures size { unsigned_abs result ≤ 429496729600000 }
{
    times(i as i64, pitch)
}

#[tactic(auto, unfolding(crate::specs::Lattice::middle))]
fn middle(i: i32, pitch: i64) -> i64
    requires { IsPitch pitch }
    ensures { result ≡ middle_of pitch i }
{
    start(i, pitch) + half(pitch)
}

/// The centre of a cell.
pub fn centre(c: Cell, pitch: i64) -> Point
    requires { IsPitch pitch }
    ensures { result ≡ centre_of pitch c }
{
    Point {
        x: middle(c.i, pitch),
        y: middle(c.j, pitch),
    }
}

// The quotient by the pitch, rounded down.
fn quotient(n: i64, pitch: i64) -> i64
    requires n { unsigned_abs n ≤ 3000200000 }
    requires pitch { IsPitch pitch }
    ensures value { IsQuotient n pitch result }
    ensures size { unsigned_abs result ≤ most_index }
{
    n.div_euclid(pitch)
}

// The way from a limit to half a cell past the origin.
fn way_back(limit: i64, pitch: i64) -> i64
    requires limit { IsLimit limit }
    requires pitch { IsPitch pitch }
    ensures value { result ≡ half_of pitch -ℤ limit }
    ensures size { unsigned_abs result ≤ 3000200000 }
{
    half(pitch) - limit
}

// The way from half a cell past the origin to a limit.
fn way_to(limit: i64, pitch: i64) -> i64
    requires limit { IsLimit limit }
    requires pitch { IsPitch pitch }
    ensures value { result ≡ limit -ℤ half_of pitch }
    ensures size { unsigned_abs result ≤ 3000200000 }
{
    limit - half(pitch)
}

// A number of columns or rows as an index, the other way.
fn turned(n: i64) -> i32
    requires { unsigned_abs n ≤ most_index }
    ensures value { result ≡ neg_ℤ n }
    ensures size { unsigned_abs result ≤ most_index }
{
    -(n as i32)
}

// A number of columns or rows as an index.
fn index(n: i64) -> i32
    requires { unsigned_abs n ≤ most_index }
    ensures value { result ≡ n }
    ensures size { unsigned_abs result ≤ most_index }
{
    n as i32
}

/// The first column or row whose middle is at the limit or past it. Lengths are in nanometres.
pub fn first_at(limit: i64, pitch: i64) -> i32
    requires limit { IsLimit limit }
    requires pitch { IsPitch pitch }
    ensures first { IsFirst pitch limit result }
    ensures size { unsigned_abs result ≤ most_index }
{
    let n = way_back(limit, pitch);
    turned(quotient(n, pitch))
}

/// The last column or row whose middle is at the limit or before it. Lengths are in nanometres.
pub fn last_at(limit: i64, pitch: i64) -> i32
    requires limit { IsLimit limit }
    requires pitch { IsPitch pitch }
    ensures last { IsLast pitch limit result }
    ensures size { unsigned_abs result ≤ most_index }
{
    let n = way_to(limit, pitch);
    index(quotient(n, pitch))
}
