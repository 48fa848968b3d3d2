// The cells of the lattice round a segment.
ghost use Rattle.std.specs.Prelude.{◌≡◌, ℤ, ℕ, pos, ◌+ℤ◌, ◌-ℤ◌, ◌≤◌, unsigned_abs, true};
ghost use Rattle.std.specs.Int.{int_min, int_max};
ghost use Rattle.board_base.specs.declared.places.Cell.{Cell};
ghost use Rattle.board_base.specs.Places.{IsNearPlace, IsNearCoordinate, IsSpan};
ghost use Rattle.board_base.specs.Near.{near_of};
ghost use Rattle.board_base.specs.Lattice.{IsPitch, IsInBox, IsFirst, IsLast, IsLimit, centre_of};
ghost use Rattle.plane_geom.specs.Reach.{half_cut as half_cut_of};

use board_base::{CellBox, Point, first_at, last_at};

// Half of a width, cut to a whole number.
#[tactic(auto, unfolding(crate::specs::Reach::half_cut))]
fn half_cut(d: i64) -> i64
    requires { IsSpan d }
    ensures value { result ≡ half_cut_of d }
    ensures size { unsigned_abs result ≤ 2000000000 }
{
    d.div_euclid(2)
}

// The lesser of two coordinates.
fn least(a: i64, b: i64) -> i64
    requires a { IsNearCoordinate a }
    requires b { IsNearCoordinate b }
    ensures value { result ≡ int_min a b }
    ensures inside { IsNearCoordinate result }
{
    if b < a { b } else { a }
}

// The greater of two coordinates.
fn greatest(a: i64, b: i64) -> i64
    requires a { IsNearCoordinate a }
    requires b { IsNearCoordinate b }
    ensures value { result ≡ int_max a b }
    ensures inside { IsNearCoordinate result }
{
    if b < a { a } else { b }
}

// Half of `d` before both ends.
fn before(a: i64, b: i64, d: i64) -> i64
    requires a { IsNearCoordinate a }
    requires b { IsNearCoordinate b }
    requires d { IsSpan d }
    ensures value { result ≡ int_min a b -ℤ half_cut_of d }
    ensures size { IsLimit result }
{
    least(a, b) - half_cut(d)
}

// Half of `d` past both ends.
fn behind(a: i64, b: i64, d: i64) -> i64
    requires a { IsNearCoordinate a }
    requires b { IsNearCoordinate b }
    requires d { IsSpan d }
    ensures value { result ≡ int_max a b +ℤ half_cut_of d }
    ensures size { IsLimit result }
{
    greatest(a, b) + half_cut(d)
}

// The first column or row from half of `d` before both ends on.
fn first_of(a: i64, b: i64, d: i64, pitch: i64) -> i32
    requires a { IsNearCoordinate a }
    requires b { IsNearCoordinate b }
    requires d { IsSpan d }
    requires pitch { IsPitch pitch }
    ensures { IsFirst pitch (int_min a b -ℤ half_cut_of d) result }
{
    first_at(before(a, b, d), pitch)
}

// The last column or row up to half of `d` past both ends.
fn last_of(a: i64, b: i64, d: i64, pitch: i64) -> i32
    requires a { IsNearCoordinate a }
    requires b { IsNearCoordinate b }
    requires d { IsSpan d }
    requires pitch { IsPitch pitch }
    ensures { IsLast pitch (int_max a b +ℤ half_cut_of d) result }
{
    last_at(behind(a, b, d), pitch)
}

/// The cells round the segment `ab`, from the first column and row whose middle is at most half of
/// `d` before both ends to the last whose middle is at most half of `d` past them; there may be none.
/// Each cell whose centre is near `ab` with `d` is one of them. Lengths are in nanometres.
pub fn reach(a: Point, b: Point, d: i64, pitch: i64) -> CellBox
    requires a { IsNearPlace a }
    requires b { IsNearPlace b }
    requires d { IsSpan d }
    requires pitch { IsPitch pitch }
    ensures holds { (c : Cell) → near_of (centre_of pitch c) a b d ≡ true → IsInBox result c }
    ensures west { IsFirst pitch (int_min a.x b.x -ℤ half_cut_of d) result.i0 }
    ensures south { IsFirst pitch (int_min a.y b.y -ℤ half_cut_of d) result.j0 }
    ensures east { IsLast pitch (int_max a.x b.x +ℤ half_cut_of d) result.i1 }
    ensures north { IsLast pitch (int_max a.y b.y +ℤ half_cut_of d) result.j1 }
{
    let i0 = first_of(a.x, b.x, d, pitch);
    let j0 = first_of(a.y, b.y, d, pitch);
    let i1 = last_of(a.x, b.x, d, pitch);
    let j1 = last_of(a.y, b.y, d, pitch);
    CellBox { i0, j0, i1, j1 }
}
