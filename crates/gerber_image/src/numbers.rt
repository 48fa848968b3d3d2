// Coordinates in nanometres, and tests of two facts.
ghost use Rattle.std.specs.Prelude.{◌≡◌, ◌<◌, ◌≤◌, ◌^◌, ◌*◌, pos, MatchOption, Some, None, ◌&&◌, ◌||◌, unwrap_or, unsigned_abs, IfSome, ⊤, true, false};
ghost use Rattle.apertures.specs.Texts.{IsSize};
ghost use Rattle.board_base.specs.Places.{IsPlace};
ghost use Rattle.apertures.specs.Defined.{at};
ghost use Rattle.fixed_num.specs.Units.{nanometres as nanometres_of};
ghost use Rattle.plane_arcs.specs.Turned.{is_far as is_far_of};
ghost use Rattle.gerber_image.specs.Checks.{is_long};
ghost use Rattle.gerber_words.specs.Fits.{IsAxisFormat, IsFormat, IsWritten};
ghost use Rattle.gerber_image.specs.InForce.{x_format as x_format_of, y_format as y_format_of, coordinate_of, step_length as step_length_of};

use apertures::{Unit, length_of};
use board_base::Point;
use fixed_num::nanometres;
use gerber_words::{AxisFormat, Digits, Format};
use plane_arcs::point_at;

/// The digits of X and I by a format.
pub fn x_format(format: Option<Format>) -> Option<AxisFormat>
    requires { IfSome format IsFormat }
    ensures value { result ≡ x_format_of format }
    ensures fits { IfSome result IsAxisFormat }
{
    match format {
        Some(format) => Some(format.x),
        None => None,
    }
}

/// The digits of Y and J.
pub fn y_format(format: Option<Format>) -> Option<AxisFormat>
    requires { IfSome format IsFormat }
    ensures value { result ≡ y_format_of format }
    ensures fits { IfSome result IsAxisFormat }
{
    match format {
        Some(format) => Some(format.y),
        None => None,
    }
}

// Where digits lead by the format of their axis and a unit, in nanometres: no further than 25,400,000,000,000 where the format has them.
fn written(format: AxisFormat, unit: Unit, digits: Digits) -> i128
    requires whole { format.integer_digits ≤ 6 }
    requires decimals { format.decimal_digits ≤ 6 }
    ensures value { result ≡ nanometres_of format.decimal_digits unit digits.value }
    ensures size { IsWritten digits → is_long (Some format) (Some digits) ≡ false → unsigned_abs result ≤ 25400000000000 }
{
    nanometres(format.decimal_digits, unit, digits.value as i128)
}

/// Where digits lead by the format of their axis and the unit, in nanometres; without one of them it is `last`. Digits that the format
/// has lead no further than 25,400,000,000,000 nm.
pub fn coordinate(
    format: Option<AxisFormat>,
    unit: Option<Unit>,
    digits: Option<Digits>,
    last: i64,
) -> i128
    requires { IfSome format IsAxisFormat }
    ensures value { result ≡ unwrap_or (coordinate_of format unit digits) last }
    ensures size { IfSome digits IsWritten → is_long format digits ≡ false → unsigned_abs last ≤ 500000000 → unsigned_abs result ≤ 25400000000000 }
{
    match (format, unit, digits) {
        (Some(format), Some(unit), Some(digits)) => written(format, unit, digits),
        _ => last as i128,
    }
}

// A length that fits.
fn short(v: i128) -> i64
    requires { unsigned_abs v ≤ 25400000000000 }
    ensures value { result ≡ v }
    ensures size { unsigned_abs result ≤ 25400000000000 }
{
    v as i64
}

/// The same of digits that the format has, from a place or from nothing.
pub fn short_coordinate(
    format: Option<AxisFormat>,
    unit: Option<Unit>,
    digits: Option<Digits>,
    last: i64,
) -> i64
    requires format { IfSome format IsAxisFormat }
    requires written { IfSome digits IsWritten }
    requires few { is_long format digits ≡ false }
    requires last { unsigned_abs last ≤ 500000000 }
    ensures value { result ≡ unwrap_or (coordinate_of format unit digits) last }
    ensures size { unsigned_abs result ≤ 25400000000000 }
{
    short(coordinate(format, unit, digits, last))
}

/// A step in 10^-9 of the unit, in whole nanometres.
#[tactic(auto, using(crate::proofs::PlaceLaws::step_bound))]
pub fn step_length(unit: Unit, step: u128) -> u128
    requires { IsSize step }
    ensures value { result ≡ step_length_of unit step }
    ensures bound { result < 2 ^ 110 }
{
    length_of(step, unit) as u128
}

/// The point with these coordinates, where they are in the range.
#[tactic(auto, using(crate::proofs::PlaceLaws::point_law))]
pub fn point(x: i128, y: i128) -> Option<Point>
    ensures { MatchOption result (is_far_of (at x y) ≡ true) (λ p. (is_far_of (at x y) ≡ false) × (p ≡ at x y) × IsPlace p) }
{
    point_at(x, y)
}

/// Whether a point is past the range.
#[tactic(auto, unfolding(plane_arcs::specs::Turned::in_range))]
pub fn is_far(p: Point) -> bool
    ensures { result ≡ is_far_of p }
{
    !(p.x.unsigned_abs() <= 500_000_000 && p.y.unsigned_abs() <= 500_000_000)
}

/// Both facts.
pub fn both(a: bool, b: bool) -> bool
    ensures { result ≡ (a && b) }
{
    a && b
}

/// One of the facts.
pub fn either(a: bool, b: bool) -> bool
    ensures { result ≡ (a || b) }
{
    a || b
}
