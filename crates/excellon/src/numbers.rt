// Coordinates and diameters in nanometres, and tests of two facts.
ghost use Rattle.std.specs.Prelude.{◌≡◌, ◌<◌, ◌≤◌, ◌^◌, pos, ◌≤ℤ◌, MatchOption, Some, None, ◌&&◌, unwrap_or, unsigned_abs, IfSome, true, false};
ghost use Rattle.board_base.specs.Places.{IsPlace};
ghost use Rattle.plane_arcs.specs.Turned.{is_far};
ghost use Rattle.excellon.specs.Fits.{IsFormat, IsWritten};
ghost use Rattle.excellon.specs.Numbers.{length_of, filled as filled_of, coordinate_of, format_in};
ghost use Rattle.excellon.specs.InForce.{said_coordinate};

use crate::line::{Coordinate, Format};
use board_base::Point;
use fixed_num::{Unit, nanometres, power_of_ten, round_div};
use plane_arcs::point_at;

/// A number in 10^-9 of a unit, to the nearest nanometre.
#[tactic(auto, unfolding(crate::specs::Numbers::length_of))]
pub fn length(unit: Unit, value: i128) -> i128
    requires { unsigned_abs value < 10 ^ 30 }
    ensures value { result ≡ length_of unit value }
    ensures low { pos 0 ≤ℤ value → pos 0 ≤ℤ result }
{
    match unit {
        Unit::Mm => round_div(value, 1_000),
        Unit::Inch => round_div(value * 254, 10_000),
    }
}

// The number of digits, with zeros on the right where they are filled so.
#[tactic(auto, unfolding(crate::specs::Numbers::filled))]
fn filled(format: Format, fills: bool, count: usize, value: i64) -> i128
    requires format { IsFormat format }
    requires value { unsigned_abs value < 10 ^ 18 }
    ensures value { result ≡ filled_of format fills count value }
    ensures size { unsigned_abs result < 10 ^ 30 }
{
    if !fills {
        return value as i128;
    }
    let digits = (format.whole + format.decimals) as usize;
    value as i128 * power_of_ten(digits.saturating_sub(count) as u32)
}

// A coordinate.
fn coordinate(unit: Unit, format: Format, fills: bool, written: Coordinate) -> i128
    requires format { IsFormat format }
    requires written { IsWritten written }
    ensures { result ≡ coordinate_of unit format fills written }
{
    match written {
        Coordinate::Decimal { value } => length(unit, value),
        Coordinate::Digits { count, value } => {
            nanometres(format.decimals, unit, filled(format, fills, count, value))
        }
    }
}

/// The digits of coordinates: those that are set, or those of the unit.
pub fn format_or_default(unit: Option<Unit>, format: Option<Format>) -> Format
    requires { IfSome format IsFormat }
    ensures value { result ≡ format_in unit format }
    ensures fits { IsFormat result }
{
    match (unit, format) {
        (_, Some(format)) => format,
        (Some(Unit::Inch), None) => Format {
            whole: 2,
            decimals: 4,
        },
        _ => Format {
            whole: 3,
            decimals: 3,
        },
    }
}

/// The coordinate that is written; `last` where there is none, or no unit.
pub fn coordinate_or(
    unit: Option<Unit>,
    format: Option<Format>,
    fills: bool,
    written: Option<Coordinate>,
    last: i128,
) -> i128
    requires format { IfSome format IsFormat }
    requires written { IfSome written IsWritten }
    ensures { result ≡ unwrap_or (said_coordinate unit format fills written) last }
{
    match (unit, written) {
        (Some(unit), Some(written)) => {
            coordinate(unit, format_or_default(Some(unit), format), fills, written)
        }
        _ => last,
    }
}

/// The point with these coordinates, where they are in the range.
#[tactic(auto, using(crate::proofs::PlaceLaws::point_law))]
pub fn point(x: i128, y: i128) -> Option<Point>
    ensures { MatchOption result (is_far (record { x = x; y = y }) ≡ true)
        (λ p. (is_far (record { x = x; y = y }) ≡ false) × (p ≡ record { x = x; y = y }) × IsPlace p) }
{
    point_at(x, y)
}

/// Both facts.
pub fn both(a: bool, b: bool) -> bool
    ensures { result ≡ (a && b) }
{
    a && b
}
