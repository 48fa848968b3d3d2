//! The fields of a primitive: sizes, points and numbers of points.
ghost use Rattle.std.specs.Prelude.{◌≡◌, ◌+◌, ◌≤◌, ◌<◌, ◌*ℤ◌, pos, int_le, unsigned_abs, MatchResult, IfOk, Ok, Err};
ghost use Rattle.std.specs.List.{All};
ghost use Rattle.plane_arcs.specs.Vectors.{IsUpTo};
ghost use Rattle.shape_parts.specs.Parts.{IsWidth};
ghost use Rattle.macro_eval.specs.Values.{IsValue as IsMacroValue};
ghost use Rattle.macro_eval.specs.Fields.{field as field_of};
ghost use Rattle.apertures.specs.Texts.{turn_of as turn_of_value};
ghost use Rattle.apertures.specs.Primitives.{length_at as length_at_of, point_in as point_in_of, size_in as size_in_of, count_in as count_in_of, is_on as is_on_of};

use crate::aperture::ApertureError;
use crate::texts::{count_of, size_of, turn_of, width_of};
use board_base::Point;
use fixed_num::{Unit, round_div};

// The value of a field, 0 where it is missing.
pub(crate) fn field(values: &[i128], k: usize) -> i128
    requires { All IsMacroValue values.now }
    ensures value { result ≡ field_of values.now k }
    ensures bound { IsMacroValue result }
{
    if k < values.len() { values[k] } else { 0 }
}

// Whether a primitive is on.
pub(crate) fn is_on(values: &[i128]) -> bool
    requires { All IsMacroValue values.now }
    ensures { result ≡ is_on_of values.now }
{
    1 <= field(values, 0)
}

// A value in 10^-9 of an inch, in 10^-4 nm.
fn from_inches(value: i128) -> i128
    requires { IsMacroValue value }
    ensures value { result ≡ value *ℤ pos 254 }
    ensures size { unsigned_abs result ≤ 254000000000000000000 }
{
    value * 254
}

// A value in 10^-9 of a unit, in whole nanometres.
#[tactic(auto, unfolding(crate::specs::Primitives::length_at))]
fn length_at(value: i128, unit: Unit) -> i64
    requires { IsMacroValue value }
    ensures value { result ≡ length_at_of unit value }
    ensures size { unsigned_abs result ≤ 30000000000000000 }
{
    match unit {
        Unit::Mm => round_div(value, 1_000) as i64,
        Unit::Inch => round_div(from_inches(value), 10_000) as i64,
    }
}

// The point of fields `k` and `k + 1`.
pub(crate) fn point_in(values: &[i128], k: usize, unit: Unit) -> Point
    requires values { All IsMacroValue values.now }
    requires k { k ≤ 20000 }
    ensures value { result ≡ point_in_of unit values.now k }
    ensures size { IsUpTo 30000000000000000 result }
{
    Point {
        x: length_at(field(values, k), unit),
        y: length_at(field(values, k + 1), unit),
    }
}

// The size of field `k`, at most a metre.
pub(crate) fn size_in(values: &[i128], k: usize, unit: Unit) -> Result<i64, ApertureError>
    requires { All IsMacroValue values.now }
    ensures value { MatchResult result (λ d. size_in_of unit values.now k ≡ Ok d) (λ e. size_in_of unit values.now k ≡ Err e) }
    ensures width { IfOk result IsWidth }
{
    let size = size_of(field(values, k))?;
    width_of(size, unit)
}

// The number of points or vertices of field 1, from 3 to `most`.
pub(crate) fn count_in(values: &[i128], most: u64) -> Result<u64, ApertureError>
    requires { All IsMacroValue values.now }
    ensures value { MatchResult result (λ n. count_in_of most values.now ≡ Ok n) (λ e. count_in_of most values.now ≡ Err e) }
    ensures low { IfOk result (λ n. 3 ≤ n) }
    ensures high { IfOk result (λ n. n ≤ most) }
{
    let size = size_of(field(values, 1))?;
    count_of(size, most)
}

// The angle of field `k`, in millionths of a degree in the first turn.
pub(crate) fn turn_in(values: &[i128], k: usize) -> u64
    requires { All IsMacroValue values.now }
    ensures value { result ≡ turn_of_value (field_of values.now k) }
    ensures bound { result < 360000000 }
{
    turn_of(field(values, k))
}
