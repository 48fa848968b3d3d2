//! The units of files in nanometres.
ghost use Rattle.std.specs.Prelude.{◌≡◌, ◌<◌, ◌≤◌, ◌^◌, pos, unsigned_abs};
ghost use Rattle.fixed_num.specs.Units.{unit_size as unit_size_of, nanometres as nanometres_of};

use crate::rounding::round_div;

/// The unit of a file's lengths.
#[derive(Clone, Copy, Debug, PartialEq, Eq)]
pub enum Unit {
    /// Millimetres.
    Mm,
    /// Inches.
    Inch,
}

// The nanometres of a unit.
fn unit_size(unit: Unit) -> i128
    ensures value { result ≡ pos (unit_size_of unit) }
    ensures bound { unit_size_of unit ≤ 25400000 }
{
    match unit {
        Unit::Mm => 1_000_000,
        Unit::Inch => 25_400_000,
    }
}

/// A power of ten.
pub fn power_of_ten(n: u32) -> i128
    requires { n ≤ 12 }
    ensures value { result ≡ pos (10 ^ n) }
    ensures positive { 0 < 10 ^ n }
    ensures bound { 10 ^ n ≤ 1000000000000 }
{
    match n {
        0 => 1,
        1 => 10,
        2 => 100,
        3 => 1_000,
        4 => 10_000,
        5 => 100_000,
        6 => 1_000_000,
        7 => 10_000_000,
        8 => 100_000_000,
        9 => 1_000_000_000,
        10 => 10_000_000_000,
        11 => 100_000_000_000,
        _ => 1_000_000_000_000,
    }
}

/// A number with this many decimals of the unit, to the nearest nanometre.
#[tactic(auto, unfolding(crate::specs::Units::nanometres))]
pub fn nanometres(decimals: u32, unit: Unit, value: i128) -> i128
    requires decimals { decimals ≤ 6 }
    requires value { unsigned_abs value < 10 ^ 30 }
    ensures { result ≡ nanometres_of decimals unit value }
{
    round_div(value * unit_size(unit), power_of_ten(decimals))
}
