//! Numbers as files write them: decimals of any scale, lengths in a unit, and millionths with six decimals; and the
//! roots, rounded quotients and sines that stand for real ones. Whole numbers alone, with no floating point. Readers
//! and writers of every format stand on it, so a format's own rules don't belong here.
#![tactic(auto)]

ghost use Rattle.fixed_num.specs.Sizes.{SizeLaw};
ghost use Rattle.fixed_num.specs.Spelled.{DecimalLaw};
ghost use Rattle.fixed_num.specs.Turns.{TurnLaw};
ghost use Rattle.fixed_num.specs.Values.{UsedLaw};

mod angles;
mod decimal;
mod fixed;
mod number;
mod rounding;
mod units;

pub use angles::{cosine, sine};
pub use decimal::{DecimalText, SignMark, split_decimal};
pub use fixed::write_fixed6;
pub use number::{NumError, cut_decimal, read_decimal};
pub use rounding::{isqrt, round_div};
pub use units::{Unit, nanometres, power_of_ten};

/// Bytes spell the decimals whose text they are, and no others.
pub fn decimal_law()
    ensures { DecimalLaw }
{}

/// No digit past a scale but zeros stands behind the point where no more digits than that are used.
pub fn used_law()
    ensures { UsedLaw }
{}

/// The numbers that `cut_decimal` gives are below 10^30 in size.
pub fn size_law()
    ensures { SizeLaw }
{}

/// Sine and cosine are exact at multiples of 90 degrees, and a quarter more turns them round.
pub fn turn_law()
    ensures { TurnLaw }
{}
