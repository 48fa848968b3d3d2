//! Reading decimals as whole numbers of a small unit.
ghost use Rattle.std.specs.Prelude.{◌≡◌, MatchResult, IfOk, Ok, Err, ◌+◌, ◌-◌, ◌*◌, ◌^◌, ◌<◌, ◌≤◌, length, take, ◌++◌};
ghost use Rattle.std.specs.Str.Parse.{AllDigits, digits_value_after, digits_value};
ghost use Rattle.fixed_num.specs.Decimal.{fraction_of, IsDecimal, value_at};
ghost use Rattle.fixed_num.specs.Shown.{decimal_shown};
ghost use Rattle.fixed_num.specs.Values.{decimals_used as decimals_used_in, short_of, read_at, cut_at};

use crate::decimal::{DecimalText, SignMark, split_decimal};
use thiserror::Error;

/// Why bytes are no number.
#[derive(Clone, Copy, Debug, PartialEq, Eq, Error)]
pub enum NumError {
    /// The bytes are no decimal.
    #[error("not a number")]
    NotNumber,
    /// More than 18 digits stand before the point.
    #[error("more than 18 digits before the point")]
    TooLong,
    /// A digit past the scale isn't 0.
    #[error("{decimals} decimals are too many")]
    TooFine {
        /// The number of decimals up to the last one that isn't 0.
        decimals: u64,
    },
}

// The number that digits write when they follow those of `start`.
fn number(start: u128, digits: &[u8]) -> u128
    requires start { start < 10 ^ 18 }
    requires few { length digits.now ≤ 18 }
    requires digits { AllDigits 10 digits.now }
    ensures value { result ≡ digits_value_after 10 start digits.now }
    ensures bound { result < (start + 1) * 10 ^ length digits.now }
{
    let mut n = start;
    for b in digits {
        n = n * 10 + (*b - b'0') as u128;
    }
    n
}

// The size of a decimal in units of 10^-scale, without the digits past the scale.
fn size_of(text: &DecimalText<'_>, scale: u32) -> u128
    requires scale { scale ≤ 12 }
    requires short { length (text.now).whole.now ≤ 18 }
    requires digits { IsDecimal (decimal_shown text.now) }
    ensures value { result ≡ digits_value 10 ((text.now).whole.now ++ take scale (fraction_of (decimal_shown text.now)))
        * 10 ^ (scale - length (fraction_of (decimal_shown text.now))) }
    ensures bound { result < 10 ^ 30 }
{
    let decimals = text.decimals();
    let kept = decimals.len().min(scale as usize);
    let whole = number(0, text.whole);
    let cut = number(whole, &decimals[..kept]);
    cut * 10u128.pow(scale - kept as u32)
}

// The value of a decimal in units of 10^-scale, without the digits past the scale.
fn value_of(text: &DecimalText<'_>, scale: u32) -> i128
    requires scale { scale ≤ 12 }
    requires short { length (text.now).whole.now ≤ 18 }
    requires digits { IsDecimal (decimal_shown text.now) }
    ensures { result ≡ value_at scale (decimal_shown text.now) }
{
    let size = size_of(text, scale) as i128;
    match text.sign {
        SignMark::Minus => -size,
        SignMark::Absent | SignMark::Plus => size,
    }
}

// How many digits there are up to the last one that isn't 0.
#[tactic(auto, unfolding(crate::specs::Values::decimals_used))]
fn decimals_used(digits: &[u8]) -> usize
    ensures { result ≡ decimals_used_in digits.now }
{
    let mut used = digits.len();
    while 0 < used && digits[used - 1] == b'0' {
        used -= 1;
    }
    used
}

// The parts of a decimal of at most 18 digits before the point.
#[tactic(auto, unfolding(crate::specs::Values::short_of))]
fn short_decimal(bytes: &[u8]) -> Result<DecimalText<'_>, NumError>
    ensures value { MatchResult result (λ text. short_of bytes.now ≡ Ok (decimal_shown text))
        (λ e. short_of bytes.now ≡ Err e) }
    ensures digits { IfOk result (λ text. IsDecimal (decimal_shown text)) }
    ensures short { IfOk result (λ text. length text.whole.now ≤ 18) }
{
    let Some(text) = split_decimal(bytes) else {
        return Err(NumError::NotNumber);
    };
    if text.whole.len() > 18 {
        return Err(NumError::TooLong);
    }
    Ok(text)
}

/// The value of a decimal in units of 10^-`scale`, as 1,500,000 for `1.5` at scale 6.
///
/// # Errors
///
/// In this order: `NotNumber` where the bytes are no decimal, `TooLong` above 18 digits before the point,
/// `TooFine` where a digit past the scale isn't 0.
#[tactic(auto, unfolding(crate::specs::Values::read_at))]
pub fn read_decimal(bytes: &[u8], scale: u32) -> Result<i128, NumError>
    requires { scale ≤ 12 }
    ensures { MatchResult result (λ v. read_at scale bytes.now ≡ Ok v) (λ e. read_at scale bytes.now ≡ Err e) }
{
    let text = short_decimal(bytes)?;
    let decimals = decimals_used(text.decimals());
    if decimals > scale as usize {
        return Err(NumError::TooFine {
            decimals: decimals as u64,
        });
    }
    Ok(value_of(&text, scale))
}

/// The value of a decimal in units of 10^-`scale`, without the digits past the scale: the value is cut towards
/// zero, as -12 for `-1.29` at scale 1.
///
/// # Errors
///
/// In this order: `NotNumber` where the bytes are no decimal, `TooLong` above 18 digits before the point.
#[tactic(auto, unfolding(crate::specs::Values::cut_at))]
pub fn cut_decimal(bytes: &[u8], scale: u32) -> Result<i128, NumError>
    requires { scale ≤ 12 }
    ensures { MatchResult result (λ v. cut_at scale bytes.now ≡ Ok v) (λ e. cut_at scale bytes.now ≡ Err e) }
{
    let text = short_decimal(bytes)?;
    Ok(value_of(&text, scale))
}
