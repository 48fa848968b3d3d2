// Digits of tools and coordinates.
ghost use Rattle.std.specs.Prelude.{◌≡◌, ◌<◌, ◌≤◌, ◌^◌, ◌*◌, length, drop, MatchOption, Some, None, true, not, ◌||◌, ◌&&◌, ◌==◌, pos, neg_ℤ, unsigned_abs, IfSome};
ghost use Rattle.std.specs.Char.{is_ascii_digit};
ghost use Rattle.std.specs.List.{list_all, list_any, position, position_or_len};
ghost use Rattle.std.specs.Str.Parse.{AllDigits, digits_value, digits_value_after};
ghost use Rattle.fixed_num.specs.Decimal.{signed};
ghost use Rattle.fixed_num.specs.Spelled.{sign_of, behind_sign as behind_sign_in, is_point};
ghost use Rattle.fixed_num.specs.Numerals.{is_numeral as is_numeral_in, short_value as short_value_of};
ghost use Rattle.fixed_num.specs.Values.{is_zero};
ghost use Rattle.excellon.specs.Numerals.{without_zeros as without_zeros_in, tool_number as tool_number_of, is_number_byte as is_number_byte_in, number_before as number_before_in, decimal_in, digits_of, coordinate_in};
ghost use Rattle.excellon.specs.Fits.{IsWritten};

use crate::line::Coordinate;
use fixed_num::cut_decimal;

// Whether these are digits alone.
fn are_digits(text: &[u8]) -> bool
    ensures { result ≡ list_all is_ascii_digit text.now }
{
    text.iter().all(|b| b.is_ascii_digit())
}

// Whether these are digits alone, and at least one.
fn is_numeral(text: &[u8]) -> bool
    ensures value { result ≡ is_numeral_in text.now }
    ensures digits { result ≡ true → AllDigits 10 text.now }
{
    0 < text.len() && are_digits(text)
}

// The number that digits write.
fn value_of(digits: &[u8]) -> u64
    requires digits { AllDigits 10 digits.now }
    requires few { length digits.now ≤ 18 }
    ensures value { result ≡ digits_value 10 digits.now }
    ensures written { result < 10 ^ length digits.now }
    ensures bound { result < 10 ^ 18 }
{
    let mut n: u64 = 0;
    for b in digits {
        n = n * 10 + (*b - b'0') as u64;
    }
    n
}

// The number of at most 18 digits, or 0.
#[tactic(auto, unfolding(fixed_num::specs::Numerals::short_value))]
fn short_value(digits: &[u8]) -> u64
    requires { AllDigits 10 digits.now }
    ensures value { result ≡ short_value_of digits.now }
    ensures bound { result < 10 ^ 18 }
    ensures written { result < 10 ^ length digits.now }
{
    if digits.len() <= 18 {
        value_of(digits)
    } else {
        0
    }
}

// A number with the sign of a text.
fn with_sign(text: &[u8], n: u64) -> i64
    requires { n < 10 ^ 18 }
    ensures value { result ≡ signed (sign_of text.now) n }
    ensures size { unsigned_abs result ≡ n }
{
    match text {
        [b'-', ..] => -(n as i64),
        _ => n as i64,
    }
}

// What stands behind the sign of a text.
fn behind_sign(text: &[u8]) -> &[u8]
    ensures { result.now ≡ behind_sign_in text.now }
{
    match text {
        [b'+', rest @ ..] => rest,
        [b'-', rest @ ..] => rest,
        _ => text,
    }
}

// The place of the first digit that isn't 0.
fn first_other(digits: &[u8]) -> Option<usize>
    ensures { result ≡ position (λ b. not (is_zero b)) digits.now }
{
    digits.iter().position(|b| *b != b'0')
}

// How many zeros stand in front.
#[tactic(auto, using(text_cut::proofs::PositionLaws::none_is_end))]
fn zeros_before(digits: &[u8]) -> usize
    ensures value { result ≡ position_or_len (λ b. not (is_zero b)) digits.now }
    ensures within { result ≤ length digits.now }
{
    match first_other(digits) {
        Some(i) => i,
        None => digits.len(),
    }
}

// The digits behind the leading zeros.
#[tactic(auto, unfolding(crate::specs::Numerals::without_zeros))]
fn without_zeros(digits: &[u8]) -> &[u8]
    ensures { result.now ≡ without_zeros_in digits.now }
{
    &digits[zeros_before(digits)..]
}

// The number of at most four digits.
fn small_number(digits: &[u8]) -> u32
    requires digits { AllDigits 10 digits.now }
    requires few { length digits.now ≤ 4 }
    ensures { result ≡ short_value_of digits.now }
{
    short_value(digits) as u32
}

/// The number of a tool: at most four digits behind the leading zeros.
#[tactic(auto, unfolding(crate::specs::Numerals::tool_number))]
pub fn tool_number(text: &[u8]) -> Option<u32>
    ensures { result ≡ tool_number_of text.now }
{
    if !is_numeral(text) {
        return None;
    }
    let digits = without_zeros(text);
    if 4 < digits.len() {
        return None;
    }
    Some(small_number(digits))
}

/// A digit, a sign or the point.
pub fn is_number_byte(b: u8) -> bool
    ensures { result ≡ is_number_byte_in b }
{
    b.is_ascii_digit() || b == b'+' || b == b'-' || b == b'.'
}

// The place of the first byte that is none of these.
fn first_letter(text: &[u8]) -> Option<usize>
    ensures { result ≡ position (λ b. not (is_number_byte_in b)) text.now }
{
    text.iter().position(|b| !is_number_byte(*b))
}

/// How many digits, signs and points stand in front.
#[tactic(auto, using(text_cut::proofs::PositionLaws::none_is_end), unfolding(crate::specs::Numerals::number_before))]
pub fn number_before(text: &[u8]) -> usize
    ensures value { result ≡ number_before_in text.now }
    ensures within { result ≤ length text.now }
{
    match first_letter(text) {
        Some(i) => i,
        None => text.len(),
    }
}

/// The number that a decimal writes, in 10^-9, cut.
#[tactic(auto, unfolding(crate::specs::Numerals::decimal_in))]
pub fn decimal(text: &[u8]) -> Option<i128>
    ensures value { result ≡ decimal_in text.now }
    ensures bound { IfSome result (λ value. unsigned_abs value < 10 ^ 30) }
{
    match cut_decimal(text, 9) {
        Ok(value) => Some(value),
        Err(_) => None,
    }
}

// An optional sign and digits.
#[tactic(auto, unfolding(crate::specs::Numerals::digits_of))]
fn digits(text: &[u8]) -> Option<Coordinate>
    ensures value { result ≡ digits_of text.now }
    ensures written { IfSome result IsWritten }
{
    let rest = behind_sign(text);
    if !is_numeral(rest) {
        return None;
    }
    Some(Coordinate::Digits {
        count: rest.len(),
        value: with_sign(text, short_value(rest)),
    })
}

// Whether a point is among these.
fn has_point(text: &[u8]) -> bool
    ensures { result ≡ list_any is_point text.now }
{
    text.iter().any(|b| *b == b'.')
}

/// A coordinate, with a point or without one.
#[tactic(auto, unfolding(crate::specs::Numerals::coordinate_in))]
pub fn coordinate(text: &[u8]) -> Option<Coordinate>
    ensures value { result ≡ coordinate_in text.now }
    ensures written { IfSome result IsWritten }
{
    if has_point(text) {
        let value = decimal(text)?;
        Some(Coordinate::Decimal { value })
    } else {
        digits(text)
    }
}
