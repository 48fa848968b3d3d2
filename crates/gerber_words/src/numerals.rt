// Digits of numbers and coordinates.
ghost use Rattle.std.specs.Prelude.{◌≡◌, ◌<◌, ◌≤◌, ◌^◌, ◌*◌, length, MatchOption, Some, None, true, not, ◌||◌, ◌==◌, pos, neg_ℤ, unsigned_abs, IfSome};
ghost use Rattle.std.specs.Char.{is_ascii_digit};
ghost use Rattle.std.specs.List.{list_all, position};
ghost use Rattle.std.specs.Str.Parse.{AllDigits, digits_value, digits_value_after};
ghost use Rattle.fixed_num.specs.Decimal.{signed};
ghost use Rattle.fixed_num.specs.Spelled.{sign_of, behind_sign as behind_sign_in};
ghost use Rattle.fixed_num.specs.Numerals.{is_numeral as is_numeral_in, short_value as short_value_of};
ghost use Rattle.gerber_words.specs.Numerals.{number_of, digits_of, is_signed_digit as is_signed_digit_in, signed_before as signed_before_in};
ghost use Rattle.gerber_words.specs.Fits.{IsWritten};

use crate::commands::Digits;

// Whether these are digits alone.
fn are_digits(text: &[u8]) -> bool
    ensures { result ≡ list_all is_ascii_digit text.now }
{
    text.iter().all(|b| b.is_ascii_digit())
}

/// Whether these are digits alone, and at least one.
pub fn is_numeral(text: &[u8]) -> bool
    ensures value { result ≡ is_numeral_in text.now }
    ensures digits { result ≡ true → AllDigits 10 text.now }
{
    0 < text.len() && are_digits(text)
}

// The number that digits write.
fn value_of(digits: &[u8]) -> u64
    requires digits { AllDigits 10 digits.now }
    requires few { length digits.now ≤ 18 }
    ensures value { result ≡ digits_value 10 digits.now }
    ensures bound { result < 10 ^ 18 }
    ensures written { result < 10 ^ length digits.now }
{
    let mut n: u64 = 0;
    for b in digits {
        n = n * 10 + (*b - b'0') as u64;
    }
    n
}

// The number of at most 18 digits, or 0.
#[tactic(auto, unfolding(fixed_num::specs::Numerals::short_value))]
fn short_value(digits: &[u8]) -> u64
    requires { AllDigits 10 digits.now }
    ensures value { result ≡ short_value_of digits.now }
    ensures bound { result < 10 ^ 18 }
    ensures written { result < 10 ^ length digits.now }
{
    if digits.len() <= 18 {
        value_of(digits)
    } else {
        0
    }
}

/// The number that at most 18 digits write.
#[tactic(auto, unfolding(crate::specs::Numerals::number_of))]
pub fn number(text: &[u8]) -> Option<u64>
    ensures { MatchOption result (number_of text.now ≡ None)
        (λ n. (number_of text.now ≡ Some n) × (n < 10 ^ 18)) }
{
    if !is_numeral(text) {
        return None;
    }
    if 18 < text.len() {
        return None;
    }
    Some(short_value(text))
}

// A number with the sign of a text.
fn with_sign(text: &[u8], n: u64) -> i64
    requires { n < 10 ^ 18 }
    ensures value { result ≡ signed (sign_of text.now) n }
    ensures size { unsigned_abs result ≡ n }
{
    match text {
        [b'-', ..] => -(n as i64),
        _ => n as i64,
    }
}

// What stands behind the sign of a text.
fn behind_sign(text: &[u8]) -> &[u8]
    ensures { result.now ≡ behind_sign_in text.now }
{
    match text {
        [b'+', rest @ ..] => rest,
        [b'-', rest @ ..] => rest,
        _ => text,
    }
}

/// The digits of a coordinate: an optional sign, and at least one digit.
#[tactic(auto, unfolding(crate::specs::Numerals::digits_of))]
pub fn digits(text: &[u8]) -> Option<Digits>
    ensures value { result ≡ digits_of text.now }
    ensures written { IfSome result IsWritten }
{
    let rest = behind_sign(text);
    if !is_numeral(rest) {
        return None;
    }
    Some(Digits {
        count: rest.len(),
        value: with_sign(text, short_value(rest)),
    })
}

// A digit or a sign.
fn is_signed_digit(b: u8) -> bool
    ensures { result ≡ is_signed_digit_in b }
{
    b.is_ascii_digit() || b == b'+' || b == b'-'
}

// The offset of the first byte that is no digit and no sign.
fn first_unsigned(text: &[u8]) -> Option<usize>
    ensures { result ≡ position (λ b. not (is_signed_digit_in b)) text.now }
{
    text.iter().position(|b| !is_signed_digit(*b))
}

/// How many digits and signs stand in front.
#[tactic(auto, using(text_cut::proofs::PositionLaws::none_is_end), unfolding(crate::specs::Numerals::signed_before))]
pub fn signed_before(text: &[u8]) -> usize
    ensures value { result ≡ signed_before_in text.now }
    ensures within { result ≤ length text.now }
{
    match first_unsigned(text) {
        Some(i) => i,
        None => text.len(),
    }
}
