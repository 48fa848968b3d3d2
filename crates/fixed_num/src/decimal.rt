//! Taking decimals apart.
ghost use Rattle.std.specs.Prelude.{◌≡◌, MatchOption, IsTrue, Some, None, ◌+◌, length, nat_lt, ◌&&◌, IfSome};
ghost use Rattle.std.specs.Char.{is_ascii_digit};
ghost use Rattle.std.specs.List.{list_all, position};
ghost use Rattle.fixed_num.specs.Decimal.{fraction_of, IsDecimal};
ghost use Rattle.fixed_num.specs.Spelled.{sign_of as sign_in, behind_sign as behind_sign_in, is_point, parts_of as parts_in, is_decimal as is_decimal_in, decimal_of};
ghost use Rattle.fixed_num.specs.Shown.{sign_shown, decimal_shown};

/// The sign of a decimal, as it is written.
#[derive(Clone, Copy, Debug, PartialEq, Eq)]
pub enum SignMark {
    /// No sign.
    Absent,
    /// `+`
    Plus,
    /// `-`
    Minus,
}

/// The parts of a decimal's text.
#[derive(Clone, Copy, Debug)]
pub struct DecimalText<'a> {
    /// What stands before the digits.
    pub sign: SignMark,
    /// The digits before the point, none as in `.5`.
    pub whole: &'a [u8],
    /// The digits behind the point, none as in `5.`; `None` where there is no point.
    pub fraction: Option<&'a [u8]>,
}

// The sign that bytes begin with.
fn sign_of(bytes: &[u8]) -> SignMark
    ensures { sign_shown result ≡ sign_in bytes.now }
{
    match bytes {
        [b'+', ..] => SignMark::Plus,
        [b'-', ..] => SignMark::Minus,
        _ => SignMark::Absent,
    }
}

// What stands behind that sign.
fn behind_sign(bytes: &[u8]) -> &[u8]
    ensures { result.now ≡ behind_sign_in bytes.now }
{
    match bytes {
        [b'+', rest @ ..] => rest,
        [b'-', rest @ ..] => rest,
        _ => bytes,
    }
}

// The place of the first point.
fn point_in(bytes: &[u8]) -> Option<usize>
    ensures { result ≡ position is_point bytes.now }
{
    bytes.iter().position(|b| *b == b'.')
}

// The parts round the sign and the first point, digits or not.
#[tactic(auto, unfolding(crate::specs::Spelled::parts_of))]
fn parts_of(bytes: &[u8]) -> DecimalText<'_>
    ensures { decimal_shown result ≡ parts_in bytes.now }
{
    let sign = sign_of(bytes);
    let rest = behind_sign(bytes);
    match point_in(rest) {
        None => DecimalText {
            sign,
            whole: rest,
            fraction: None,
        },
        Some(i) => DecimalText {
            sign,
            whole: &rest[..i],
            fraction: Some(&rest[i + 1..]),
        },
    }
}

// Whether these are digits alone.
fn are_digits(bytes: &[u8]) -> bool
    ensures { result ≡ list_all is_ascii_digit bytes.now }
{
    bytes.iter().all(|b| b.is_ascii_digit())
}

impl<'a> DecimalText<'a> {
    /// The digits behind the point, none where there is no point.
    pub fn decimals(&self) -> &'a [u8]
        ensures { result.now ≡ fraction_of (decimal_shown self.now) }
    {
        match self.fraction {
            Some(digits) => digits,
            None => &[],
        }
    }
}

// Whether the parts are digits alone, and at least one.
fn is_decimal(text: &DecimalText<'_>) -> bool
    ensures { result ≡ is_decimal_in (decimal_shown text.now) }
{
    let decimals = text.decimals();
    are_digits(text.whole) && are_digits(decimals) && 0 < text.whole.len() + decimals.len()
}

/// The parts of a decimal's text: a sign or none, then digits with at most one point before, among or behind
/// them, and at least one digit. `None` where the bytes are no decimal.
pub fn split_decimal(bytes: &[u8]) -> Option<DecimalText<'_>>
    ensures value { MatchOption result (decimal_of bytes.now ≡ None)
        (λ text. decimal_of bytes.now ≡ Some (decimal_shown text)) }
    ensures digits { IfSome result (λ text. IsDecimal (decimal_shown text)) }
{
    let text = parts_of(bytes);
    if is_decimal(&text) { Some(text) } else { None }
}
