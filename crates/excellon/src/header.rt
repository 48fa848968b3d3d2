// What the lines of the header say.
ghost use Rattle.std.specs.Prelude.{◌≡◌, ◌<◌, ◌≤◌, ◌^◌, ◌||◌, ◌+◌, codes, length, drop, MatchOption, IfSome, Some, None, unwrap_or, unsigned_abs};
ghost use Rattle.std.specs.List.{list_all};
ghost use Rattle.std.specs.Option.{option_or};
ghost use Rattle.std.specs.Str.{bytes_eq};
ghost use Rattle.fixed_num.specs.Values.{is_zero};
ghost use Rattle.excellon.specs.Fits.{IsSaid, IsFormat};
ghost use Rattle.text_cut.specs.Split.{after as after_in};
ghost use Rattle.excellon.specs.Words.{word_in};
ghost use Rattle.excellon.specs.Header.{header_words, is_count as is_count_of, counts_of, format_of, zeros_in, picture_of, fills_of, behind_comma as behind_comma_of, with_unit as with_unit_of, metric_of, inch_of, letters_of, one_size as one_size_of, with_letter as with_letter_of, size_in, definition_of, other_header, header_of};

use crate::line::{Format, Said};
use crate::numerals::{decimal, is_number_byte, number_before, tool_number};
use crate::words::{is, is_left_out};
use fixed_num::Unit;
use text_cut::{after, split_once};

// A word without effect.
fn is_ignored(text: &[u8]) -> bool
    ensures { result ≡ (bytes_eq text.now (codes "FMAT,2") || bytes_eq text.now (codes "VER,1") || bytes_eq text.now (codes "ICI,OFF") || bytes_eq text.now (codes "G90") || bytes_eq text.now (codes "G05")) }
{
    is(text, b"FMAT,2")
        || is(text, b"VER,1")
        || is(text, b"ICI,OFF")
        || is(text, b"G90")
        || is(text, b"G05")
}

// A unit alone.
fn lone_unit(unit: Unit) -> Said
    ensures value { result ≡ Said.Unit unit None None }
    ensures fits { IsSaid result }
{
    Said::Unit {
        unit,
        fills: None,
        format: None,
    }
}

// A line that is one word.
fn word(text: &[u8]) -> Option<Said>
    ensures value { result ≡ word_in header_words text.now }
    ensures fits { IfSome result IsSaid }
{
    if is_ignored(text) {
        return Some(Said::Ignored);
    }
    if is(text, b"M71") {
        return Some(lone_unit(Unit::Mm));
    }
    if is(text, b"M72") {
        return Some(lone_unit(Unit::Inch));
    }
    if is(text, b"%") || is(text, b"M95") {
        return Some(Said::EndHeader);
    }
    None
}

// A digit from 1 to 6.
fn is_count(b: u8) -> bool
    ensures { result ≡ is_count_of b }
{
    b'1' <= b && b <= b'6'
}

// Two such digits with a colon between them.
fn counts(text: &[u8]) -> Option<Said>
    ensures value { result ≡ counts_of text.now }
    ensures fits { IfSome result IsSaid }
{
    match text {
        [m, c, n] => {
            if is_count(*m) && *c == b':' && is_count(*n) {
                Some(Said::Format {
                    format: Format {
                        whole: (*m - b'0') as u32,
                        decimals: (*n - b'0') as u32,
                    },
                })
            } else {
                None
            }
        }
        _ => None,
    }
}

/// A comment that sets the digits.
pub fn format(text: &[u8]) -> Option<Said>
    ensures value { result ≡ format_of text.now }
    ensures fits { IfSome result IsSaid }
{
    let rest = after(text, b";FILE_FORMAT=")?;
    counts(rest)
}

// Whether these are zeros alone.
fn are_zeros(text: &[u8]) -> bool
    ensures { result ≡ list_all is_zero text.now }
{
    text.iter().all(|b| *b == b'0')
}

// One to six zeros.
fn zeros(text: &[u8]) -> Option<u32>
    ensures value { result ≡ zeros_in text.now }
    ensures few { IfSome result (λ n. n ≤ 6) }
{
    if are_zeros(text) && 1 <= text.len() && text.len() <= 6 {
        Some(text.len() as u32)
    } else {
        None
    }
}

// Zeros, a point and zeros.
#[tactic(auto, unfolding(crate::specs::Header::picture_of))]
fn picture(text: &[u8]) -> Option<Format>
    ensures value { result ≡ picture_of text.now }
    ensures fits { IfSome result IsFormat }
{
    let (front, back) = split_once(text, b'.')?;
    let whole = zeros(front)?;
    let decimals = zeros(back)?;
    Some(Format { whole, decimals })
}

// How zeros are filled, if it is said, and what stands behind.
fn fills(text: &[u8]) -> (Option<bool>, &[u8])
    ensures { (result.0, result.1.now) ≡ fills_of text.now }
{
    if let Some(rest) = after(text, b",LZ") {
        return (Some(true), rest);
    }
    if let Some(rest) = after(text, b",TZ") {
        return (Some(false), rest);
    }
    (None, text)
}

// A picture behind a comma, if there is one.
fn behind_comma(text: &[u8]) -> Option<Option<Format>>
    ensures value { result ≡ behind_comma_of text.now }
    ensures fits { IfSome result (λ format. IfSome format IsFormat) }
{
    match text {
        [] => Some(None),
        _ => {
            let rest = after(text, b",")?;
            let format = picture(rest)?;
            Some(Some(format))
        }
    }
}

// A unit and what stands behind it.
fn with_unit(unit: Unit, text: &[u8]) -> Option<Said>
    ensures value { result ≡ with_unit_of unit text.now }
    ensures fits { IfSome result IsSaid }
{
    let (fills, rest) = fills(text);
    let format = behind_comma(rest)?;
    Some(Said::Unit {
        unit,
        fills,
        format,
    })
}

// Millimetres.
fn metric(text: &[u8]) -> Option<Said>
    ensures value { result ≡ metric_of text.now }
    ensures fits { IfSome result IsSaid }
{
    let rest = after(text, b"METRIC")?;
    with_unit(Unit::Mm, rest)
}

// Inches.
fn inch(text: &[u8]) -> Option<Said>
    ensures value { result ≡ inch_of text.now }
    ensures fits { IfSome result IsSaid }
{
    let rest = after(text, b"INCH")?;
    with_unit(Unit::Inch, rest)
}

// A diameter where no other one is said, not below 0.
fn one_size(value: i128, size: Option<u128>) -> Option<Option<u128>>
    requires { unsigned_abs value < 10 ^ 30 }
    ensures value { result ≡ one_size_of value size }
    ensures bound { IfSome result (λ size. IfSome size (λ n. n < 10 ^ 30)) }
{
    if size.is_some() {
        return None;
    }
    if value < 0 {
        return None;
    }
    Some(Some(value as u128))
}

// What a letter and its number say beside a diameter.
fn with_letter(letter: u8, value: i128, size: Option<u128>) -> Option<Option<u128>>
    requires value { unsigned_abs value < 10 ^ 30 }
    requires size { IfSome size (λ n. n < 10 ^ 30) }
    ensures value { result ≡ with_letter_of letter value size }
    ensures bound { IfSome result (λ size. IfSome size (λ n. n < 10 ^ 30)) }
{
    match letter {
        b'F' | b'S' => Some(size),
        b'C' => one_size(value, size),
        _ => None,
    }
}

// What the letter at a place and its number say beside a diameter.
fn letter_at(text: &[u8], i: usize, size: Option<u128>) -> Option<Option<u128>>
    requires i { i < length text.now }
    requires size { IfSome size (λ n. n < 10 ^ 30) }
    requires before { size_in (letters_of (drop (i + 1) text.now)) ≡ Some size }
    ensures value { result ≡ size_in (letters_of (drop i text.now)) }
    ensures bound { IfSome result (λ size. IfSome size (λ n. n < 10 ^ 30)) }
{
    if is_number_byte(text[i]) {
        return Some(size);
    }
    let rest = &text[i + 1..];
    let value = decimal(&rest[..number_before(rest)])?;
    with_letter(text[i], value, size)
}

// The diameter that the letters of a text say, if one does.
fn size(text: &[u8]) -> Option<Option<u128>>
    ensures value { result ≡ size_in (letters_of text.now) }
    ensures bound { IfSome result (λ size. IfSome size (λ n. n < 10 ^ 30)) }
{
    let mut size = None;
    let mut i = text.len();
    'letters: while 0 < i {
        i -= 1;
        size = letter_at(text, i, size)?;
    }
    Some(size)
}

// What stands behind the T of a definition.
#[tactic(auto, unfolding(crate::specs::Header::definition_of))]
fn definition(text: &[u8]) -> Option<Said>
    ensures value { result ≡ definition_of text.now }
    ensures fits { IfSome result IsSaid }
{
    let number = tool_number(&text[..number_before(text)])?;
    let size = size(text)?;
    Some(Said::Define {
        number,
        size: size.unwrap_or(0),
    })
}

// A line with a unit.
fn unit(text: &[u8]) -> Option<Said>
    ensures value { result ≡ option_or (metric_of text.now) (inch_of text.now) }
    ensures fits { IfSome result IsSaid }
{
    match metric(text) {
        Some(said) => Some(said),
        None => inch(text),
    }
}

// A line that is more than one word.
fn other(text: &[u8]) -> Option<Said>
    ensures value { result ≡ other_header text.now }
    ensures fits { IfSome result IsSaid }
{
    match text {
        [] => None,
        [b'T', rest @ ..] => definition(rest),
        _ => {
            if is_left_out(text) {
                Some(Said::Unsupported)
            } else {
                unit(text)
            }
        }
    }
}

/// A line of the header.
#[tactic(auto, unfolding(crate::specs::Header::header_of))]
pub fn header(text: &[u8]) -> Option<Said>
    ensures value { result ≡ header_of text.now }
    ensures fits { IfSome result IsSaid }
{
    match word(text) {
        Some(said) => Some(said),
        None => other(text),
    }
}
