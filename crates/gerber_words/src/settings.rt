// What settings say: formats, units, polarity, mirror, rotation and scale.
ghost use Rattle.std.specs.Prelude.{◌≡◌, ◌<◌, ◌||◌, ◌&&◌, ◌==◌, MatchOption, IfSome, Some, None};
ghost use Rattle.std.specs.List.{list_all, list_any};
ghost use Rattle.fixed_num.specs.Angles.{in_turn as in_turn_of};
ghost use Rattle.gerber_words.specs.Fits.{IsCommand};
ghost use Rattle.gerber_words.specs.Settings.{counts_of, is_count as is_count_in, is_capital_or_digit as is_capital_or_digit_in, is_other_letter as is_other_letter_in, is_other_format as is_other_format_in, known_format as known_format_of, format_in, format_of, unit_of, polarity_of, mirror_of, rotation_of, scale_of};

use crate::commands::{AxisFormat, Command, Format};
use apertures::{Mirror, Unit};
use fixed_num::{NumError, cut_decimal, read_decimal};
use text_cut::after;

// A digit from a first one to 6.
fn is_count(first: u8, b: u8) -> bool
    ensures { result ≡ is_count_in first b }
{
    first <= b && b <= b'6'
}

// Whether these count the digits of X and those of Y.
fn are_counts(n: u8, m: u8, k: u8, l: u8) -> bool
    ensures { result ≡ (is_count_in 49 n && is_count_in 50 m && is_count_in 49 k && is_count_in 50 l) }
{
    is_count(b'1', n) && is_count(b'2', m) && is_count(b'1', k) && is_count(b'2', l)
}

// One to six integer digits and two to six decimals of X, and then of Y.
fn counts(text: &[u8]) -> Option<Command>
    ensures value { result ≡ counts_of text.now }
    ensures fits { IfSome result IsCommand }
{
    match text {
        [n, m, b'Y', k, l] => {
            if are_counts(*n, *m, *k, *l) {
                Some(Command::Format {
                    format: Format {
                        x: AxisFormat {
                            integer_digits: (*n - b'0') as u32,
                            decimal_digits: (*m - b'0') as u32,
                        },
                        y: AxisFormat {
                            integer_digits: (*k - b'0') as u32,
                            decimal_digits: (*l - b'0') as u32,
                        },
                    },
                })
            } else {
                None
            }
        }
        _ => None,
    }
}

// A capital letter or a digit.
fn is_capital_or_digit(b: u8) -> bool
    ensures { result ≡ is_capital_or_digit_in b }
{
    b.is_ascii_uppercase() || b.is_ascii_digit()
}

// A letter of another kind of format.
fn is_other_letter(b: u8) -> bool
    ensures { result ≡ is_other_letter_in b }
{
    b.is_ascii_uppercase() && !(b == b'L' || b == b'A' || b == b'X' || b == b'Y')
}

// Whether the text is capital letters and digits alone.
fn are_capitals_or_digits(text: &[u8]) -> bool
    ensures { result ≡ list_all is_capital_or_digit_in text.now }
{
    text.iter().all(|b| is_capital_or_digit(*b))
}

// Whether a letter of another kind of format is among them.
fn has_other_letter(text: &[u8]) -> bool
    ensures { result ≡ list_any is_other_letter_in text.now }
{
    text.iter().any(|b| is_other_letter(*b))
}

// Whether the text is another kind of format.
fn is_other_format(text: &[u8]) -> bool
    ensures { result ≡ is_other_format_in text.now }
{
    are_capitals_or_digits(text) && has_other_letter(text)
}

// Absolute coordinates without leading zeros.
fn known_format(text: &[u8]) -> Option<Command>
    ensures value { result ≡ known_format_of text.now }
    ensures fits { IfSome result IsCommand }
{
    let rest = after(text, b"LAX")?;
    counts(rest)
}

// A format, known or another.
fn format_behind(text: &[u8]) -> Option<Command>
    ensures value { result ≡ format_in text.now }
    ensures fits { IfSome result IsCommand }
{
    match known_format(text) {
        Some(command) => Some(command),
        None => {
            if is_other_format(text) {
                Some(Command::Unsupported)
            } else {
                None
            }
        }
    }
}

/// FS
#[tactic(auto, unfolding(crate::specs::Settings::format_of))]
pub fn format(text: &[u8]) -> Option<Command>
    ensures value { result ≡ format_of text.now }
    ensures fits { IfSome result IsCommand }
{
    let rest = after(text, b"FS")?;
    format_behind(rest)
}

/// MOMM or MOIN
pub fn unit(text: &[u8]) -> Option<Command>
    ensures value { result ≡ unit_of text.now }
    ensures fits { IfSome result IsCommand }
{
    if text == b"MOMM".as_slice() {
        return Some(Command::Unit {
            unit: Unit::Mm,
            in_block: true,
        });
    }
    if text == b"MOIN".as_slice() {
        return Some(Command::Unit {
            unit: Unit::Inch,
            in_block: true,
        });
    }
    None
}

/// LPD or LPC
pub fn polarity(text: &[u8]) -> Option<Command>
    ensures value { result ≡ polarity_of text.now }
    ensures fits { IfSome result IsCommand }
{
    if text == b"LPD".as_slice() {
        return Some(Command::Polarity { dark: true });
    }
    if text == b"LPC".as_slice() {
        return Some(Command::Polarity { dark: false });
    }
    None
}

// The mirror, where the text names one.
fn mirror_named(text: &[u8]) -> Option<Mirror>
    ensures { MatchOption result (mirror_of text.now ≡ None) (λ m. mirror_of text.now ≡ Some (Command.Mirror m)) }
{
    if text == b"LMN".as_slice() {
        return Some(Mirror::Keep);
    }
    if text == b"LMX".as_slice() {
        return Some(Mirror::X);
    }
    if text == b"LMY".as_slice() {
        return Some(Mirror::Y);
    }
    if text == b"LMXY".as_slice() {
        return Some(Mirror::Xy);
    }
    None
}

/// LMN, LMX, LMY or LMXY
pub fn mirror(text: &[u8]) -> Option<Command>
    ensures value { result ≡ mirror_of text.now }
    ensures fits { IfSome result IsCommand }
{
    let mirror = mirror_named(text)?;
    Some(Command::Mirror { mirror })
}

// An angle in the first turn.
#[tactic(auto, unfolding(fixed_num::specs::Angles::in_turn))]
fn in_turn(angle: i128) -> u32
    ensures { result ≡ in_turn_of angle }
{
    angle.rem_euclid(360_000_000) as u32
}

/// LR and an angle in degrees.
#[tactic(auto, unfolding(crate::specs::Settings::rotation_of))]
pub fn rotation(text: &[u8]) -> Option<Command>
    ensures value { result ≡ rotation_of text.now }
    ensures fits { IfSome result IsCommand }
{
    let rest = after(text, b"LR")?;
    match cut_decimal(rest, 6) {
        Ok(angle) => Some(Command::Rotation {
            angle: in_turn(angle),
        }),
        Err(_) => None,
    }
}

/// LS and a scale.
#[tactic(auto, unfolding(crate::specs::Settings::scale_of))]
pub fn scale(text: &[u8]) -> Option<Command>
    ensures value { result ≡ scale_of text.now }
    ensures fits { IfSome result IsCommand }
{
    let rest = after(text, b"LS")?;
    match read_decimal(rest, 0) {
        Ok(1) => Some(Command::DeprecatedSetting),
        Ok(_) | Err(NumError::TooFine { .. }) => Some(Command::Unsupported),
        Err(_) => None,
    }
}
