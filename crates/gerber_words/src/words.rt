// What word commands say. The text is without its star.
ghost use Rattle.std.specs.Prelude.{◌≡◌, ◌<◌, ◌≤◌, ◌^◌, ◌||◌, MatchOption, IfSome, Some, None};
ghost use Rattle.std.specs.Option.{option_or};
ghost use Rattle.std.specs.Str.{bytes_eq};
ghost use Rattle.gerber_words.specs.Fits.{IsCommand, IsWritten, AreWritten};
ghost use Rattle.gerber_words.specs.Words.{code_of, code_from as code_from_of, in_reach as in_reach_of, selection_of, act_word as act_word_of, act_of, field as field_of, with_word as with_word_of, operation_of, with_mode as with_mode_of, mode_of, lone_code as lone_code_of, alone as alone_of, behind_d as behind_d_of, other_code as other_code_of, by_mode as by_mode_of, general_of, word_of};

use crate::commands::{Act, Command, Digits, Interpolation, Operation};
use crate::numerals::{digits, is_numeral, number, signed_before};
use apertures::Unit;
use text_cut::after;

// A code whose first digit is read, and what stands behind it.
fn code_from(n: u8, text: &[u8]) -> (u8, &[u8])
    requires { n ≤ 9 }
    ensures { (result.0, result.1.now) ≡ code_from_of n text.now }
{
    match text {
        [] => (n, text),
        [b, rest @ ..] => {
            if b.is_ascii_digit() {
                (n * 10 + (*b - b'0'), rest)
            } else {
                (n, text)
            }
        }
    }
}

// A code of one or two digits, and what stands behind it.
fn code(text: &[u8]) -> Option<(u8, &[u8])>
    ensures { MatchOption result (code_of text.now ≡ None) (λ r. code_of text.now ≡ Some (r.0, r.1.now)) }
{
    match text {
        [] => None,
        [b, rest @ ..] => {
            if b.is_ascii_digit() {
                Some(code_from(*b - b'0', rest))
            } else {
                None
            }
        }
    }
}

// The aperture with a number, which may be past all that can be defined.
fn in_reach(n: u64) -> Option<Command>
    ensures value { result ≡ in_reach_of n }
    ensures fits { IfSome result IsCommand }
{
    if n < 10 {
        return None;
    }
    let number = if n <= 2_147_483_647 {
        Some(n as u32)
    } else {
        None
    };
    Some(Command::Select { number })
}

// The aperture that digits select.
#[tactic(auto, unfolding(crate::specs::Words::selection_of))]
fn selection(text: &[u8]) -> Option<Command>
    ensures value { result ≡ selection_of text.now }
    ensures fits { IfSome result IsCommand }
{
    if !is_numeral(text) {
        return None;
    }
    match number(text) {
        Some(n) => in_reach(n),
        None => Some(Command::Select { number: None }),
    }
}

// Whether the text is one of two.
fn is_either(text: &[u8], a: &[u8], b: &[u8]) -> bool
    ensures { result ≡ (bytes_eq text.now a.now || bytes_eq text.now b.now) }
{
    text == a || text == b
}

// D01, D02 or D03, with one digit or two.
fn act_word(text: &[u8]) -> Option<Option<Act>>
    ensures { result ≡ act_word_of text.now }
{
    if is_either(text, b"D01", b"D1") {
        return Some(Some(Act::Draw));
    }
    if is_either(text, b"D02", b"D2") {
        return Some(Some(Act::Move));
    }
    if is_either(text, b"D03", b"D3") {
        return Some(Some(Act::Flash));
    }
    None
}

// The last word of an operation, if there is one.
fn act(text: &[u8]) -> Option<Option<Act>>
    ensures { result ≡ act_of text.now }
{
    match text {
        [] => Some(None),
        _ => act_word(text),
    }
}

// The field with this letter, if there is one, and what stands behind it.
fn field<'a>(text: &'a [u8], letter: &[u8]) -> Option<(Option<Digits>, &'a [u8])>
    ensures written { IfSome result (λ r. IfSome r.0 IsWritten) }
    ensures value { MatchOption result (field_of letter.now text.now ≡ None)
        (λ r. field_of letter.now text.now ≡ Some (r.0, r.1.now)) }
{
    let Some(rest) = after(text, letter) else {
        return Some((None, text));
    };
    let n = signed_before(rest);
    let number = digits(&rest[..n])?;
    Some((Some(number), &rest[n..]))
}

// An operation with at least one word.
fn with_word(operation: Operation) -> Option<Command>
    requires { AreWritten operation }
    ensures value { result ≡ with_word_of operation }
    ensures fits { IfSome result IsCommand }
{
    if operation.x.is_some()
        || operation.y.is_some()
        || operation.i.is_some()
        || operation.j.is_some()
        || operation.act.is_some()
    {
        Some(Command::Operate { operation })
    } else {
        None
    }
}

// An operation: X, Y, I, J and a D word.
#[tactic(auto, unfolding(crate::specs::Words::operation_of))]
fn operation(mode: Option<Interpolation>, text: &[u8]) -> Option<Command>
    ensures value { result ≡ operation_of mode text.now }
    ensures fits { IfSome result IsCommand }
{
    let (x, rest) = field(text, b"X")?;
    let (y, rest) = field(rest, b"Y")?;
    let (i, rest) = field(rest, b"I")?;
    let (j, rest) = field(rest, b"J")?;
    let act = act(rest)?;
    with_word(Operation {
        mode,
        x,
        y,
        i,
        j,
        act,
    })
}

// A mode alone, or before an operation.
fn with_mode(mode: Interpolation, text: &[u8]) -> Option<Command>
    ensures value { result ≡ with_mode_of mode text.now }
    ensures fits { IfSome result IsCommand }
{
    match text {
        [] => Some(Command::Interpolation { mode }),
        _ => operation(Some(mode), text),
    }
}

// The mode of a G code.
fn mode(code: u8) -> Option<Interpolation>
    ensures { result ≡ mode_of code }
{
    match code {
        1 => Some(Interpolation::Linear),
        2 => Some(Interpolation::Clockwise),
        3 => Some(Interpolation::Counterclockwise),
        _ => None,
    }
}

// A G code that stands alone.
fn lone_code(code: u8) -> Option<Command>
    ensures value { result ≡ lone_code_of code }
    ensures fits { IfSome result IsCommand }
{
    match code {
        36 => Some(Command::BeginRegion),
        37 => Some(Command::EndRegion),
        70 => Some(Command::Unit {
            unit: Unit::Inch,
            in_block: false,
        }),
        71 => Some(Command::Unit {
            unit: Unit::Mm,
            in_block: false,
        }),
        74 => Some(Command::MultiQuadrant { on: false }),
        75 => Some(Command::MultiQuadrant { on: true }),
        90 => Some(Command::Ignored),
        _ => None,
    }
}

// The same with nothing behind it.
fn alone(code: u8, text: &[u8]) -> Option<Command>
    ensures value { result ≡ alone_of code text.now }
    ensures fits { IfSome result IsCommand }
{
    match text {
        [] => lone_code(code),
        _ => None,
    }
}

// The aperture behind G54.
fn behind_d(text: &[u8]) -> Option<Command>
    ensures value { result ≡ behind_d_of text.now }
    ensures fits { IfSome result IsCommand }
{
    let rest = after(text, b"D")?;
    selection(rest)
}

// A comment, a selection behind G54, what is left out, or a code that stands alone.
fn other_code(code: u8, text: &[u8]) -> Option<Command>
    ensures value { result ≡ other_code_of code text.now }
    ensures fits { IfSome result IsCommand }
{
    match code {
        4 => Some(Command::Ignored),
        54 => behind_d(text),
        55 | 91 => Some(Command::Unsupported),
        _ => alone(code, text),
    }
}

// What stands behind a G.
#[tactic(auto, unfolding(crate::specs::Words::general_of))]
fn general(text: &[u8]) -> Option<Command>
    ensures value { result ≡ general_of text.now }
    ensures fits { IfSome result IsCommand }
{
    let (code, rest) = code(text)?;
    match mode(code) {
        Some(mode) => with_mode(mode, rest),
        None => other_code(code, rest),
    }
}

// What stands behind a D, and the whole text.
fn operation_or_selection(text: &[u8], rest: &[u8]) -> Option<Command>
    ensures value { result ≡ option_or (operation_of None text.now) (selection_of rest.now) }
    ensures fits { IfSome result IsCommand }
{
    match operation(None, text) {
        Some(command) => Some(command),
        None => selection(rest),
    }
}

/// What a word command says.
pub fn word(text: &[u8]) -> Option<Command>
    ensures value { result ≡ word_of text.now }
    ensures fits { IfSome result IsCommand }
{
    match text {
        [] => None,
        [b'G', rest @ ..] => general(rest),
        [b'D', rest @ ..] => operation_or_selection(text, rest),
        _ => {
            if text == b"M02".as_slice() {
                Some(Command::End)
            } else {
                operation(None, text)
            }
        }
    }
}
