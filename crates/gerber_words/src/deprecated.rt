// What deprecated settings say.
ghost use Rattle.std.specs.Prelude.{◌≡◌, ◌<◌, ◌||◌, ◌&&◌, ◌==◌, IfSome, Some, None};
ghost use Rattle.std.specs.List.{list_all};
ghost use Rattle.gerber_words.specs.Fits.{IsCommand};
ghost use Rattle.gerber_words.specs.Deprecated.{is_plain as is_plain_in, pair_of, no_rotation_of, old_of};

use crate::commands::Command;
use text_cut::{after, split_once};

// Whether these are zeros.
fn are_zeros(text: &[u8]) -> bool
    ensures { result ≡ list_all (λ z. z == 48) text.now }
{
    text.iter().all(|z| *z == b'0')
}

// A 0 or 1, and behind a point one or more zeros.
fn is_plain(digit: u8, text: &[u8]) -> bool
    ensures { result ≡ is_plain_in digit text.now }
{
    match text {
        [] => false,
        [b] => *b == digit,
        [b, point, zeros @ ..] => *b == digit
            && *point == b'.'
            && !zeros.is_empty()
            && are_zeros(zeros),
    }
}

// A pair of them behind A and B.
#[tactic(auto, unfolding(crate::specs::Deprecated::pair_of))]
fn pair(start: &[u8], digit: u8, text: &[u8]) -> Option<Command>
    ensures value { result ≡ pair_of start.now digit text.now }
    ensures fits { IfSome result IsCommand }
{
    let rest = after(text, start)?;
    let (a, b) = split_once(rest, b'B')?;
    if is_plain(digit, a) && is_plain(digit, b) {
        Some(Command::DeprecatedSetting)
    } else {
        None
    }
}

// IR and a 0.
#[tactic(auto, unfolding(crate::specs::Deprecated::no_rotation_of))]
fn no_rotation(text: &[u8]) -> Option<Command>
    ensures value { result ≡ no_rotation_of text.now }
    ensures fits { IfSome result IsCommand }
{
    let rest = after(text, b"IR")?;
    if is_plain(b'0', rest) {
        Some(Command::DeprecatedSetting)
    } else {
        None
    }
}

/// The old commands that say what holds without them.
pub fn old(text: &[u8]) -> Option<Command>
    ensures value { result ≡ old_of text.now }
    ensures fits { IfSome result IsCommand }
{
    if text == b"IPPOS".as_slice() || text == b"ASAXBY".as_slice() {
        return Some(Command::DeprecatedSetting);
    }
    if let Some(command) = no_rotation(text) {
        return Some(command);
    }
    if let Some(command) = pair(b"OFA", b'0', text) {
        return Some(command);
    }
    if let Some(command) = pair(b"MIA", b'0', text) {
        return Some(command);
    }
    pair(b"SFA", b'1', text)
}
