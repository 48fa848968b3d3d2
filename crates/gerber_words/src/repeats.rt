// What a repeat says.
ghost use Rattle.std.specs.Prelude.{◌≡◌, ◌<◌, ◌≤◌, ◌^◌, ◌&&◌, not, IfSome, Some, None};
ghost use Rattle.apertures.specs.Texts.{IsSize};
ghost use Rattle.gerber_words.specs.Fits.{IsCommand};
ghost use Rattle.gerber_words.specs.Repeats.{count_in as count_in_of, count_of, step_of, open_of, repeat_in, repeat_of};

use crate::commands::Command;
use crate::numerals::number;
use fixed_num::cut_decimal;
use text_cut::{after, split_once};

// A count from 1 to 1,000.
fn count_in(n: u64) -> Option<u32>
    ensures value { result ≡ count_in_of n }
    ensures range { IfSome result (λ n. (0 < n) × (n ≤ 1000)) }
{
    if 1 <= n && n <= 1_000 {
        Some(n as u32)
    } else {
        None
    }
}

// The count that digits write.
#[tactic(auto, unfolding(crate::specs::Repeats::count_of))]
fn count(text: &[u8]) -> Option<u32>
    ensures value { result ≡ count_of text.now }
    ensures range { IfSome result (λ n. (0 < n) × (n ≤ 1000)) }
{
    let n = number(text)?;
    count_in(n)
}

// A step in 10^-9 of the unit, not below 0.
#[tactic(auto, unfolding(crate::specs::Repeats::step_of))]
fn step(text: &[u8]) -> Option<u128>
    ensures value { result ≡ step_of text.now }
    ensures size { IfSome result IsSize }
{
    match cut_decimal(text, 9) {
        Ok(step) => { if 0 <= step { Some(step as u128) } else { None } }
        Err(_) => None,
    }
}

// Counts and steps: X, Y, I and J in this order.
#[tactic(auto, unfolding(crate::specs::Repeats::open_of))]
fn open(text: &[u8]) -> Option<Command>
    ensures value { result ≡ open_of text.now }
    ensures fits { IfSome result IsCommand }
{
    let rest = after(text, b"X")?;
    let (x, rest) = split_once(rest, b'Y')?;
    let (y, rest) = split_once(rest, b'I')?;
    let (i, j) = split_once(rest, b'J')?;
    let columns = count(x)?;
    let rows = count(y)?;
    let dx = step(i)?;
    let dy = step(j)?;
    Some(Command::OpenRepeat {
        columns,
        rows,
        dx,
        dy,
    })
}

// SR alone, or with counts and steps.
fn repeat_behind(text: &[u8]) -> Option<Command>
    ensures value { result ≡ repeat_in text.now }
    ensures fits { IfSome result IsCommand }
{
    match text {
        [] => Some(Command::CloseRepeat),
        _ => open(text),
    }
}

/// SR
#[tactic(auto, unfolding(crate::specs::Repeats::repeat_of))]
pub fn repeat(text: &[u8]) -> Option<Command>
    ensures value { result ≡ repeat_of text.now }
    ensures fits { IfSome result IsCommand }
{
    let rest = after(text, b"SR")?;
    repeat_behind(rest)
}
