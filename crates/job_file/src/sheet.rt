// What the lines of the file and the words give.
ghost use Rattle.std.specs.Prelude.{◌≡◌};
ghost use Rattle.std.specs.Option.{option_copied};
ghost use Rattle.job_file.specs.Keys.{IsKey, number_of as number_in};
ghost use Rattle.job_file.specs.Lines.{said_round, said, file_lines, word_lines, dashed, as_line};
ghost use Rattle.text_cut.specs.Split.{halves};
ghost use Rattle.job_file.specs.Reads.{value_read};
ghost use Rattle.job_file.specs.Reading.{lines_give, Tells, texts};
ghost use Rattle.job_file.specs.Behind.{valued as valued_of, keyed as keyed_of, said_behind, behind, behind_all, Leads};
ghost use Rattle.job_file.specs.Values.{given as given_in};

use crate::error::{JobError, JobKind};
use crate::keys::number_of;
use crate::value::{Given, read_value};
use board_base::Items;
use std::alloc::Global;
use text_cut::{after, next_line, split_once, trimmed};

// Where a word's place is numbered from.
const WORDS: u32 = 100_000_000;

/// What the lines give a key.
pub fn given<'a>(lines: &'a Items<Given>, key: u8) -> Option<&'a Given>
    ensures { option_copied result ≡ given_in key lines.now }
{
    lines.inner().iter().find(|given| given.key == key)
}

/// The refusal where the memory doesn't suffice.
pub fn no_memory() -> JobError
    ensures { result.kind ≡ JobKind.Memory }
{
    JobError {
        kind: JobKind::Memory,
        key: 0,
        place: 0,
    }
}

// Keeps a value of a key.
fn valued(
    alloc: Global,
    lines: &mut Items<Given>,
    key: u8,
    place: u32,
    text: &[u8],
) -> Result<(), JobError>
    requires { IsKey key }
    ensures { Leads (valued_of lines.old key place (value_read key text.now)) lines.new result }
{
    match read_value(alloc, key, text) {
        Ok(value) => match lines.push(Given { key, value, place }) {
            Ok(()) => Ok(()),
            Err(_) => Err(no_memory()),
        },
        Err(kind) => Err(JobError { kind, key, place }),
    }
}

// Keeps a value of the key with this name.
fn keyed(
    alloc: Global,
    lines: &mut Items<Given>,
    place: u32,
    name: &[u8],
    text: &[u8],
) -> Result<(), JobError>
    ensures { Leads (keyed_of lines.old place text.now (number_in name.now)) lines.new result }
{
    let Some(key) = number_of(name) else {
        return Err(JobError {
            kind: JobKind::UnknownKey,
            key: 0,
            place,
        });
    };
    if given(lines, key).is_some() {
        return Err(JobError {
            kind: JobKind::TwiceGiven,
            key,
            place,
        });
    }
    valued(alloc, lines, key, place, text)
}

// Keeps what a line without spaces at its ends says, which isn't passed over.
fn parted(alloc: Global, lines: &mut Items<Given>, place: u32, text: &[u8]) -> Result<(), JobError>
    ensures { Leads (said_behind lines.old place (said_round (halves 61 text.now))) lines.new result }
{
    match split_once(text, b'=') {
        Some((name, value)) => keyed(alloc, lines, place, trimmed(name), trimmed(value)),
        None => Err(JobError {
            kind: JobKind::BadValue,
            key: 0,
            place,
        }),
    }
}

// Keeps what a line says.
#[tactic(auto, unfolding(crate::specs::Lines::said, crate::specs::Behind::behind))]
fn read_line(
    alloc: Global,
    lines: &mut Items<Given>,
    place: u32,
    line: &[u8],
) -> Result<(), JobError>
    ensures { Leads (behind lines.old (record { place = place; text = line.now })) lines.new result }
{
    let text = trimmed(line);
    match text {
        [] => Ok(()),
        [b'#', ..] => Ok(()),
        _ => parted(alloc, lines, place, text),
    }
}

/// What the lines of the file give.
pub fn read_file(alloc: Global, bytes: &[u8]) -> Result<Items<Given>, JobError>
    ensures { Tells (lines_give (file_lines bytes.now)) result }
{
    let mut lines = Items::empty(alloc);
    let mut rest = bytes;
    let mut place = 0u32;
    while let Some((line, behind)) = next_line(rest) {
        if place == u32::MAX {
            return Err(no_memory());
        }
        place += 1;
        read_line(alloc, &mut lines, place, line)?;
        rest = behind;
    }
    Ok(lines)
}

// Keeps what a word says, where it is a line.
fn read_word(
    alloc: Global,
    lines: &mut Items<Given>,
    place: u32,
    word: &str,
) -> Result<(), JobError>
    ensures { Leads (behind_all lines.old (as_line place (dashed word.now))) lines.new result }
{
    match after(word.as_bytes(), b"--") {
        Some(line) => read_line(alloc, lines, place, line),
        None => Ok(()),
    }
}

/// What the words give that begin with two dashes.
pub fn read_words(alloc: Global, words: &Vec<String>) -> Result<Items<Given>, JobError>
    ensures { Tells (lines_give (word_lines (texts words.now))) result }
{
    let mut lines = Items::empty(alloc);
    let mut place = WORDS;
    for word in words {
        if place == u32::MAX {
            return Err(no_memory());
        }
        place += 1;
        read_word(alloc, &mut lines, place, word)?;
    }
    Ok(lines)
}
