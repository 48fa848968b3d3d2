// The values of keys, and reading them.
ghost use Rattle.std.specs.Prelude.{◌≡◌, ◌<◌, ◌⊎◌, ◌++◌, ◌∷◌, [], length, MatchOption, MatchResult, IfSome, IsAscii, true, false, Ok};
ghost use Rattle.std.specs.Option.{option_map};
ghost use Rattle.job_file.specs.Keys.{IsKey, kind_of as kind_in, micrometres};
ghost use Rattle.job_file.specs.Numbers.{is_between as is_between_in, is_name, is_printable, is_plain_sign, pieces, pieces_left};
ghost use Rattle.job_file.specs.Reads.{Answers, AnswersBy, read_of, truth_value as truth_value_of, only_value as only_value_of, length_value as length_value_of, even_length_value as even_length_value_of, sizes_value as sizes_value_of, lengths_value as lengths_value_of, feed_value as feed_value_of, count_value as count_value_of, ranged as ranged_of, even_ranged as even_ranged_of, counted as counted_of, paced as paced_of, named as named_of, few_lengths as few_lengths_of, all_ranged as all_ranged_of, value_read};

use crate::error::JobKind;
use crate::keys::{Kind, kind_of};
use crate::number::{feed, is_base_name, is_file_name, length, truth, whole, without_percent};
use board_base::{Items, Name};
use std::alloc::Global;
use text_cut::split_once;

/// A value of a key. Lengths are in nanometres, feeds in thousandths of a millimetre a minute.
#[derive(Drop)]
pub enum Value {
    /// A name, or a text that names begin with.
    Text(Name),
    /// A length, a height or a feed.
    Size(i64),
    /// A speed, a count or a percentage.
    Count(u32),
    Truth(bool),
    Lengths(Items<i64>),
}

/// A key's number, the value that a line or a word gives it, and the place of that.
#[derive(Drop)]
pub struct Given {
    pub key: u8,
    pub value: Value,
    pub place: u32,
}

// Whether a number lies from the least to the greatest.
fn is_between(least: i32, most: i32, v: i128) -> bool
    ensures { result ≡ is_between_in least most v }
{
    least as i128 <= v && v <= most as i128
}

// A number of micrometres from the least to the greatest, in nanometres.
fn nanometres(least: i32, most: i32, v: i128) -> Option<i64>
    ensures { MatchOption result (is_between_in least most v ≡ false)
        (λ n. (is_between_in least most v ≡ true) × (n ≡ micrometres v)) }
{
    if is_between(least, most, v) {
        Some(v as i64 * 1_000)
    } else {
        None
    }
}

// A length of so many micrometres.
fn ranged(least: i32, most: i32, v: i128) -> Result<Value, JobKind>
    ensures { Answers (ranged_of least most v) result }
{
    match nanometres(least, most, v) {
        Some(n) => Ok(Value::Size(n)),
        None => Err(JobKind::OutOfRange),
    }
}

// A length that is an even number of micrometres.
fn even_ranged(least: i32, most: i32, v: i128) -> Result<Value, JobKind>
    ensures { Answers (even_ranged_of least most v) result }
{
    if v.unsigned_abs() % 2 == 0 {
        ranged(least, most, v)
    } else {
        Err(JobKind::BadValue)
    }
}

// A feed of so many thousandths of a millimetre a minute.
fn paced(v: i128) -> Result<Value, JobKind>
    ensures { Answers (paced_of v) result }
{
    if is_between(1_000, 6_000_000, v) {
        Ok(Value::Size(v as i64))
    } else {
        Err(JobKind::OutOfRange)
    }
}

// A whole number from the least to the greatest.
fn counted(least: u32, most: u32, n: u64) -> Result<Value, JobKind>
    ensures { Answers (counted_of least most n) result }
{
    if least as u64 <= n && n <= most as u64 {
        Ok(Value::Count(n as u32))
    } else {
        Err(JobKind::OutOfRange)
    }
}

// The name with this text, which is ASCII.
fn name_of(alloc: Global, text: &[u8]) -> Result<Name, JobKind>
    requires { IsAscii text.now }
    ensures { Answers (Ok text.now) result }
{
    let Ok(text) = str::from_utf8(text) else {
        unreachable!()
    };
    Ok(Name::of(String::from_str(alloc, text)?))
}

// The name of a file.
fn file_name(alloc: Global, text: &[u8]) -> Result<Value, JobKind>
    ensures { Answers (named_of (is_name 200 is_printable text.now) text.now) result }
{
    if is_file_name(text) {
        Ok(Value::Text(name_of(alloc, text)?))
    } else {
        Err(JobKind::BadValue)
    }
}

// A text that names begin with.
fn base_name(alloc: Global, text: &[u8]) -> Result<Value, JobKind>
    ensures { Answers (named_of (is_name 64 is_plain_sign text.now) text.now) result }
{
    if is_base_name(text) {
        Ok(Value::Text(name_of(alloc, text)?))
    } else {
        Err(JobKind::BadValue)
    }
}

// What stands before the first comma, and what stands behind it.
fn cut_piece(text: &[u8]) -> (&[u8], Option<&[u8]>)
    ensures value { pieces text.now ≡ result.0.now ∷ pieces_left (option_map (λ rest. rest.now) result.1) }
    ensures less { IfSome result.1 (λ rest. length rest.now < length text.now) }
{
    match split_once(text, b',') {
        Some((piece, rest)) => (piece, Some(rest)),
        None => (text, None),
    }
}

// The micrometres of lengths between commas, of which there are no more than so many.
fn few_lengths(alloc: Global, few: u32, text: &[u8]) -> Result<Vec<i128>, JobKind>
    ensures { AnswersBy (λ v. v.items) (few_lengths_of few text.now) result }
{
    let mut lengths = Vec::new(alloc);
    let mut left = Some(text);
    while let Some(rest) = left {
        let (piece, behind) = cut_piece(rest);
        let Some(v) = length(piece) else {
            return Err(JobKind::BadValue);
        };
        if few as usize <= lengths.len() {
            return Err(JobKind::BadValue);
        }
        lengths.push(v)?;
        left = behind;
    }
    Ok(lengths)
}

// Adds a length from the least to the greatest, in nanometres.
fn add_ranged(items: &mut Items<i64>, least: i32, most: i32, v: &i128) -> Result<(), JobKind>
    ensures { MatchResult result
        (λ _. (is_between_in least most v.now ≡ true) × (items.new ≡ items.old ++ micrometres v.now ∷ []))
        (λ e. (e ≡ JobKind.Memory) ⊎ ((e ≡ JobKind.OutOfRange) × (is_between_in least most v.now ≡ false))) }
{
    match nanometres(least, most, *v) {
        Some(n) => Ok(items.push(n)?),
        None => Err(JobKind::OutOfRange),
    }
}

// Lengths from the least to the greatest, in nanometres.
fn all_ranged(alloc: Global, least: i32, most: i32, lengths: &[i128]) -> Result<Items<i64>, JobKind>
    ensures { Answers (all_ranged_of least most lengths.now) result }
{
    let mut items = Items::empty(alloc);
    for v in lengths {
        add_ranged(&mut items, least, most, v)?;
    }
    Ok(items)
}

// A truth value.
fn truth_value(text: &[u8]) -> Result<Value, JobKind>
    ensures { Answers (truth_value_of text.now) result }
{
    match truth(text) {
        Some(truth) => Ok(Value::Truth(truth)),
        None => Err(JobKind::BadValue),
    }
}

// The one truth value that may be.
fn only_value(only: bool, text: &[u8]) -> Result<Value, JobKind>
    ensures { Answers (only_value_of only text.now) result }
{
    match truth(text) {
        Some(truth) if truth == only => Ok(Value::Truth(truth)),
        _ => Err(JobKind::BadValue),
    }
}

// A length.
fn length_value(least: i32, most: i32, text: &[u8]) -> Result<Value, JobKind>
    ensures { Answers (length_value_of least most text.now) result }
{
    match length(text) {
        Some(v) => ranged(least, most, v),
        None => Err(JobKind::BadValue),
    }
}

// A length that is an even number of micrometres.
fn even_length_value(least: i32, most: i32, text: &[u8]) -> Result<Value, JobKind>
    ensures { Answers (even_length_value_of least most text.now) result }
{
    match length(text) {
        Some(v) => even_ranged(least, most, v),
        None => Err(JobKind::BadValue),
    }
}

// Lengths of so many micrometres.
fn sizes_value(alloc: Global, least: i32, most: i32, lengths: &[i128]) -> Result<Value, JobKind>
    ensures { Answers (sizes_value_of least most lengths.now) result }
{
    match all_ranged(alloc, least, most, lengths) {
        Ok(sizes) => Ok(Value::Lengths(sizes)),
        Err(kind) => Err(kind),
    }
}

// Lengths.
fn lengths_value(
    alloc: Global,
    few: u32,
    least: i32,
    most: i32,
    text: &[u8],
) -> Result<Value, JobKind>
    ensures { Answers (lengths_value_of few least most text.now) result }
{
    let lengths = few_lengths(alloc, few, text)?;
    sizes_value(alloc, least, most, &lengths)
}

// A feed.
fn feed_value(text: &[u8]) -> Result<Value, JobKind>
    ensures { Answers (feed_value_of text.now) result }
{
    match feed(text) {
        Some(v) => paced(v),
        None => Err(JobKind::BadValue),
    }
}

// A whole number.
fn count_value(least: u32, most: u32, text: &[u8]) -> Result<Value, JobKind>
    ensures { Answers (count_value_of least most text.now) result }
{
    match whole(text) {
        Some(n) => counted(least, most, n),
        None => Err(JobKind::BadValue),
    }
}

/// The value that a text is as one of this kind.
#[tactic(auto, unfolding(crate::specs::Reads::read_of))]
fn value_of_kind(alloc: Global, kind: Kind, text: &[u8]) -> Result<Value, JobKind>
    ensures { Answers (read_of kind text.now) result }
{
    match kind {
        Kind::Name => file_name(alloc, text),
        Kind::BaseName => base_name(alloc, text),
        Kind::Truth(_) => truth_value(text),
        Kind::Only(only) => only_value(only, text),
        Kind::Length(least, most, _) => length_value(least, most, text),
        Kind::EvenLength(least, most, _) => even_length_value(least, most, text),
        Kind::Lengths(few, least, most, _) => lengths_value(alloc, few, least, most, text),
        Kind::Feed(_) => feed_value(text),
        Kind::Whole(least, most, _) => count_value(least, most, text),
        Kind::Percent(least, most, _) => count_value(least, most, without_percent(text)),
    }
}

/// The value that a text is of the key with this number.
#[tactic(auto, unfolding(crate::specs::Reads::value_read))]
pub fn read_value(alloc: Global, key: u8, text: &[u8]) -> Result<Value, JobKind>
    requires { IsKey key }
    ensures { Answers (value_read key text.now) result }
{
    value_of_kind(alloc, kind_of(key), text)
}
