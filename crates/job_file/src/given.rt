// The values that keys have.
ghost use Rattle.std.specs.Prelude.{◌≡◌, IfOk};
ghost use Rattle.std.specs.Option.{option_copied};
ghost use Rattle.job_file.specs.Keys.{IsKey, kind_of as kind_in};
ghost use Rattle.job_file.specs.Values.{given_by, place_of, default_of, value_of, text_in, size_in, count_in, truth_in, lengths_in};

use crate::keys::{Kind, kind_of};
use crate::sheet::given;
use crate::value::{Given, Value};
use board_base::{Items, Name};
use std::alloc::{AllocError, Global};

/// What the words and the lines of the file give.
#[derive(Drop)]
pub struct Sheets {
    pub words: Items<Given>,
    pub file: Items<Given>,
}

// A name like another.
fn like(alloc: Global, name: &Name) -> Result<Name, AllocError>
    ensures { IfOk result (λ new. new ≡ name.now) }
{
    Ok(Name::of(String::from_str(alloc, name.text())?))
}

// Lengths like others.
fn copied(alloc: Global, lengths: &Items<i64>) -> Result<Items<i64>, AllocError>
    ensures { IfOk result (λ new. new ≡ lengths.now) }
{
    Ok(Items::of(Vec::from_slice(alloc, lengths.inner())?))
}

// The lengths that a key of this kind has where none are given.
fn default_lengths(alloc: Global, kind: Kind) -> Result<Items<i64>, AllocError>
    ensures { IfOk result (λ new. new ≡ lengths_in (default_of kind)) }
{
    let mut lengths = Items::empty(alloc);
    if let Kind::Lengths(_, _, _, Some(one)) = kind {
        lengths.push(one as i64 * 1_000)?;
    }
    Ok(lengths)
}

// The size that a key of this kind has where none is given.
fn default_size(kind: Kind) -> i64
    ensures { result ≡ size_in (default_of kind) }
{
    match kind {
        Kind::Length(_, _, default) => default as i64 * 1_000,
        Kind::EvenLength(_, _, default) => default as i64 * 1_000,
        Kind::Feed(default) => default as i64 * 1_000,
        _ => 0,
    }
}

// The same of counts.
fn default_count(kind: Kind) -> u32
    ensures { result ≡ count_in (default_of kind) }
{
    match kind {
        Kind::Whole(_, _, default) => default,
        Kind::Percent(_, _, default) => default,
        _ => 0,
    }
}

// The same of truth values.
fn default_truth(kind: Kind) -> bool
    ensures { result ≡ truth_in (default_of kind) }
{
    match kind {
        Kind::Truth(default) => default,
        Kind::Only(default) => default,
        _ => false,
    }
}

impl Sheets {
    // What a key is given, by its word or by its line.
    fn given(&self, key: u8) -> Option<&Given>
        ensures { option_copied result ≡ given_by self.now key }
    {
        match given(&self.words, key) {
            Some(given) => Some(given),
            None => given(&self.file, key),
        }
    }

    /// The place of the word that gives a key its value, or of the line, or 0.
    pub fn place(&self, key: u8) -> u32
        ensures { result ≡ place_of self.now key }
    {
        match self.given(key) {
            Some(given) => given.place,
            None => 0,
        }
    }

    /// The name or the text of a key.
    #[tactic(auto, unfolding(crate::specs::Values::value_of))]
    pub fn text(&self, alloc: Global, key: u8) -> Result<Option<Name>, AllocError>
        requires { IsKey key }
        ensures { IfOk result (λ x. x ≡ text_in (value_of self.now key)) }
    {
        match self.given(key) {
            Some(
                Given {
                    value: Value::Text(name),
                    ..
                },
            ) => Ok(Some(like(alloc, name)?)),
            _ => Ok(None),
        }
    }

    /// The lengths of a key.
    #[tactic(auto, unfolding(crate::specs::Values::value_of))]
    pub fn lengths(&self, alloc: Global, key: u8) -> Result<Items<i64>, AllocError>
        requires { IsKey key }
        ensures { IfOk result (λ x. x ≡ lengths_in (value_of self.now key)) }
    {
        match self.given(key) {
            Some(
                Given {
                    value: Value::Lengths(lengths),
                    ..
                },
            ) => copied(alloc, lengths),
            Some(_) => Ok(Items::empty(alloc)),
            None => default_lengths(alloc, kind_of(key)),
        }
    }

    /// The length, the height or the feed of a key.
    #[tactic(auto, unfolding(crate::specs::Values::value_of))]
    pub fn size(&self, key: u8) -> i64
        requires { IsKey key }
        ensures { result ≡ size_in (value_of self.now key) }
    {
        match self.given(key) {
            Some(
                Given {
                    value: Value::Size(size),
                    ..
                },
            ) => *size,
            Some(_) => 0,
            None => default_size(kind_of(key)),
        }
    }

    /// The speed, the count or the percentage of a key.
    #[tactic(auto, unfolding(crate::specs::Values::value_of))]
    pub fn count(&self, key: u8) -> u32
        requires { IsKey key }
        ensures { result ≡ count_in (value_of self.now key) }
    {
        match self.given(key) {
            Some(
                Given {
                    value: Value::Count(count),
                    ..
                },
            ) => *count,
            Some(_) => 0,
            None => default_count(kind_of(key)),
        }
    }

    /// The truth value of a key.
    #[tactic(auto, unfolding(crate::specs::Values::value_of))]
    pub fn truth(&self, key: u8) -> bool
        requires { IsKey key }
        ensures { result ≡ truth_in (value_of self.now key) }
    {
        match self.given(key) {
            Some(
                Given {
                    value: Value::Truth(truth),
                    ..
                },
            ) => *truth,
            Some(_) => false,
            None => default_truth(kind_of(key)),
        }
    }
}
