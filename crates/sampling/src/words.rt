// The words of `sample`.
ghost use Rattle.std.specs.Prelude.{◌≡◌, ◌≤◌, Ok, Err, MatchResult, IfOk, IfSome, decimal, option_and_then, slice_get};
ghost use Rattle.std.specs.Str.{bytes_eq};
ghost use Rattle.job_file.specs.Reading.{texts};
ghost use Rattle.sampling.specs.Words.{pads_of, words_of};

use endings::{begins_with, text_at};
use itoa::Buffer;

// The most pads of a board.
const MOST_PADS: u32 = 400;

// Whether the word is the decimal of a number.
fn is_decimal(number: u32, word: &str) -> bool
    ensures { result ≡ bytes_eq word.now (decimal number) }
{
    let mut buffer = Buffer::new();
    word == buffer.format(number)
}

// The number of pads that a word is.
fn pads_in(word: &str) -> Option<u32>
    ensures value { result ≡ pads_of word.now }
    ensures range { IfSome result (λ n. (1 ≤ n) × (n ≤ 400)) }
{
    for pads in 1..MOST_PADS + 1 {
        if is_decimal(pads, word) {
            return Some(pads);
        }
    }
    None
}

// The number of pads that the word in this place is, from 0.
fn pads_at(words: &Vec<String>, place: usize) -> Option<u32>
    ensures value { result ≡ option_and_then pads_of (slice_get (texts words.now) place) }
    ensures range { IfSome result (λ n. (1 ≤ n) × (n ≤ 400)) }
{
    match text_at(words, place) {
        Some(word) => pads_in(word),
        None => None,
    }
}

/// The number of pads that the words give.
///
/// # Errors
///
/// The number of the first word outside the grammar, from 1: `sample`, a number from 1 to 400 in decimal without leading
/// zeros, and no further word.
#[tactic(auto, unfolding(crate::specs::Words::words_of))]
pub fn read_words(words: &Vec<String>) -> Result<u32, u32>
    ensures value { MatchResult result
        (λ pads. words_of (texts words.now) ≡ Ok pads)
        (λ number. words_of (texts words.now) ≡ Err number) }
    ensures range { IfOk result (λ n. (1 ≤ n) × (n ≤ 400)) }
{
    if !begins_with(words, "sample") {
        return Err(1);
    }
    let Some(pads) = pads_at(words, 1) else {
        return Err(2);
    };
    if words.len() > 2 {
        return Err(3);
    }
    Ok(pads)
}
