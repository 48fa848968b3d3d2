// The words of `simulate`.
ghost use Rattle.std.specs.Prelude.{◌≡◌, Ok, Err, MatchResult, slice_get, option_and_then};
ghost use Rattle.std.specs.Option.{option_copied};
ghost use Rattle.job_file.specs.Reading.{texts};
ghost use Rattle.simulation.specs.Words.{file_word, word_if, named_of, words_of};

use endings::{begins_with, is_file_word, text_at};

/// The names of the files that the words give: the program's, and that of the probe's answers.
#[derive(Clone, Copy, Debug, PartialEq, Eq)]
pub struct Names<'a> {
    pub program: &'a str,
    pub probes: Option<&'a str>,
}

/// The name of a file that stands in this place, from 0.
pub fn file_at<'a>(words: &'a Vec<String>, place: usize) -> Option<&'a str>
    ensures { option_copied result ≡ option_and_then file_word (slice_get (texts words.now) place) }
{
    let Some(word) = text_at(words, place) else {
        return None;
    };
    if is_file_word(word.as_bytes()) {
        Some(word)
    } else {
        None
    }
}

// The name of a file that is the third word, if there is one.
fn third_file<'a>(words: &'a Vec<String>) -> Result<Option<&'a str>, u32>
    ensures { MatchResult result
        (λ name. word_if 3 file_word (texts words.now) ≡ Ok (option_copied name))
        (λ number. word_if 3 file_word (texts words.now) ≡ Err number) }
{
    if words.len() < 3 {
        return Ok(None);
    }
    match file_at(words, 2) {
        Some(name) => Ok(Some(name)),
        None => Err(3),
    }
}

/// The names that the words give.
///
/// # Errors
///
/// The number of the first word outside the grammar, from 1: `simulate`, the name of the program's file, the name of the
/// file with the probe's answers or none, and no further word.
#[tactic(auto, unfolding(crate::specs::Words::words_of))]
pub fn read_words<'a>(words: &'a Vec<String>) -> Result<Names<'a>, u32>
    ensures value { MatchResult result
        (λ names. words_of (texts words.now) ≡ Ok (named_of names))
        (λ number. words_of (texts words.now) ≡ Err number) }
{
    if !begins_with(words, "simulate") {
        return Err(1);
    }
    let Some(program) = file_at(words, 1) else {
        return Err(2);
    };
    let probes = match third_file(words) {
        Ok(probes) => probes,
        Err(number) => return Err(number),
    };
    if words.len() > 3 {
        return Err(4);
    }
    Ok(Names { program, probes })
}
