// The words of `mill`.
ghost use Rattle.std.specs.Prelude.{◌≡◌, ◌≤◌, MatchResult, drop, not, string_bytes};
ghost use Rattle.std.specs.List.{position};
ghost use Rattle.std.specs.Option.{option_copied};
ghost use Rattle.job_file.specs.Reading.{texts};
ghost use Rattle.endings.specs.Words.{word};
ghost use Rattle.mill_inputs.specs.Words.{is_job_word as is_job_word_in, job_place, job_words, words_of};

use endings::{begins_with, is_dashed, is_file_word, text_at};
use text_cut::split_once;

// Whether the word is a line of the job.
fn is_job_word(word: &[u8]) -> bool
    ensures { result ≡ is_job_word_in word.now }
{
    is_dashed(word) && split_once(word, b'=').is_some()
}

// The place, behind so many words, of the first that isn't a line of the job.
fn first_other(words: &Vec<String>, before: usize) -> Option<usize>
    ensures { result ≡ position (λ w. not (is_job_word_in (string_bytes w))) (drop before words.now.items) }
{
    words
        .iter()
        .skip(before)
        .position(|word| !is_job_word(word.as_bytes()))
}

/// Where the job stands by the second word, or the number of that word.
pub fn read_place<'a>(words: &'a Vec<String>) -> Result<Option<&'a str>, usize>
    ensures { MatchResult result
        (λ place. word 2 job_place (texts words.now) ≡ Ok (option_copied place))
        (λ number. word 2 job_place (texts words.now) ≡ Err number) }
{
    match text_at(words, 1) {
        Some(word) if word == "-" => Ok(None),
        Some(word) if is_file_word(word.as_bytes()) => Ok(Some(word)),
        _ => Err(2),
    }
}

/// The number of the first word, from the one with this number on, that isn't a line of the job.
pub fn read_rest(words: &Vec<String>, number: usize) -> Result<(), usize>
    requires { 1 ≤ number }
    ensures { MatchResult result
        (λ _. job_words number (texts words.now) ≡ Ok number)
        (λ other. job_words number (texts words.now) ≡ Err other) }
{
    match first_other(words, number - 1) {
        Some(place) => Err(place + number),
        None => Ok(()),
    }
}

/// The name of the job's file, or none where the job has no file, if the words are those of `mill`; else the number of
/// the first word outside the grammar, from 1.
#[tactic(auto, unfolding(crate::specs::Words::words_of))]
pub fn read_words<'a>(words: &'a Vec<String>) -> Result<Option<&'a str>, usize>
    ensures value { MatchResult result
        (λ place. words_of (texts words.now) ≡ Ok (option_copied place))
        (λ number. words_of (texts words.now) ≡ Err number) }
{
    if !begins_with(words, "mill") {
        return Err(1);
    }
    let place = read_place(words)?;
    read_rest(words, 3)?;
    Ok(place)
}
