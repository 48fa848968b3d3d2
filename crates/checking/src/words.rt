// The words of `check`.
ghost use Rattle.std.specs.Prelude.{◌≡◌, ◌≤◌, Ok, Err, MatchResult, slice_get, option_and_then};
ghost use Rattle.std.specs.Option.{option_copied};
ghost use Rattle.job_file.specs.Reading.{texts};
ghost use Rattle.checking.specs.Words.{side_named, first_line as first_line_of, check_words_of, words_of};

use board_base::Side;
use endings::{begins_with, text_at};
use mill_inputs::{read_place, read_rest};
use simulation::{Names, file_at};

/// What the words give: where the job stands, the side that is checked, and the names of the program's file and of that
/// with the probe's answers.
#[derive(Clone, Copy, Debug, PartialEq, Eq)]
pub struct CheckWords<'a> {
    pub job: Option<&'a str>,
    pub side: Side,
    pub files: Names<'a>,
}

// The side that a word names.
fn side_in(word: &str) -> Option<Side>
    ensures { result ≡ side_named word.now }
{
    if word == "front" {
        Some(Side::Front)
    } else if word == "back" {
        Some(Side::Back)
    } else {
        None
    }
}

// The side that the word in this place names, from 0.
fn side_at(words: &Vec<String>, place: usize) -> Option<Side>
    ensures { result ≡ option_and_then side_named (slice_get (texts words.now) place) }
{
    match text_at(words, place) {
        Some(word) => side_in(word),
        None => None,
    }
}

// The number of the first word that has to be a line of the job.
fn first_line(probes: Option<&str>) -> usize
    ensures value { result ≡ first_line_of (option_copied probes.entry) }
    ensures some { 1 ≤ result }
{
    match probes {
        Some(_) => 6,
        None => 5,
    }
}

/// What the words give.
///
/// # Errors
///
/// The number of the first word outside the grammar, from 1: `check`, the name of the job's file or a dash, `front` or
/// `back`, the name of the program's file, the name of the file with the probe's answers or none, and lines of the job.
#[tactic(auto, unfolding(crate::specs::Words::words_of))]
pub fn read_words<'a>(words: &'a Vec<String>) -> Result<CheckWords<'a>, usize>
    ensures value { MatchResult result
        (λ w. words_of (texts words.now) ≡ Ok (check_words_of w))
        (λ number. words_of (texts words.now) ≡ Err number) }
{
    if !begins_with(words, "check") {
        return Err(1);
    }
    let job = match read_place(words) {
        Ok(job) => job,
        Err(number) => return Err(number),
    };
    let Some(side) = side_at(words, 2) else {
        return Err(3);
    };
    let Some(program) = file_at(words, 3) else {
        return Err(4);
    };
    let probes = file_at(words, 4);
    match read_rest(words, first_line(probes)) {
        Ok(()) => Ok(CheckWords {
            job,
            side,
            files: Names { program, probes },
        }),
        Err(number) => Err(number),
    }
}
