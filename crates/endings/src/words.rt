// Words of commands.
ghost use Rattle.std.specs.Prelude.{◌≡◌, ◌&&◌, length, nat_le, slice_get, is_ok};
ghost use Rattle.std.specs.List.{list_all};
ghost use Rattle.std.specs.Option.{option_copied};
ghost use Rattle.job_file.specs.Numbers.{is_printable as is_printable_in};
ghost use Rattle.job_file.specs.Reading.{texts};
ghost use Rattle.endings.specs.Words.{word, exactly, is_dashed as is_dashed_in, is_file_word as is_file_word_in};

use text_cut::after;

/// The word in this place, from 0.
pub fn text_at<'a>(words: &'a Vec<String>, place: usize) -> Option<&'a str>
    ensures { option_copied result ≡ slice_get (texts words.now) place }
{
    match words.get(place) {
        Some(word) => Some(word.as_str()),
        None => None,
    }
}

/// Whether the first word is this text.
pub fn begins_with(words: &Vec<String>, text: &str) -> bool
    ensures { result ≡ is_ok (word 1 (exactly text.now) (texts words.now)) }
{
    match text_at(words, 0) {
        Some(word) => word == text,
        None => false,
    }
}

/// Whether the word begins with two dashes.
pub fn is_dashed(word: &[u8]) -> bool
    ensures { result ≡ is_dashed_in word.now }
{
    after(word, b"--").is_some()
}

// Whether the text is printable ASCII.
fn is_printable(text: &[u8]) -> bool
    ensures { result ≡ list_all is_printable_in text.now }
{
    text.iter().all(|b| 32 <= *b && *b <= 126)
}

// Whether the text has so many bytes as a name may have.
fn is_short(text: &[u8]) -> bool
    ensures { result ≡ (nat_le 1 (length text.now) && nat_le (length text.now) 200) }
{
    1 <= text.len() && text.len() <= 200
}

/// Whether the word is a name of a file: 1 to 200 printable bytes of ASCII that don't begin with two dashes.
pub fn is_file_word(word: &[u8]) -> bool
    ensures { result ≡ is_file_word_in word.now }
{
    is_short(word) && is_printable(word) && !is_dashed(word)
}
