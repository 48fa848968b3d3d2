// Lines that are one word, and what is left out.
ghost use Rattle.std.specs.Prelude.{◌≡◌, is_some, IfSome};
ghost use Rattle.std.specs.Str.{bytes_eq};
ghost use Rattle.excellon.specs.Fits.{IsSaid};
ghost use Rattle.text_cut.specs.Split.{after as after_in};
ghost use Rattle.excellon.specs.Words.{word_in, is_blank as is_blank_in, is_left_out as is_left_out_of, start_words};

use crate::line::Said;
use text_cut::after;

/// Spaces alone, or nothing.
pub fn is_blank(text: &[u8]) -> bool
    ensures { result ≡ is_blank_in text.now }
{
    text.iter().all(|b| *b == b' ')
}

/// Whether these bytes are that word.
pub fn is(text: &[u8], word: &[u8]) -> bool
    ensures { result ≡ bytes_eq text.now word.now }
{
    text == word
}

/// Whether a text begins with these bytes.
pub fn begins(text: &[u8], start: &[u8]) -> bool
    ensures { result ≡ is_some (after_in start.now text.now) }
{
    after(text, start).is_some()
}

/// Repeats, arcs, steps in place of coordinates, and the word that asks for them.
pub fn is_left_out(text: &[u8]) -> bool
    ensures { result ≡ is_left_out_of text.now }
{
    begins(text, b"R")
        || begins(text, b"G02")
        || begins(text, b"G03")
        || begins(text, b"G91")
        || is(text, b"ICI,ON")
}

/// A line before the header.
pub fn start(text: &[u8]) -> Option<Said>
    ensures value { result ≡ word_in start_words text.now }
    ensures fits { IfSome result IsSaid }
{
    if is(text, b"%") {
        return Some(Said::Ignored);
    }
    if is(text, b"M48") {
        return Some(Said::Begin);
    }
    None
}
