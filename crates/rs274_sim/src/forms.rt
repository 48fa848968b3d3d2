// The faults of words, before the numbers of their values are found.
ghost use Rattle.std.specs.Prelude.{◌≡◌, ◌&&◌, ◌||◌, is_some, is_none};
ghost use Rattle.std.specs.List.{list_any, list_all};
ghost use Rattle.rs274_sim.specs.Machine.{is_number as is_number_in, is_letter as is_letter_in, is_code as is_code_in, has as has_in, is_probe as is_probe_in, has_probe as has_probe_in, given, has_axis as has_axis_in, plain_letters, known_codes, is_known as is_known_in, M, many as many_in, is_motion as is_motion_in, clash as clash_in, has_two as has_two_in, lacks_word as lacks_in, has_unknown as has_unknown_in, form_fault as form_fault_in};

use crate::ranges::{both, either};
use crate::{SimFault, Value, Word};

// The value is this number, as a plain decimal.
fn is_number(z: i64, value: &Value) -> bool
    ensures { result ≡ is_number_in z value.now }
{
    match value {
        Value::Num(n) => *n == z,
        Value::Param(_) => false,
        Value::Expr(_) => false,
    }
}

// The word has this letter and this whole number.
fn is_code(letter: u8, code: u16, word: &Word) -> bool
    ensures { result ≡ is_code_in letter code word.now }
{
    word.letter == letter && is_number(code as i64 * 1_000_000_000_000, &word.value)
}

/// The line has this letter with this whole number.
pub fn has(letter: u8, code: u16, words: &[Word]) -> bool
    ensures { result ≡ has_in letter code words.now }
{
    words.iter().any(|w| is_code(letter, code, w))
}

// The word is G38.2.
fn is_probe(word: &Word) -> bool
    ensures { result ≡ is_probe_in word.now }
{
    word.letter == b'G' && is_number(38_200_000_000_000, &word.value)
}

/// The line has a probe.
pub fn has_probe(words: &[Word]) -> bool
    ensures { result ≡ has_probe_in words.now }
{
    words.iter().any(|w| is_probe(w))
}

// A word has this letter.
fn has_letter(letter: u8, words: &[Word]) -> bool
    ensures { result ≡ list_any (is_letter_in letter) words.now }
{
    words.iter().any(|w| w.letter == letter)
}

// A number is given behind this letter.
fn names(letter: u8, words: &[Word]) -> bool
    ensures { result ≡ is_some (given letter words.now) }
{
    has_letter(letter, words)
}

// No number is given behind this letter.
fn lacks(letter: u8, words: &[Word]) -> bool
    ensures { result ≡ is_none (given letter words.now) }
{
    !has_letter(letter, words)
}

// The line has an axis word.
fn has_axis(words: &[Word]) -> bool
    ensures { result ≡ has_axis_in words.now }
{
    either(
        either(names(b'X', words), names(b'Y', words)),
        names(b'Z', words),
    )
}

// The letter may stand before any number.
fn is_plain_letter(word: &Word) -> bool
    ensures { result ≡ list_any (λ l. is_letter_in l word.now) plain_letters }
{
    matches!(word.letter, b'F' | b'P' | b'S' | b'T' | b'X' | b'Y' | b'Z')
}

// The word has this letter and one of these codes.
fn is_any(letter: u8, codes: &[u16], word: &Word) -> bool
    ensures { result ≡ list_any (λ c. is_code_in letter c word.now) codes.now }
{
    codes.iter().any(|c| is_code(letter, *c, word))
}

// The word has a code that the machine knows.
fn is_known_code(word: &Word) -> bool
    ensures { result ≡ list_any (λ c. is_code_in (word.now).letter c word.now) (known_codes (word.now).letter) }
{
    if word.letter == b'G' {
        is_any(
            word.letter,
            &[0, 1, 4, 17, 21, 40, 49, 54, 61, 80, 90, 94],
            word,
        )
    } else if word.letter == b'M' {
        is_any(word.letter, &[0, 2, 3, 5, 6, 7, 8, 9, 30], word)
    } else {
        false
    }
}

// The machine knows the word.
fn is_known(word: &Word) -> bool
    ensures { result ≡ is_known_in word.now }
{
    either(
        either(is_plain_letter(word), is_known_code(word)),
        is_probe(word),
    )
}

// The machine knows all words.
fn are_known(words: &[Word]) -> bool
    ensures { result ≡ list_all is_known_in words.now }
{
    words.iter().all(|w| is_known(w))
}

// A word that the machine doesn't know, or X or Y at a probe.
fn has_unknown(words: &[Word]) -> bool
    ensures { result ≡ has_unknown_in words.now }
{
    let beside = either(names(b'X', words), names(b'Y', words));
    either(!are_known(words), both(has_probe(words), beside))
}

// Two words or more have this letter.
fn is_twice(letter: u8, words: &[Word]) -> bool
    ensures { result ≡ many_in (is_letter_in letter) words.now }
{
    1 < words.iter().filter(|w| w.letter == letter).count()
}

// A letter that may stand once stands twice.
fn has_letter_twice(words: &[Word]) -> bool
    ensures { result ≡ list_any (λ l. many_in (is_letter_in l) words.now) plain_letters }
{
    [b'F', b'P', b'S', b'T', b'X', b'Y', b'Z']
        .iter()
        .any(|l| is_twice(*l, words))
}

// The word sets how the machine moves.
fn is_motion(word: &Word) -> bool
    ensures { result ≡ is_motion_in word.now }
{
    either(is_any(b'G', &[0, 1, 80], word), is_probe(word))
}

// Two words or more set how the machine moves.
fn has_motions(words: &[Word]) -> bool
    ensures { result ≡ many_in is_motion_in words.now }
{
    1 < words.iter().filter(|w| is_motion(w)).count()
}

// Two words or more have M and one of these codes.
fn clash(codes: &[u16], words: &[Word]) -> bool
    ensures { result ≡ clash_in M codes.now words.now }
{
    1 < words.iter().filter(|w| is_any(b'M', codes, w)).count()
}

// Words that bar one another.
fn has_two(words: &[Word]) -> bool
    ensures { result ≡ has_two_in words.now }
{
    let twice = either(has_letter_twice(words), has_motions(words));
    let clashes = either(twice, clash(&[3, 5], words));
    let more = either(clashes, clash(&[0, 2, 30], words));
    either(more, both(has(b'G', 4, words), has_axis(words)))
}

// A probe without its depth, a dwell without its time, or a time without its dwell.
fn lacks_word(words: &[Word]) -> bool
    ensures { result ≡ lacks_in words.now }
{
    let depth = both(has_probe(words), lacks(b'Z', words));
    let untimed = both(has(b'G', 4, words), lacks(b'P', words));
    let time_alone = both(names(b'P', words), !has(b'G', 4, words));
    either(either(depth, untimed), time_alone)
}

/// The first fault of words, before the numbers of their values are found.
pub fn form_fault(words: &[Word]) -> Option<SimFault>
    ensures { result ≡ form_fault_in words.now }
{
    if has_unknown(words) {
        return Some(SimFault::UnknownWord);
    }
    if has_two(words) {
        return Some(SimFault::TwoWords);
    }
    if lacks_word(words) {
        return Some(SimFault::MissingWord);
    }
    None
}
