// What the lines of the body say, and any line.
ghost use Rattle.std.specs.Prelude.{◌≡◌, ◌∷◌, [], codes, MatchOption, IfSome, Some, None};
ghost use Rattle.std.specs.Option.{option_or};
ghost use Rattle.excellon.specs.Fits.{IsSaid, IsWritten, AreWritten};
ghost use Rattle.excellon.specs.Words.{word_in};
ghost use Rattle.excellon.specs.Body.{body_words, field as field_of, some_of as some_of_pair, pair_of, alone as alone_of, whole_pair as whole_pair_of, move_of, cut_of, behind_pair as behind_pair_of, coordinates_of, selection_of, other_body, body_of, comment_of, line_of, filled_of, said_of};

use crate::header::{format, header};
use crate::line::{Coordinate, Pair, Part, Said, Way, Word};
use crate::numerals::{coordinate, number_before, tool_number};
use crate::words::{is, is_blank, is_left_out, start};
use fixed_num::Unit;
use text_cut::after;

// A unit alone.
fn lone_unit(text: &[u8]) -> Option<Said>
    ensures value { result ≡ word_in ((codes "M71", Said.Unit Unit.Mm None None) ∷ (codes "M72", Said.Unit Unit.Inch None None) ∷ []) text.now }
    ensures fits { IfSome result IsSaid }
{
    if is(text, b"M71") {
        return Some(Said::Unit {
            unit: Unit::Mm,
            fills: None,
            format: None,
        });
    }
    if is(text, b"M72") {
        return Some(Said::Unit {
            unit: Unit::Inch,
            fills: None,
            format: None,
        });
    }
    None
}

// A line that is one word.
fn word(text: &[u8]) -> Option<Said>
    ensures value { result ≡ word_in body_words text.now }
    ensures fits { IfSome result IsSaid }
{
    if is(text, b"M30") {
        return Some(Said::End);
    }
    if is(text, b"G90") {
        return Some(Said::Ignored);
    }
    if let Some(said) = lone_unit(text) {
        return Some(said);
    }
    if is(text, b"M15") {
        return Some(Said::Lower { down: true });
    }
    if is(text, b"M16") {
        return Some(Said::Lower { down: false });
    }
    if is(text, b"G05") {
        return Some(Said::EndRouting);
    }
    None
}

// The coordinate with this letter, if there is one, and what stands behind it.
fn field<'a>(text: &'a [u8], letter: &[u8]) -> Option<(Option<Coordinate>, &'a [u8])>
    ensures written { IfSome result (λ r. IfSome r.0 IsWritten) }
    ensures value { MatchOption result (field_of letter.now text.now ≡ None)
        (λ r. field_of letter.now text.now ≡ Some (r.0, r.1.now)) }
{
    let Some(rest) = after(text, letter) else {
        return Some((None, text));
    };
    let n = number_before(rest);
    let number = coordinate(&rest[..n])?;
    Some((Some(number), &rest[n..]))
}

// At least one coordinate.
fn some_of(pair: Pair, rest: &[u8]) -> Option<(Pair, &[u8])>
    requires { AreWritten pair }
    ensures written { IfSome result (λ r. AreWritten r.0) }
    ensures value { MatchOption result (some_of_pair pair rest.now ≡ None)
        (λ r. some_of_pair pair rest.now ≡ Some (r.0, r.1.now)) }
{
    if pair.x.is_some() || pair.y.is_some() {
        Some((pair, rest))
    } else {
        None
    }
}

// X, Y or both in this order, and what stands behind them.
#[tactic(auto, unfolding(crate::specs::Body::pair_of))]
fn pair(text: &[u8]) -> Option<(Pair, &[u8])>
    ensures written { IfSome result (λ r. AreWritten r.0) }
    ensures value { MatchOption result (pair_of text.now ≡ None)
        (λ r. pair_of text.now ≡ Some (r.0, r.1.now)) }
{
    let (x, rest) = field(text, b"X")?;
    let (y, rest) = field(rest, b"Y")?;
    some_of(Pair { x, y }, rest)
}

// With nothing behind it.
fn alone(pair: Pair, text: &[u8]) -> Option<Pair>
    requires { AreWritten pair }
    ensures value { result ≡ alone_of pair text.now }
    ensures written { IfSome result AreWritten }
{
    match text {
        [] => Some(pair),
        _ => None,
    }
}

// X, Y or both, and nothing else.
#[tactic(auto, unfolding(crate::specs::Body::whole_pair))]
fn whole_pair(text: &[u8]) -> Option<Pair>
    ensures value { result ≡ whole_pair_of text.now }
    ensures written { IfSome result AreWritten }
{
    let (pair, rest) = pair(text)?;
    alone(pair, rest)
}

// A move.
fn move_to(text: &[u8]) -> Option<Said>
    ensures value { result ≡ move_of text.now }
    ensures fits { IfSome result IsSaid }
{
    let rest = after(text, b"G00")?;
    let to = whole_pair(rest)?;
    Some(Said::Go {
        way: Way {
            word: Word::Move,
            from: None,
            to,
        },
    })
}

// A move that cuts where the tool is lowered.
fn cut_to(text: &[u8]) -> Option<Said>
    ensures value { result ≡ cut_of text.now }
    ensures fits { IfSome result IsSaid }
{
    let rest = after(text, b"G01")?;
    let to = whole_pair(rest)?;
    Some(Said::Go {
        way: Way {
            word: Word::Cut,
            from: None,
            to,
        },
    })
}

// The end of a slot, if there is one.
fn behind_pair(from: Pair, text: &[u8]) -> Option<Said>
    requires { AreWritten from }
    ensures value { result ≡ behind_pair_of from text.now }
    ensures fits { IfSome result IsSaid }
{
    match text {
        [] => Some(Said::Go {
            way: Way {
                word: Word::Plain,
                from: None,
                to: from,
            },
        }),
        _ => {
            let rest = after(text, b"G85")?;
            let to = whole_pair(rest)?;
            Some(Said::Go {
                way: Way {
                    word: Word::Plain,
                    from: Some(from),
                    to,
                },
            })
        }
    }
}

// Coordinates alone, or a slot.
fn coordinates(text: &[u8]) -> Option<Said>
    ensures value { result ≡ coordinates_of text.now }
    ensures fits { IfSome result IsSaid }
{
    let (pair, rest) = pair(text)?;
    behind_pair(pair, rest)
}

// A line with coordinates.
fn motion(text: &[u8]) -> Option<Said>
    ensures value { result ≡ option_or (move_of text.now) (option_or (cut_of text.now) (coordinates_of text.now)) }
    ensures fits { IfSome result IsSaid }
{
    if let Some(said) = move_to(text) {
        return Some(said);
    }
    if let Some(said) = cut_to(text) {
        return Some(said);
    }
    coordinates(text)
}

// What stands behind the T of a selection.
fn selection(text: &[u8]) -> Option<Said>
    ensures value { result ≡ selection_of text.now }
    ensures fits { IfSome result IsSaid }
{
    let number = tool_number(text)?;
    Some(Said::Select { number })
}

// A line that is more than one word.
fn other(text: &[u8]) -> Option<Said>
    ensures value { result ≡ other_body text.now }
    ensures fits { IfSome result IsSaid }
{
    match text {
        [] => None,
        [b'T', rest @ ..] => selection(rest),
        _ => {
            if is_left_out(text) {
                Some(Said::Unsupported)
            } else {
                motion(text)
            }
        }
    }
}

// A line of the body.
#[tactic(auto, unfolding(crate::specs::Body::body_of))]
fn body(text: &[u8]) -> Option<Said>
    ensures value { result ≡ body_of text.now }
    ensures fits { IfSome result IsSaid }
{
    match word(text) {
        Some(said) => Some(said),
        None => other(text),
    }
}

// A comment, which says something in the header alone.
fn comment(part: Part, text: &[u8]) -> Said
    ensures value { result ≡ comment_of part text.now }
    ensures fits { IsSaid result }
{
    match part {
        Part::Header => match format(text) {
            Some(said) => said,
            None => Said::Ignored,
        },
        _ => Said::Ignored,
    }
}

// A line by the part in which it stands.
fn line(part: Part, text: &[u8]) -> Option<Said>
    ensures value { result ≡ line_of part text.now }
    ensures fits { IfSome result IsSaid }
{
    match part {
        Part::Start => start(text),
        Part::Header => header(text),
        Part::Body => body(text),
    }
}

// A line that isn't blank.
fn filled(part: Part, text: &[u8]) -> Option<Said>
    ensures value { result ≡ filled_of part text.now }
    ensures fits { IfSome result IsSaid }
{
    match text {
        [] => Some(Said::Ignored),
        [b';', ..] => Some(comment(part, text)),
        _ => line(part, text),
    }
}

/// What a line says in a part of the file.
#[tactic(auto, unfolding(crate::specs::Body::said_of))]
pub fn said(part: Part, text: &[u8]) -> Option<Said>
    ensures value { result ≡ said_of part text.now }
    ensures fits { IfSome result IsSaid }
{
    if is_blank(text) {
        return Some(Said::Ignored);
    }
    filled(part, text)
}
