// What stands behind a start, and round a byte.
ghost use Rattle.std.specs.Prelude.{◌≡◌, ◌<◌, ◌+◌, ◌∷◌, [], MatchOption, IfSome, Some, None, length, take, drop};
ghost use Rattle.std.specs.List.{position, slice_split};
ghost use Rattle.text_cut.specs.Split.{is_byte, after as after_in, halves};

/// What stands behind `start`, where the text begins with it.
pub fn after<'a>(text: &'a [u8], start: &[u8]) -> Option<&'a [u8]>
    ensures { MatchOption result (after_in start.now text.now ≡ None)
        (λ rest. after_in start.now text.now ≡ Some rest.now) }
{
    if text.len() < start.len() {
        return None;
    }
    let (front, rest) = text.split_at(start.len());
    if front == start { Some(rest) } else { None }
}

/// The offset of the first such byte.
pub fn position_of(text: &[u8], byte: u8) -> Option<usize>
    ensures { result ≡ position (is_byte byte) text.now }
{
    text.iter().position(|b| *b == byte)
}

/// What stands behind the byte at offset `i`.
pub fn behind(text: &[u8], i: usize) -> &[u8]
    requires { i < length text.now }
    ensures { result.now ≡ drop (i + 1) text.now }
{
    &text[i + 1..]
}

/// What stands before the first such byte, and behind it.
#[tactic(auto, unfolding(crate::specs::Split::halves))]
pub fn split_once(text: &[u8], byte: u8) -> Option<(&[u8], &[u8])>
    ensures value { MatchOption result (halves byte text.now ≡ None)
        (λ cut. halves byte text.now ≡ Some (cut.0.now, cut.1.now)) }
    // The parts between all such bytes: the first, and those behind it.
    ensures parts { MatchOption result (slice_split (is_byte byte) text.now ≡ text.now ∷ [])
        (λ cut. slice_split (is_byte byte) text.now ≡ cut.0.now ∷ slice_split (is_byte byte) cut.1.now) }
    ensures shorter { IfSome result (λ cut. length cut.1.now < length text.now) }
{
    match position_of(text, byte) {
        Some(i) => Some((&text[..i], behind(text, i))),
        None => None,
    }
}
