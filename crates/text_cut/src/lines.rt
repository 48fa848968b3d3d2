// Lines, which end in LF or CR LF; the last one may have no end.
ghost use Rattle.std.specs.Prelude.{◌≡◌, ◌+◌, ◌-◌, ◌<◌, ◌∷◌, [], length, take, drop, MatchOption, IfSome, Some, None};
ghost use Rattle.std.specs.List.{position};
ghost use Rattle.std.specs.Str.Lines.{lines, strip_carriage_return};
ghost use Rattle.text_cut.specs.Lines.{HasNoLine, HasLine, TextsAreLines};

use crate::split::{behind, position_of};

// The line before a line feed, without the carriage return at its end.
fn without_return(line: &[u8]) -> &[u8]
    ensures { result.now ≡ strip_carriage_return line.now }
{
    match line {
        [front @ .., b'\r'] => front,
        _ => line,
    }
}

/// The first line without its end, and what stands behind it. Behind the last line feed stands no further line,
/// and a carriage return at the very end of the bytes stays.
pub fn next_line(bytes: &[u8]) -> Option<(&[u8], &[u8])>
    ensures value { MatchOption result (lines bytes.now ≡ [])
        (λ cut. lines bytes.now ≡ cut.0.now ∷ lines cut.1.now) }
    // The next line's offset is as much further as bytes were cut off.
    ensures offsets { MatchOption result (HasNoLine bytes.now)
        (λ cut. HasLine bytes.now cut.0.now cut.1.now) }
    ensures rest { IfSome result (λ cut. cut.1.now ≡ drop (length bytes.now - length cut.1.now) bytes.now) }
    ensures shorter { IfSome result (λ cut. length cut.1.now < length bytes.now) }
{
    if bytes.is_empty() {
        return None;
    }
    match position_of(bytes, b'\n') {
        Some(i) => Some((without_return(&bytes[..i]), behind(bytes, i))),
        None => Some((bytes, &[])),
    }
}

/// The lines with their offsets have the texts of the lines.
pub fn lines_law()
    ensures { TextsAreLines }
{}
