// How bytes are cut into commands.
ghost use Rattle.std.specs.Prelude.{◌≡◌, ◌<◌, ◌≤◌, ◌+◌, ◌-◌, ℕ, Bool, true, false, length, take, drop, get_or, reverse, MatchOption, MatchResult, None, Some, Ok, Err, Option, Result, ◌==◌, IfSome, IfOk, ◌&&◌, not, ◌^◌};
ghost use Rattle.std.specs.List.{position};
ghost use Rattle.gerber_lexer.specs.Tiles.{CommandsTile, CommandsWithin};
ghost use Rattle.gerber_lexer.specs.Blocks.{BlocksHold, FoundInside, OnlyUnclosedFail};
ghost use Rattle.gerber_lexer.specs.Cut.{is_break, way_to, breaks_before, breaks_behind, trimmed, ends_in_star, is_macro, first_byte, block_rest, way_to_end, block_command, word_command, command_in, outside_command, percent, IsWithin, found_at, next_of, GoesOn};
ghost use Rattle.std.specs.Option.{IsSome};

use text_cut::position_of;
use thiserror::Error;

/// Where a command stands. Offsets are of bytes, from 0.
#[derive(Clone, Copy, Debug, PartialEq, Eq)]
pub struct Span {
    /// The offset of its first byte.
    pub from: usize,
    /// The offset of the star that ends it.
    pub to: usize,
    /// Whether it stands in a block of percent signs.
    pub extended: bool,
    /// Whether the next command stands in the same block.
    pub inside: bool,
    /// Where the search for the next command begins.
    pub next: usize,
}

/// A word command without its star, or a block without its percent sign or its last star.
#[derive(Clone, Copy, Debug, PartialEq, Eq, Error)]
#[error("a command or a block that isn't closed at {at}")]
pub struct LexError {
    /// The offset of the word command's first byte, or of the percent sign that opens the block.
    pub at: usize,
}

// LF or CR.
fn is_break(byte: u8) -> bool
    ensures { result ≡ is_break byte }
{
    byte == b'\n' || byte == b'\r'
}

// How far it is to the first such byte, or to the end.
#[tactic(auto, unfolding(crate::specs::Cut::way_to))]
fn way_to(byte: u8, bytes: &[u8]) -> usize
    ensures value { result ≡ way_to byte bytes.now }
    ensures within { result ≤ length bytes.now }
{
    match position_of(bytes, byte) {
        Some(i) => i,
        None => bytes.len(),
    }
}

// The offset of the first byte that is no line break.
fn first_other(bytes: &[u8]) -> Option<usize>
    ensures { result ≡ position (λ b. not (is_break b)) bytes.now }
{
    bytes.iter().position(|b| !is_break(*b))
}

// How many line breaks stand in front.
#[tactic(auto, unfolding(crate::specs::Cut::breaks_before))]
fn breaks_before(bytes: &[u8]) -> usize
    ensures value { result ≡ breaks_before bytes.now }
    ensures within { result ≤ length bytes.now }
{
    match first_other(bytes) {
        Some(i) => i,
        None => bytes.len(),
    }
}

// The offset of the last byte that is no line break, counted from the end.
fn last_other(bytes: &[u8]) -> Option<usize>
    ensures { result ≡ position (λ b. not (is_break b)) (reverse bytes.now) }
{
    bytes.iter().rev().position(|b| !is_break(*b))
}

// How many line breaks stand at the end.
#[tactic(auto, unfolding(crate::specs::Cut::breaks_behind))]
fn breaks_behind(bytes: &[u8]) -> usize
    ensures value { result ≡ breaks_behind bytes.now }
    ensures within { result ≤ length bytes.now }
{
    match last_other(bytes) {
        Some(i) => i,
        None => bytes.len(),
    }
}

// Whether the last byte is a star.
#[tactic(auto, unfolding(crate::specs::Cut::ends_in_star))]
fn ends_in_star(bytes: &[u8]) -> bool
    ensures value { result ≡ ends_in_star bytes.now }
    ensures some { result ≡ true → 0 < length bytes.now }
{
    0 < bytes.len() && bytes[bytes.len() - 1] == b'*'
}

// The first byte that is no line break, or 0.
#[tactic(auto, unfolding(crate::specs::Cut::first_byte))]
fn first_byte(bytes: &[u8]) -> u8
    ensures { result ≡ first_byte bytes.now }
{
    let i = breaks_before(bytes);
    if i < bytes.len() { bytes[i] } else { 0 }
}

// What stands behind the byte at offset `i`.
fn behind(bytes: &[u8], i: usize) -> &[u8]
    requires { i < length bytes.now }
    ensures { result.now ≡ drop (i + 1) bytes.now }
{
    &bytes[i + 1..]
}

// Whether a block goes on before these bytes, which stand behind a star.
fn goes_on(bytes: &[u8]) -> bool
    ensures { result ≡ not (first_byte bytes.now == percent) }
{
    first_byte(bytes) != b'%'
}

// What stands behind the first byte that is no line break.
fn behind_first(bytes: &[u8]) -> &[u8]
    ensures { result.now ≡ drop (breaks_before bytes.now + 1) bytes.now }
{
    let i = breaks_before(bytes);
    if i < bytes.len() {
        behind(bytes, i)
    } else {
        &bytes[bytes.len()..]
    }
}

// Whether the bytes begin with AM, line breaks aside.
#[tactic(auto, unfolding(crate::specs::Cut::is_macro))]
fn is_macro(bytes: &[u8]) -> bool
    ensures { result ≡ is_macro bytes.now }
{
    first_byte(bytes) == b'A' && first_byte(behind_first(bytes)) == b'M'
}

// What is left of a block, without the line breaks at its end.
#[tactic(auto, unfolding(crate::specs::Cut::block_rest))]
fn block_rest(bytes: &[u8]) -> &[u8]
    ensures value { result.now ≡ block_rest bytes.now }
    ensures within { length result.now ≤ way_to percent bytes.now }
{
    let block = &bytes[..way_to(b'%', bytes)];
    &block[..block.len() - breaks_behind(block)]
}

// How far it is to the star that ends the first command of a block.
#[tactic(auto, unfolding(crate::specs::Cut::way_to_end))]
fn way_to_end(block: &[u8]) -> usize
    requires { ends_in_star block.now ≡ true }
    ensures value { result ≡ way_to_end block.now }
    ensures behind { breaks_before block.now ≤ result }
    ensures within { result < length block.now }
{
    if is_macro(block) {
        block.len() - 1
    } else {
        way_to(b'*', block)
    }
}

// The command at the front of the rest of a block.
fn command_in(at: usize, block: &[u8], way: usize) -> Span
    requires at { at + way < 2 ^ 63 }
    requires within { length block.now ≤ way }
    requires star { ends_in_star block.now ≡ true }
    ensures value { result ≡ command_in at block.now way }
    ensures bounds { IsWithin at (at + way + 1) result }
{
    let to = way_to_end(block);
    let inside = to + 1 < block.len();
    Span {
        from: at + breaks_before(block),
        to: at + to,
        extended: true,
        inside,
        next: if inside { at + to + 1 } else { at + way + 1 },
    }
}

// The command of a block whose search begins here, before these bytes.
fn block_command(at: usize, rest: &[u8]) -> Option<Span>
    requires { at + length rest.now < 2 ^ 63 }
    ensures value { result ≡ block_command at rest.now }
    ensures bounds { IfSome result (IsWithin at (at + length rest.now)) }
{
    let block = block_rest(rest);
    let way = way_to(b'%', rest);
    if way == rest.len() {
        return None;
    }
    if !ends_in_star(block) {
        return None;
    }
    Some(command_in(at, block, way))
}

// The command that ends at the first star, in a block that goes on here.
#[tactic(auto, using(crate::proofs::Further::near_short))]
fn near_command(at: usize, rest: &[u8]) -> Span
    requires room { at + length rest.now < 2 ^ 63 }
    requires stands { IsSome (block_command at rest.now) }
    requires word { is_macro rest.now ≡ false }
    ensures { block_command at rest.now ≡ Some result }
{
    let to = way_to(b'*', rest);
    let behind = behind(rest, to);
    let inside = goes_on(behind);
    Span {
        from: at + breaks_before(rest),
        to: at + to,
        extended: true,
        inside,
        next: if inside {
            at + to + 1
        } else {
            at + to + 1 + breaks_before(behind) + 1
        },
    }
}

// The command of a block that goes on here. The block's end is looked for only where a macro takes all of it.
fn further_command(at: usize, rest: &[u8]) -> Option<Span>
    requires room { at + length rest.now < 2 ^ 63 }
    requires stands { IsSome (block_command at rest.now) }
    ensures value { result ≡ block_command at rest.now }
    ensures bounds { IfSome result (IsWithin at (at + length rest.now)) }
{
    if is_macro(rest) {
        block_command(at, rest)
    } else {
        Some(near_command(at, rest))
    }
}

// The word command whose first byte is here.
fn word_command(at: usize, rest: &[u8]) -> Option<Span>
    requires { at + length rest.now < 2 ^ 63 }
    ensures value { result ≡ word_command at rest.now }
    ensures bounds { IfSome result (IsWithin at (at + length rest.now)) }
{
    let to = way_to(b'*', rest);
    if to == rest.len() {
        return None;
    }
    Some(Span {
        from: at,
        to: at + to,
        extended: false,
        inside: false,
        next: at + to + 1,
    })
}

// A command, or its fault at the byte where it begins.
fn found_at(at: usize, command: Option<Span>) -> Result<Option<Span>, LexError>
    ensures value { MatchResult result (λ found. found_at at command ≡ Ok found) (λ e. found_at at command ≡ Err e.at) }
    ensures same { IfOk result (λ found. found ≡ command) }
{
    match command {
        Some(command) => Ok(Some(command)),
        None => Err(LexError { at }),
    }
}

// A block, a word command or the end.
fn outside_command(at: usize, rest: &[u8]) -> Result<Option<Span>, LexError>
    requires { at + length rest.now < 2 ^ 63 }
    ensures bounds { IfOk result (λ found. IfSome found (IsWithin at (at + length rest.now))) }
    ensures value { MatchResult result (λ found. outside_command at rest.now ≡ Ok found) (λ e. outside_command at rest.now ≡ Err e.at) }
{
    match rest {
        [] => Ok(None),
        [b'%', block @ ..] => found_at(at, block_command(at + 1, block)),
        _ => found_at(at, word_command(at, rest)),
    }
}

// The next command, from an offset on.
fn command_from(bytes: &[u8], at: usize, inside: bool) -> Result<Option<Span>, LexError>
    requires at { at ≤ length bytes.now }
    requires inside { inside ≡ true → GoesOn at bytes.now }
    ensures bounds { IfOk result (λ found. IfSome found (IsWithin at (length bytes.now))) }
    ensures value { MatchResult result (λ found. next_of bytes.now at inside ≡ Ok found) (λ e. next_of bytes.now at inside ≡ Err e.at) }
{
    let rest = &bytes[at..];
    if inside {
        found_at(at, further_command(at, rest))
    } else {
        let breaks = breaks_before(rest);
        outside_command(at + breaks, &rest[breaks..])
    }
}

/// The next command from an offset on (Gerber Layer Format Specification of Ucamco, chapter 3), or None where only line breaks are left. `inside` tells that the
/// offset lies in a block that has a further command; a command tells it, and its `next` is the offset.
///
/// # Errors
///
/// A command or a block that isn't closed, and a block that doesn't end in a star.
pub fn next_command(bytes: &[u8], at: usize, inside: bool) -> Result<Option<Span>, LexError>
    requires at { at ≤ length bytes.now }
    requires inside { inside ≡ true → GoesOn at bytes.now }
    ensures bounds { IfOk result (λ found. IfSome found (IsWithin at (length bytes.now))) }
    ensures goes_on { IfOk result (λ found. IfSome found (λ c. c.inside ≡ true → GoesOn c.next bytes.now)) }
    ensures value { MatchResult result (λ found. next_of bytes.now at inside ≡ Ok found) (λ e. next_of bytes.now at inside ≡ Err e.at) }
{
    command_from(bytes, at, inside)
}

/// Commands tile the bytes: between them stand line breaks and percent signs alone, and each ends at its star.
pub fn commands_tile()
    ensures { CommandsTile }
{}

/// Commands stand within the bytes, each behind the one before it.
pub fn commands_within()
    ensures { CommandsWithin }
{}

/// In a command of a block stands no percent sign, and inside it no star but in a macro's; the block goes on exactly where a byte
/// that is no line break stands before its percent sign. Where it goes on there is a command. No search fails but at a command or
/// a block that isn't closed, or at a block that doesn't end in a star.
pub fn blocks_hold()
    ensures blocks { BlocksHold }
    ensures inside { FoundInside }
    ensures faults { OnlyUnclosedFail }
{}
