// What extended commands say. The text is without its star and without line breaks.
ghost use Rattle.std.specs.Prelude.{◌≡◌, ◌<◌, ◌||◌, IfSome, Some, None, IfOk};
ghost use Rattle.std.specs.Option.{option_or};
ghost use Rattle.gerber_words.specs.Definitions.{macro_of, definition_of};
ghost use Rattle.gerber_words.specs.Fits.{IsCommand};
ghost use Rattle.gerber_words.specs.Extended.{begins as begins_in, is_note as is_note_in, note_of, setting_of, plain_of, extended_of};

use crate::commands::Command;
use crate::definitions::{definition, macro_definition};
use crate::deprecated::old;
use crate::repeats::repeat;
use crate::settings::{format, mirror, polarity, rotation, scale, unit};
use std::alloc::{AllocError, Global};
use text_cut::after;

// Whether the text begins so.
fn begins(text: &[u8], start: &[u8]) -> bool
    ensures { result ≡ begins_in start.now text.now }
{
    after(text, start).is_some()
}

// Attributes and names, with anything behind them.
fn is_note(text: &[u8]) -> bool
    ensures { result ≡ is_note_in text.now }
{
    begins(text, b"TF")
        || begins(text, b"TA")
        || begins(text, b"TO")
        || begins(text, b"TD")
        || begins(text, b"IN")
        || begins(text, b"LN")
}

// Notes, and blocks of apertures.
fn note(text: &[u8]) -> Option<Command>
    ensures value { result ≡ note_of text.now }
    ensures fits { IfSome result IsCommand }
{
    if is_note(text) {
        return Some(Command::Ignored);
    }
    if begins(text, b"AB") {
        return Some(Command::Unsupported);
    }
    None
}

// Settings.
fn setting(text: &[u8]) -> Option<Command>
    ensures value { result ≡ setting_of text.now }
    ensures fits { IfSome result IsCommand }
{
    if let Some(command) = format(text) {
        return Some(command);
    }
    if let Some(command) = unit(text) {
        return Some(command);
    }
    if let Some(command) = polarity(text) {
        return Some(command);
    }
    mirror(text)
}

// All but definitions.
fn plain(text: &[u8]) -> Option<Command>
    ensures value { result ≡ plain_of text.now }
    ensures fits { IfSome result IsCommand }
{
    if let Some(command) = note(text) {
        return Some(command);
    }
    if let Some(command) = setting(text) {
        return Some(command);
    }
    if let Some(command) = rotation(text) {
        return Some(command);
    }
    if let Some(command) = scale(text) {
        return Some(command);
    }
    if let Some(command) = repeat(text) {
        return Some(command);
    }
    old(text)
}

// A definition of a macro or of an aperture.
fn defined(alloc: Global, text: &[u8]) -> Result<Option<Command>, AllocError>
    ensures value { IfOk result (λ command. command ≡ option_or (macro_of text.now) (definition_of text.now)) }
    ensures fits { IfOk result (λ command. IfSome command IsCommand) }
{
    match macro_definition(alloc, text)? {
        Some(command) => Ok(Some(command)),
        None => definition(alloc, text),
    }
}

/// What an extended command says. It fails only without memory.
pub fn extended(alloc: Global, text: &[u8]) -> Result<Option<Command>, AllocError>
    ensures value { IfOk result (λ command. command ≡ extended_of text.now) }
    ensures fits { IfOk result (λ command. IfSome command IsCommand) }
{
    match plain(text) {
        Some(command) => Ok(Some(command)),
        None => defined(alloc, text),
    }
}
