// What definitions of apertures and macros say.
ghost use Rattle.std.specs.Prelude.{◌≡◌, ◌<◌, ◌&&◌, IfSome, Some, None, IfOk};
ghost use Rattle.gerber_words.specs.Fits.{IsCommand};
ghost use Rattle.gerber_words.specs.Definitions.{defined_in, definition_of, macro_round, macro_in, macro_of};
ghost use Rattle.text_cut.specs.Split.{halves};

use crate::commands::{ApertureText, Command};
use crate::numerals::number;
use board_base::Items;
use std::alloc::{AllocError, Global};
use text_cut::{after, split_digits, split_once};

// An aperture's number and its template.
fn defined(alloc: Global, number: u64, template: &[u8]) -> Result<Option<Command>, AllocError>
    ensures value { IfOk result (λ command. command ≡ defined_in number template.now) }
    ensures fits { IfOk result (λ command. IfSome command IsCommand) }
{
    if 10 <= number && number <= 2_147_483_647 {
        let bytes = template.to_vec(alloc)?;
        Ok(Some(Command::Define {
            number: number as u32,
            template: ApertureText::of(bytes),
        }))
    } else {
        Ok(None)
    }
}

/// ADD, a number and a template.
#[tactic(auto, unfolding(crate::specs::Definitions::definition_of))]
pub fn definition(alloc: Global, text: &[u8]) -> Result<Option<Command>, AllocError>
    ensures value { IfOk result (λ command. command ≡ definition_of text.now) }
    ensures fits { IfOk result (λ command. IfSome command IsCommand) }
{
    let Some(rest) = after(text, b"ADD") else {
        return Ok(None);
    };
    let (digits, text) = split_digits(rest);
    let Some(number) = number(digits) else {
        return Ok(None);
    };
    defined(alloc, number, text)
}

/// The macro with this name and this body.
fn macro_with(alloc: Global, name: &[u8], body: &[u8]) -> Result<Command, AllocError>
    ensures { IfOk result (λ command. command ≡ Command.DefineMacro name.now body.now) }
{
    let name = name.to_vec(alloc)?;
    let body = body.to_vec(alloc)?;
    Ok(Command::DefineMacro {
        name: Items::of(name),
        body: Items::of(body),
    })
}

// The macro of a text: its name goes up to the first star.
fn named_macro(alloc: Global, text: &[u8]) -> Result<Command, AllocError>
    ensures { IfOk result (λ command. command ≡ macro_round text.now (halves 42 text.now)) }
{
    match split_once(text, b'*') {
        Some((name, body)) => macro_with(alloc, name, body),
        None => macro_with(alloc, text, b"0"),
    }
}

// The same where the name has a byte.
fn macro_behind(alloc: Global, text: &[u8]) -> Result<Option<Command>, AllocError>
    ensures { IfOk result (λ command. command ≡ macro_in text.now) }
{
    match text {
        [] | [b'*', ..] => Ok(None),
        _ => {
            let command = named_macro(alloc, text)?;
            Ok(Some(command))
        }
    }
}

/// AM, a name and a body.
#[tactic(auto, unfolding(crate::specs::Definitions::macro_of))]
pub fn macro_definition(alloc: Global, text: &[u8]) -> Result<Option<Command>, AllocError>
    ensures value { IfOk result (λ command. command ≡ macro_of text.now) }
    ensures fits { IfOk result (λ command. IfSome command IsCommand) }
{
    match after(text, b"AM") {
        Some(rest) => macro_behind(alloc, rest),
        None => Ok(None),
    }
}
