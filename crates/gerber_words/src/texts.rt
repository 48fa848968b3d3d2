// The texts of commands.
ghost use Rattle.std.specs.Prelude.{◌≡◌, IfOk, IfSome, not};
ghost use Rattle.std.specs.List.{filter};
ghost use Rattle.gerber_lexer.specs.Cut.{is_break};
ghost use Rattle.gerber_words.specs.Fits.{IsCommand};
ghost use Rattle.gerber_words.specs.Texts.{command_of, without_breaks as without_breaks_of};

use crate::commands::Command;
use crate::extended::extended;
use crate::words::word;
use std::alloc::{AllocError, Global};

// The bytes without line breaks.
fn without_breaks(alloc: Global, text: &[u8]) -> Result<Vec<u8>, AllocError>
    ensures { IfOk result (λ rest. rest.items ≡ without_breaks_of text.now) }
{
    let mut rest = Vec::new(alloc);
    for b in text {
        if *b != b'\n' && *b != b'\r' {
            rest.push(*b)?;
        }
    }
    Ok(rest)
}

/// What the text of a command says, without its star: line breaks don't count in an extended command. It fails
/// only without memory.
pub fn read_command(
    alloc: Global,
    text: &[u8],
    is_extended: bool,
) -> Result<Option<Command>, AllocError>
    ensures value { IfOk result (λ command. command ≡ command_of text.now is_extended) }
    ensures fits { IfOk result (λ command. IfSome command IsCommand) }
{
    if is_extended {
        let rest = without_breaks(alloc, text)?;
        extended(alloc, &rest)
    } else {
        Ok(word(text))
    }
}
