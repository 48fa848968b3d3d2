// The image of a file.
ghost use Rattle.std.specs.Prelude.{◌≡◌, ◌≤◌, IfOk, IfErr, Ok, Err, Some, None};
ghost use Rattle.gerber_image.specs.Checks.{is_end as is_end_of};
ghost use Rattle.gerber_image.specs.State.{Steps, IsReady, held_of};
ghost use Rattle.gerber_image.specs.Answer.{Refuses};
ghost use Rattle.gerber_image.specs.Gerber.{StandsFor};
ghost use Rattle.gerber_image.specs.Outcome.{AnswersOutcome, SomeOutcome};
ghost use Rattle.gerber_image.specs.Laws.{OneOutcome, EachStaysSet, KeepsPace, LastMacroCounts};

use crate::refusal::{GerberError, GerberKind};
use crate::state::{State, Stop};
use gerber_lexer::next_command;
use gerber_words::{Command, read_command};
use shape_parts::Painted;
use std::alloc::Global;

// Whether a command ends the file.
fn is_end(command: &Command) -> bool
    ensures { result ≡ is_end_of command.now }
{
    match command {
        Command::End => true,
        _ => false,
    }
}

// A refusal at an offset.
fn refusal(kind: GerberKind, at: usize) -> GerberError
    ensures { result ≡ record { kind = kind; at = at } }
{
    GerberError { kind, at }
}

// Reads command after command.
fn read_commands(alloc: Global, bytes: &[u8]) -> Result<Vec<Painted>, GerberError>
    ensures image { IfOk result (λ v. StandsFor bytes.now (Ok v.items)) }
    ensures refusal { IfErr result (Refuses bytes.now) }
{
    let mut state = State::new(alloc);
    let mut at = 0;
    let mut inside = false;
    'commands: while at <= bytes.len() {
        let span = match next_command(bytes, at, inside) {
            Ok(Some(span)) => span,
            Ok(None) => return Err(refusal(GerberKind::NoEnd, bytes.len())),
            Err(e) => return Err(refusal(GerberKind::Syntax, e.at)),
        };
        let command = match read_command(alloc, &bytes[span.from..span.to], span.extended) {
            Ok(Some(command)) => command,
            Ok(None) => return Err(refusal(GerberKind::Syntax, span.from)),
            Err(_) => return Err(refusal(GerberKind::Memory, span.from)),
        };
        match state.step(alloc, &command) {
            Ok(()) => {}
            Err(Stop::Fault(kind)) => return Err(refusal(kind, span.from)),
            Err(Stop::Memory) => return Err(refusal(GerberKind::Memory, span.from)),
        }
        if is_end(&command) {
            return Ok(state.painted.into_all());
        }
        at = span.next;
        inside = span.inside;
    }
    unreachable!()
}

/// The image of a Gerber file (Gerber Layer Format Specification of Ucamco, section 2.3 and chapter 4): its objects in
/// their order, dark or clear. Nothing is read behind the command that ends the file.
///
/// # Errors
///
/// The first check that fails at the first command where one does, with the command's offset; `NoEnd` at
/// the number of bytes. `Memory`, where the memory doesn't suffice, may come in place of any.
pub fn read_image(alloc: Global, bytes: &[u8]) -> Result<Vec<Painted>, GerberError>
    ensures image { IfOk result (λ v. StandsFor bytes.now (Ok v.items)) }
    ensures refusal { IfErr result (Refuses bytes.now) }
    ensures outcome { AnswersOutcome (λ v. v.items) bytes.now result }
{
    read_commands(alloc, bytes)
}

/// Bytes stand for one image or one refusal at most, so a reader answers it exactly where there is one.
pub fn one_outcome()
    ensures { OneOutcome }
{}

/// Bytes stand for their outcome.
pub fn some_outcome()
    ensures { SomeOutcome }
{}

/// What a command has set is in force until another one sets it, for each thing that may be in force; of a macro's name the
/// last definition counts.
pub fn stays_set()
    ensures set { EachStaysSet }
    ensures macros { LastMacroCounts }
{}

/// What the reader keeps is what is in force.
pub fn keeps_pace()
    ensures { KeepsPace }
{}
