// What a file drills.
ghost use Rattle.std.specs.Prelude.{◌≡◌, IfOk, IfSome, Ok};
ghost use Rattle.excellon.specs.Drill.{AnswersOutcome, NeverMemory, is_end as is_end_of};
ghost use Rattle.excellon.specs.Fits.{IsDrilled};
ghost use Rattle.excellon.specs.Laws.{EachStaysSet, KeepsPace};
ghost use Rattle.excellon.specs.State.{kept};

use crate::body::said;
use crate::file::{DrillError, DrillFile, DrillKind};
use crate::line::Said;
use crate::state::{State, Stop};
use std::alloc::Global;
use text_cut::next_line;

// Whether a line ends the file.
fn is_end(said: Said) -> bool
    ensures { result ≡ is_end_of said }
{
    match said {
        Said::End => true,
        _ => false,
    }
}

// A refusal at an offset.
fn refusal(kind: DrillKind, at: usize) -> DrillError
    ensures { result ≡ record { kind = kind; at = at } }
{
    DrillError { kind, at }
}

/// What a drill file drills: its holes and its slots, each in the file's order, in nanometres. It reads the
/// Excellon format (NC Drill Format: `FMAT,2`, decimals and digits with leading or trailing zeros left out,
/// slots by `G85` and by routing). Nothing is read behind the line that ends the file.
///
/// # Errors
///
/// The first check that fails at the first line where one does, with the line's offset; `NoEnd` at the number
/// of bytes. `Memory`, where the memory doesn't suffice, may come in place of any.
pub fn read_drill(alloc: Global, bytes: &[u8]) -> Result<DrillFile, DrillError>
    ensures outcome { AnswersOutcome bytes.now result }
    ensures drilled { IfOk result IsDrilled }
{
    let mut state = State::new(alloc);
    let mut rest = bytes;
    'lines: while let Some((text, behind)) = next_line(rest) {
        let at = bytes.len() - rest.len();
        let Some(said) = said(state.part, text) else {
            return Err(refusal(DrillKind::Syntax, at));
        };
        match state.step(said) {
            Ok(()) => {}
            Err(Stop::Fault(kind)) => return Err(refusal(kind, at)),
            Err(Stop::Memory) => return Err(refusal(DrillKind::Memory, at)),
        }
        if is_end(said) {
            return Ok(DrillFile {
                holes: state.holes,
                slots: state.slots,
            });
        }
        rest = behind;
    }
    Err(refusal(DrillKind::NoEnd, bytes.len()))
}

/// What a line has set is in force until another one sets it, for each thing that may be in force.
pub fn stays_set()
    ensures { EachStaysSet }
{}

/// What the reader keeps is what is in force.
pub fn keeps_pace()
    ensures { KeepsPace }
{}

/// No bytes stand for want of memory: that answer comes from memory alone.
pub fn memory_law()
    ensures { NeverMemory }
{}
