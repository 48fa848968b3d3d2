// Programs.
ghost use Rattle.std.specs.Prelude.{◌≡◌, ◌<◌, ◌^◌, List, length, vec_len, Ok, IfOk};
ghost use Rattle.std.specs.List.{All};
ghost use Rattle.rs274_sim.specs.declared.line.Line.{Line};
ghost use Rattle.rs274_sim.specs.Text.{StandsFor};
ghost use Rattle.rs274_sim.specs.Reading.{program_of};
ghost use Rattle.ngc_reader.specs.Gives.{GivesProgram};
ghost use Rattle.rs274_sim.specs.Few.{HasFewSettings};

use crate::lines::line_of;
use crate::{NgcError, NgcKind};
use rs274_sim::{Line, reading_law};
use std::alloc::Global;
use text_cut::next_line;

// The lines of all bytes, in their order.
#[tactic(auto, unfolding(rs274_sim::specs::Reading::program_of))]
fn all_lines(alloc: Global, bytes: &[u8]) -> Result<Vec<Line>, NgcError>
    requires { length bytes.now < 2 ^ 32 }
    ensures value { GivesProgram result (program_of bytes.now) }
    ensures count { IfOk result (λ lines. vec_len lines < 2 ^ 32) }
{
    let mut lines = Vec::new(alloc);
    let mut rest = bytes;
    let mut line: u32 = 0;
    while let Some((text, behind)) = next_line(rest) {
        line += 1;
        match line_of(alloc, text) {
            Ok(read) => {
                if lines.push(read).is_err() {
                    return Err(NgcError {
                        kind: NgcKind::Memory,
                        line,
                    });
                }
            }
            Err(kind) => return Err(NgcError { kind, line }),
        }
        rest = behind;
    }
    Ok(lines)
}

/// The lines for which the bytes of a program stand.
///
/// # Errors
///
/// The first fault of the first line that has one, by rs274_sim's specs/Reading: too many bytes first, and then
/// the first place from the left. Want of memory may come at any line.
pub fn read_program(alloc: Global, bytes: &[u8]) -> Result<Vec<Line>, NgcError>
    requires { length bytes.now < 2 ^ 32 }
    // Bytes are read as the lines for which they stand.
    ensures stands { IfOk result (λ lines. StandsFor bytes.now lines.items) }
    // Bytes that stand for lines are read as these, unless memory runs out.
    ensures only { (program : List Line) → StandsFor bytes.now program → GivesProgram result (Ok program) }
    // Which fault it is, and of which line.
    ensures exact { GivesProgram result (program_of bytes.now) }
    // A line has few settings, and there are few lines, as the machine asks.
    ensures settings { IfOk result (λ lines. All HasFewSettings lines.items) }
    ensures few { IfOk result (λ lines. vec_len lines < 2 ^ 32) }
{
    reading_law();
    all_lines(alloc, bytes)
}
