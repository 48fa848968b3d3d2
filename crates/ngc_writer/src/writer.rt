// The bytes of a program.
ghost use Rattle.std.specs.Prelude.{◌≡◌, ◌++◌, decimal, pos, OnOk, IfOk};
ghost use Rattle.std.specs.List.{All};
ghost use Rattle.rs274_sim.specs.declared.line.Value.{Num};
ghost use Rattle.rs274_sim.specs.Machine.{number as number_in};
ghost use Rattle.rs274_sim.specs.Spelling.{has_decimals, word_text, line_text, IsWrittenLine, text_of};
ghost use Rattle.rs274_sim.specs.Text.{StandsFor};

use fixed_num::write_fixed6;
use itoa::Buffer;
use rs274_sim::{Line, Value, Word};
use std::alloc::{AllocError, Global};

// A letter whose number stands with six decimals.
fn has_decimals(letter: u8) -> bool
    ensures { result ≡ has_decimals (record { letter = letter; value = Num (pos 0) }) }
{
    matches!(letter, b'X' | b'Y' | b'Z' | b'F' | b'P')
}

// Appends a whole number.
fn write_whole(out: &mut Vec<u8>, n: u64) -> Result<(), AllocError>
    ensures { OnOk result (out.new.items ≡ out.old.items ++ decimal n) }
{
    let mut buffer = Buffer::new();
    out.extend_from_slice(buffer.format(n).as_bytes())?;
    Ok(())
}

// The number of a value that is a plain decimal.
fn number(value: &Value) -> i64
    ensures { result ≡ number_in value.now }
{
    match value {
        Value::Num(number) => *number,
        Value::Param(_) | Value::Expr(_) => 0, // no written word has these
    }
}

// Appends a letter and its number.
fn write_word(alloc: Global, out: &mut Vec<u8>, word: &Word) -> Result<(), AllocError>
    ensures { OnOk result (out.new.items ≡ out.old.items ++ word_text word.now) }
{
    let number = number(&word.value);
    out.push(word.letter)?;
    if has_decimals(word.letter) {
        write_fixed6(alloc, out, number / 1_000_000)?;
    } else {
        write_whole(out, number.unsigned_abs() / 1_000_000_000_000)?;
    }
    Ok(())
}

// Appends the words of a line with a space between them.
fn write_line(alloc: Global, out: &mut Vec<u8>, line: &Line) -> Result<(), AllocError>
    ensures { OnOk result (out.new.items ≡ out.old.items ++ line_text line.now) }
{
    for k in 0..line.words.len() {
        if k > 0 {
            out.push(b' ')?;
        }
        write_word(alloc, out, line.words.at(k))?;
    }
    Ok(())
}

/// The bytes of a program: each line in its one spelling, and LF behind it. They stand for the lines.
/// The only error is want of memory.
#[tactic(auto, unfolding(rs274_sim::specs::Spelling::text_of))]
pub fn write_program(alloc: Global, lines: &Vec<Line>) -> Result<Vec<u8>, AllocError>
    requires { All IsWrittenLine lines.now.items }
    ensures text { IfOk result (λ bytes. bytes.items ≡ text_of lines.now.items) }
    ensures stands { IfOk result (λ bytes. StandsFor bytes.items lines.now.items) }
{
    let mut bytes = Vec::new(alloc);
    for line in lines {
        write_line(alloc, &mut bytes, line)?;
        bytes.push(b'\n')?;
    }
    Ok(bytes)
}
