// The parts of a line.
ghost use Rattle.std.specs.Prelude.{◌≡◌, ◌+◌, ◌++◌, ◌*ℤ◌, [], ◌∷◌, decimal, map, pos, OnOk};
ghost use Rattle.rs274_sim.specs.declared.line.Value.{Num};
ghost use Rattle.rs274_sim.specs.Spelling.{has_decimals};
ghost use Rattle.mill_program.specs.Conditions.{IsFeed};
ghost use Rattle.mill_program.specs.GridLines.{answer_line};
ghost use Rattle.mill_program.specs.Lines.{code as code_of, feed_word as feed_of, words};
ghost use Rattle.grid_writer.specs.declared.parts.Part.TheVariants.{Levelled};
ghost use Rattle.grid_writer.specs.Parts.{word_of, share_text, shares_text};
ghost use Rattle.grid_writer.specs.Spelling.{tenths_text, word_over, line_bytes};

use fixed_num::write_fixed6;
use itoa::Buffer;
use std::alloc::{AllocError, Global};

/// The parameter that has the height of the last contact.
const CONTACT_HEIGHT: u64 = 5_063;

/// A word of a line.
#[derive(Clone, Copy)]
pub enum Part {
    /// A letter and millionths.
    Plain(u8, i64),
    /// A height over a surface, in nanometres: the weights of four probes and their numbers.
    Levelled(i64, [i64; 4], [u32; 4]),
}

/// A whole number behind a letter.
#[tactic(auto, using(crate::proofs::PartLaws::code_is))]
pub fn code(letter: u8, n: u32) -> Part
    ensures { word_of result ≡ code_of letter n }
{
    Part::Plain(letter, n as i64 * 1_000_000)
}

/// A feed in thousandths of a millimetre a minute.
#[tactic(auto, using(crate::proofs::PartLaws::feed_is))]
pub fn feed(f: i64) -> Part
    requires { IsFeed f }
    ensures { word_of result ≡ feed_of f }
{
    Part::Plain(b'F', f * 1_000)
}

// A letter whose number stands with six decimals.
fn has_decimals(letter: u8) -> bool
    ensures { result ≡ has_decimals (record { letter = letter; value = Num (pos 0) }) }
{
    matches!(letter, b'X' | b'Y' | b'Z' | b'F' | b'P')
}

// Appends a whole number.
fn write_whole(out: &mut Vec<u8>, n: u64) -> Result<(), AllocError>
    ensures { OnOk result (out.new.items ≡ out.old.items ++ decimal n) }
{
    let mut buffer = Buffer::new();
    out.extend_from_slice(buffer.format(n).as_bytes())?;
    Ok(())
}

// Appends a number of tenths, with a decimal only where it isn't whole.
fn write_tenths(out: &mut Vec<u8>, n: u64) -> Result<(), AllocError>
    ensures { OnOk result (out.new.items ≡ out.old.items ++ tenths_text n) }
{
    write_whole(out, n / 10)?;
    if n % 10 == 0 {
        return Ok(());
    }
    out.push(b'.')?;
    out.push(b'0' + (n % 10) as u8)?;
    Ok(())
}

// Appends a letter and its millionths.
fn write_plain(alloc: Global, out: &mut Vec<u8>, letter: u8, m: i64) -> Result<(), AllocError>
    ensures { OnOk result (out.new.items ≡ out.old.items ++ word_over (record { letter = letter; value = Num (m *ℤ pos 1000000) })) }
{
    out.push(letter)?;
    if has_decimals(letter) {
        write_fixed6(alloc, out, m)?;
    } else {
        write_tenths(out, m.unsigned_abs() / 100_000)?;
    }
    Ok(())
}

// Appends the share of a probe.
fn write_share(alloc: Global, out: &mut Vec<u8>, weight: i64, probe: u32) -> Result<(), AllocError>
    ensures { OnOk result (out.new.items ≡ out.old.items ++ share_text weight probe) }
{
    out.push(b'+')?;
    write_fixed6(alloc, out, weight)?;
    out.extend_from_slice(b"*#")?;
    write_whole(out, 101 + probe as u64)
}

// Appends the shares of four probes.
fn write_shares(
    alloc: Global,
    out: &mut Vec<u8>,
    weights: [i64; 4],
    probes: [u32; 4],
) -> Result<(), AllocError>
    ensures { OnOk result (out.new.items ≡ out.old.items ++ shares_text weights probes) }
{
    for k in 0..4 {
        write_share(alloc, out, weights[k], probes[k])?;
    }
    Ok(())
}

// Appends a height over a surface.
fn write_levelled(
    alloc: Global,
    out: &mut Vec<u8>,
    z: i64,
    weights: [i64; 4],
    probes: [u32; 4],
) -> Result<(), AllocError>
    ensures { OnOk result (out.new.items ≡ out.old.items ++ word_over (word_of (Levelled z weights probes))) }
{
    out.extend_from_slice(b"Z[")?;
    write_fixed6(alloc, out, z)?;
    write_shares(alloc, out, weights, probes)?;
    out.push(b']')?;
    Ok(())
}

// Appends a word.
fn write_part(alloc: Global, out: &mut Vec<u8>, part: &Part) -> Result<(), AllocError>
    ensures { OnOk result (out.new.items ≡ out.old.items ++ word_over (word_of part.now)) }
{
    match *part {
        Part::Plain(letter, m) => write_plain(alloc, out, letter, m),
        Part::Levelled(z, weights, probes) => write_levelled(alloc, out, z, weights, probes),
    }
}

/// Appends a line of words, with its end.
#[tactic(auto, using(crate::proofs::PartLaws::line_is))]
pub fn write_line(
    alloc: Global,
    out: &mut Vec<u8>,
    first: Part,
    rest: &[Part],
) -> Result<(), AllocError>
    ensures { OnOk result (out.new.items ≡ out.old.items ++ line_bytes (words (word_of first ∷ map word_of rest.now))) }
{
    write_part(alloc, out, &first)?;
    for part in rest {
        out.push(b' ')?;
        write_part(alloc, out, part)?;
    }
    out.push(b'\n')?;
    Ok(())
}

/// Appends a line that keeps the height of a contact as the answer of a probe.
pub fn write_answer(out: &mut Vec<u8>, probe: u32) -> Result<(), AllocError>
    ensures { OnOk result (out.new.items ≡ out.old.items ++ line_bytes (answer_line probe)) }
{
    out.push(b'#')?;
    write_whole(out, 101 + probe as u64)?;
    out.extend_from_slice(b"=#")?;
    write_whole(out, CONTACT_HEIGHT)?;
    out.push(b'\n')?;
    Ok(())
}
