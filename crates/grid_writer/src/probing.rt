// The probes of a board, and heights over its surface.
ghost use Rattle.std.specs.Prelude.{◌≡◌, ◌++◌, ◌*◌, ◌<◌, ◌≤◌, pos, neg_ℤ, ◌+ℤ◌, ◌*ℤ◌, ◌≤ℤ◌, unsigned_abs, Some, OnOk};
ghost use Rattle.board_base.specs.Places.{IsCoordinate};
ghost use Rattle.std.specs.List.{flat_map, range_with_len};
ghost use Rattle.mill_program.specs.Lines.{words, height_line, length_word};
ghost use Rattle.mill_program.specs.Probes.{probe_place};
ghost use Rattle.mill_program.specs.Heights.{height_word};
ghost use Rattle.mill_program.specs.GridLines.{over_place, contact_line, probe_lines, probing_lines};
ghost use Rattle.grid_writer.specs.Conditions.{IsPlaced, IsSurface};
ghost use Rattle.grid_writer.specs.Parts.{word_of};
ghost use Rattle.grid_writer.specs.Spelling.{line_bytes, text_over};

use crate::parts::{Part, feed, write_answer, write_line};
use board_base::Point;
use mill_program::{Corner, ProbeGrid, weights_at};
use std::alloc::{AllocError, Global};

// A height over a grid: the corner's own and the four probes round it by their weights.
fn levelled(grid: &ProbeGrid, c: Corner) -> Part
    requires { IsPlaced grid.now }
    ensures { word_of result ≡ height_word (Some grid.now) c }
{
    let weights = weights_at(grid, Point { x: c.x, y: c.y });
    let first = weights.first;
    let above = first + grid.nx;
    Part::Levelled(c.z, weights.w, [first, first + 1, above, above + 1])
}

/// The height of a corner.
pub fn height(grid: &Option<ProbeGrid>, c: Corner) -> Part
    requires { IsSurface grid.now }
    ensures { word_of result ≡ height_word grid.now c }
{
    match grid {
        None => Part::Plain(b'Z', c.z),
        Some(grid) => levelled(grid, c),
    }
}

/// Straight up or down to a height.
pub fn write_height(alloc: Global, out: &mut Vec<u8>, z: i64) -> Result<(), AllocError>
    ensures { OnOk result (out.new.items ≡ out.old.items ++ line_bytes (words (height_line z))) }
{
    write_line(alloc, out, Part::Plain(b'G', 0), &[Part::Plain(b'Z', z)])
}

// A way of some steps.
fn times(n: u32, step: i64) -> i64
    requires n { n ≤ 900 }
    requires step { unsigned_abs step ≤ 1000000000 }
    ensures value { result ≡ pos n *ℤ step }
    ensures size { unsigned_abs result ≤ 900000000000 }
{
    n as i64 * step
}

// A place along an axis, so far from another one.
fn moved(from: i64, by: i64) -> i64
    requires from { IsCoordinate from }
    requires by { unsigned_abs by ≤ 900000000000 }
    ensures { result ≡ from +ℤ by }
{
    from + by
}

// The place of a probe.
#[tactic(auto, using(crate::proofs::ProbeLaws::column_few, crate::proofs::ProbeLaws::row_few, crate::proofs::ProbeLaws::dx_small, crate::proofs::ProbeLaws::dy_small))]
fn place(grid: &ProbeGrid, probe: u32) -> Point
    requires grid { IsPlaced grid.now }
    requires probe { probe < (grid.now).nx * (grid.now).ny }
    ensures { result ≡ probe_place grid.now probe }
{
    let east = times(probe % grid.nx, grid.dx);
    let north = times(probe / grid.nx, grid.dy);
    Point {
        x: moved(grid.x0, east),
        y: moved(grid.y0, north),
    }
}

// Over to the place of a probe.
fn write_over_place(alloc: Global, out: &mut Vec<u8>, q: Point) -> Result<(), AllocError>
    ensures { OnOk result (out.new.items ≡ out.old.items ++ line_bytes (words (over_place q))) }
{
    let y = Part::Plain(b'Y', q.y);
    write_line(
        alloc,
        out,
        Part::Plain(b'G', 0),
        &[Part::Plain(b'X', q.x), y],
    )
}

// Below the board's surface by the range of the probes.
fn below(range: i64) -> Part
    requires low { pos 0 ≤ℤ range }
    requires high { range ≤ℤ pos 10000000 }
    ensures { word_of result ≡ length_word 90 (neg_ℤ range) }
{
    Part::Plain(b'Z', -range)
}

// Straight down to the board.
fn write_contact(alloc: Global, out: &mut Vec<u8>, grid: &ProbeGrid) -> Result<(), AllocError>
    requires { IsPlaced grid.now }
    ensures { OnOk result (out.new.items ≡ out.old.items ++ line_bytes (words (contact_line grid.now))) }
{
    let down = below(grid.range);
    let feed = feed(grid.feed);
    write_line(alloc, out, Part::Plain(b'G', 38_200_000), &[down, feed])
}

// One probe, from above its place.
fn write_probe(
    alloc: Global,
    out: &mut Vec<u8>,
    safe: i64,
    grid: &ProbeGrid,
    probe: u32,
) -> Result<(), AllocError>
    requires grid { IsPlaced grid.now }
    requires probe { probe < (grid.now).nx * (grid.now).ny }
    ensures { OnOk result (out.new.items ≡ out.old.items ++ text_over (probe_lines safe grid.now probe)) }
{
    write_over_place(alloc, out, place(grid, probe))?;
    write_contact(alloc, out, grid)?;
    write_answer(out, probe)?;
    write_height(alloc, out, safe)?;
    Ok(())
}

// All probes.
fn write_probes(
    alloc: Global,
    out: &mut Vec<u8>,
    safe: i64,
    grid: &ProbeGrid,
) -> Result<(), AllocError>
    requires { IsPlaced grid.now }
    ensures { OnOk result (out.new.items ≡ out.old.items ++ flat_map (λ k. text_over (probe_lines safe grid.now k)) (range_with_len 0 ((grid.now).nx * (grid.now).ny))) }
{
    for probe in 0..grid.nx * grid.ny {
        write_probe(alloc, out, safe, grid, probe)?;
    }
    Ok(())
}

// The probes of a grid, from the safe height.
fn write_grid(
    alloc: Global,
    out: &mut Vec<u8>,
    safe: i64,
    grid: &ProbeGrid,
) -> Result<(), AllocError>
    requires { IsPlaced grid.now }
    ensures { OnOk result (out.new.items ≡ out.old.items ++ text_over (probing_lines safe (Some grid.now))) }
{
    write_height(alloc, out, safe)?;
    write_probes(alloc, out, safe, grid)?;
    Ok(())
}

/// The probes of a board, where there is a grid.
pub fn write_probing(
    alloc: Global,
    out: &mut Vec<u8>,
    safe: i64,
    grid: &Option<ProbeGrid>,
) -> Result<(), AllocError>
    requires { IsSurface grid.now }
    ensures { OnOk result (out.new.items ≡ out.old.items ++ text_over (probing_lines safe grid.now)) }
{
    match grid {
        None => Ok(()),
        Some(grid) => write_grid(alloc, out, safe, grid),
    }
}
