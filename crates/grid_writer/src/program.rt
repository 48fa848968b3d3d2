// The text of a program.
ghost use Rattle.std.specs.Prelude.{◌≡◌, ◌++◌, ◌∷◌, [], true, OnOk, IfOk};
ghost use Rattle.std.specs.List.{All, flat_map};
ghost use Rattle.mill_program.specs.Conditions.{IsToolRun};
ghost use Rattle.mill_program.specs.Lines.{words, mode_line, height_line, stop_line, tool_line, spindle_line, wait_line, over_line, foot_lines, is_straight as straight_to};
ghost use Rattle.mill_program.specs.GridLines.{plunge_over, stroke_over, step_over, steps_over, cut_over, run_over, lines_over};
ghost use Rattle.grid_writer.specs.Conditions.{IsSurface, IsWritable};
ghost use Rattle.grid_writer.specs.Spelling.{line_bytes, text_over};

use crate::parts::{Part, code, feed, write_line};
use crate::probing::{height, write_height, write_probing};
use mill_program::{Corner, Cut, ProbeGrid, Program, ToolRun};
use std::alloc::{AllocError, Global};

// Over to a corner.
fn write_over_corner(alloc: Global, out: &mut Vec<u8>, to: Corner) -> Result<(), AllocError>
    ensures { OnOk result (out.new.items ≡ out.old.items ++ line_bytes (words (over_line to))) }
{
    let y = Part::Plain(b'Y', to.y);
    write_line(
        alloc,
        out,
        Part::Plain(b'G', 0),
        &[Part::Plain(b'X', to.x), y],
    )
}

// Straight to a corner's height.
fn write_plunge(
    alloc: Global,
    out: &mut Vec<u8>,
    grid: &Option<ProbeGrid>,
    run: &ToolRun,
    to: Corner,
) -> Result<(), AllocError>
    requires grid { IsSurface grid.now }
    requires run { IsToolRun run.now }
    ensures { OnOk result (out.new.items ≡ out.old.items ++ line_bytes (words (plunge_over grid.now run.now to))) }
{
    let z = height(grid, to);
    let feed = feed(run.plunge);
    write_line(alloc, out, Part::Plain(b'G', 1_000_000), &[z, feed])
}

// To a corner at the same height over the board.
fn write_stroke(
    alloc: Global,
    out: &mut Vec<u8>,
    grid: &Option<ProbeGrid>,
    run: &ToolRun,
    plunged: bool,
    to: Corner,
) -> Result<(), AllocError>
    requires grid { IsSurface grid.now }
    requires run { IsToolRun run.now }
    ensures { OnOk result (out.new.items ≡ out.old.items ++ line_bytes (words (stroke_over grid.now run.now plunged to))) }
{
    let cut = Part::Plain(b'G', 1_000_000);
    let x = Part::Plain(b'X', to.x);
    let y = Part::Plain(b'Y', to.y);
    let z = height(grid, to);
    let feed = feed(run.feed);
    match (grid, plunged) {
        (None, true) => write_line(alloc, out, cut, &[x, y, feed]),
        (None, false) => write_line(alloc, out, cut, &[x, y]),
        (Some(_), true) => write_line(alloc, out, cut, &[x, y, z, feed]),
        (Some(_), false) => write_line(alloc, out, cut, &[x, y, z]),
    }
}

// The second corner is straight below or above the first.
fn is_straight(from: Corner, to: Corner) -> bool
    ensures { result ≡ straight_to from to }
{
    from.x == to.x && from.y == to.y && from.z != to.z
}

// From one corner to the next.
fn write_step(
    alloc: Global,
    out: &mut Vec<u8>,
    grid: &Option<ProbeGrid>,
    run: &ToolRun,
    plunged: bool,
    from: Corner,
    to: Corner,
) -> Result<(), AllocError>
    requires grid { IsSurface grid.now }
    requires run { IsToolRun run.now }
    ensures { OnOk result (out.new.items ≡ out.old.items ++ line_bytes (words (step_over grid.now run.now plunged from to))) }
{
    if is_straight(from, to) {
        write_plunge(alloc, out, grid, run, to)
    } else {
        write_stroke(alloc, out, grid, run, plunged, to)
    }
}

// From the first corner to each of the others.
fn write_steps(
    alloc: Global,
    out: &mut Vec<u8>,
    grid: &Option<ProbeGrid>,
    run: &ToolRun,
    first: Corner,
    rest: &[Corner],
) -> Result<(), AllocError>
    requires grid { IsSurface grid.now }
    requires run { IsToolRun run.now }
    ensures { OnOk result (out.new.items ≡ out.old.items ++ text_over (steps_over grid.now run.now true first rest.now)) }
{
    let mut from = first;
    let mut plunged = true;
    for to in rest {
        write_step(alloc, out, grid, run, plunged, from, *to)?;
        plunged = is_straight(from, *to);
        from = *to;
    }
    Ok(())
}

// From above the first corner to above the last.
fn write_corners(
    alloc: Global,
    out: &mut Vec<u8>,
    p: &Program,
    run: &ToolRun,
    first: Corner,
    rest: &[Corner],
) -> Result<(), AllocError>
    requires grid { IsSurface p.now.grid }
    requires run { IsToolRun run.now }
    ensures { OnOk result (out.new.items ≡ out.old.items ++ text_over (cut_over p.now.grid p.now.safe run.now (first ∷ rest.now))) }
{
    write_over_corner(alloc, out, first)?;
    write_plunge(alloc, out, &p.grid, run, first)?;
    write_steps(alloc, out, &p.grid, run, first, rest)?;
    write_height(alloc, out, p.safe)?; // up from the last corner
    Ok(())
}

// One cut.
fn write_cut(
    alloc: Global,
    out: &mut Vec<u8>,
    p: &Program,
    run: &ToolRun,
    cut: &Cut,
) -> Result<(), AllocError>
    requires grid { IsSurface p.now.grid }
    requires run { IsToolRun run.now }
    ensures { OnOk result (out.new.items ≡ out.old.items ++ text_over (cut_over p.now.grid p.now.safe run.now cut.now)) }
{
    match cut.inner().split_first() {
        None => Ok(()),
        Some((first, rest)) => write_corners(alloc, out, p, run, *first, rest),
    }
}

// Up, and the change of the tool.
fn write_change(
    alloc: Global,
    out: &mut Vec<u8>,
    p: &Program,
    run: &ToolRun,
) -> Result<(), AllocError>
    ensures { OnOk result (out.new.items ≡ out.old.items ++ text_over (words (height_line p.now.change) ∷ words stop_line ∷ words (tool_line run.now) ∷ [])) }
{
    write_height(alloc, out, p.change)?; // up, clear of the board
    write_line(alloc, out, Part::Plain(b'M', 5_000_000), &[])?;
    let tool = code(b'T', run.tool);
    write_line(alloc, out, tool, &[Part::Plain(b'M', 6_000_000)])?;
    Ok(())
}

// The spindle turns, and down.
fn write_start(
    alloc: Global,
    out: &mut Vec<u8>,
    p: &Program,
    run: &ToolRun,
) -> Result<(), AllocError>
    ensures { OnOk result (out.new.items ≡ out.old.items ++ text_over (words (spindle_line run.now) ∷ words wait_line ∷ words (height_line p.now.safe) ∷ [])) }
{
    let speed = code(b'S', run.speed);
    write_line(alloc, out, speed, &[Part::Plain(b'M', 3_000_000)])?;
    let second = Part::Plain(b'P', 1_000_000);
    write_line(alloc, out, Part::Plain(b'G', 4_000_000), &[second])?;
    write_height(alloc, out, p.safe)?;
    Ok(())
}

// The cuts of a tool run.
fn write_cuts(
    alloc: Global,
    out: &mut Vec<u8>,
    p: &Program,
    run: &ToolRun,
) -> Result<(), AllocError>
    requires grid { IsSurface p.now.grid }
    requires run { IsToolRun run.now }
    ensures { OnOk result (out.new.items ≡ out.old.items ++ flat_map (λ cut. text_over (cut_over p.now.grid p.now.safe run.now cut)) run.now.cuts) }
{
    for cut in run.cuts.inner() {
        write_cut(alloc, out, p, run, cut)?;
    }
    Ok(())
}

// One tool run.
fn write_run(alloc: Global, out: &mut Vec<u8>, p: &Program, run: &ToolRun) -> Result<(), AllocError>
    requires grid { IsSurface p.now.grid }
    requires run { IsToolRun run.now }
    ensures { OnOk result (out.new.items ≡ out.old.items ++ text_over (run_over p.now.grid p.now.safe p.now.change run.now)) }
{
    write_change(alloc, out, p, run)?;
    write_probing(alloc, out, p.safe, &p.grid)?;
    write_start(alloc, out, p, run)?;
    write_cuts(alloc, out, p, run)?;
    Ok(())
}

// The tool runs of a program.
fn write_runs(alloc: Global, out: &mut Vec<u8>, p: &Program) -> Result<(), AllocError>
    requires grid { IsSurface p.now.grid }
    requires runs { All IsToolRun p.now.runs }
    ensures { OnOk result (out.new.items ≡ out.old.items ++ flat_map (λ run. text_over (run_over p.now.grid p.now.safe p.now.change run)) p.now.runs) }
{
    for run in p.runs.inner() {
        write_run(alloc, out, p, run)?;
    }
    Ok(())
}

// Millimetres, absolute distances, exact path, feeds a minute, in the plane of X and Y.
fn write_mode(alloc: Global, out: &mut Vec<u8>) -> Result<(), AllocError>
    ensures { OnOk result (out.new.items ≡ out.old.items ++ line_bytes (words mode_line)) }
{
    write_line(
        alloc,
        out,
        Part::Plain(b'G', 17_000_000),
        &[
            Part::Plain(b'G', 21_000_000),
            Part::Plain(b'G', 61_000_000),
            Part::Plain(b'G', 90_000_000),
            Part::Plain(b'G', 94_000_000),
        ],
    )
}

// Up, and the end.
fn write_foot(alloc: Global, out: &mut Vec<u8>, p: &Program) -> Result<(), AllocError>
    ensures { OnOk result (out.new.items ≡ out.old.items ++ text_over (foot_lines p.now.change)) }
{
    write_height(alloc, out, p.change)?;
    write_line(alloc, out, Part::Plain(b'M', 5_000_000), &[])?;
    write_line(alloc, out, Part::Plain(b'M', 2_000_000), &[])?;
    Ok(())
}

/// The bytes of a program with or without a grid of probes: each of its lines in its one spelling, and LF behind it.
/// The only error is want of memory.
pub fn write_over(alloc: Global, program: &Program) -> Result<Vec<u8>, AllocError>
    requires { IsWritable program.now }
    ensures { IfOk result (λ bytes. bytes.items ≡ text_over (lines_over program.now)) }
{
    let mut bytes = Vec::new(alloc);
    write_mode(alloc, &mut bytes)?;
    write_runs(alloc, &mut bytes, program)?;
    write_foot(alloc, &mut bytes, program)?;
    Ok(bytes)
}
