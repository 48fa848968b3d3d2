// The maximal runs of the cells of a plane along their rows.
ghost use Rattle.std.specs.Prelude.{◌≡◌, ◌<◌, ◌≤◌, ◌+◌, ℕ, true, length, IfOk, OnOk};
ghost use Rattle.board_base.specs.declared.places.Cell.{Cell};
ghost use Rattle.cell_grid.specs.Place.{InFrame};
ghost use Rattle.cell_grid.specs.Cells.{in_plane};
ghost use Rattle.chain_walk.specs.RowRuns.{AreRowRuns, RowRunLaw, OneRowRuns};
ghost use Rattle.chain_walk.specs.RowsDone.{cell_by, IsRunFrom, AreRunsBefore};

use crate::Chain;
use board_base::{Cell, Items};
use cell_grid::{Plane, Workbench, cell_at};
use std::alloc::{AllocError, Global};

// Whether a cell of the frame is in Pass.
#[tactic(auto, using(cell_grid::proofs::CellsLaws::in_frame_true))]
#[inline(always)]
fn is_on(bench: &Workbench, c: Cell) -> bool
    requires { InFrame bench.now.frame c }
    ensures { result ≡ in_plane bench.now.frame bench.now.pass c }
{
    bench.get(Plane::Pass, c)
}

// The run of Pass that begins in column `x` of row `y`.
fn run_at(alloc: Global, bench: &Workbench, x: u32, y: u32) -> Result<Chain, AllocError>
    requires x { x < bench.now.frame.width }
    requires y { y < bench.now.frame.height }
    requires on { in_plane bench.now.frame bench.now.pass (cell_by bench.now.frame x y) ≡ true }
    ensures run { IfOk result (IsRunFrom (in_plane bench.now.frame bench.now.pass) (cell_by bench.now.frame x y)) }
    ensures short { IfOk result (λ run. x + length run ≤ bench.now.frame.width) }
{
    let frame = bench.frame();
    let mut cells = Vec::new(alloc);
    cells.push(cell_at(frame, x, y))?;
    'columns: for at in x + 1..frame.width {
        let c = cell_at(frame, at, y);
        if !is_on(bench, c) {
            break;
        }
        cells.push(c)?;
    }
    Ok(Items::of(cells))
}

// Adds the runs of row `y`. The cell east of a run isn't in Pass, so it is passed over.
fn add_row(
    alloc: Global,
    bench: &Workbench,
    y: u32,
    runs: &mut Vec<Chain>,
) -> Result<(), AllocError>
    requires y { y < bench.now.frame.height }
    requires before { AreRunsBefore (in_plane bench.now.frame bench.now.pass) (cell_by bench.now.frame 0 y) runs.old.items }
    ensures { OnOk result (AreRunsBefore (in_plane bench.now.frame bench.now.pass) (cell_by bench.now.frame 0 (y + 1)) runs.new.items) }
{
    let frame = bench.frame();
    let mut x = 0;
    'columns: while x < frame.width {
        if is_on(bench, cell_at(frame, x, y)) {
            let run = run_at(alloc, bench, x, y)?;
            x += run.len() as u32;
            runs.push(run)?;
        }
        x += 1;
    }
    Ok(())
}

/// The maximal runs of the cells of Pass along their rows, each from west to east, in the order of rows.
///
/// # Errors
///
/// Want of memory.
pub fn row_runs(alloc: Global, bench: &Workbench) -> Result<Vec<Chain>, AllocError>
    ensures { IfOk result (λ v. AreRowRuns (in_plane bench.now.frame bench.now.pass) v.items) }
{
    let frame = bench.frame();
    let mut runs = Vec::new(alloc);
    'rows: for y in 0..frame.height {
        add_row(alloc, bench, y, &mut runs)?;
    }
    Ok(runs)
}

/// A run goes from neighbour to neighbour, over taken cells.
pub fn row_run_law()
    ensures { RowRunLaw }
{}

/// A set of cells has one list of its runs: two such lists are one.
pub fn one_row_runs_law()
    ensures { OneRowRuns }
{}
