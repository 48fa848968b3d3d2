// The passes and the clearing rows of a side, as cuts.
ghost use Rattle.std.specs.Prelude.{◌≡◌, ◌↔◌, ◌<◌, ◌≤◌, true, ◌||◌, Some, None, IfOk, IfSome, OnOk};
ghost use Rattle.board_base.specs.declared.places.Cell.{Cell};
ghost use Rattle.board_base.specs.Lattice.{IsPitch};
ghost use Rattle.cell_sets.specs.Contour.{IsAllowed, IsContour};
ghost use Rattle.cell_sets.specs.Cleared.{IsOnClearingRow};
ghost use Rattle.cell_grid.specs.Cells.{in_frame, in_plane};
ghost use Rattle.islands.specs.Floods.{ChangesNumbers};
ghost use Rattle.mill_plan.specs.Cutting.{IsCutting, AreClearingRows, IsVisited, side_cutting, guard as guard_in};
ghost use Rattle.mill_plan.specs.Passes.{IsSpacious, IsMeasured, HasPlaces, AddsComponents, AddsRuns, AreSideCuts, IsBegun};

use crate::Cutting;
use crate::measures::guard;
use crate::order::ordered_walks;
use crate::program::add_cuts;
use board_base::{CellBox, Items, half_diagonal};
use cell_grid::{Workbench, cells_within};
use centre_field::allowed;
use chain_walk::{row_run_law, row_runs, walk_law};
use contours::{contour, rows};
use copper_cover::dark_rectangle;
use job_file::Job;
use mill_program::Cut;
use shape_parts::Painted;
use std::alloc::{AllocError, Global};

// The box whose rows are cleared, and the rows from one clearing row to the next.
#[derive(Clone, Copy)]
struct ClearedBox {
    inner: CellBox,
    stride: u32,
}

// Adds the cuts along the walks of the components of Pass.
fn add_walks(
    alloc: Global,
    bench: &mut Workbench,
    job: &Job,
    cuts: &mut Items<Cut>,
) -> Result<(), AllocError>
    requires pitch { IsPitch job.now.pitch }
    requires places { HasPlaces job.now.pitch bench.old }
    ensures rest { ChangesNumbers bench.old bench.new }
    ensures adds { OnOk result (AddsComponents job.now (in_plane (bench.old).frame (bench.old).pass) cuts.old cuts.new) }
{
    walk_law();
    let walks = ordered_walks(alloc, bench, job.pitch)?;
    add_cuts(alloc, &walks, job, cuts)?;
    Ok(())
}

// Traces a pass, and adds the cuts along its walks.
fn add_pass(
    alloc: Global,
    bench: &mut Workbench,
    cutting: Cutting,
    pass: u32,
    job: &Job,
    cuts: &mut Items<Cut>,
) -> Result<(), AllocError>
    requires cutting { IsCutting cutting }
    requires pass { pass ≤ cutting.last }
    requires spacious { IsSpacious cutting bench.old }
    requires measured { IsMeasured bench.old }
    requires pitch { IsPitch job.now.pitch }
    requires places { HasPlaces job.now.pitch bench.old }
    ensures rest { bench.new ≡ record bench.old { pass = (bench.new).pass; visited = (bench.new).visited; works = (bench.new).works; waiting = (bench.new).waiting; put = (bench.new).put } }
    ensures contour { (c : Cell) → in_plane (bench.old).frame (bench.new).pass c ≡ true ↔ IsContour (in_plane (bench.old).frame (bench.old).kept) (guard_in cutting pass) c }
    ensures visited { (c : Cell)
        → in_plane (bench.old).frame (bench.new).visited c
        ≡ (in_plane (bench.old).frame (bench.old).visited c || in_plane (bench.old).frame (bench.new).pass c) }
    ensures adds { OnOk result (AddsComponents job.now (in_plane (bench.old).frame (bench.new).pass) cuts.old cuts.new) }
{
    contour(bench, guard(cutting, pass));
    add_walks(alloc, bench, job, cuts)?;
    Ok(())
}

// What is cleared, where something is.
fn clearing(painted: &Vec<Painted>, cutting: Cutting) -> Option<ClearedBox>
    requires { IsCutting cutting }
    ensures none { result ≡ None → AreClearingRows cutting painted.now.items None }
    ensures some { IfSome result (λ r. AreClearingRows cutting painted.now.items (Some (record { inner = r.inner; stride = r.stride }))) }
    ensures stride { IfSome result (λ r. 0 < r.stride) }
{
    let Some(stride) = cutting.stride else {
        return None;
    };
    let Some(bounds) = dark_rectangle(painted) else {
        return None;
    };
    let pitch = cutting.pitch;
    Some(ClearedBox {
        inner: cells_within(bounds, half_diagonal(pitch), pitch),
        stride,
    })
}

// Marks the cells that are cleared.
fn clear(bench: &mut Workbench, cutting: Cutting, clearing: ClearedBox)
    requires cutting { IsCutting cutting }
    requires stride { 0 < clearing.stride }
    requires spacious { IsSpacious cutting bench.old }
    requires measured { IsMeasured bench.old }
    ensures rest { bench.new ≡ record bench.old { allowed = (bench.new).allowed; pass = (bench.new).pass; visited = (bench.new).visited } }
    ensures rows { (c : Cell) → in_plane (bench.old).frame (bench.new).pass c ≡ true
        ↔ (IsOnClearingRow clearing.stride clearing.inner c × (in_frame (bench.old).frame c ≡ true) × IsAllowed (in_plane (bench.old).frame (bench.old).kept) (guard_in cutting 0) c) }
    ensures visited { (c : Cell)
        → in_plane (bench.old).frame (bench.new).visited c
        ≡ (in_plane (bench.old).frame (bench.old).visited c || in_plane (bench.old).frame (bench.new).pass c) }
{
    allowed(bench, guard(cutting, 0));
    rows(bench, clearing.stride, clearing.inner);
}

// Adds the cuts along the runs of Pass.
fn add_runs(
    alloc: Global,
    bench: &Workbench,
    job: &Job,
    cuts: &mut Items<Cut>,
) -> Result<(), AllocError>
    requires pitch { IsPitch job.now.pitch }
    requires places { HasPlaces job.now.pitch bench.now }
    ensures { OnOk result (AddsRuns job.now (in_plane bench.now.frame bench.now.pass) cuts.old cuts.new) }
{
    row_run_law();
    let runs = row_runs(alloc, bench)?;
    add_cuts(alloc, &runs, job, cuts)?;
    Ok(())
}

/// The cuts along the walks of all passes, and then along the clearing runs, and how many go along walks. Visited
/// becomes the cells that they visit.
pub(crate) fn side_cuts(
    alloc: Global,
    bench: &mut Workbench,
    painted: &Vec<Painted>,
    cutting: Cutting,
    job: &Job,
) -> Result<(Items<Cut>, u64), AllocError>
    requires job { cutting ≡ side_cutting job.now }
    requires cutting { IsCutting cutting }
    requires begun { IsBegun cutting painted.now.items bench.old }
    ensures frame { OnOk result ((bench.new).frame ≡ (bench.old).frame) }
    ensures cuts { IfOk result (λ r. AreSideCuts cutting job.now painted.now.items r.0 r.1) }
    ensures visited { OnOk result ((c : Cell) → in_plane (bench.new).frame (bench.new).visited c ≡ true ↔ IsVisited cutting painted.now.items c) }
{
    let mut cuts = Items::empty(alloc);
    add_walks(alloc, bench, job, &mut cuts)?;
    'passes: for pass in 0..cutting.last {
        add_pass(alloc, bench, cutting, pass + 1, job, &mut cuts)?;
    }
    let count = cuts.len() as u64;
    let Some(clearing) = clearing(painted, cutting) else {
        return Ok((cuts, count));
    };
    clear(bench, cutting, clearing);
    add_runs(alloc, bench, job, &mut cuts)?;
    Ok((cuts, count))
}
