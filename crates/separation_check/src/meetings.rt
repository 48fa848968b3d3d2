// Where islands meet classes of free cells.
ghost use Rattle.std.specs.Prelude.{◌≡◌, ◌≢◌, ◌⊎◌, ◌<◌, ◌++◌, ◌∷◌, [], ℕ, false, not, cond, IfOk, length, replicate, slice_index, slice_index_or, slice_set};
ghost use Rattle.board_base.specs.declared.places.Cell.{Cell};
ghost use Rattle.cell_grid.specs.Place.{InFrame, place_of, cells_of};
ghost use Rattle.cell_sets.specs.Chains.{IsClasses};
ghost use Rattle.separation_check.specs.Unswept.{is_unswept, island_of, class_of};
ghost use Rattle.separation_check.specs.Meetings.{AreMeetings, islands_of, classes_of};

use board_base::Cell;
use cell_grid::{Plane, Workbench, cell_at};
use std::alloc::{AllocError, Global};

// An island has a free cell in a class.
#[derive(Clone, Copy)]
pub(crate) struct Meeting {
    pub(crate) island: u16,
    pub(crate) class: u32,
}

// So many numbers 0.
fn zeros(alloc: Global, n: usize) -> Result<Vec<u32>, AllocError>
    ensures { IfOk result (λ v. v.items ≡ replicate n 0) }
{
    vec![in alloc; 0; n]
}

// The island of a free cell of the frame; 0 where the cell is in none, or isn't free.
fn free_island(bench: &Workbench, c: Cell) -> u16
    requires { InFrame bench.now.frame c }
    ensures { result
        ≡ cond (slice_index_or bench.now.swept (place_of bench.now.frame c) false) 0 (slice_index bench.now.labels (place_of bench.now.frame c)) }
{
    if bench.get(Plane::Swept, c) {
        0
    } else {
        bench.label(c)
    }
}

// Notes that an island meets a class, unless it is the one that the island met last.
fn note(
    meetings: &mut Vec<Meeting>,
    last: &mut [u32],
    island: u16,
    class: u32,
) -> Result<(), AllocError>
    requires { length last.old ≡ 65536 }
    ensures skipped { IfOk result (λ _. (island ≡ 0) ⊎ (slice_index last.old island ≡ class) → (meetings.new.items ≡ meetings.old.items) × (last.new ≡ last.old)) }
    ensures added { IfOk result (λ _. island ≢ 0 → slice_index last.old island ≢ class
        → (meetings.new.items ≡ meetings.old.items ++ record { island = island; class = class } ∷ []) × (last.new ≡ slice_set last.old island class)) }
{
    if island != 0 && last[island as usize] != class {
        last[island as usize] = class;
        meetings.push(Meeting { island, class })?;
    }
    Ok(())
}

// Notes the meetings in the order of rows; `last` holds the class that each island met last.
fn meetings_by(
    alloc: Global,
    bench: &Workbench,
    last: &mut [u32],
) -> Result<Vec<Meeting>, AllocError>
    requires last { last.old ≡ replicate 65536 0 }
    requires classes { IsClasses (is_unswept bench.now) (class_of bench.now) }
    ensures { IfOk result (λ v. AreMeetings bench.now.frame (is_unswept bench.now) (island_of bench.now) (class_of bench.now) (islands_of v.items) (classes_of v.items) (cells_of bench.now.frame)) }
{
    let frame = bench.frame();
    let mut list = Vec::new(alloc);
    'rows: for y in 0..frame.height {
        'cells: for x in 0..frame.width {
            let c = cell_at(frame, x, y);
            let island = free_island(bench, c);
            let class = bench.work(c);
            note(&mut list, last, island, class)?;
        }
    }
    Ok(list)
}

// The islands and the classes that meet, in the order of the cells in which they do. A pair may
// stand more than once.
pub(crate) fn meetings_of(alloc: Global, bench: &Workbench) -> Result<Vec<Meeting>, AllocError>
    requires { IsClasses (is_unswept bench.now) (class_of bench.now) }
    ensures { IfOk result (λ v. AreMeetings bench.now.frame (is_unswept bench.now) (island_of bench.now) (class_of bench.now) (islands_of v.items) (classes_of v.items) (cells_of bench.now.frame)) }
{
    let mut last = zeros(alloc, 65536)?;
    let list = meetings_by(alloc, bench, last.as_mut_slice())?;
    Ok(list)
}
