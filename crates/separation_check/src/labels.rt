// The classes of the cells outside Swept, and whether working labels tell them apart.
ghost use Rattle.std.specs.Prelude.{◌≡◌, ◌<◌, ◌≢◌, ◌+ℤ◌, ◌-ℤ◌, pos, ℕ, true, false, not, IfOk, IfErr, IfSome, IsNone};
ghost use Rattle.board_base.specs.declared.places.Cell.{Cell};
ghost use Rattle.board_base.specs.Lattice.{IsBeside};
ghost use Rattle.cell_grid.specs.Place.{IsFrame, InFrame};
ghost use Rattle.cell_grid.specs.Cells.{in_plane, in_frame, number_in};
ghost use Rattle.cell_sets.specs.Chains.{IsClasses};
ghost use Rattle.separation_check.specs.Unswept.{is_unswept, class_of};
ghost use Rattle.separation_check.specs.Tears.{IsFault, AreWhole};

use board_base::Cell;
use cell_grid::{Frame, Plane, Workbench, cell_at, is_in_frame};
use islands::number_rest;
use thiserror::Error;

/// Numbers the classes of the cells outside Swept in the working labels. All cells outside the frame
/// are of class 1; swept cells have 0.
pub fn relabel(bench: &mut Workbench)
    ensures rest { bench.new ≡ record bench.old { works = (bench.new).works; waiting = (bench.new).waiting; put = (bench.new).put } }
    ensures classes { IsClasses (λ c. not (in_plane (bench.old).frame (bench.old).swept c)) (number_in (bench.old).frame 1 (bench.new).works) }
    ensures now { IsClasses (is_unswept bench.new) (class_of bench.new) }
{
    number_rest(bench, Plane::Swept);
}

/// Two neighbouring cells outside Swept whose working labels differ; all cells outside the frame count
/// as labelled 1.
#[derive(Clone, Copy, Debug, PartialEq, Eq, Error)]
#[error("the cells {}, {} and {}, {} have two labels", .cell.i, .cell.j, .neighbour.i, .neighbour.j)]
pub struct LabelFault {
    pub cell: Cell,
    pub neighbour: Cell,
}

// Whether a cell is in a frame.
fn is_inside(frame: Frame, c: Cell) -> bool
    requires { IsFrame frame }
    ensures { result ≡ in_frame frame c }
{
    is_in_frame(frame, c)
}

// The class of a cell, by the working labels; none where it is swept.
fn class_at(bench: &Workbench, c: Cell) -> Option<u32>
    ensures some { IfSome result (λ k. (is_unswept bench.now c ≡ true) × (k ≡ class_of bench.now c)) }
    ensures none { IsNone result → is_unswept bench.now c ≡ false }
{
    if !is_inside(bench.frame(), c) {
        return Some(1);
    }
    if bench.get(Plane::Swept, c) {
        return None;
    }
    Some(bench.work(c))
}

// Whether a cell is of another class.
fn is_other(bench: &Workbench, c: Cell, class: u32) -> bool
    ensures other { result ≡ true → (is_unswept bench.now c ≡ true) × (class_of bench.now c ≢ class) }
    ensures same { result ≡ false → is_unswept bench.now c ≡ true → class_of bench.now c ≡ class }
{
    match class_at(bench, c) {
        Some(k) => k != class,
        None => false,
    }
}

// The cell in column `x` and row `y` of the nine round a cell of the frame, each counted from 0.
fn beside(frame: Frame, c: Cell, x: u32, y: u32) -> Cell
    requires frame { IsFrame frame }
    requires cell { InFrame frame c }
    requires x { x < 3 }
    requires y { y < 3 }
    ensures column { result.i +ℤ pos 1 ≡ c.i +ℤ pos x }
    ensures row { result.j +ℤ pos 1 ≡ c.j +ℤ pos y }
{
    Cell {
        i: c.i + x as i32 - 1,
        j: c.j + y as i32 - 1,
    }
}

// The first cell of the nine round a cell of the frame that is of another class.
fn other_beside(bench: &Workbench, c: Cell, class: u32) -> Option<Cell>
    requires { InFrame bench.now.frame c }
    ensures some { IfSome result (λ b. IsBeside c b × (is_unswept bench.now b ≡ true) × (class_of bench.now b ≢ class)) }
    ensures none { IsNone result → (b : Cell) → IsBeside c b → is_unswept bench.now b ≡ true → class_of bench.now b ≡ class }
{
    let frame = bench.frame();
    'rows: for y in 0..3 {
        'cells: for x in 0..3 {
            let b = beside(frame, c, x, y);
            if is_other(bench, b, class) {
                return Some(b);
            }
        }
    }
    None
}

// The first neighbour of a cell of the frame, outside Swept as it is, whose label isn't the cell's.
fn torn_from(bench: &Workbench, c: Cell) -> Option<Cell>
    requires { InFrame bench.now.frame c }
    ensures some { IfSome result (λ b. IsFault (is_unswept bench.now) (class_of bench.now) c b) }
    ensures none { IsNone result → (b : Cell) → is_unswept bench.now c ≡ true → is_unswept bench.now b ≡ true → IsBeside c b → class_of bench.now c ≡ class_of bench.now b }
{
    match class_at(bench, c) {
        Some(class) => other_beside(bench, c, class),
        None => None,
    }
}

/// Whether no two neighbouring cells outside Swept have different working labels, where all cells
/// outside the frame count as labelled 1; the fault names the first cell of the frame that has such a
/// neighbour. There is none where the labels are those of `relabel`.
pub fn check_labels(bench: &Workbench) -> Result<(), LabelFault>
    ensures whole { IfOk result (λ _. AreWhole (is_unswept bench.now) (class_of bench.now)) }
    ensures fault { IfErr result (λ e. IsFault (is_unswept bench.now) (class_of bench.now) e.cell e.neighbour) }
    ensures never { IsClasses (is_unswept bench.now) (class_of bench.now) → IfErr result (λ _. ⊥) }
{
    let frame = bench.frame();
    'rows: for y in 0..frame.height {
        'cells: for x in 0..frame.width {
            let cell = cell_at(frame, x, y);
            if let Some(neighbour) = torn_from(bench, cell) {
                return Err(LabelFault { cell, neighbour });
            }
        }
    }
    Ok(())
}
