// The contour of the cells above a clearance.
ghost use Rattle.std.specs.Prelude.{◌≡◌, ◌↔◌, ◌<◌, ◌≤◌, ℕ, true, false, not, ◌&&◌, ◌||◌, count_by};
ghost use Rattle.board_base.specs.declared.places.Cell.{Cell};
ghost use Rattle.cell_grid.specs.Place.{InFrame};
ghost use Rattle.cell_grid.specs.Cells.{in_plane, is_above as is_above_of, IsOnBorder};
ghost use Rattle.contours.specs.Contour.{IsContourOf, IsInner, leaves_column as leaves_column_of, is_on as is_on_of};

use crate::cells::{east_of, moved, trace, west_of};
use crate::quiet::is_quiet;
use board_base::Cell;
use cell_grid::{Plane, Workbench, cell_at, is_in_frame};

// How many columns are looked at together.
const BLOCK: u32 = 16;

// Whether the clearance of a cell is above `g`, as it is outside the frame.
#[tactic(auto, using(cell_grid::proofs::CellsLaws::in_frame_true, cell_grid::proofs::CellsLaws::in_frame_false))]
#[inline(always)]
fn is_above(bench: &Workbench, g: u64, c: Cell) -> bool
    ensures { result ≡ is_above_of (bench.now).frame (bench.now).clearances g c }
{
    if is_in_frame(bench.frame(), c) {
        g < bench.clearance(c) as u64
    } else {
        true
    }
}

// Whether the clearance of a cell of the frame is above `g`.
#[tactic(auto, using(cell_grid::proofs::CellsLaws::in_frame_true))]
#[inline(always)]
fn is_above_inside(bench: &Workbench, g: u64, c: Cell) -> bool
    requires { InFrame (bench.now).frame c }
    ensures { result ≡ is_above_of (bench.now).frame (bench.now).clearances g c }
{
    g < bench.clearance(c) as u64
}

// Whether a cell of the frame, or the one south or north of it, which are in the frame too, isn't above `g`.
#[inline(always)]
fn leaves_inside(bench: &Workbench, g: u64, south: Cell, c: Cell, north: Cell) -> bool
    requires south { InFrame (bench.now).frame south }
    requires cell { InFrame (bench.now).frame c }
    requires north { InFrame (bench.now).frame north }
    ensures { result
        ≡ (not (is_above_of (bench.now).frame (bench.now).clearances g south)
        || (not (is_above_of (bench.now).frame (bench.now).clearances g c) || not (is_above_of (bench.now).frame (bench.now).clearances g north))) }
{
    let low_south = !is_above_inside(bench, g, south);
    let low = !is_above_inside(bench, g, c);
    let low_north = !is_above_inside(bench, g, north);
    low_south | (low | low_north)
}

// Whether a cell, or the one south or north of it, isn't above `g`. In all rows but the first and the last
// the three are in the frame together, and nothing more is asked of each.
#[tactic(auto, unfolding(crate::specs::Contour::leaves_column))]
#[inline(always)]
fn leaves_column(bench: &Workbench, g: u64, c: Cell) -> bool
    requires { IsInner 1000000002 c }
    ensures { result ≡ leaves_column_of (is_above_of (bench.now).frame (bench.now).clearances g) c }
{
    let south = moved(c, -1);
    let north = moved(c, 1);
    let frame = bench.frame();
    if is_in_frame(frame, south) && is_in_frame(frame, north) {
        leaves_inside(bench, g, south, c, north)
    } else {
        !is_above(bench, g, south) || (!is_above(bench, g, c) || !is_above(bench, g, north))
    }
}

// Whether a cell is above `g`, and a cell of the columns round it isn't.
#[inline(always)]
fn is_on(bench: &Workbench, g: u64, c: Cell, west: bool, here: bool, east: bool) -> bool
    ensures { result ≡ ((west || (here || east)) && is_above_of (bench.now).frame (bench.now).clearances g c) }
{
    (west || (here || east)) && is_above(bench, g, c)
}

// The first column of row `y` from `from` on and before `end` whose cell is on the contour, or `end` where none
// is. It only reads, so that what stands still in a row is worked out once.
fn next_in(bench: &Workbench, g: u64, y: u32, from: u32, end: u32) -> u32
    requires y { y < (bench.now).frame.height }
    requires order { from ≤ end }
    requires end { end ≤ (bench.now).frame.width }
    ensures low { from ≤ result }
    ensures high { result ≤ end }
    ensures passed { (x : ℕ) → from ≤ x → x < result → is_on_of bench.now g x y ≡ false }
    ensures found { result < end → is_on_of bench.now g result y ≡ true }
{
    let frame = bench.frame();
    let outside = west_of(frame, from, y);
    let mut west = leaves_column(bench, g, outside);
    let mut here = leaves_column(bench, g, east_of(outside));
    'cells: for x in from..end {
        let c = cell_at(frame, x, y);
        let east = leaves_column(bench, g, east_of(c));
        if is_on(bench, g, c, west, here, east) {
            return x;
        }
        west = here;
        here = east;
    }
    end
}

// The same, at little cost where all the cells are far above `g`, or none is above it.
fn next_in_block(bench: &Workbench, g: u64, y: u32, from: u32, end: u32) -> u32
    requires y { y < (bench.now).frame.height }
    requires order { from ≤ end }
    requires end { end ≤ (bench.now).frame.width }
    ensures low { from ≤ result }
    ensures high { result ≤ end }
    ensures passed { (x : ℕ) → from ≤ x → x < result → is_on_of bench.now g x y ≡ false }
    ensures found { result < end → is_on_of bench.now g result y ≡ true }
{
    if is_quiet(bench, g, y, from, end) {
        end
    } else {
        next_in(bench, g, y, from, end)
    }
}

// Where the block begins that is the first one from column `x` on, or the width where none is.
fn block_end(x: u32, width: u32) -> u32
    requires x { x ≤ width }
    requires width { width ≤ 32768 }
    ensures low { x ≤ result }
    ensures high { result ≤ width }
{
    (x.div_ceil(BLOCK) * BLOCK).min(width)
}

// The first column of row `y` from `from` on whose cell is on the contour, or the width where none is. What is
// left of a block is gone through, since a part of it was.
fn next_on(bench: &Workbench, g: u64, y: u32, from: u32) -> u32
    requires y { y < (bench.now).frame.height }
    requires from { from ≤ (bench.now).frame.width }
    ensures low { from ≤ result }
    ensures high { result ≤ (bench.now).frame.width }
    ensures passed { (x : ℕ) → from ≤ x → x < result → is_on_of bench.now g x y ≡ false }
    ensures found { result < (bench.now).frame.width → is_on_of bench.now g result y ≡ true }
{
    let width = bench.frame().width;
    let head = block_end(from, width);
    let at = next_in(bench, g, y, from, head);
    if at < head {
        return at;
    }
    let mut x = head;
    'spans: while x < width {
        let end = x + (width - x).min(BLOCK);
        let at = next_in_block(bench, g, y, x, end);
        if at < end {
            return at;
        }
        x = end;
    }
    width
}

/// Makes Pass the contour of the cells whose clearance is above `g`, a squared index distance; adds it
/// to Visited, and gives its size. The border of the frame has to be above `g`, and may be on the
/// contour; no cell outside the frame is, for it and all its neighbours are above `g`.
pub fn contour(bench: &mut Workbench, g: u64) -> u64
    requires border { (c : Cell) → IsOnBorder (bench.old).frame c → is_above_of (bench.old).frame (bench.old).clearances g c ≡ true }
    ensures rest { bench.new ≡ record bench.old { pass = (bench.new).pass; visited = (bench.new).visited } }
    ensures contour { (c : Cell) → in_plane (bench.old).frame (bench.new).pass c ≡ true ↔ IsContourOf (is_above_of (bench.old).frame (bench.old).clearances g) c }
    ensures visited { (c : Cell)
        → in_plane (bench.old).frame (bench.new).visited c
        ≡ (in_plane (bench.old).frame (bench.old).visited c || in_plane (bench.old).frame (bench.new).pass c) }
    ensures size { result ≡ count_by (λ p. p) (bench.new).pass }
{
    let frame = bench.frame();
    bench.clear(Plane::Pass);
    let mut size = 0;
    'rows: for y in 0..frame.height {
        let mut x = next_on(bench, g, y, 0);
        'cells: while x < frame.width {
            size += trace(bench, cell_at(frame, x, y), true);
            x = next_on(bench, g, y, x + 1);
        }
    }
    size
}
