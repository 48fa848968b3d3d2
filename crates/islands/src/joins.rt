// Each taken cell is joined to its taken neighbours, in the order of rows.
ghost use Rattle.std.specs.Prelude.{◌≡◌, ◌<◌, ◌≤◌, ◌+◌, ◌*◌, ◌+ℤ◌, pos, ◌⊎◌, ◌↔◌, ℕ, Bool, true, IsTrue, false, slice_index, slice_index_or};
ghost use Rattle.board_base.specs.declared.places.Cell.{Cell};
ghost use Rattle.cell_grid.specs.Place.{IsFrame, InFrame, place_of, cells_of};
ghost use Rattle.cell_grid.specs.Grid.{plane_of};
ghost use Rattle.islands.specs.Ways.{neighbour_of};
ghost use Rattle.islands.specs.Taken.{is_taken, outer_number};
ghost use Rattle.islands.specs.Floods.{ChangesNumbers};
ghost use Rattle.islands.specs.Classes.{IsEdge};
ghost use Rattle.islands.specs.Forests.{nodes, node_of, IsForested, IsMet, IsLone, IsJoined, IsJoining, IsSouthOf, IsHanging};

use crate::forests::unite;
use crate::ways::neighbour;
use board_base::Cell;
use cell_grid::{Frame, Plane, Workbench, cell_at};

// What the neighbour of a cell in one way points to; outside the frame each cell points to `outer`.
fn pointed_beside(bench: &Workbench, frame: Frame, outer: u32, c: Cell, way: u32) -> u32
    requires frame { frame ≡ bench.now.frame }
    requires valid { IsFrame frame }
    requires cell { InFrame frame c }
    requires way { way < 8 }
    ensures { result ≡ slice_index (nodes outer bench.now.works) (node_of frame (neighbour_of c way)) }
{
    match neighbour(frame, c, way) {
        Some(b) => bench.work(b),
        None => outer,
    }
}

// Makes the classes of a cell's node and of its neighbour in one way one, where the neighbour points.
fn join_way(bench: &mut Workbench, frame: Frame, outer: u32, c: Cell, node: u32, way: u32)
    requires frame { frame ≡ bench.old.frame }
    requires valid { IsFrame frame }
    requires cell { InFrame frame c }
    requires way { way < 8 }
    requires forest { IsForested (nodes outer bench.old.works) }
    requires live { 0 < slice_index (nodes outer bench.old.works) node }
    ensures rest { ChangesNumbers bench.old bench.new }
    ensures joined { IsMet (nodes outer bench.old.works) (nodes outer (bench.new).works) node (node_of frame (neighbour_of c way))
        ⊎ IsLone (nodes outer bench.old.works) (nodes outer (bench.new).works) (node_of frame (neighbour_of c way)) }
{
    let up = pointed_beside(bench, frame, outer, c, way);
    if up != 0 {
        unite(bench, outer, node, up);
    }
}

// Joins a cell that points to its neighbours in all ways.
fn join_around(bench: &mut Workbench, frame: Frame, outer: u32, c: Cell, node: u32)
    requires frame { frame ≡ bench.old.frame }
    requires valid { IsFrame frame }
    requires cell { InFrame frame c }
    requires node { node ≡ node_of frame c }
    requires forest { IsForested (nodes outer bench.old.works) }
    requires live { 0 < slice_index (nodes outer bench.old.works) node }
    ensures rest { ChangesNumbers bench.old bench.new }
    ensures joined { (taken : Cell → Bool) → IsJoining frame taken outer bench.old.works c 0 → IsJoining frame taken outer (bench.new).works c 8 }
{
    'ways: for way in 0..8 {
        join_way(bench, frame, outer, c, node, way);
    }
}

// Lets a taken cell point to itself, and joins it to its neighbours.
fn join_alone(bench: &mut Workbench, frame: Frame, outer: u32, c: Cell, node: u32)
    requires frame { frame ≡ bench.old.frame }
    requires valid { IsFrame frame }
    requires cell { InFrame frame c }
    requires node { node ≡ node_of frame c }
    requires forest { IsForested (nodes outer bench.old.works) }
    requires free { slice_index bench.old.works (place_of frame c) ≡ 0 }
    ensures rest { ChangesNumbers bench.old bench.new }
    ensures joined { (taken : Cell → Bool) → taken c ≡ true → IsJoined frame taken outer bench.old.works (place_of frame c)
        → IsJoined frame taken outer (bench.new).works (place_of frame c + 1) }
{
    let _ = bench.frame();
    bench.set_work(c, node);
    join_around(bench, frame, outer, c, node);
}

// Whether a column and a row of the frame meet on its border.
#[inline(always)]
fn is_edge(frame: Frame, x: u32, y: u32) -> bool
    requires x { x < frame.width }
    requires y { y < frame.height }
    ensures { IsTrue result ↔ IsEdge frame x y }
{
    x == 0 || x + 1 == frame.width || y == 0 || y + 1 == frame.height
}

// What the cell south of a cell within the border points to; 0 for a cell of the border.
#[inline(always)]
fn pointed_south(bench: &Workbench, frame: Frame, x: u32, y: u32) -> u32
    requires frame { frame ≡ bench.now.frame }
    requires valid { IsFrame frame }
    requires x { x < frame.width }
    requires y { y < frame.height }
    ensures { 0 < result → IsSouthOf frame bench.now.works x y result }
{
    if is_edge(frame, x, y) {
        return 0;
    }
    bench.work(cell_at(frame, x, y - 1))
}

// Joins the taken cell in a column and a row to its neighbours. Those that touch it and have come before all
// touch the cell south of it: where that one points, the cell points there too.
#[inline(always)]
fn join_cell(bench: &mut Workbench, frame: Frame, outer: u32, x: u32, y: u32, c: Cell)
    requires frame { frame ≡ bench.old.frame }
    requires valid { IsFrame frame }
    requires x { x < frame.width }
    requires y { y < frame.height }
    requires cell { InFrame frame c }
    requires column { c.i ≡ frame.i0 +ℤ pos x }
    requires row { c.j ≡ frame.j0 +ℤ pos y }
    requires place { place_of frame c ≡ y * frame.width + x }
    requires forest { IsForested (nodes outer bench.old.works) }
    requires free { slice_index bench.old.works (place_of frame c) ≡ 0 }
    ensures rest { ChangesNumbers bench.old bench.new }
    ensures joined { (taken : Cell → Bool) → taken c ≡ true → IsJoined frame taken outer bench.old.works (place_of frame c)
        → IsJoined frame taken outer (bench.new).works (place_of frame c + 1) }
{
    let _ = bench.frame();
    let south = pointed_south(bench, frame, x, y);
    if south != 0 {
        bench.set_work(c, south);
    } else {
        join_alone(bench, frame, outer, c, y * frame.width + x + 2);
    }
}

// How far the cells of a run in row `y` may point where the one before the first of them points: from place
// `at` on and before the result none is on the border, and a taken cell stands south of each that has one
// south-east.
fn hanging_end(
    bench: &Workbench,
    frame: Frame,
    plane: Plane,
    on: bool,
    y: u32,
    at: u32,
    past: u32,
) -> u32
    requires frame { frame ≡ bench.now.frame }
    requires valid { IsFrame frame }
    requires y { y < frame.height }
    requires west { y * frame.width < at }
    requires order { at ≤ past }
    requires east { past ≤ y * frame.width + frame.width }
    ensures low { at ≤ result }
    ensures high { result ≤ past }
    ensures hanging { (p : ℕ) → at ≤ p → p < result → IsHanging frame (plane_of bench.now plane) on y p }
{
    if y == 0 || y + 1 == frame.height {
        return at;
    }
    let width = frame.width;
    let last = y * width + width - 1;
    let limit = if past < last { past } else { last };
    if limit <= at {
        return at;
    }
    let gap = bench.next_place(plane, !on, at - width, limit - width);
    let next = bench.next_place(plane, on, gap, limit - width + 1);
    let end = next + width - 1;
    if end < at { at } else { end }
}

// Joins the taken cells of a run in row `y`, from one place on and before another.
fn join_run(
    bench: &mut Workbench,
    frame: Frame,
    plane: Plane,
    on: bool,
    outer: u32,
    y: u32,
    first: u32,
    past: u32,
)
    requires frame { frame ≡ bench.old.frame }
    requires valid { IsFrame frame }
    requires y { y < frame.height }
    requires west { y * frame.width ≤ first }
    requires order { first ≤ past }
    requires east { past ≤ y * frame.width + frame.width }
    requires taken { (k : ℕ) → first ≤ k → k < past → slice_index_or (plane_of bench.old plane) k false ≡ on }
    requires joined { IsJoined frame (is_taken on frame (plane_of bench.old plane)) outer bench.old.works first }
    ensures rest { ChangesNumbers bench.old bench.new }
    ensures joined { IsJoined frame (is_taken on frame (plane_of bench.old plane)) outer (bench.new).works past }
{
    let start = y * frame.width;
    let _begun = bench.frame();
    let mut at = first;
    'parts: while at < past {
        let c = cell_at(frame, at - start, y);
        join_cell(bench, frame, outer, at - start, y, c);
        let _joined = bench.frame();
        let stop = hanging_end(bench, frame, plane, on, y, at + 1, past);
        let up = bench.work_at(at);
        bench.fill_works(at + 1, stop, up);
        at = stop;
    }
}

// Joins all taken cells: where `on`, those of the plane are taken, else all others.
pub(crate) fn join_cells(bench: &mut Workbench, plane: Plane, on: bool, outer: u32)
    requires outer { outer ≡ outer_number on }
    requires clear { (k : ℕ) → slice_index bench.old.works k ≡ 0 }
    ensures rest { ChangesNumbers bench.old bench.new }
    ensures joined { IsJoined bench.old.frame (is_taken on bench.old.frame (plane_of bench.old plane)) outer (bench.new).works (cells_of bench.old.frame) }
{
    let frame = bench.frame();
    'rows: for y in 0..frame.height {
        let end = y * frame.width + frame.width;
        let mut at = y * frame.width;
        'runs: while at < end {
            let first = bench.next_place(plane, on, at, end);
            let past = bench.next_place(plane, !on, first, end);
            join_run(bench, frame, plane, on, outer, y, first, past);
            at = past;
        }
    }
}
