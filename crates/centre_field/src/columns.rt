// The distances along columns, by one sweep upwards and one downwards.
ghost use Rattle.std.specs.Prelude.{◌≡◌, ◌<◌, ◌≤◌, ◌+◌, ℕ, min};
ghost use Rattle.centre_field.specs.Columns.{number_at, further as further_of, IsNearest, ChangesRow, AreUpward, AreNearest};

use cell_grid::{Plane, Workbench, place_at};

// One more than a distance; none where there is none.
#[inline(always)]
fn further(distance: u32) -> u32
    ensures { result ≡ further_of distance }
{
    if distance == u32::MAX {
        u32::MAX
    } else {
        distance + 1
    }
}

// The distance to the nearest kept cell of the column at the row or to the south of it, where the row
// before has its own.
#[inline(always)]
fn upward(bench: &Workbench, x: u32, y: u32) -> u32
    requires x { x < (bench.now).frame.width }
    requires y { y < (bench.now).frame.height }
    requires before { (b : ℕ) → b + 1 ≡ y → IsNearest bench.now x b y (number_at bench.now x b) }
    ensures { IsNearest bench.now x y (y + 1) result }
{
    let frame = bench.frame();
    if bench.is_at(Plane::Kept, place_at(frame, x, y)) {
        return 0;
    }
    if y == 0 {
        return u32::MAX;
    }
    further(bench.clearance_at(place_at(frame, x, y - 1)))
}

// Stores for each cell the distance to the nearest kept cell of its column that is no farther north.
fn sweep_up(bench: &mut Workbench)
    ensures rest { bench.new ≡ record bench.old { clearances = (bench.new).clearances } }
    ensures upward { AreUpward bench.old bench.new }
{
    let frame = bench.frame();
    'rows: for y in 0..frame.height {
        'cells: for x in 0..frame.width {
            let distance = upward(bench, x, y);
            bench.set_clearance_at(place_at(frame, x, y), distance);
        }
    }
}

// Takes the nearer of each cell's distance and one more than the distance to the north of it.
fn sweep_row_down(bench: &mut Workbench, y: u32)
    requires { y + 1 < (bench.old).frame.height }
    ensures row { ChangesRow bench.old bench.new y }
    ensures nearer { (x : ℕ) → x < (bench.old).frame.width
        → number_at bench.new x y ≡ min (number_at bench.old x y) (further_of (number_at bench.old x (y + 1))) }
{
    let frame = bench.frame();
    'cells: for x in 0..frame.width {
        let k = place_at(frame, x, y);
        let north = further(bench.clearance_at(place_at(frame, x, y + 1)));
        let distance = bench.clearance_at(k).min(north);
        bench.set_clearance_at(k, distance);
    }
}

// From the distances to the south of each cell to those along its column.
fn sweep_down(bench: &mut Workbench)
    ensures rest { bench.new ≡ record bench.old { clearances = (bench.new).clearances } }
    ensures nearest { AreUpward bench.old bench.old → AreNearest bench.old bench.new }
{
    let frame = bench.frame();
    'rows: for turn in 1..frame.height {
        sweep_row_down(bench, frame.height - 1 - turn);
    }
}

// Stores for each cell the distance to the nearest kept cell of its column, or `u32::MAX` where the
// column has none.
pub(crate) fn sweep_columns(bench: &mut Workbench)
    ensures rest { bench.new ≡ record bench.old { clearances = (bench.new).clearances } }
    ensures nearest { AreNearest bench.old bench.new }
{
    sweep_up(bench);
    sweep_down(bench);
}
