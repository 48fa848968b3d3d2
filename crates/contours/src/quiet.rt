// Columns of a row none of which is on the contour, told by the least or the greatest of their clearances.
ghost use Rattle.std.specs.Prelude.{◌≡◌, ◌<◌, ◌≤◌, ◌+◌, ℕ, true, false, slice_index};
ghost use Rattle.cell_grid.specs.Place.{cells_of};
ghost use Rattle.contours.specs.Contour.{is_on as is_on_of};

use cell_grid::{Workbench, place_at};

// At most each clearance at the places from `from` on and before `end`: the least of them.
fn least_clearance(bench: &Workbench, from: u32, end: u32) -> u32
    requires order { from ≤ end }
    requires inside { end ≤ cells_of (bench.now).frame }
    ensures { (i : ℕ) → from ≤ i → i < end → result ≤ slice_index (bench.now).clearances i }
{
    let mut least = u32::MAX;
    'places: for k in from..end {
        least = least.min(bench.clearance_at(k));
    }
    least
}

// At least each clearance at the places from `from` on and before `end`: the greatest of them.
fn greatest_clearance(bench: &Workbench, from: u32, end: u32) -> u32
    requires order { from ≤ end }
    requires inside { end ≤ cells_of (bench.now).frame }
    ensures { (i : ℕ) → from ≤ i → i < end → slice_index (bench.now).clearances i ≤ result }
{
    let mut greatest = 0;
    'places: for k in from..end {
        greatest = greatest.max(bench.clearance_at(k));
    }
    greatest
}

// Whether no cell of some columns of a row is above `g`.
fn are_low(bench: &Workbench, g: u64, y: u32, from: u32, end: u32) -> bool
    requires y { y < (bench.now).frame.height }
    requires order { from < end }
    requires end { end ≤ (bench.now).frame.width }
    ensures { result ≡ true → (x : ℕ) → from ≤ x → x < end → is_on_of bench.now g x y ≡ false }
{
    let first = place_at(bench.frame(), from, y);
    let last = place_at(bench.frame(), end - 1, y);
    greatest_clearance(bench, first, last + 1) as u64 <= g
}

// Whether all cells of some columns of a row, and all round them, are above `g`.
fn are_far(bench: &Workbench, g: u64, y: u32, from: u32, end: u32) -> bool
    requires south { 0 < y }
    requires north { y + 1 < (bench.now).frame.height }
    requires west { 0 < from }
    requires order { from ≤ end }
    requires east { end < (bench.now).frame.width }
    ensures { result ≡ true → (x : ℕ) → from ≤ x → x < end → is_on_of bench.now g x y ≡ false }
{
    let frame = bench.frame();
    let here = least_clearance(
        bench,
        place_at(frame, from - 1, y),
        place_at(frame, end, y) + 1,
    );
    let south = least_clearance(
        bench,
        place_at(frame, from - 1, y - 1),
        place_at(frame, end, y - 1) + 1,
    );
    let north = least_clearance(
        bench,
        place_at(frame, from - 1, y + 1),
        place_at(frame, end, y + 1) + 1,
    );
    g < here.min(south).min(north) as u64
}

// Whether it is plain that no cell of some columns of a row is on the contour.
pub(crate) fn is_quiet(bench: &Workbench, g: u64, y: u32, from: u32, end: u32) -> bool
    requires y { y < (bench.now).frame.height }
    requires order { from ≤ end }
    requires end { end ≤ (bench.now).frame.width }
    ensures { result ≡ true → (x : ℕ) → from ≤ x → x < end → is_on_of bench.now g x y ≡ false }
{
    let frame = bench.frame();
    if end <= from {
        return true;
    }
    if are_low(bench, g, y, from, end) {
        return true;
    }
    if 0 < y && y + 1 < frame.height && 0 < from && end < frame.width {
        are_far(bench, g, y, from, end)
    } else {
        false
    }
}
