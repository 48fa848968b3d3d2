// Calls that read or write cells in a row, in the order of memory.
ghost use Rattle.std.specs.Prelude.{◌≡◌, ◌≢◌, ◌<◌, ◌≤◌, ◌+◌, ◌-◌, ◌==◌, ℕ, false, not, length, slice_index, slice_index_or, slice_set};
ghost use Rattle.std.specs.Int.{bit_at};
ghost use Rattle.cell_grid.specs.PlaneBits.{bits_at};
ghost use Rattle.cell_grid.specs.Place.{cells_of};
ghost use Rattle.cell_grid.specs.Grid.{plane_of, with_plane};
ghost use Rattle.cell_grid.specs.Spans.{set_span};

use super::Workbench;
use crate::bits::{Plane, bit, has_bit, with_bit};

// Whether bit `k` of any of eight bytes in a row is as `on`.
#[inline(always)]
fn is_any_of_eight(flags: &[u8], k: u32, on: bool, at: usize) -> bool
    requires bit { k < 8 }
    requires inside { at + 8 ≤ length flags.now }
    ensures { result ≡ false → (i : ℕ) → at ≤ i → i < at + 8 → (bit_at (slice_index flags.now i) k == 1) ≡ not on }
{
    (has_bit(flags[at], k) == on)
        | (has_bit(flags[at + 1], k) == on)
        | (has_bit(flags[at + 2], k) == on)
        | (has_bit(flags[at + 3], k) == on)
        | (has_bit(flags[at + 4], k) == on)
        | (has_bit(flags[at + 5], k) == on)
        | (has_bit(flags[at + 6], k) == on)
        | (has_bit(flags[at + 7], k) == on)
}

// Passes the bytes from `from` on and before `end` whose bit `k` isn't as `on`, eight at a time.
fn pass_eights(flags: &[u8], k: u32, on: bool, from: usize, end: usize) -> usize
    requires bit { k < 8 }
    requires order { from ≤ end }
    requires inside { end ≤ length flags.now }
    ensures low { from ≤ result }
    ensures high { result ≤ end }
    ensures passed { (i : ℕ) → from ≤ i → i < result → (bit_at (slice_index flags.now i) k == 1) ≡ not on }
{
    let mut at = from;
    'eights: while 8 <= end - at {
        if is_any_of_eight(flags, k, on, at) {
            return at;
        }
        at += 8;
    }
    at
}

// The first place from `from` on and before `end` where bit `k` is as `on`; `end` where there is none.
fn next_bit(flags: &[u8], k: u32, on: bool, from: usize, end: usize) -> usize
    requires bit { k < 8 }
    requires order { from ≤ end }
    requires inside { end ≤ length flags.now }
    ensures low { from ≤ result }
    ensures high { result ≤ end }
    ensures passed { (i : ℕ) → from ≤ i → i < result → (bit_at (slice_index flags.now i) k == 1) ≡ not on }
    ensures found { result < end → (bit_at (slice_index flags.now result) k == 1) ≡ on }
{
    let mut at = pass_eights(flags, k, on, from, end);
    'cells: while at < end {
        if has_bit(flags[at], k) == on {
            return at;
        }
        at += 1;
    }
    at
}

// Sets or clears bit `k` of the bytes from `from` on and before `end`.
fn fill_bit(flags: &mut [u8], k: u32, from: usize, end: usize, on: bool)
    requires bit { k < 8 }
    requires order { from ≤ end }
    requires inside { end ≤ length flags.old }
    ensures same { bits_at k flags.new ≡ set_span (bits_at k flags.old) from (end - from) on }
    ensures others { (i : ℕ) → i < 8 → i ≢ k → bits_at i flags.new ≡ bits_at i flags.old }
    ensures len { length flags.new ≡ length flags.old }
{
    'flags: for at in from..end {
        let n = with_bit(flags[at], k, on);
        flags[at] = n;
    }
}

// Writes a number to the places from `from` on and before `end`.
fn fill_span(numbers: &mut [u32], from: usize, end: usize, v: u32)
    requires order { from ≤ end }
    requires inside { end ≤ length numbers.old }
    ensures { numbers.new ≡ set_span numbers.old from (end - from) v }
{
    'places: for at in from..end {
        numbers[at] = v;
    }
}

impl Workbench {
    /// The first place from `from` on and before `end`, in the order of rows, whose cell is in a plane,
    /// where `on`, or else is not; `end` where there is none.
    pub fn next_place(&self, plane: Plane, on: bool, from: u32, end: u32) -> u32
        requires order { from ≤ end }
        requires inside { end ≤ cells_of self.now.frame }
        ensures low { from ≤ result }
        ensures high { result ≤ end }
        ensures passed { (k : ℕ) → from ≤ k → k < result → slice_index_or (plane_of self.now plane) k false ≡ not on }
        ensures found { result < end → slice_index_or (plane_of self.now plane) result false ≡ on }
    {
        next_bit(
            self.flags.as_slice(),
            bit(plane),
            on,
            from as usize,
            end as usize,
        ) as u32
    }

    /// Puts the cells at the places from `from` on and before `end`, in the order of rows, into a plane, or
    /// takes them out.
    pub fn fill_plane(&mut self, plane: Plane, from: u32, end: u32, on: bool)
        requires order { from ≤ end }
        requires inside { end ≤ cells_of self.old.frame }
        ensures { self.new
            ≡ with_plane self.old plane (set_span (plane_of self.old plane) from (end - from) on) }
    {
        fill_bit(
            self.flags.as_mut_slice(),
            bit(plane),
            from as usize,
            end as usize,
            on,
        );
    }

    /// Whether the cell at a place in the order of rows is in a plane.
    #[inline(always)]
    pub fn is_at(&self, plane: Plane, k: u32) -> bool
        requires { k < cells_of self.now.frame }
        ensures { result ≡ slice_index_or (plane_of self.now plane) k false }
    {
        has_bit(self.flags[k as usize], bit(plane))
    }

    /// Puts the cell at a place in the order of rows into a plane, or takes it out.
    #[inline(always)]
    pub fn set_at(&mut self, plane: Plane, k: u32, on: bool)
        requires { k < cells_of self.old.frame }
        ensures { self.new ≡ with_plane self.old plane (slice_set (plane_of self.old plane) k on) }
    {
        let n = with_bit(self.flags[k as usize], bit(plane), on);
        self.flags[k as usize] = n;
    }

    /// The clearance at a place in the order of rows.
    #[inline(always)]
    pub fn clearance_at(&self, k: u32) -> u32
        requires { k < cells_of self.now.frame }
        ensures { result ≡ slice_index self.now.clearances k }
    {
        self.clearances[k as usize]
    }

    /// Writes the clearance at a place in the order of rows.
    #[inline(always)]
    pub fn set_clearance_at(&mut self, k: u32, v: u32)
        requires { k < cells_of self.old.frame }
        ensures { self.new ≡ record self.old { clearances = slice_set self.old.clearances k v } }
    {
        self.clearances[k as usize] = v;
    }

    /// The working label at a place in the order of rows.
    #[inline(always)]
    pub fn work_at(&self, k: u32) -> u32
        requires { k < cells_of self.now.frame }
        ensures { result ≡ slice_index self.now.works k }
    {
        self.works[k as usize]
    }

    /// Writes the working label at a place in the order of rows.
    #[inline(always)]
    pub fn set_work_at(&mut self, k: u32, v: u32)
        requires { k < cells_of self.old.frame }
        ensures { self.new ≡ record self.old { works = slice_set self.old.works k v } }
    {
        self.works[k as usize] = v;
    }

    /// Writes a working label to the places from `from` on and before `end`, in the order of rows.
    pub fn fill_works(&mut self, from: u32, end: u32, v: u32)
        requires order { from ≤ end }
        requires inside { end ≤ cells_of self.old.frame }
        ensures { self.new ≡ record self.old { works = set_span self.old.works from (end - from) v } }
    {
        fill_span(self.works.as_mut_slice(), from as usize, end as usize, v);
    }
}
