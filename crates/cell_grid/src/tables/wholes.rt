// Calls that read or write a whole plane or a whole table, in the order of memory.
ghost use Rattle.std.specs.Prelude.{◌≡◌, ◌≢◌, ◌<◌, ◌≤◌, ◌==◌, ℕ, false, length, replicate, IfOk};
ghost use Rattle.std.specs.List.{All, count_by};
ghost use Rattle.std.specs.Int.{bit_at};
ghost use Rattle.board_base.specs.declared.places.Cell.{Cell};
ghost use Rattle.cell_grid.specs.PlaneBits.{bits_at};
ghost use Rattle.cell_grid.specs.Place.{cells_of};
ghost use Rattle.cell_grid.specs.Grid.{plane_of, with_plane};
ghost use Rattle.cell_grid.specs.Cells.{cells_in, number_in};

use super::Workbench;
use crate::bits::{Plane, bit, has_bit, with_bit};
use crate::frames::cell_of;
use board_base::Cell;
use std::alloc::{AllocError, Global};

// Clears one bit of each byte.
fn clear_bit(flags: &mut [u8], k: u32)
    requires { k < 8 }
    ensures same { bits_at k flags.new ≡ replicate (length flags.old) false }
    ensures others { (i : ℕ) → i < 8 → i ≢ k → bits_at i flags.new ≡ bits_at i flags.old }
    ensures len { length flags.new ≡ length flags.old }
{
    'flags: for at in 0..flags.len() {
        let cleared = with_bit(flags[at], k, false);
        flags[at] = cleared;
    }
}

// How many bytes have the bit.
fn count_bit(flags: &[u8], k: u32) -> usize
    requires { k < 8 }
    ensures { result ≡ count_by (λ n. bit_at n k == 1) flags.now }
{
    flags.iter().filter(|n| has_bit(**n, k)).count()
}

// Writes small numbers over others.
fn copy_small(from: &[u32], to: &mut [u16])
    requires small { All (λ n. n ≤ 65535) from.now }
    requires len { length from.now ≡ length to.old }
    ensures { to.new ≡ from.now }
{
    'numbers: for at in 0..to.len() {
        to[at] = from[at] as u16;
    }
}

impl Workbench {
    /// Takes all cells out of a plane.
    pub fn clear(&mut self, plane: Plane)
        ensures { self.new ≡ with_plane self.old plane (replicate (cells_of self.old.frame) false) }
    {
        clear_bit(&mut self.flags, bit(plane));
    }

    /// How many cells a plane has.
    pub fn count(&self, plane: Plane) -> u64
        ensures { result ≡ count_by (λ on. on) (plane_of self.now plane) }
    {
        count_bit(&self.flags, bit(plane)) as u64
    }

    /// The cells of a plane in the order of rows, from the south-west corner on.
    pub fn list(&self, alloc: Global, plane: Plane) -> Result<Vec<Cell>, AllocError>
        ensures { IfOk result (λ list. list.items ≡ cells_in self.now.frame (plane_of self.now plane)) }
    {
        let k = bit(plane);
        let mut list = Vec::new(alloc);
        'places: for at in 0..self.flags.len() {
            if has_bit(self.flags[at], k) {
                list.push(cell_of(self.frame, at as u32))?;
            }
        }
        Ok(list)
    }

    /// Makes all labels 0.
    pub fn clear_labels(&mut self)
        ensures { self.new ≡ record self.old { labels = replicate (cells_of self.old.frame) 0 } }
    {
        self.labels.fill(0);
    }

    /// Makes all working labels 0.
    pub fn clear_works(&mut self)
        ensures { self.new ≡ record self.old { works = replicate (cells_of self.old.frame) 0 } }
    {
        self.works.fill(0);
    }

    /// Makes the working labels the labels; each has to fit.
    pub fn labels_from_works(&mut self)
        requires { (c : Cell) → number_in self.old.frame 0 self.old.works c ≤ 65535 }
        ensures { self.new ≡ record self.old { labels = self.old.works } }
    {
        copy_small(&self.works, &mut self.labels);
    }
}
