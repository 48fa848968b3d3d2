// A grid in memory: a byte of plane bits, three numbers and a place in the queue for each cell, and rows of
// bits.
ghost use Rattle.std.specs.Prelude.{◌≡◌, ◌<◌, ◌+◌, ◌++◌, ◌∷◌, [], ℕ, false, drop, replicate, slice_get, slice_set, slice_index, slice_index_or, IfOk, IfSome, IfErr, IsErrOf, MatchOption, Some, None};
ghost use Rattle.board_base.specs.declared.places.Cell.{Cell};
ghost use Rattle.cell_grid.specs.declared.frames.GridError.{GridError};
ghost use Rattle.cell_grid.specs.Place.{IsFrame, IsPlaced, InFrame, place_of, cells_of, scratch_of};
ghost use Rattle.cell_grid.specs.Limits.{size_fault};
ghost use Rattle.cell_grid.specs.Grid.{Grid, plane_of, with_plane, blank_of, IsSized};

mod spans;
mod wholes;

use crate::bits::{Plane, bit, has_bit, with_bit};
use crate::frames::{Frame, GridError, cell_of, place, size_fault_of};
use crate::queues::Queue;
use crate::rows::{RowBits, blank_rows};
use board_base::Cell;
use std::alloc::{AllocError, Global};
use std::marker::Model;

/// The planes, tables, scratch numbers, queue and rows of bits of one frame. All its memory is taken by
/// `reserve`: 15 bytes a cell, 512 bytes for each row, and 516 bytes for each column.
#[derive(Drop)]
pub struct Workbench {
    frame: Frame,
    flags: Vec<u8>,
    labels: Vec<u16>,
    clearances: Vec<u32>,
    works: Vec<u32>,
    scratch: Vec<u64>,
    queue: Queue,
    rows: Option<RowBits>,
}

impl Model for Workbench {
    ghost use Rattle.cell_grid.specs.Grid.{Grid};

    ghost Value = { Grid };

    ghost use Rattle.cell_grid.specs.Planes.{grid_of, IsWhole};

    ghost view = { grid_of };

    ghost invariant = { IsWhole };
}

// So many bytes without a bit set.
fn zero_bytes(alloc: Global, n: usize) -> Result<Vec<u8>, AllocError>
    ensures { IfOk result (λ v. v.items ≡ replicate n 0) }
{
    vec![in alloc; 0; n]
}

// So many labels 0.
fn zero_labels(alloc: Global, n: usize) -> Result<Vec<u16>, AllocError>
    ensures { IfOk result (λ v. v.items ≡ replicate n 0) }
{
    vec![in alloc; 0; n]
}

// So many clearances without a bound.
fn far(alloc: Global, n: usize) -> Result<Vec<u32>, AllocError>
    ensures { IfOk result (λ v. v.items ≡ replicate n 4294967295) }
{
    vec![in alloc; u32::MAX; n]
}

// So many working labels 0.
fn zero_works(alloc: Global, n: usize) -> Result<Vec<u32>, AllocError>
    ensures { IfOk result (λ v. v.items ≡ replicate n 0) }
{
    vec![in alloc; 0; n]
}

// So many scratch numbers 0.
fn zero_numbers(alloc: Global, n: usize) -> Result<Vec<u64>, AllocError>
    ensures { IfOk result (λ v. v.items ≡ replicate n 0) }
{
    vec![in alloc; 0; n]
}

// A blank grid over a frame that isn't too large.
fn blank(alloc: Global, frame: Frame) -> Result<Workbench, AllocError>
    requires { IsFrame frame }
    ensures { IfOk result (λ w. w ≡ blank_of frame) }
{
    let cells = frame.width as usize * frame.height as usize;
    let flags = zero_bytes(alloc, cells)?;
    let labels = zero_labels(alloc, cells)?;
    let clearances = far(alloc, cells)?;
    let works = zero_works(alloc, cells)?;
    let scratch = zero_numbers(
        alloc,
        64 * (frame.width as usize + frame.height as usize + 2),
    )?;
    let queue = Queue::reserve(alloc, cells)?;
    let rows = blank_rows(alloc, frame.width as usize)?;
    Ok(Workbench {
        frame,
        flags,
        labels,
        clearances,
        works,
        scratch,
        queue,
        rows: Some(rows),
    })
}

impl Workbench {
    /// A blank grid over a frame: no cell is in a plane, each number is 0, each clearance is
    /// `u32::MAX`, nothing waits, and the rows of bits lie in their place, all off. `TooWide` where a side passes 32,768, the width first, then
    /// `TooManyCells` where the cells pass 2^26, then `Memory` where memory is wanting.
    pub fn reserve(alloc: Global, frame: Frame) -> Result<Workbench, GridError>
        requires { IsPlaced frame }
        ensures blank { IfOk result (λ w. w ≡ blank_of frame) }
        ensures err { MatchOption (size_fault frame.width frame.height)
            (IfErr result (λ e. e ≡ GridError.Memory))
            (λ fault. IsErrOf result fault) }
    {
        if let Some(fault) = size_fault_of(frame.width, frame.height) {
            return Err(fault);
        }
        let bench = blank(alloc, frame)?;
        Ok(bench)
    }

    /// The frame whose cells the grid has.
    #[inline(always)]
    pub fn frame(&self) -> Frame
        ensures value { result ≡ self.now.frame }
        ensures valid { IsFrame result }
        ensures sized { IsSized self.now }
    {
        self.frame
    }

    /// Whether a cell is in a plane.
    #[inline(always)]
    pub fn get(&self, plane: Plane, c: Cell) -> bool
        requires { InFrame self.now.frame c }
        ensures { result ≡ slice_index_or (plane_of self.now plane) (place_of self.now.frame c) false }
    {
        has_bit(self.flags[place(self.frame, c)], bit(plane))
    }

    /// Puts a cell into a plane, or takes it out.
    #[inline(always)]
    pub fn set(&mut self, plane: Plane, c: Cell, on: bool)
        requires { InFrame self.old.frame c }
        ensures { self.new
            ≡ with_plane self.old plane (slice_set (plane_of self.old plane) (place_of self.old.frame c) on) }
    {
        let k = place(self.frame, c);
        let n = with_bit(self.flags[k], bit(plane), on);
        self.flags[k] = n;
    }

    /// The label of a cell.
    #[inline(always)]
    pub fn label(&self, c: Cell) -> u16
        requires { InFrame self.now.frame c }
        ensures { result ≡ slice_index self.now.labels (place_of self.now.frame c) }
    {
        self.labels[place(self.frame, c)]
    }

    /// Writes the label of a cell.
    #[inline(always)]
    pub fn set_label(&mut self, c: Cell, v: u16)
        requires { InFrame self.old.frame c }
        ensures { self.new
            ≡ record self.old { labels = slice_set self.old.labels (place_of self.old.frame c) v } }
    {
        let k = place(self.frame, c);
        self.labels[k] = v;
    }

    /// The clearance of a cell.
    #[inline(always)]
    pub fn clearance(&self, c: Cell) -> u32
        requires { InFrame self.now.frame c }
        ensures { result ≡ slice_index self.now.clearances (place_of self.now.frame c) }
    {
        self.clearances[place(self.frame, c)]
    }

    /// Writes the clearance of a cell.
    #[inline(always)]
    pub fn set_clearance(&mut self, c: Cell, v: u32)
        requires { InFrame self.old.frame c }
        ensures { self.new
            ≡ record self.old { clearances = slice_set self.old.clearances (place_of self.old.frame c) v } }
    {
        let k = place(self.frame, c);
        self.clearances[k] = v;
    }

    /// The working label of a cell.
    #[inline(always)]
    pub fn work(&self, c: Cell) -> u32
        requires { InFrame self.now.frame c }
        ensures { result ≡ slice_index self.now.works (place_of self.now.frame c) }
    {
        self.works[place(self.frame, c)]
    }

    /// Writes the working label of a cell.
    #[inline(always)]
    pub fn set_work(&mut self, c: Cell, v: u32)
        requires { InFrame self.old.frame c }
        ensures { self.new
            ≡ record self.old { works = slice_set self.old.works (place_of self.old.frame c) v } }
    {
        let k = place(self.frame, c);
        self.works[k] = v;
    }

    /// Scratch number `k`, counted from 0.
    #[inline(always)]
    pub fn scratch(&self, k: u32) -> u64
        requires { k < scratch_of self.now.frame }
        ensures { result ≡ slice_index self.now.scratch k }
    {
        self.scratch[k as usize]
    }

    /// Writes scratch number `k`.
    #[inline(always)]
    pub fn set_scratch(&mut self, k: u32, v: u64)
        requires { k < scratch_of self.old.frame }
        ensures { self.new ≡ record self.old { scratch = slice_set self.old.scratch k v } }
    {
        self.scratch[k as usize] = v;
    }

    /// Takes all cells out of the queue.
    #[inline(always)]
    pub fn queue_clear(&mut self)
        ensures { self.new ≡ record self.old { waiting = []; put = 0 } }
    {
        self.queue.clear();
    }

    /// Puts a cell at the end of the queue.
    #[inline(always)]
    pub fn queue_put(&mut self, c: Cell)
        requires cell { InFrame self.old.frame c }
        requires room { self.old.put < cells_of self.old.frame }
        ensures { self.new ≡ record self.old { waiting = self.old.waiting ++ c ∷ []; put = self.old.put + 1 } }
    {
        let k = place(self.frame, c);
        self.queue.put(k as u32);
    }

    /// Takes the first cell out of the queue; `None` exactly where no cell waits.
    #[inline(always)]
    pub fn queue_take(&mut self) -> Option<Cell>
        ensures first { result ≡ slice_get self.old.waiting 0 }
        ensures inside { IfSome result (InFrame self.old.frame) }
        ensures rest { self.new ≡ record self.old { waiting = drop 1 self.old.waiting } }
    {
        let place = self.queue.take()?;
        Some(cell_of(self.frame, place))
    }

    /// The rows of bits, for whoever gives them back; `None` where they were taken and not given back.
    pub fn take_rows(&mut self) -> Option<RowBits>
        ensures value { result ≡ self.old.rows }
        ensures rest { self.new ≡ record self.old { rows = None } }
    {
        self.rows.take()
    }

    /// Puts rows of bits where those of `reserve` lay.
    pub fn give_rows(&mut self, rows: RowBits)
        ensures { self.new ≡ record self.old { rows = Some rows } }
    {
        self.rows = Some(rows);
    }
}
