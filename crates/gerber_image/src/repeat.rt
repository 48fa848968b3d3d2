// The copies of a repeat.
ghost use Rattle.std.specs.Prelude.{◌≡◌, ◌++◌, ◌<◌, ◌≤◌, ◌+◌, ◌*◌, ◌^◌, ◌||◌, pos, false, length, map, nat_lt, OnOk, IfOk, ◌+ℤ◌};
ghost use Rattle.std.specs.List.{All, list_any, flat_map, range_with_len};
ghost use Rattle.board_base.specs.Places.{IsPlace};
ghost use Rattle.plane_arcs.specs.Turned.{is_far};
ghost use Rattle.gerber_image.specs.Image.{shifted_point, shifted_piece, shifted, copy, copies_of, vertices_in};
ghost use Rattle.gerber_image.specs.Checks.{piece_leaves, is_outside, excess_of};
ghost use Rattle.gerber_image.specs.State.{IsRepeat};
ghost use Rattle.gerber_image.specs.Copies.{AreInside, shift_of};

use crate::block::{BlockObject, block_vertices};
use crate::numbers::either;
use crate::objects::Objects;
use crate::refusal::GerberKind;
use board_base::Point;
use plane_arcs::point_at;
use poly_area::Motion;
use shape_parts::{Painted, Shape};
use std::alloc::{AllocError, Global};

/// Counts and steps of a repeat. The steps are in nanometres.
#[derive(Clone, Copy, Debug, PartialEq, Eq)]
pub struct Repeat {
    pub columns: u32,
    pub rows: u32,
    pub dx: u128,
    pub dy: u128,
}

/// A shift to the east and the north, in nanometres.
#[derive(Clone, Copy)]
pub struct Shift {
    dx: u128,
    dy: u128,
}

// Whether a shift isn't longer than any that a repeat makes.
fn is_short(by: u128) -> bool
    ensures { result ≡ nat_lt by (2 ^ 120) }
{
    by < 1_329_227_995_784_915_872_903_807_060_280_344_576
}

// A coordinate that is shifted.
fn plus(v: i64, by: u128) -> i128
    requires { by < 2 ^ 120 }
    ensures { result ≡ v +ℤ pos by }
{
    v as i128 + by as i128
}

#[tactic(auto, unfolding(crate::specs::Copies::shift_of))]
impl Motion for Shift {
    ghost use Rattle.gerber_image.specs.Copies.{shift_of};

    ghost moves = { shift_of };

    fn moved(&self, p: Point) -> Option<Point> {
        if !is_short(self.dx) {
            return None;
        }
        if !is_short(self.dy) {
            return None;
        }
        point_at(plus(p.x, self.dx), plus(p.y, self.dy))
    }
}

// Whether a shifted point leaves the range.
fn point_leaves(p: Point, dx: u128, dy: u128) -> bool
    requires { IsPlace p }
    ensures { result ≡ is_far (shifted_point (pos dx) (pos dy) p) }
{
    match (Shift { dx, dy }).moved(p) {
        Some(_) => false,
        None => true,
    }
}

/// Whether a shifted point leaves the range.
pub fn points_leave(points: &[Point], dx: u128, dy: u128) -> bool
    requires { All IsPlace points.now }
    ensures { result ≡ list_any is_far (map (shifted_point (pos dx) (pos dy)) points.now) }
{
    let mut found = false;
    for p in points {
        found = either(found, point_leaves(*p, dx, dy));
    }
    found
}

/// Whether a shifted shape leaves the range.
pub fn shape_leaves(shape: &Shape, dx: u128, dy: u128) -> bool
    ensures { result ≡ list_any piece_leaves (map (shifted_piece (pos dx) (pos dy)) shape.now) }
{
    shape.leaves(&Shift { dx, dy })
}

// A shifted shape that stays in the range.
fn shifted_shape(alloc: Global, shape: &Shape, dx: u128, dy: u128) -> Result<Shape, AllocError>
    requires inside { list_any piece_leaves (map (shifted_piece (pos dx) (pos dy)) shape.now) ≡ false }
    ensures { IfOk result (λ s. s ≡ map (shifted_piece (pos dx) (pos dy)) shape.now) }
{
    match shape.moved(alloc, &Shift { dx, dy })? {
        Some(shape) => Ok(shape),
        None => unreachable!(),
    }
}

// Whether an object of a copy leaves the range.
fn any_leaves(block: &[BlockObject], dx: u128, dy: u128) -> bool
    ensures { result ≡ list_any is_outside (map (shifted (pos dx) (pos dy)) block.now) }
{
    let mut found = false;
    for p in block {
        found = either(found, p.leaves(dx, dy));
    }
    found
}

// Adds a copy of a block.
fn paint_copy(
    alloc: Global,
    painted: &mut Objects,
    block: &[BlockObject],
    dx: u128,
    dy: u128,
) -> Result<(), AllocError>
    requires few { vertices_in block.now ≤ 4194304 }
    requires inside { list_any is_outside (map (shifted (pos dx) (pos dy)) block.now) ≡ false }
    ensures { OnOk result (painted.new ≡ painted.old ++ map (shifted (pos dx) (pos dy)) block.now) }
{
    for p in block {
        let shape = shifted_shape(alloc, p.shape(), dx, dy)?;
        painted.push(Painted {
            shape,
            dark: p.is_dark(),
        })?;
    }
    Ok(())
}

// Adds the copies of a column.
fn paint_column(
    alloc: Global,
    painted: &mut Objects,
    r: Repeat,
    block: &[BlockObject],
    i: u32,
) -> Result<(), AllocError>
    requires repeat { IsRepeat r }
    requires below { i < r.columns }
    requires few { vertices_in block.now ≤ 4194304 }
    requires inside { AreInside r block.now }
    ensures { OnOk result (painted.new ≡ painted.old ++ flat_map (copy r block.now i) (range_with_len 0 r.rows)) }
{
    for j in 0..r.rows {
        paint_copy(alloc, painted, block, i as u128 * r.dx, j as u128 * r.dy)?;
    }
    Ok(())
}

/// Adds the copies of a block. It fails only without memory.
pub fn paint_copies(
    alloc: Global,
    painted: &mut Objects,
    r: Repeat,
    block: &[BlockObject],
) -> Result<(), AllocError>
    requires repeat { IsRepeat r }
    requires few { vertices_in block.now ≤ 4194304 }
    requires inside { AreInside r block.now }
    ensures { OnOk result (painted.new ≡ painted.old ++ copies_of r block.now) }
{
    for i in 0..r.columns {
        paint_column(alloc, painted, r, block, i)?;
    }
    Ok(())
}

/// Whether a copy leaves the range: the first or the last.
pub fn copies_leave(r: Repeat, block: &[BlockObject]) -> bool
    requires repeat { IsRepeat r }
    ensures { result ≡ list_any is_outside (copies_of r block.now) }
{
    let dx = (r.columns as u128 - 1) * r.dx;
    let dy = (r.rows as u128 - 1) * r.dy;
    let first = any_leaves(block, 0, 0);
    let last = any_leaves(block, dx, dy);
    either(first, last)
}

// How many objects the copies are.
#[tactic(auto, using(crate::proofs::Copies::length_copies))]
fn count_copies(r: Repeat, block: &[BlockObject]) -> u128
    requires { IsRepeat r }
    ensures value { result ≡ length (copies_of r block.now) }
    ensures bound { result ≤ 1000000 * length block.now }
{
    r.columns as u128 * (r.rows as u128 * block.len() as u128)
}

/// What there would be too much of with the copies of a block.
pub fn copies_excess(painted: &Objects, r: Repeat, block: &[BlockObject]) -> Option<GerberKind>
    requires { IsRepeat r }
    ensures { result ≡ excess_of (painted.now ++ copies_of r block.now) }
{
    let objects = count_copies(r, block);
    let vertices = r.columns as u128 * (r.rows as u128 * block_vertices(block));
    painted.excess(objects, vertices)
}
