// The bounds of each sixteen edges, so that a row may pass over those that stand above it or below it.
ghost use Rattle.std.specs.Prelude.{◌≡◌, ◌≤◌, ◌<◌, ◌+◌, ◌*◌, ◌≤ℤ◌, length, vec_capacity, slice_index, IfOk, OnOk};
ghost use Rattle.std.specs.List.{All};
ghost use Rattle.std.specs.Int.{int_min, int_max};
ghost use Rattle.board_base.specs.Places.{IsCoordinate};
ghost use Rattle.poly_area.specs.Closed.{HasPlaces};
ghost use Rattle.poly_area.specs.Blocks.{IsWithin, IsBlock, AreBlocks};

use crate::edges::Edge;
use std::alloc::{AllocError, Global};

/// Between which rows the edges of a block stand: the least and the greatest y of their ends, in nanometres.
#[derive(Clone, Copy)]
pub struct Block {
    /// The least y.
    pub low: i64,
    /// The greatest y.
    pub high: i64,
}

// The lesser of two coordinates.
fn least(a: i64, b: i64) -> i64
    requires a { IsCoordinate a }
    requires b { IsCoordinate b }
    ensures value { result ≡ int_min a b }
    ensures inside { IsCoordinate result }
    ensures a { result ≤ℤ a }
    ensures b { result ≤ℤ b }
{
    if b < a { b } else { a }
}

// The greater of two coordinates.
fn greatest(a: i64, b: i64) -> i64
    requires a { IsCoordinate a }
    requires b { IsCoordinate b }
    ensures value { result ≡ int_max a b }
    ensures inside { IsCoordinate result }
    ensures a { a ≤ℤ result }
    ensures b { b ≤ℤ result }
{
    if b < a { a } else { b }
}

// The block of an edge alone.
fn block_of(e: Edge) -> Block
    requires { HasPlaces e }
    ensures bounds { IsBlock result }
    ensures within { IsWithin result e }
{
    Block {
        low: least(e.from.y, e.to.y),
        high: greatest(e.from.y, e.to.y),
    }
}

// The block round two.
fn joined(a: Block, b: Block) -> Block
    requires a { IsBlock a }
    requires b { IsBlock b }
    ensures low { result.low ≡ int_min a.low b.low }
    ensures high { result.high ≡ int_max a.high b.high }
    ensures bounds { IsBlock result }
    ensures low_a { result.low ≤ℤ a.low }
    ensures low_b { result.low ≤ℤ b.low }
    ensures high_a { a.high ≤ℤ result.high }
    ensures high_b { b.high ≤ℤ result.high }
{
    Block {
        low: least(a.low, b.low),
        high: greatest(a.high, b.high),
    }
}

// Adds edge `k` to the blocks of the edges before it.
fn put_edge(blocks: &mut Vec<Block>, edges: &[Edge], k: usize)
    requires places { All HasPlaces edges.now }
    requires k { k < length edges.now }
    requires few { length edges.now ≤ 4194304 }
    requires before { AreBlocks blocks.old.items edges.now k }
    requires room { length edges.now ≤ 16 * vec_capacity blocks.old }
    ensures after { AreBlocks blocks.new.items edges.now (k + 1) }
    ensures room { vec_capacity blocks.new ≡ vec_capacity blocks.old }
{
    let e = block_of(edges[k]);
    if 16 * blocks.len() == k {
        blocks.push_reserved(e);
    } else {
        let last = blocks.len() - 1;
        blocks[last] = joined(blocks[last], e);
    }
}

// Reserves room for the blocks of so many edges more.
pub(crate) fn reserve(blocks: &mut Vec<Block>, count: usize) -> Result<(), AllocError>
    ensures items { blocks.new.items ≡ blocks.old.items }
    ensures room { OnOk result (16 * length blocks.old.items + count ≤ 16 * vec_capacity blocks.new) }
{
    blocks.try_reserve(count / 16 + 1)
}

// Adds the edges from `from` on to the blocks of those before them.
pub(crate) fn put_edges(blocks: &mut Vec<Block>, edges: &[Edge], from: usize)
    requires places { All HasPlaces edges.now }
    requires few { length edges.now ≤ 4194304 }
    requires from { from ≤ length edges.now }
    requires before { AreBlocks blocks.old.items edges.now from }
    requires room { length edges.now ≤ 16 * vec_capacity blocks.old }
    ensures { AreBlocks blocks.new.items edges.now (length edges.now) }
{
    'edges: for k in from..edges.len() {
        put_edge(blocks, edges, k);
    }
}

// The blocks of the edges.
pub(crate) fn blocks_of(alloc: Global, edges: &[Edge]) -> Result<Vec<Block>, AllocError>
    requires places { All HasPlaces edges.now }
    requires few { length edges.now ≤ 4194304 }
    ensures { IfOk result (λ v. AreBlocks v.items edges.now (length edges.now)) }
{
    let mut blocks = Vec::new(alloc);
    reserve(&mut blocks, edges.len())?;
    put_edges(&mut blocks, edges, 0);
    Ok(blocks)
}
