// Where the bridges of chains stand.
ghost use Rattle.std.specs.Prelude.{◌≡◌, ℕ, ◌*◌, ◌/◌, ◌<◌, ◌≤◌, ◌++◌, length, IfOk, OnOk};
ghost use Rattle.std.specs.List.{All};
ghost use Rattle.board_base.specs.Lattice.{IsPitch};
ghost use Rattle.board_base.specs.Places.{IsPlace};
ghost use Rattle.outline_bridges.specs.Chains.{IsChain};
ghost use Rattle.outline_bridges.specs.Bridges.{bridge_at, chain_bridges, bridges_of};

use board_base::{Point, centre};
use chain_walk::Chain;
use std::alloc::{AllocError, Global};

// The index of bridge `k` of `n` in a chain of so many cells.
fn index(k: u32, n: u32, len: usize) -> usize
    requires k { k < n }
    requires some { 0 < len }
    ensures value { result ≡ k * len / n }
    ensures inside { result < len }
{
    (k as u128 * len as u128 / n as u128) as usize
}

// The place of bridge `k` of `n` on a chain.
#[tactic(auto, unfolding(crate::specs::Bridges::bridge_cell))]
fn bridge(chain: &Chain, k: u32, n: u32, pitch: i64) -> Point
    requires chain { IsChain pitch chain.now }
    requires k { k < n }
    requires pitch { IsPitch pitch }
    ensures value { result ≡ bridge_at pitch n chain.now k }
    ensures place { IsPlace result }
{
    centre(*chain.at(index(k, n, chain.len())), pitch)
}

// Adds the bridges of a chain.
fn add_bridges(
    bridges: &mut Vec<Point>,
    chain: &Chain,
    count: u32,
    pitch: i64,
) -> Result<(), AllocError>
    requires chain { IsChain pitch chain.now }
    requires pitch { IsPitch pitch }
    requires places { All IsPlace bridges.old.items }
    ensures value { OnOk result (bridges.new.items ≡ bridges.old.items ++ chain_bridges pitch count chain.now) }
    ensures places { OnOk result (All IsPlace bridges.new.items) }
{
    'bridges: for k in 0..count {
        bridges.push(bridge(chain, k, count, pitch))?;
    }
    Ok(())
}

/// The bridges of chains, chain after chain: bridge `k` of `count` on a chain stands at the centre of the
/// cell with the index `k` times the chain's length by `count`, cut down. The only error is want of memory.
pub fn place(
    alloc: Global,
    chains: &Vec<Chain>,
    count: u32,
    pitch: i64,
) -> Result<Vec<Point>, AllocError>
    requires chains { All (IsChain pitch) chains.now.items }
    requires pitch { IsPitch pitch }
    ensures value { IfOk result (λ bridges. bridges.items ≡ bridges_of pitch count chains.now.items) }
    ensures places { IfOk result (λ bridges. All IsPlace bridges.items) }
{
    let mut bridges = Vec::new(alloc);
    'chains: for chain in chains {
        add_bridges(&mut bridges, chain, count, pitch)?;
    }
    Ok(bridges)
}
