// The corners of a walk.
ghost use Rattle.std.specs.Prelude.{◌≡◌, ◌<◌, ◌≤◌, ◌+◌, ◌++◌, ◌∷◌, [], ◌-ℤ◌, cond, map, length, IfOk, OnOk};
ghost use Rattle.std.specs.Ordering.{int_eq};
ghost use Rattle.board_base.specs.Lattice.{IsPitch, centre_of};
ghost use Rattle.chain_walk.specs.Corners.{goes_straight as goes_straight_of, corners_of, IsTrace};
ghost use Rattle.chain_walk.specs.Runs.{CornerLaw, TurnLaw};

use crate::Chain;
use board_base::{Cell, Point, centre};
use std::alloc::{AllocError, Global};

// From one index to another.
fn way(from: i32, to: i32) -> i64
    ensures { result ≡ to -ℤ from }
{
    to as i64 - from as i64
}

// Whether two ways are the same.
fn is_same(a: i64, b: i64) -> bool
    ensures { result ≡ int_eq a b }
{
    a == b
}

// Whether the way from b to c is that from a to b, along one axis.
fn keeps_way(a: i32, b: i32, c: i32) -> bool
    ensures { result ≡ int_eq (b -ℤ a) (c -ℤ b) }
{
    is_same(way(a, b), way(b, c))
}

// Whether the step from b to c has the direction of the step from a to b.
#[tactic(auto, unfolding(crate::specs::Corners::goes_straight))]
fn goes_straight(a: Cell, b: Cell, c: Cell) -> bool
    ensures { result ≡ goes_straight_of a b c }
{
    keeps_way(a.i, b.i, c.i) && keeps_way(a.j, b.j, c.j)
}

// Adds the centre of a cell.
fn add(corners: &mut Vec<Point>, c: Cell, pitch: i64) -> Result<(), AllocError>
    requires { IsPitch pitch }
    ensures { OnOk result (corners.new.items ≡ corners.old.items ++ centre_of pitch c ∷ []) }
{
    corners.push(centre(c, pitch))?;
    Ok(())
}

// Adds the centre of b where the direction changes there.
fn turn(corners: &mut Vec<Point>, a: Cell, b: Cell, c: Cell, pitch: i64) -> Result<(), AllocError>
    requires { IsPitch pitch }
    ensures { OnOk result (corners.new.items ≡ corners.old.items ++ cond (goes_straight_of a b c) [] (centre_of pitch b ∷ [])) }
{
    if !goes_straight(a, b, c) {
        add(corners, b, pitch)?;
    }
    Ok(())
}

/// The corners of a walk: the centres of its first cell, of each cell where the direction changes, and of
/// its last; for a walk of one cell its centre twice. The pitch and the places are in nanometres.
///
/// # Errors
///
/// Want of memory.
pub fn merge_runs(alloc: Global, chain: &Chain, pitch: i64) -> Result<Vec<Point>, AllocError>
    requires pitch { IsPitch pitch }
    requires trace { IsTrace pitch chain.now }
    ensures { IfOk result (λ v. v.items ≡ map (centre_of pitch) (corners_of chain.now)) }
{
    let mut corners = Vec::new(alloc);
    let mut a = *chain.at(0);
    add(&mut corners, a, pitch)?;
    if chain.len() == 1 {
        add(&mut corners, a, pitch)?;
        return Ok(corners);
    }
    let mut b = *chain.at(1);
    'rest: for k in 2..chain.len() {
        let c = *chain.at(k);
        turn(&mut corners, a, b, c, pitch)?;
        a = b;
        b = c;
    }
    add(&mut corners, b, pitch)?;
    Ok(corners)
}

/// The moves between the corners go through cells of the walk alone, and each cell of the walk lies on one.
pub fn corner_law()
    ensures { CornerLaw }
{}

/// No two successive moves between the corners have one direction.
pub fn turn_law()
    ensures { TurnLaw }
{}
