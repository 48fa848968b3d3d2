// The walks along the components of a plane.
ghost use Rattle.std.specs.Prelude.{◌≡◌, ◌<◌, ◌≤◌, ◌+◌, ◌-◌, ◌++◌, ◌∷◌, [], ℕ, None, take, length, slice_set, slice_index_or, IfOk, IfSome, OnOk};
ghost use Rattle.board_base.specs.declared.places.Cell.{Cell};
ghost use Rattle.cell_grid.specs.Place.{IsFrame, InFrame, place_of, cells_of};
ghost use Rattle.cell_grid.specs.Cells.{in_plane};
ghost use Rattle.islands.specs.Floods.{ChangesNumbers};
ghost use Rattle.chain_walk.specs.Walk.{entry, IsWalk, IsShort, AreWalks, OneWalk};
ghost use Rattle.chain_walk.specs.Marks.{ChangesWorks, IsFirstOpen, AreClosed, IsStartable, IsWalked};
ghost use Rattle.chain_walk.specs.Runs.{WalkLaw};

use crate::Chain;
use board_base::{Cell, Items};
use cell_grid::{Frame, Plane, Workbench, cell_at};
use islands::{neighbour, number_classes};
use std::alloc::{AllocError, Global};

// The first neighbour of a cell of the frame that is open.
fn first_open(bench: &Workbench, frame: Frame, at: Cell) -> Option<Cell>
    requires frame { frame ≡ bench.now.frame }
    requires valid { IsFrame frame }
    requires at { InFrame frame at }
    ensures some { IfSome result (IsFirstOpen frame bench.now.works at) }
    ensures none { result ≡ None → AreClosed frame bench.now.works at 8 }
{
    'ways: for way in 0..8 {
        if let Some(b) = neighbour(frame, at, way) {
            if bench.work(b) != 0 {
                return Some(b);
            }
        }
    }
    None
}

// Closes a cell, and goes on to it.
fn enter(
    bench: &mut Workbench,
    list: &mut Vec<Cell>,
    back: &mut Vec<Cell>,
    b: Cell,
) -> Result<(), AllocError>
    requires { InFrame bench.old.frame b }
    ensures grid { bench.new ≡ record bench.old { works = slice_set bench.old.works (place_of bench.old.frame b) 0 } }
    ensures list { OnOk result (list.new.items ≡ list.old.items ++ b ∷ []) }
    ensures back { OnOk result (back.new.items ≡ back.old.items ++ b ∷ []) }
{
    bench.set_work(b, 0);
    list.push(b)?;
    back.push(b)?;
    Ok(())
}

// Steps back to the cell from which the last cell was entered.
fn step_back(list: &mut Vec<Cell>, back: &mut Vec<Cell>) -> Result<Cell, AllocError>
    requires { 2 ≤ length back.old.items }
    ensures back { OnOk result (back.new.items ≡ take (length back.old.items - 1) back.old.items) }
    ensures value { IfOk result (λ at. at ≡ entry back.old.items (length back.old.items - 2)) }
    ensures list { IfOk result (λ at. list.new.items ≡ list.old.items ++ at ∷ []) }
{
    let at = back[back.len() - 2];
    back.pop();
    list.push(at)?;
    Ok(at)
}

// The walk of the component of a cell, which closes the component's cells.
fn walk(alloc: Global, bench: &mut Workbench, start: Cell) -> Result<Chain, AllocError>
    requires { IsStartable (in_plane bench.old.frame bench.old.pass) bench.old.frame bench.old.works start }
    ensures rest { ChangesWorks bench.old bench.new }
    ensures walk { IfOk result (IsWalk (in_plane bench.old.frame bench.old.pass)) }
    ensures short { IfOk result (IsShort (in_plane bench.old.frame bench.old.pass)) }
    ensures starts { IfOk result (λ v. entry v 0 ≡ start) }
    ensures walked { OnOk result (IsWalked (in_plane bench.old.frame bench.old.pass) bench.old.frame bench.old.works (bench.new).works start) }
{
    let frame = bench.frame();
    let mut list = Vec::new(alloc);
    let mut back = Vec::new(alloc);
    enter(bench, &mut list, &mut back, start)?;
    let mut at = start;
    let mut last = 1;
    let mut more = true;
    'steps: while more {
        match first_open(bench, frame, at) {
            Some(b) => {
                enter(bench, &mut list, &mut back, b)?;
                at = b;
                last = list.len();
            }
            None => {
                if back.len() > 1 {
                    at = step_back(&mut list, &mut back)?;
                } else {
                    more = false;
                }
            }
        }
    }
    list.truncate(last);
    Ok(Items::of(list))
}

/// The walk of each component of Pass, in the order of rows of their first cells. It goes to the first
/// neighbour that is new, in the order E, NE, N, NW, W, SW, S, SE, and back where there is none. The working
/// labels and the queue are used, also where memory is wanting.
///
/// # Errors
///
/// Want of memory.
pub fn chains(alloc: Global, bench: &mut Workbench) -> Result<Vec<Chain>, AllocError>
    ensures rest { ChangesNumbers bench.old bench.new }
    ensures walks { IfOk result (λ v. AreWalks (in_plane bench.old.frame bench.old.pass) v.items) }
{
    number_classes(bench, Plane::Pass);
    let frame = bench.frame();
    let mut chains = Vec::new(alloc);
    'rows: for y in 0..frame.height {
        'cells: for x in 0..frame.width {
            let c = cell_at(frame, x, y);
            if bench.work(c) != 0 {
                chains.push(walk(alloc, bench, c)?)?;
            }
        }
    }
    Ok(chains)
}

/// A component has one walk: two lists that are its walk are one list.
pub fn one_walk_law()
    ensures { OneWalk }
{}

/// A walk goes from neighbour to neighbour, over cells of its component.
pub fn walk_law()
    ensures { WalkLaw }
{}
