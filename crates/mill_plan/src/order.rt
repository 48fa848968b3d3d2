// The walks of a plane, in the order of a program.
ghost use Rattle.std.specs.Prelude.{◌≡◌, ◌<◌, ◌≤◌, [], length, map, slice_set, slice_index_or, IfOk};
ghost use Rattle.std.specs.List.{All};
ghost use Rattle.board_base.specs.Lattice.{IsPitch, centre_of};
ghost use Rattle.cell_grid.specs.Cells.{in_plane};
ghost use Rattle.chain_walk.specs.Walk.{entry};
ghost use Rattle.chain_walk.specs.Corners.{IsTrace};
ghost use Rattle.islands.specs.Floods.{ChangesNumbers};
ghost use Rattle.path_order.specs.Orders.{ArePlaces, IsOrder};
ghost use Rattle.mill_plan.specs.Cuts.{starts_of, AreOrdered};
ghost use Rattle.mill_plan.specs.Passes.{HasPlaces, AreOrderedWalks};

use board_base::{Items, Point, centre};
use cell_grid::Workbench;
use chain_walk::{Chain, chains, walk_law};
use path_order::nearest_order;
use std::alloc::{AllocError, Global};
use std::mem;

// Where a walk begins.
fn start(walk: &Chain, pitch: i64) -> Point
    requires pitch { IsPitch pitch }
    requires trace { IsTrace pitch walk.now }
    ensures { result ≡ centre_of pitch (entry walk.now 0) }
{
    centre(*walk.at(0), pitch)
}

// Where the walks begin.
fn starts(alloc: Global, rows: &Vec<Chain>, pitch: i64) -> Result<Vec<Point>, AllocError>
    requires pitch { IsPitch pitch }
    requires traces { All (IsTrace pitch) rows.now.items }
    requires few { length rows.now.items ≤ 4096 }
    ensures starts { IfOk result (λ v. v.items ≡ starts_of pitch rows.now.items) }
    ensures places { IfOk result (λ v. ArePlaces v.items) }
{
    let mut starts = Vec::new(alloc);
    'rows: for walk in rows {
        starts.push(start(walk, pitch))?;
    }
    Ok(starts)
}

// Takes a walk out, and leaves an empty list in its place.
fn taken(alloc: Global, rows: &mut Vec<Chain>, k: usize) -> Chain
    requires { k < length rows.old.items }
    ensures walk { result ≡ slice_index_or rows.old.items k [] }
    ensures rest { rows.new.items ≡ slice_set rows.old.items k [] }
{
    mem::replace(&mut rows[k], Items::empty(alloc))
}

// The walks in this order.
fn in_order(alloc: Global, rows: Vec<Chain>, order: &Vec<u32>) -> Result<Vec<Chain>, AllocError>
    requires { IsOrder (length rows.items) order.now.items }
    ensures { IfOk result (λ v. v.items ≡ map (λ n. slice_index_or rows.items n []) order.now.items) }
{
    let mut left = rows;
    let mut walks = Vec::new(alloc);
    'order: for k in order {
        walks.push(taken(alloc, &mut left, *k as usize))?;
    }
    Ok(walks)
}

// The walks in the order of a program: the nearest first where they are at most 4,096.
fn ordered(alloc: Global, rows: Vec<Chain>, pitch: i64) -> Result<Vec<Chain>, AllocError>
    requires pitch { IsPitch pitch }
    requires traces { All (IsTrace pitch) rows.items }
    ensures { IfOk result (λ v. AreOrdered pitch rows.items v.items) }
{
    if 4096 < rows.len() {
        return Ok(rows);
    }
    let starts = starts(alloc, &rows, pitch)?;
    let order = nearest_order(alloc, &starts, Point { x: 0, y: 0 })?;
    let walks = in_order(alloc, rows, &order)?;
    Ok(walks)
}

/// The walks of the components of Pass, in the order of a program: the nearest first where they are at most
/// 4,096, and in the order of rows where they are more. The working labels and the queue are used, also where
/// memory is wanting.
///
/// # Errors
///
/// Want of memory.
pub fn ordered_walks(
    alloc: Global,
    bench: &mut Workbench,
    pitch: i64,
) -> Result<Vec<Chain>, AllocError>
    requires pitch { IsPitch pitch }
    requires places { HasPlaces pitch bench.old }
    ensures rest { ChangesNumbers bench.old bench.new }
    ensures walks { IfOk result (λ v. AreOrderedWalks pitch (in_plane (bench.old).frame (bench.old).pass) v.items) }
{
    walk_law();
    let rows = chains(alloc, bench)?;
    let walks = ordered(alloc, rows, pitch)?;
    Ok(walks)
}
