// The step from tile to tile.
ghost use Rattle.std.specs.Prelude.{◌≡◌, ◌≤◌, ◌+◌, ◌-◌, ◌*◌, ◌/◌, ◌-ℤ◌, ◌≤ℤ◌, pos, neg_ℤ, unsigned_abs, max, IfSome};
ghost use Rattle.board_base.specs.Lattice.{IsPitch};
ghost use Rattle.drill_plan.specs.Limits.{IsWithinLimits};
ghost use Rattle.tile_steps.specs.Drilled.{IsOnBoardBox};
ghost use Rattle.tile_steps.specs.Steps.{columns as columns_of, rows as rows_of, cells_for as cells_for_of, drilled_columns as drilled_columns_of, drilled_rows as drilled_rows_of, drilled_in as drilled_in_of, step_of, between_holes, IsNarrow, AreNarrow, IsShortStep};

use crate::drilled_box;
use board_base::Bounds;
use cell_grid::Frame;
use drill_plan::DrillPlan;

/// The frames of what is milled of a board, as far as it is milled.
#[derive(Clone, Copy, Debug, PartialEq, Eq)]
pub struct Frames {
    pub front: Option<Frame>,
    pub back: Option<Frame>,
    pub outline: Option<Frame>,
}

/// How many cells there are from one tile to the next in a row, and from row to row.
#[derive(Clone, Copy, Debug, PartialEq, Eq)]
pub struct TileStep {
    pub east: u32,
    pub north: u32,
}

// The columns of a frame.
fn columns(frame: Option<Frame>, pitch: i64) -> u32
    requires { IfSome frame (IsNarrow pitch) }
    ensures value { result ≡ columns_of frame }
    ensures narrow { result * unsigned_abs pitch ≤ 1001000000 }
{
    match frame {
        None => 0,
        Some(frame) => frame.width,
    }
}

// Its rows.
fn rows(frame: Option<Frame>, pitch: i64) -> u32
    requires { IfSome frame (IsNarrow pitch) }
    ensures value { result ≡ rows_of frame }
    ensures narrow { result * unsigned_abs pitch ≤ 1001000000 }
{
    match frame {
        None => 0,
        Some(frame) => frame.height,
    }
}

// The way from one number to another, and what is kept free between holes.
fn way(from: i64, to: i64) -> u64
    requires from { neg_ℤ (pos 500000000) ≤ℤ from }
    requires to { to ≤ℤ pos 500000000 }
    requires order { from ≤ℤ to }
    ensures value { result ≡ unsigned_abs (to -ℤ from) + between_holes }
    ensures size { result ≤ 1002000000 }
{
    (to - from).unsigned_abs() + 2_000_000
}

// A quotient, rounded up.
fn rounded_up(way: u64, pitch: u64) -> u32
    requires way { way ≤ 1002000000 }
    requires low { 250 ≤ pitch }
    requires high { pitch ≤ 200000 }
    ensures value { result ≡ (way + pitch - 1) / pitch }
    ensures narrow { result * pitch ≤ 1100000000 }
{
    ((way + pitch - 1) / pitch) as u32
}

// As many cells as hold the way from one number to another.
#[tactic(auto, unfolding(crate::specs::Steps::cells_for))]
fn cells_for(pitch: i64, from: i64, to: i64) -> u32
    requires pitch { IsPitch pitch }
    requires from { neg_ℤ (pos 500000000) ≤ℤ from }
    requires to { to ≤ℤ pos 500000000 }
    requires order { from ≤ℤ to }
    ensures value { result ≡ cells_for_of pitch from to }
    ensures narrow { result * unsigned_abs pitch ≤ 1100000000 }
{
    rounded_up(way(from, to), pitch.unsigned_abs())
}

// As many columns as hold what is drilled.
fn drilled_columns(pitch: i64, drilled: Option<Bounds>) -> u32
    requires pitch { IsPitch pitch }
    requires drilled { IfSome drilled IsOnBoardBox }
    ensures value { result ≡ drilled_columns_of pitch drilled }
    ensures narrow { result * unsigned_abs pitch ≤ 1100000000 }
{
    match drilled {
        None => 0,
        Some(drilled) => cells_for(pitch, drilled.x0, drilled.x1),
    }
}

// As many rows.
fn drilled_rows(pitch: i64, drilled: Option<Bounds>) -> u32
    requires pitch { IsPitch pitch }
    requires drilled { IfSome drilled IsOnBoardBox }
    ensures value { result ≡ drilled_rows_of pitch drilled }
    ensures narrow { result * unsigned_abs pitch ≤ 1100000000 }
{
    match drilled {
        None => 0,
        Some(drilled) => cells_for(pitch, drilled.y0, drilled.y1),
    }
}

// The rectangle round the holes of a drill list.
fn drilled_in(drill: &Option<DrillPlan>) -> Option<Bounds>
    requires { IfSome drill.now IsWithinLimits }
    ensures value { result ≡ drilled_in_of drill.now }
    ensures placed { IfSome result IsOnBoardBox }
{
    match drill {
        None => None,
        Some(plan) => drilled_box(plan),
    }
}

// The greater of two counts, both at most so long.
fn greater(one: u32, other: u32, pitch: i64) -> u32
    requires one { one * unsigned_abs pitch ≤ 1100000000 }
    requires other { other * unsigned_abs pitch ≤ 1100000000 }
    ensures value { result ≡ max one other }
    ensures narrow { result * unsigned_abs pitch ≤ 1100000000 }
{
    if one <= other { other } else { one }
}

// How far the tiles of a row stand apart.
fn east(pitch: i64, frames: Frames, drilled: Option<Bounds>) -> u32
    requires pitch { IsPitch pitch }
    requires frames { AreNarrow pitch frames }
    requires drilled { IfSome drilled IsOnBoardBox }
    ensures value { result ≡ max 1 (max (max (columns_of frames.front) (columns_of frames.back)) (max (columns_of frames.outline) (drilled_columns_of pitch drilled))) }
    ensures narrow { result * unsigned_abs pitch ≤ 1100000000 }
{
    let sides = greater(
        columns(frames.front, pitch),
        columns(frames.back, pitch),
        pitch,
    );
    let others = greater(
        columns(frames.outline, pitch),
        drilled_columns(pitch, drilled),
        pitch,
    );
    greater(1, greater(sides, others, pitch), pitch)
}

// How far the rows of tiles stand apart.
fn north(pitch: i64, frames: Frames, drilled: Option<Bounds>) -> u32
    requires pitch { IsPitch pitch }
    requires frames { AreNarrow pitch frames }
    requires drilled { IfSome drilled IsOnBoardBox }
    ensures value { result ≡ max 1 (max (max (rows_of frames.front) (rows_of frames.back)) (max (rows_of frames.outline) (drilled_rows_of pitch drilled))) }
    ensures narrow { result * unsigned_abs pitch ≤ 1100000000 }
{
    let sides = greater(rows(frames.front, pitch), rows(frames.back, pitch), pitch);
    let others = greater(
        rows(frames.outline, pitch),
        drilled_rows(pitch, drilled),
        pitch,
    );
    greater(1, greater(sides, others, pitch), pitch)
}

/// The step from tile to tile, in cells of this pitch: in each axis the greatest of 1, of the frames' sides, and of
/// what all holes and slots take with 2 mm between those of two tiles.
#[tactic(auto, unfolding(crate::specs::Steps::step_of))]
pub fn tile_step(pitch: i64, frames: Frames, drill: &Option<DrillPlan>) -> TileStep
    requires pitch { IsPitch pitch }
    requires frames { AreNarrow pitch frames }
    requires drill { IfSome drill.now IsWithinLimits }
    ensures value { result ≡ step_of pitch frames drill.now }
    ensures short { IsShortStep pitch result }
{
    let drilled = drilled_in(drill);
    TileStep {
        east: east(pitch, frames, drilled),
        north: north(pitch, frames, drilled),
    }
}
