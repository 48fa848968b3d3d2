// The grid that is timed: discs of kept cells on a square frame.
ghost use Rattle.std.specs.Prelude.{◌≡◌, ◌<◌, IsTrue};
ghost use Rattle.board_base.specs.declared.places.Cell.{Cell};
ghost use Rattle.board_base.specs.Lattice.{IsPitch, centre_of};
ghost use Rattle.board_base.specs.Places.{IsCoordinate, IsNearPlace};
ghost use Rattle.cell_grid.specs.Place.{IsFrame, IsPlaced, InFrame};
ghost use Rattle.shape_parts.specs.Parts.{IsPart};

use board_base::Point;
use cell_grid::{Frame, Plane, Workbench, cell_at};
use shape_parts::{Painted, Part, Shape};
use std::alloc::{AllocError, Global};

// The pitch of the cells, in nanometres.
const PITCH: i64 = 20_000;

// How many columns and rows the frame has, and the first of each.
const SIDE: u32 = 2048;

const FIRST: i32 = -1024;

// How many columns of discs there are, and how many rows.
const DISCS: u32 = 32;

// The width of a disc that touches the cells whose centres are at most 20 pitches from its middle, in
// nanometres: half of it, and half the diagonal of a cell, are 20 pitches.
const WIDTH: i64 = 771_714;

// How far the middles of two discs are apart, and the square of a disc's radius, in cells.
const SPACING: u32 = 64;

const RADIUS2: u32 = 400;

/// How many cells the frame has.
pub const CELLS: u128 = 4_194_304;

/// The frame: 2048 by 2048 cells of 20 micrometres, round the origin.
pub fn square() -> Frame
    ensures frame { IsFrame result }
    ensures placed { IsPlaced result }
{
    Frame {
        pitch: PITCH,
        i0: FIRST,
        j0: FIRST,
        width: SIDE,
        height: SIDE,
    }
}

/// Whether a frame is the one that is timed, or its south-western part.
pub fn is_timed_frame(frame: Frame) -> bool
    ensures pitch { IsTrue result → IsPitch frame.pitch }
    ensures centres { IsTrue result → (c : Cell) → InFrame frame c → IsNearPlace (centre_of frame.pitch c) }
{
    if frame.pitch != PITCH {
        return false;
    }
    if frame.i0 != FIRST {
        return false;
    }
    if frame.j0 != FIRST {
        return false;
    }
    if SIDE < frame.width {
        return false;
    }
    if SIDE < frame.height {
        return false;
    }
    true
}

// Whether the cell in column `x` and row `y` lies in a disc.
fn is_in_disc(x: u32, y: u32) -> bool {
    let dx = (x % SPACING).abs_diff(SPACING / 2);
    let dy = (y % SPACING).abs_diff(SPACING / 2);
    dx * dx + dy * dy <= RADIUS2
}

/// Keeps the cells of the discs.
pub fn keep_discs(bench: &mut Workbench) {
    let frame = bench.frame();
    'rows: for y in 0..frame.height {
        'cells: for x in 0..frame.width {
            bench.set(Plane::Kept, cell_at(frame, x, y), is_in_disc(x, y));
        }
    }
}

// The coordinate of the middles of the discs in column or row `k`, in nanometres.
fn disc_middle(k: u32) -> i64
    requires { k < 32 }
    ensures { IsCoordinate result }
{
    let column = (k * SPACING + SPACING / 2) as i64 + FIRST as i64;
    column * PITCH + PITCH / 2
}

// The disc in a column and a row of discs.
fn disc(column: u32, row: u32) -> Part
    requires column { column < 32 }
    requires row { row < 32 }
    ensures { IsPart result }
{
    let c = Point {
        x: disc_middle(column),
        y: disc_middle(row),
    };
    Part::Disc { c, d: WIDTH }
}

// An object of one dark disc.
fn flash(alloc: Global, column: u32, row: u32) -> Result<Painted, AllocError>
    requires column { column < 32 }
    requires row { row < 32 }
{
    let mut shape = Shape::empty(alloc);
    shape.push(disc(column, row), true)?;
    Ok(Painted { shape, dark: true })
}

/// The discs as painted objects, which keep the same cells.
pub fn discs(alloc: Global) -> Result<Vec<Painted>, AllocError> {
    let mut objects = Vec::new(alloc);
    'rows: for row in 0..DISCS {
        'columns: for column in 0..DISCS {
            objects.push(flash(alloc, column, row)?)?;
        }
    }
    Ok(objects)
}

#[cfg(test)]
mod tests {
    use super::*;

    #[test]
    fn keeps_discs_of_radius_twenty(rt: HostRuntime) {
        // The middle of the first disc, its border on both axes, and between four discs.
        let cases = [
            (32, 32, true),
            (12, 32, true),
            (11, 32, false),
            (32, 52, true),
            (32, 53, false),
            (64, 64, false),
            (96, 160, true),
        ];
        for (x, y, want) in cases {
            assert_eq!(rt; is_in_disc(x, y), want, "({x}, {y})");
        }
    }

    #[test]
    fn paints_discs_at_the_middles(rt: HostRuntime) {
        // Column 32 is 992 columns west of the origin, and column 2016 is 992 east of it.
        assert_eq!(rt; disc_middle(0), -19_830_000);
        assert_eq!(rt; disc_middle(31), 19_850_000);
        assert!(rt; is_timed_frame(square()));
    }
}
