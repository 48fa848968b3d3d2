// Contours round one kept cell, worked out by hand.
ghost use Rattle.std.specs.Prelude.{◌≡◌, ◌<◌, ◌≤◌, ◌+◌, true};
ghost use Rattle.board_base.specs.declared.places.Cell.{Cell};
ghost use Rattle.cell_grid.specs.Cells.{is_above as is_above_of, IsOnBorder};

use board_base::{Cell, CellBox};
use cell_grid::{Frame, GridError, Plane, Workbench, cell_at};
use contours::{contour, rows};
use std::alloc::Global;
use std::test::Fail;

// Writes the clearance of a cell that isn't on the border.
fn lower(bench: &mut Workbench, x: u32, y: u32, v: u32)
    requires border { (c : Cell) → IsOnBorder (bench.old).frame c → is_above_of (bench.old).frame (bench.old).clearances 8 c ≡ true }
    requires west { 0 < x }
    requires east { x + 1 < (bench.old).frame.width }
    requires south { 0 < y }
    requires north { y + 1 < (bench.old).frame.height }
    ensures frame { (bench.new).frame ≡ (bench.old).frame }
    ensures border { (c : Cell) → IsOnBorder (bench.new).frame c → is_above_of (bench.new).frame (bench.new).clearances 8 c ≡ true }
{
    let c = cell_at(bench.frame(), x, y);
    bench.set_clearance(c, v);
}

// How far a column or row is from the middle one, squared.
fn square(x: u32) -> u32 {
    let d = x.abs_diff(3);
    d.wrapping_mul(d)
}

// A grid of 7 by 7, with the squared distances to the middle but for the border.
fn fill(bench: &mut Workbench)
    requires border { (c : Cell) → IsOnBorder (bench.old).frame c → is_above_of (bench.old).frame (bench.old).clearances 8 c ≡ true }
    requires width { (bench.old).frame.width ≡ 7 }
    requires height { (bench.old).frame.height ≡ 7 }
    ensures frame { (bench.new).frame ≡ (bench.old).frame }
    ensures border { (c : Cell) → IsOnBorder (bench.new).frame c → is_above_of (bench.new).frame (bench.new).clearances 8 c ≡ true }
{
    'rows: for y in 1..6 {
        'cells: for x in 1..6 {
            lower(bench, x, y, square(x).wrapping_add(square(y)));
        }
    }
}

// The size of the contour of the cells above `g`.
fn size_above(bench: &mut Workbench, g: u8) -> u64
    requires g { g ≤ 8 }
    requires border { (c : Cell) → IsOnBorder (bench.old).frame c → is_above_of (bench.old).frame (bench.old).clearances 8 c ≡ true }
    ensures frame { (bench.new).frame ≡ (bench.old).frame }
    ensures border { (c : Cell) → IsOnBorder (bench.new).frame c → is_above_of (bench.new).frame (bench.new).clearances 8 c ≡ true }
{
    contour(bench, g as u64)
}

// How many cells of a plane there are in a row.
fn in_row(bench: &Workbench, plane: Plane, y: u32) -> u8
    requires y { y < (bench.now).frame.height }
    requires width { (bench.now).frame.width ≡ 7 }
{
    let mut n: u8 = 0;
    for x in 0..7 {
        if bench.get(plane, cell_at(bench.frame(), x, y)) {
            n = n.wrapping_add(1);
        }
    }
    n
}

// Lets the cutter visit a cell.
fn allow(bench: &mut Workbench, x: u32, y: u32)
    requires x { x < (bench.old).frame.width }
    requires y { y < (bench.old).frame.height }
    ensures { (bench.new).frame ≡ (bench.old).frame }
{
    let c = cell_at(bench.frame(), x, y);
    bench.set(Plane::Allowed, c, true);
}

// The size of the clearing rows of a box of four by four cells.
fn cleared_size(bench: &mut Workbench, stride: u32) -> u64
    requires { 0 < stride }
    ensures { (bench.new).frame ≡ (bench.old).frame }
{
    let inner = CellBox {
        i0: -2,
        j0: 6,
        i1: 1,
        j1: 9,
    };
    rows(bench, stride, inner)
}

#[test]
fn clearing_rows_of_a_box(rt: HostRuntime) {
    let frame = Frame {
        pitch: 2000,
        i0: -3,
        j0: 5,
        width: 7,
        height: 7,
    };
    let Ok(mut bench) = Workbench::reserve(rt.alloc(), frame) else {
        panic!(rt; "no memory");
    };
    allow(&mut bench, 1, 1);
    allow(&mut bench, 4, 1);
    allow(&mut bench, 5, 1);
    allow(&mut bench, 2, 2);
    allow(&mut bench, 0, 3);
    allow(&mut bench, 3, 3);
    allow(&mut bench, 2, 4);
    allow(&mut bench, 2, 5);
    // The rows 1, 3 and, at the top, 4.
    assert_eq!(rt; cleared_size(&mut bench, 2), 4);
    assert_eq!(rt; in_row(&bench, Plane::Pass, 1), 2);
    assert_eq!(rt; in_row(&bench, Plane::Pass, 2), 0);
    assert_eq!(rt; in_row(&bench, Plane::Pass, 3), 1);
    assert_eq!(rt; in_row(&bench, Plane::Pass, 4), 1);
    assert_eq!(rt; in_row(&bench, Plane::Pass, 5), 0);
    // Each row.
    assert_eq!(rt; cleared_size(&mut bench, 1), 5);
    assert_eq!(rt; in_row(&bench, Plane::Visited, 2), 1);
    // The bottom and the top row alone.
    assert_eq!(rt; cleared_size(&mut bench, 9), 3);
    assert_eq!(rt; in_row(&bench, Plane::Pass, 3), 0);
    assert_eq!(rt; in_row(&bench, Plane::Visited, 3), 1);
}

#[test]
fn contours_round_one_cell(rt: HostRuntime) {
    let frame = Frame {
        pitch: 2000,
        i0: -3,
        j0: 5,
        width: 7,
        height: 7,
    };
    let Ok(mut bench) = Workbench::reserve(rt.alloc(), frame) else {
        panic!(rt; "no memory");
    };
    assert_eq!(rt; size_above(&mut bench, 2), 0);
    fill(&mut bench);
    // The eight cells round the middle.
    assert_eq!(rt; size_above(&mut bench, 0), 8);
    assert_eq!(rt; in_row(&bench, Plane::Pass, 2), 3);
    assert_eq!(rt; in_row(&bench, Plane::Pass, 3), 2);
    // The border of the square of 5 by 5.
    assert_eq!(rt; size_above(&mut bench, 2), 16);
    assert_eq!(rt; in_row(&bench, Plane::Pass, 0), 0);
    assert_eq!(rt; in_row(&bench, Plane::Pass, 1), 5);
    assert_eq!(rt; in_row(&bench, Plane::Pass, 2), 2);
    assert_eq!(rt; in_row(&bench, Plane::Visited, 2), 5);
    assert_eq!(rt; in_row(&bench, Plane::Visited, 3), 4);
    // Twelve cells of that square are left, and three of each side of the frame.
    assert_eq!(rt; size_above(&mut bench, 4), 24);
    assert_eq!(rt; in_row(&bench, Plane::Pass, 0), 3);
    assert_eq!(rt; in_row(&bench, Plane::Pass, 1), 4);
    assert_eq!(rt; in_row(&bench, Plane::Pass, 2), 4);
    assert_eq!(rt; in_row(&bench, Plane::Visited, 1), 5);
}

// The size of the contour round one cell alone, in a frame of several blocks of columns.
fn size_round(alloc: Global, x: u32) -> Option<u64>
    requires west { 0 < x }
    requires east { x < 39 }
{
    let frame = Frame {
        pitch: 2000,
        i0: -3,
        j0: 5,
        width: 40,
        height: 5,
    };
    let Ok(mut bench) = Workbench::reserve(alloc, frame) else {
        return None;
    };
    lower(&mut bench, x, 2, 0);
    Some(size_above(&mut bench, 0))
}

#[test]
fn contours_at_the_ends_of_blocks(rt: HostRuntime) {
    for x in 1..39 {
        assert_eq!(rt; size_round(rt.alloc(), x), Some(8), "column {x}");
    }
}
