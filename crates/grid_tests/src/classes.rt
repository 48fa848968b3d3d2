// Classes of small grids, worked out by hand.
use board_base::Cell;
use cell_grid::{Frame, Plane, Workbench, is_in_frame};
use islands::{neighbour, number_classes, number_rest};
use std::alloc::Global;

// A grid of 5 columns from -2 on and 4 rows from 7 on, with these cells in Kept, by columns and rows
// counted from 0.
fn drawn(alloc: Global, cells: &[(i32, i32)]) -> Option<Workbench> {
    let frame = Frame {
        pitch: 2000,
        i0: -2,
        j0: 7,
        width: 5,
        height: 4,
    };
    let Ok(mut bench) = Workbench::reserve(alloc, frame) else {
        return None;
    };
    for (x, y) in cells {
        let c = Cell {
            i: (*x).wrapping_sub(2),
            j: (*y).wrapping_add(7),
        };
        if is_in_frame(bench.frame(), c) {
            bench.set(Plane::Kept, c, true);
        }
    }
    Some(bench)
}

// The neighbour of a cell, where both are in the frame.
fn step(bench: &Workbench, c: Cell, way: u32) -> Option<Cell> {
    let frame = bench.frame();
    if way >= 8 {
        return None;
    }
    if is_in_frame(frame, c) {
        neighbour(frame, c, way)
    } else {
        None
    }
}

// A drawing of at most five rows, from north to south; a blank one is none. A digit is the number that its
// cell must get, and a point a cell that isn't numbered.
type Drawing = [&'static [u8]; 5];

// The byte of a drawing in a column and a row, counted from the south-west corner; a point past it.
fn byte_at(drawing: Drawing, x: u16, y: u16) -> u8 {
    match drawing.get(4_usize.wrapping_sub(y as usize)) {
        Some(row) => match row.get(x as usize) {
            Some(byte) => *byte,
            None => b'.',
        },
        None => b'.',
    }
}

// How many columns and rows a drawing has.
fn sides(drawing: Drawing) -> (u16, u16) {
    let mut width = 0_u16;
    let mut height = 0_u16;
    for row in drawing.iter() {
        if !row.is_empty() {
            width = u16::try_from(row.len()).unwrap_or(0);
            height = height.wrapping_add(1);
        }
    }
    (width, height)
}

// A grid as wide and as high as a drawing. The cells with a digit are in Kept where `on`, else all others.
fn sketched(alloc: Global, drawing: Drawing, on: bool) -> Option<Workbench> {
    let (width, height) = sides(drawing);
    let frame = Frame {
        pitch: 2000,
        i0: 0,
        j0: 0,
        width: width as u32,
        height: height as u32,
    };
    let Ok(mut bench) = Workbench::reserve(alloc, frame) else {
        return None;
    };
    for y in 0..height {
        for x in 0..width {
            let c = Cell {
                i: x as i32,
                j: y as i32,
            };
            if is_in_frame(bench.frame(), c) {
                bench.set(Plane::Kept, c, (byte_at(drawing, x, y) != b'.') == on);
            }
        }
    }
    Some(bench)
}

// How many cells have another number than in the drawing; one that isn't numbered has 0.
fn differences(bench: &Workbench, drawing: Drawing) -> u32 {
    let (width, height) = sides(drawing);
    let mut count = 0_u32;
    for y in 0..height {
        for x in 0..width {
            let c = Cell {
                i: x as i32,
                j: y as i32,
            };
            let drawn = match byte_at(drawing, x, y) {
                b'.' => 0,
                digit => digit.wrapping_sub(b'0'),
            };
            if is_in_frame(bench.frame(), c) && bench.work(c) != drawn as u32 {
                count = count.wrapping_add(1);
            }
        }
    }
    count
}

#[test]
fn a_cell_has_eight_neighbours_inside(rt: HostRuntime) {
    let Some(bench) = drawn(rt.alloc(), &[]) else {
        panic!(rt; "no memory");
    };
    let middle = Cell { i: 0, j: 8 };
    let corner = Cell { i: -2, j: 7 };
    for (way, round, at_corner) in [
        (0, Some(Cell { i: 1, j: 8 }), Some(Cell { i: -1, j: 7 })),
        (1, Some(Cell { i: 1, j: 9 }), Some(Cell { i: -1, j: 8 })),
        (2, Some(Cell { i: 0, j: 9 }), Some(Cell { i: -2, j: 8 })),
        (3, Some(Cell { i: -1, j: 9 }), None),
        (4, Some(Cell { i: -1, j: 8 }), None),
        (5, Some(Cell { i: -1, j: 7 }), None),
        (6, Some(Cell { i: 0, j: 7 }), None),
        (7, Some(Cell { i: 1, j: 7 }), None),
    ] {
        assert_eq!(rt; step(&bench, middle, way), round);
        assert_eq!(rt; step(&bench, corner, way), at_corner);
    }
}

#[test]
fn classes_are_numbered_by_their_first_cells(rt: HostRuntime) {
    // Met at corners alone; apart; at the border; joined by a later row; in a ring; by long runs.
    for (last, drawing) in [
        (
            1,
            [
                b"".as_slice(),
                b"".as_slice(),
                b"".as_slice(),
                b".1.1.".as_slice(),
                b"1.1.1".as_slice(),
            ],
        ),
        (
            2,
            [
                b"".as_slice(),
                b"".as_slice(),
                b"".as_slice(),
                b"1...2".as_slice(),
                b".1.2.".as_slice(),
            ],
        ),
        (
            2,
            [
                b"".as_slice(),
                b"".as_slice(),
                b"1...2".as_slice(),
                b"1...2".as_slice(),
                b"1...2".as_slice(),
            ],
        ),
        (
            1,
            [
                b"".as_slice(),
                b"".as_slice(),
                b"".as_slice(),
                b"11111".as_slice(),
                b"1.1.1".as_slice(),
            ],
        ),
        (
            2,
            [
                b"".as_slice(),
                b"".as_slice(),
                b"".as_slice(),
                b".11...2".as_slice(),
                b"1..1..2".as_slice(),
            ],
        ),
        (
            2,
            [
                b"11111111111".as_slice(),
                b"1.........1".as_slice(),
                b"1.2222222.1".as_slice(),
                b"1.........1".as_slice(),
                b"11111111111".as_slice(),
            ],
        ),
        (
            3,
            [
                b"...3......".as_slice(),
                b"...3......".as_slice(),
                b"..........".as_slice(),
                b"111.222222".as_slice(),
                b"..1.......".as_slice(),
            ],
        ),
        (
            2,
            [
                b"".as_slice(),
                b"...........2..........................................................".as_slice(),
                b"......................................................................".as_slice(),
                b"1111111111111111111111111111111111111111111111111111111111111111111111".as_slice(),
                b"1....................................................................1".as_slice(),
            ],
        ),
    ] {
        let Some(mut bench) = sketched(rt.alloc(), drawing, true) else {
            panic!(rt; "no memory");
        };
        assert_eq!(rt; number_classes(&mut bench, Plane::Kept), last);
        assert_eq!(rt; differences(&bench, drawing), 0);

        // No cell is in the other planes.
        assert_eq!(rt; number_classes(&mut bench, Plane::Pass), 0);
    }
}

#[test]
fn the_outside_is_class_1(rt: HostRuntime) {
    // A hole; one that is open at a corner; a cell alone; nothing free; the border; two holes; a long run.
    for (last, drawing) in [
        (
            2,
            [
                b"".as_slice(),
                b"11111".as_slice(),
                b"1...1".as_slice(),
                b"1.2.1".as_slice(),
                b"1...1".as_slice(),
            ],
        ),
        (
            1,
            [
                b"".as_slice(),
                b"".as_slice(),
                b"..1".as_slice(),
                b".1.".as_slice(),
                b"...".as_slice(),
            ],
        ),
        (
            2,
            [
                b"".as_slice(),
                b"".as_slice(),
                b"...".as_slice(),
                b".2.".as_slice(),
                b"...".as_slice(),
            ],
        ),
        (
            1,
            [
                b"".as_slice(),
                b"".as_slice(),
                b"".as_slice(),
                b"...".as_slice(),
                b"...".as_slice(),
            ],
        ),
        (
            1,
            [
                b"".as_slice(),
                b"".as_slice(),
                b"".as_slice(),
                b"".as_slice(),
                b"1.1".as_slice(),
            ],
        ),
        (
            3,
            [
                b"".as_slice(),
                b".......".as_slice(),
                b".2...3.".as_slice(),
                b"..2.3..".as_slice(),
                b".......".as_slice(),
            ],
        ),
        (
            2,
            [
                b"".as_slice(),
                b"".as_slice(),
                b"......................................................................".as_slice(),
                b".22222222222222222222222222222222222222222222222222222222222222222222.".as_slice(),
                b"......................................................................".as_slice(),
            ],
        ),
    ] {
        let Some(mut bench) = sketched(rt.alloc(), drawing, false) else {
            panic!(rt; "no memory");
        };
        assert_eq!(rt; number_rest(&mut bench, Plane::Kept), last);
        assert_eq!(rt; differences(&bench, drawing), 0);
    }
}
