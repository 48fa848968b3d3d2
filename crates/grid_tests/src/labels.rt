// Islands, counted by hand.
use board_base::Cell;
use cell_grid::{Frame, Plane, Workbench, is_in_frame};
use islands::{TooManyIslands, label};
use std::alloc::Global;

// A grid with a kept cell at every second column and row: each is an island of its own.
fn dotted(alloc: Global, width: u16, height: u16) -> Option<Workbench> {
    let frame = Frame {
        pitch: 2000,
        i0: 0,
        j0: 0,
        width: width as u32,
        height: height as u32,
    };
    let Ok(mut bench) = Workbench::reserve(alloc, frame) else {
        return None;
    };
    for j in 0..512_u16 {
        for i in 0..512_u16 {
            let c = Cell {
                i: i as i32 * 2,
                j: j as i32 * 2,
            };
            if is_in_frame(bench.frame(), c) {
                bench.set(Plane::Kept, c, true);
            }
        }
    }
    Some(bench)
}

// The label of a cell, or 99 outside the frame.
fn label_at(bench: &Workbench, c: Cell) -> u16 {
    if is_in_frame(bench.frame(), c) {
        bench.label(c)
    } else {
        99
    }
}

#[test]
fn islands_are_numbered_row_by_row(rt: HostRuntime) {
    let Some(mut bench) = dotted(rt.alloc(), 5, 3) else {
        panic!(rt; "no memory");
    };
    assert_eq!(rt; label(&mut bench), Ok(6));
    for (i, j, expected) in [
        (0, 0, 1),
        (2, 0, 2),
        (4, 0, 3),
        (0, 2, 4),
        (4, 2, 6),
        (1, 1, 0),
    ] {
        assert_eq!(rt; label_at(&bench, Cell { i, j }), expected);
    }
}

#[test]
fn islands_that_meet_at_a_corner_are_one(rt: HostRuntime) {
    let Some(mut bench) = dotted(rt.alloc(), 5, 3) else {
        panic!(rt; "no memory");
    };
    let between = Cell { i: 1, j: 1 };
    if is_in_frame(bench.frame(), between) {
        bench.set(Plane::Kept, between, true);
    }
    assert_eq!(rt; label(&mut bench), Ok(3));
    assert_eq!(rt; label_at(&bench, Cell { i: 2, j: 2 }), 1);
    assert_eq!(rt; label_at(&bench, Cell { i: 4, j: 2 }), 3);
}

#[test]
fn more_than_65535_islands_are_refused(rt: HostRuntime) {
    // 255 by 256 islands, and 256 by 256.
    for (width, expected, last) in [(510, Ok(65_280), 65_280), (512, Err(TooManyIslands), 0)] {
        let Some(mut bench) = dotted(rt.alloc(), width, 512) else {
            panic!(rt; "no memory");
        };
        assert_eq!(rt; label(&mut bench), expected);
        assert_eq!(rt; label_at(&bench, Cell { i: 508, j: 510 }), last);
    }
}
