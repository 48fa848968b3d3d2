// Frames and grids, worked out by hand.
ghost use Rattle.std.specs.Prelude.{◌≡◌, pos, negsuc};

use board_base::{Bounds, Cell};
use cell_grid::{Frame, GridError, Plane, Workbench, cell_at, frame_of, is_in_frame};
use std::alloc::Global;

// Why there is no grid of these sides, where there is none.
fn refusal(alloc: Global, width: u16, height: u16) -> Option<GridError> {
    let frame = Frame {
        pitch: 2000,
        i0: 0,
        j0: 0,
        width: width as u32,
        height: height as u32,
    };
    match Workbench::reserve(alloc, frame) {
        Ok(_) => None,
        Err(fault) => Some(fault),
    }
}

#[test]
fn grids_that_are_too_large_are_refused(rt: HostRuntime) {
    for (width, height, expected) in [
        (4, 4, None),
        (8192, 8192, None),
        (
            8192,
            8193,
            Some(GridError::TooManyCells { cells: 67_117_056 }),
        ),
        (32_769, 1, Some(GridError::TooWide { side: 32_769 })),
        (1, 32_770, Some(GridError::TooWide { side: 32_770 })),
        (32_769, 32_770, Some(GridError::TooWide { side: 32_769 })),
    ] {
        assert_eq!(rt; refusal(rt.alloc(), width, height), expected);
    }
}

// Three columns from -3 on, and two rows from 5 on.
fn small() -> Frame
    ensures { result ≡ record { pitch = pos 2000; i0 = negsuc 2; j0 = pos 5; width = 3; height = 2 } }
{
    Frame {
        pitch: 2000,
        i0: -3,
        j0: 5,
        width: 3,
        height: 2,
    }
}

#[test]
fn a_grid_keeps_what_is_written(rt: HostRuntime) {
    let frame = small();
    let Ok(mut bench) = Workbench::reserve(rt.alloc(), frame) else {
        panic!(rt; "no memory");
    };
    let c = cell_at(frame, 2, 1);
    assert_eq!(rt; c, Cell { i: -1, j: 6 });
    assert_eq!(rt; bench.clearance(c), u32::MAX);

    bench.set(Plane::Pass, c, true);
    bench.set_label(c, 7);
    bench.set_clearance(c, 8);
    bench.set_work(c, 9);
    bench.set_scratch(447, 10);
    bench.queue_put(c);
    assert!(rt; bench.get(Plane::Pass, c) && !bench.get(Plane::Visited, c));
    assert_eq!(rt;
        (bench.label(c), bench.clearance(c), bench.work(c)),
        (7, 8, 9)
    );
    assert_eq!(rt; (bench.scratch(447), bench.scratch(446)), (10, 0));
    assert_eq!(rt; bench.queue_take(), Some(c));
    bench.queue_clear();
    assert_eq!(rt; bench.queue_take(), None);
    assert_eq!(rt; bench.frame(), frame);
    assert!(rt; is_in_frame(frame, c) && !is_in_frame(frame, Cell { i: 0, j: 6 }));
}

#[test]
fn rows_of_bits_are_lent_once(rt: HostRuntime) {
    let Ok(mut bench) = Workbench::reserve(rt.alloc(), small()) else {
        panic!(rt; "no memory");
    };
    let Some(rows) = bench.take_rows() else {
        panic!(rt; "no rows");
    };
    assert_eq!(rt; rows.near.as_slice(), [false; 3].as_slice());
    assert!(rt; bench.take_rows().is_none());
    bench.give_rows(rows);
    assert!(rt; bench.take_rows().is_some());
}

#[test]
fn planes_are_listed_counted_and_cleared(rt: HostRuntime) {
    let frame = small();
    let Ok(mut bench) = Workbench::reserve(rt.alloc(), frame) else {
        panic!(rt; "no memory");
    };
    let (first, last) = (cell_at(frame, 1, 0), cell_at(frame, 0, 1));
    bench.set(Plane::Pass, last, true);
    bench.set(Plane::Pass, first, true);
    bench.set(Plane::Kept, last, true);
    let Ok(cells) = bench.list(rt.alloc(), Plane::Pass) else {
        panic!(rt; "no memory");
    };
    assert_eq!(rt; cells.as_slice(), [first, last].as_slice());
    assert_eq!(rt; bench.count(Plane::Pass), 2);
    bench.clear(Plane::Pass);
    assert_eq!(rt;
        (bench.count(Plane::Pass), bench.count(Plane::Kept)),
        (0, 1)
    );
}

#[test]
fn frames_reach_round_a_rectangle(rt: HostRuntime) {
    // Two discs of 0.1 mm at 0.1 and 1.3 mm: the columns from 0 to 6 and the row 0.
    let discs = Bounds {
        x0: 50_000,
        y0: 50_000,
        x1: 1_350_000,
        y1: 150_000,
    };
    let round = Frame {
        pitch: 200_000,
        i0: -3,
        j0: -3,
        width: 13,
        height: 7,
    };
    assert_eq!(rt; frame_of(Some(discs), 200_000, 3), Ok(round));

    let nothing = Frame {
        pitch: 2000,
        i0: 0,
        j0: 0,
        width: 0,
        height: 0,
    };
    assert_eq!(rt; frame_of(None, 2000, 3), Ok(nothing));
}

#[test]
fn frames_past_the_reach_are_refused(rt: HostRuntime) {
    // The column 3000 is the last.
    let outside = Bounds {
        x0: 400_000_000,
        y0: 0,
        x1: 600_000_000,
        y1: 0,
    };
    let past = GridError::PastReach { value: 600_100_000 };
    assert_eq!(rt; frame_of(Some(outside), 200_000, 0), Err(past));

    // The columns from -25001 to 25000.
    let long = Bounds {
        x0: -50_000_000,
        y0: 0,
        x1: 50_000_000,
        y1: 0,
    };
    assert_eq!(rt;
        frame_of(Some(long), 2000, 0),
        Err(GridError::TooWide { side: 50_002 })
    );
}
