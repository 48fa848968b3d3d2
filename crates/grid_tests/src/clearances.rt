// Clearances on small frames, worked out by hand.
use board_base::Cell;
use cell_grid::{Frame, GridError, Plane, Workbench, cell_at, is_in_frame};
use centre_field::{allowed, clearance, plain_clearance};
use std::alloc::{AllocError, Global};

const NONE: u32 = u32::MAX;

// A grid with its first cell at (-2, 3) that keeps the listed columns and rows.
fn kept_at(
    alloc: Global,
    width: u8,
    height: u8,
    kept: &[(u8, u8)],
) -> Result<Workbench, GridError> {
    let frame = Frame {
        pitch: 2000,
        i0: -2,
        j0: 3,
        width: width as u32,
        height: height as u32,
    };
    let mut bench = Workbench::reserve(alloc, frame)?;
    for (x, y) in kept {
        let c = Cell {
            i: *x as i32 - 2,
            j: *y as i32 + 3,
        };
        if is_in_frame(bench.frame(), c) {
            bench.set(Plane::Kept, c, true);
        }
    }
    Ok(bench)
}

// The clearances in the order of rows.
fn clearances_of(alloc: Global, bench: &Workbench) -> Result<Vec<u32>, AllocError> {
    let frame = bench.frame();
    let mut numbers = Vec::new(alloc);
    for y in 0..frame.height {
        for x in 0..frame.width {
            numbers.push(bench.clearance(cell_at(frame, x, y)))?;
        }
    }
    Ok(numbers)
}

// Whether the cells of Allowed are these, in the order of rows.
fn allowed_of(alloc: Global, bench: &Workbench) -> Result<Vec<bool>, AllocError> {
    let frame = bench.frame();
    let mut tests = Vec::new(alloc);
    for y in 0..frame.height {
        for x in 0..frame.width {
            tests.push(bench.get(Plane::Allowed, cell_at(frame, x, y)))?;
        }
    }
    Ok(tests)
}

// Whether both programs find these clearances.
fn agree(
    alloc: Global,
    width: u8,
    height: u8,
    kept: &[(u8, u8)],
    expected: &[u32],
) -> Result<bool, GridError> {
    let mut bench = kept_at(alloc, width, height, kept)?;
    plain_clearance(&mut bench);
    let plain = clearances_of(alloc, &bench)?;
    clearance(&mut bench);
    let quick = clearances_of(alloc, &bench)?;
    Ok(plain.as_slice() == expected && quick.as_slice() == expected)
}

#[test]
fn both_programs_find_the_clearances(rt: HostRuntime) {
    let corners = [(0, 0), (3, 2)];
    let expected = [0, 1, 4, 4, 1, 2, 2, 1, 4, 4, 1, 0];
    assert_eq!(rt; agree(rt.alloc(), 4, 3, &corners, &expected), Ok(true));

    // The column in the middle is the nearest nowhere in the first row, and everywhere in the last.
    let beaten = [(0, 0), (2, 0), (1, 3)];
    let expected = [0, 1, 0, 1, 2, 1, 2, 1, 2, 1, 0, 1];
    assert_eq!(rt; agree(rt.alloc(), 3, 4, &beaten, &expected), Ok(true));

    let middle = [(1, 1)];
    let expected = [2, 1, 2, 1, 0, 1, 2, 1, 2];
    assert_eq!(rt; agree(rt.alloc(), 3, 3, &middle, &expected), Ok(true));
}

#[test]
fn frames_may_be_narrow_empty_or_full(rt: HostRuntime) {
    let ends = [(0, 0), (4, 0)];
    assert_eq!(rt; agree(rt.alloc(), 5, 1, &ends, &[0, 1, 4, 1, 0]), Ok(true));
    let north = [(0, 3)];
    assert_eq!(rt; agree(rt.alloc(), 1, 4, &north, &[9, 4, 1, 0]), Ok(true));
    let all = [(0, 0), (1, 0), (0, 1), (1, 1)];
    assert_eq!(rt; agree(rt.alloc(), 2, 2, &all, &[0, 0, 0, 0]), Ok(true));
    assert_eq!(rt;
        agree(rt.alloc(), 2, 2, &[], &[NONE, NONE, NONE, NONE]),
        Ok(true)
    );
    assert_eq!(rt; agree(rt.alloc(), 0, 3, &[], &[]), Ok(true));
    assert_eq!(rt; agree(rt.alloc(), 0, 0, &[], &[]), Ok(true));
}

#[test]
fn rows_are_cut_at_kept_cells(rt: HostRuntime) {
    let gaps = [(0, 0), (3, 0), (4, 0), (8, 0)];
    let expected = [0, 1, 1, 0, 0, 1, 4, 1, 0];
    assert_eq!(rt; agree(rt.alloc(), 9, 1, &gaps, &expected), Ok(true));

    // Gaps at both ends, and a cell of the other row within one.
    let open = [(1, 0), (2, 0), (5, 0), (3, 1)];
    let expected = [1, 0, 0, 1, 1, 0, 1, 2, 1, 1, 0, 1, 1, 2];
    assert_eq!(rt; agree(rt.alloc(), 7, 2, &open, &expected), Ok(true));
}

#[test]
fn centres_are_allowed_above_a_clearance(rt: HostRuntime) {
    let Ok(mut bench) = kept_at(rt.alloc(), 4, 3, &[(0, 0), (3, 2)]) else {
        panic!(rt; "no memory");
    };
    clearance(&mut bench);
    allowed(&mut bench, 2);
    let Ok(tests) = allowed_of(rt.alloc(), &bench) else {
        panic!(rt; "no memory");
    };
    // The cells at a squared distance of 4.
    let expected = [
        false, false, true, true, false, false, false, false, true, true, false, false,
    ];
    assert!(rt; tests.as_slice() == expected.as_slice());
}
