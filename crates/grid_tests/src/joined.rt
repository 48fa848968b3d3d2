// Small frames, worked out by hand.
ghost use Rattle.std.specs.Prelude.{◌≡◌, pos, IfOk};
ghost use Rattle.board_base.specs.Places.{IsNearPlace};

use board_base::{Cell, Point};
use cell_grid::{Frame, GridError, Plane, Workbench, cell_at};
use separation_check::{LabelFault, check_labels, groups, mark_swept, relabel};
use std::alloc::{AllocError, Global};
use std::test::Fail;

// Nine columns and three rows, with column 0 and row 0 at the origin.
fn frame() -> Frame
    ensures { result ≡ record { pitch = pos 2000; i0 = pos 0; j0 = pos 0; width = 9; height = 3 } }
{
    Frame {
        pitch: 2000,
        i0: 0,
        j0: 0,
        width: 9,
        height: 3,
    }
}

// Puts a cell of the frame into Swept or takes it out, and gives it an island where that isn't 0.
fn put(bench: &mut Workbench, x: u32, y: u32, swept: bool, island: u16) {
    let frame = bench.frame();
    if x < frame.width && y < frame.height {
        let c = cell_at(frame, x, y);
        bench.set(Plane::Swept, c, swept);
        bench.set(Plane::Kept, c, island != 0);
        bench.set_label(c, island);
    }
}

// A grid by its rows from the north to the south: `#` is a swept cell, a digit a cell of that island.
fn drawn(alloc: Global, rows: [[u8; 9]; 3]) -> Result<Workbench, GridError> {
    let mut bench = Workbench::reserve(alloc, frame())?;
    for y in 0..3_u32 {
        for x in 0..9_u32 {
            let mark = rows[2 - y as usize][x as usize];
            put(
                &mut bench,
                x,
                y,
                mark == b'#',
                mark.saturating_sub(b'0') as u16,
            );
        }
    }
    Ok(bench)
}

// The islands of all groups, with a 0 after each group.
fn listed(alloc: Global, bench: &mut Workbench) -> Result<Vec<u16>, AllocError> {
    relabel(bench);
    let found = groups(alloc, bench)?;
    let mut list = Vec::new(alloc);
    for group in &found {
        for k in 0..group.len() {
            list.push(*group.at(k))?;
        }
        list.push(0)?;
    }
    Ok(list)
}

// A blank grid over the frame, after one segment.
fn swept(alloc: Global, a: Point, b: Point, d: u16) -> Result<Workbench, GridError>
    requires a { IsNearPlace a }
    requires b { IsNearPlace b }
    ensures { IfOk result (λ w. w.frame
        ≡ record { pitch = pos 2000; i0 = pos 0; j0 = pos 0; width = 9; height = 3 }) }
{
    let mut bench = Workbench::reserve(alloc, frame())?;
    mark_swept(&mut bench, a, b, d as i64);
    Ok(bench)
}

#[test]
fn groups_are_the_islands_of_one_class(rt: HostRuntime) -> Result<(), Fail> {
    let cases: [([[u8; 9]; 3], &[u16]); 6] = [
        // A corridor that isn't swept.
        ([*b".........", *b".1.....2.", *b"........."], &[1, 2, 0]),
        // A barrier across the frame: outside it a chain leads round.
        ([*b"....#....", *b".1..#..2.", *b"....#...."], &[1, 2, 0]),
        // A ring round the one island.
        ([*b"###......", *b"#1#....2.", *b"###......"], &[]),
        // A corner is enough for a chain.
        ([*b"##.......", *b"#1#....2.", *b"###......"], &[1, 2, 0]),
        // Two classes: the outer one has the first kept cell.
        (
            [*b"#####....", *b"#2.3#.4..", *b"#####...1"],
            &[1, 4, 0, 2, 3, 0],
        ),
        // One island in its class alone, and two others.
        ([*b"###......", *b"#1#.3..2.", *b"###......"], &[2, 3, 0]),
    ];
    for (rows, want) in cases {
        let Ok(mut bench) = drawn(rt.alloc(), rows) else {
            panic!(rt; "no memory");
        };
        let list = listed(rt.alloc(), &mut bench)?;
        assert_eq!(rt; list.as_slice(), want);
    }
    Ok(())
}

#[test]
fn a_label_of_another_class_is_a_fault(rt: HostRuntime) {
    let Ok(mut bench) = drawn(rt.alloc(), [*b"#####....", *b"#...#....", *b"#####...."]) else {
        panic!(rt; "no memory");
    };
    relabel(&mut bench);
    assert!(rt; check_labels(&bench).is_ok());
    // The cell in column 2 is inside the ring, that in column 8 on the border.
    for (x, y, cell, neighbour) in [
        (2_u16, 1_u16, Cell { i: 1, j: 1 }, Cell { i: 2, j: 1 }),
        (8, 2, Cell { i: 7, j: 1 }, Cell { i: 8, j: 2 }),
    ] {
        relabel(&mut bench);
        let frame = bench.frame();
        if (x as u32) < frame.width && (y as u32) < frame.height {
            bench.set_work(cell_at(frame, x as u32, y as u32), 9);
        }
        assert_eq!(rt; check_labels(&bench), Err(LabelFault { cell, neighbour }));
    }
}

#[test]
fn a_segment_sweeps_the_cells_near_it(rt: HostRuntime) {
    // From the centre of the cell (0, 0) to that of (2, 0), one pitch wide to each side; the rows are
    // drawn from the south to the north.
    let (a, b) = (Point { x: 1000, y: 1000 }, Point { x: 5000, y: 1000 });
    for (d, rows) in [
        (4000_u16, [*b"####.....", *b"###......", *b"........."]),
        (3999, [*b"###......", *b".........", *b"........."]),
    ] {
        let Ok(bench) = swept(rt.alloc(), a, b, d) else {
            panic!(rt; "no memory");
        };
        for y in 0..3_u32 {
            for x in 0..9_u32 {
                let c = cell_at(frame(), x, y);
                let want = rows[y as usize][x as usize] == b'#';
                assert_eq!(rt; bench.get(Plane::Swept, c), want, "({x}, {y}) with {d}");
            }
        }
    }
}
