// Which points and cells are near a segment, worked out by hand.
use crate::places::nano;
use board_base::{CellBox, Point};
use plane_geom::{near, reach};

#[test]
fn tells_what_is_near(rt: HostRuntime) {
    let (a, b) = (nano(0, 0), nano(30, 40));
    // At distance 5 before a, beside a and past b; at 10 beside the middle; and on the segment.
    let cases: [(i16, i16, u16, bool); 11] = [
        (-3, -4, 9, false),
        (-3, -4, 10, true),
        (-3, -4, 11, true),
        (-4, 3, 9, false),
        (-4, 3, 10, true),
        (7, 26, 19, false),
        (7, 26, 20, true),
        (7, 26, 21, true),
        (33, 44, 9, false),
        (33, 44, 10, true),
        (15, 20, 0, true),
    ];
    for (x, y, d, want) in cases {
        assert_eq!(rt;
            near(nano(x, y), a, b, d as i64),
            want,
            "({x}, {y}) with {d}"
        );
    }
    // A segment of one point.
    for (d, want) in [(9_u16, false), (10, true), (11, true)] {
        assert_eq!(rt; near(nano(3, -4), a, a, d as i64), want, "a point with {d}");
    }
}

#[test]
fn finds_the_cells_round_a_segment(rt: HostRuntime) {
    let (a, b) = (nano(0, 0), Point { x: 1000000, y: 0 });
    // The middles are 100000 past the multiples of 200000.
    for (d, i0, j0, i1, j1) in [
        (400000_u32, -1, -1, 5, 0),
        (200000, -1, -1, 5, 0),
        (199999, 0, 0, 4, -1),
    ] {
        let want = CellBox { i0, j0, i1, j1 };
        assert_eq!(rt; reach(a, b, d as i64, 200000), want, "with {d}");
    }
}
