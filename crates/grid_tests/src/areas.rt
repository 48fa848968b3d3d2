// What areas hold and where their edges cross rows, worked out by hand. Lengths are in nanometres but
// where a test says otherwise.
ghost use Rattle.std.specs.Prelude.{◌+ℤ◌, pos, int_le, cond, Some, None, IfOk};
ghost use Rattle.std.specs.List.{All};
ghost use Rattle.board_base.specs.Places.{IsPlace};

use crate::places::{micro, nano};
use board_base::Point;
use poly_area::{Motion, Poly, PolyError, row_bits};
use std::alloc::{AllocError, Global};
use std::test::Fail;

// In nanometres.
const PITCH: i64 = 200000;

// So many points at the origin.
#[tactic(auto, using(poly_area::proofs::PlaceLaws::all_same))]
fn many(alloc: Global, n: usize) -> Result<Vec<Point>, AllocError>
    ensures { IfOk result (λ v. All IsPlace v.items) }
{
    vec![in alloc; nano(0, 0); n]
}

#[test]
fn a_diamond_holds_its_middle(rt: HostRuntime) {
    let mut area = Poly::empty(rt.alloc());
    let added = area.add_loop(&[
        micro(0, 500),
        micro(500, 0),
        micro(1000, 500),
        micro(500, 1000),
    ]);
    assert_eq!(rt; added, Ok(()));
    // In micrometres. The row of the middle goes through two corners.
    for (x, want) in [
        (-100_i16, false),
        (-1, false),
        (0, true),
        (500, true),
        (999, true),
        (1000, false),
        (1100, false),
    ] {
        assert_eq!(rt; area.contains(micro(x, 500)), want, "at {x}");
    }
}

#[test]
fn edges_lead_round_each_loop(rt: HostRuntime) -> Result<(), Fail> {
    let mut area = Poly::empty(rt.alloc());
    let square = [nano(0, 0), nano(4, 0), nano(4, 4), nano(0, 4)];
    let triangle = [nano(1, 1), nano(3, 1), nano(2, 3)];
    assert_eq!(rt;
        (area.add_loop(&square), area.add_loop(&triangle)),
        (Ok(()), Ok(()))
    );

    let edges = edges_of(rt.alloc(), &area)?;
    let want = [
        ((nano(0, 0), nano(4, 0)), false),
        ((nano(4, 0), nano(4, 4)), false),
        ((nano(4, 4), nano(0, 4)), false),
        ((nano(0, 4), nano(0, 0)), true),
        ((nano(1, 1), nano(3, 1)), false),
        ((nano(3, 1), nano(2, 3)), false),
        ((nano(2, 3), nano(1, 1)), true),
    ];
    assert_eq!(rt; edges.as_slice(), want.as_slice());

    // The triangle is a hole.
    let sides = (area.contains(nano(2, 2)), area.contains(nano(0, 2)));
    assert_eq!(rt; sides, (false, true));
    for (x, y, d, want) in [
        (7_i16, 2_i16, 6_u16, true),
        (7, 2, 5, false),
        (2, 1, 0, true),
    ] {
        assert_eq!(rt;
            area.edge_near(nano(x, y), d as i64),
            want,
            "({x}, {y}) with {d}"
        );
    }
    Ok(())
}

// Where the edges cross the row y.
fn crossings(alloc: Global, area: &Poly, y: i64) -> Result<Vec<Option<i64>>, AllocError> {
    let mut all = Vec::new(alloc);
    for k in 0..area.edges() {
        all.push(area.row_toggle(k, y))?;
    }
    Ok(all)
}

#[test]
fn slanted_edges_cross_rows_between_whole_places(rt: HostRuntime) -> Result<(), Fail> {
    let alloc = rt.alloc();
    let mut area = Poly::empty(alloc);
    assert_eq!(rt;
        area.add_loop(&[nano(0, 0), nano(7, 3), nano(-7, 3)]),
        Ok(())
    );
    let other = area.mirrored(alloc)?;
    // The slanted sides cross the row y at 7 y / 3 and -7 y / 3.
    for (y, right, left) in [
        (-1, None, None),
        (0, Some(0), Some(0)),
        (1, Some(3), Some(-2)),
        (2, Some(5), Some(-4)),
        (3, None, None),
    ] {
        let here = crossings(alloc, &area, y)?;
        let there = crossings(alloc, &other, y)?;
        assert_eq!(rt; here.as_slice(), [right, None, left].as_slice(), "row {y}");
        assert_eq!(rt;
            there.as_slice(),
            [left, None, right].as_slice(),
            "row {y}, mirrored"
        );
    }
    Ok(())
}

#[test]
fn loops_of_too_few_or_too_many_points_are_refused(rt: HostRuntime) -> Result<(), Fail> {
    let mut area = Poly::empty(rt.alloc());
    assert_eq!(rt;
        area.add_loop(&[nano(0, 0), nano(4, 0), nano(4, 4)]),
        Ok(())
    );
    let none = PolyError::TooFewPoints { count: 0 };
    let two = PolyError::TooFewPoints { count: 2 };
    assert_eq!(rt; area.add_loop(&[]), Err(none));
    assert_eq!(rt; area.add_loop(&[nano(0, 0), nano(4, 0)]), Err(two));
    let points = many(rt.alloc(), 4_194_302)?;
    let all = PolyError::TooManyPoints { count: 4_194_305 };
    assert_eq!(rt; area.add_loop(&points), Err(all));
    assert_eq!(rt; (area.edges(), area.contains(nano(3, 1))), (3, true));
    Ok(())
}

// A way to the east.
#[derive(Clone, Copy)]
struct East {
    by: u32,
}

impl Motion for East {
    ghost moves = { λ s p. cond (int_le (p.x +ℤ pos s.by) (pos 500000000)) (Some (record { x = p.x +ℤ pos s.by; y = p.y })) None };

    fn moved(&self, p: Point) -> Option<Point> {
        let x = p.x + self.by as i64;
        if x <= 500_000_000 {
            Some(Point { x, y: p.y })
        } else {
            None
        }
    }
}

// The ends of the edges, and which are their loops' last.
fn edges_of(alloc: Global, area: &Poly) -> Result<Vec<((Point, Point), bool)>, AllocError> {
    let mut all = Vec::new(alloc);
    for k in 0..area.edges() {
        all.push((area.edge(k), area.loop_end(k)))?;
    }
    Ok(all)
}

#[test]
fn a_moved_area_has_its_loops_moved(rt: HostRuntime) -> Result<(), Fail> {
    let alloc = rt.alloc();
    let mut area = Poly::empty(alloc);
    let triangle = [nano(0, 0), nano(4, 0), nano(4, 4)];
    let square = [nano(1, 1), nano(3, 1), nano(3, 2), nano(1, 2)];
    assert_eq!(rt;
        (area.add_loop(&triangle), area.add_loop(&square)),
        (Ok(()), Ok(()))
    );

    let east = East { by: 10 };
    assert_eq!(rt; area.leaves(&east), false);
    let moved = match area.moved(alloc, &east)? {
        Some(moved) => moved,
        None => Poly::empty(alloc),
    };
    let want = [
        ((nano(10, 0), nano(14, 0)), false),
        ((nano(14, 0), nano(14, 4)), false),
        ((nano(14, 4), nano(10, 0)), true),
        ((nano(11, 1), nano(13, 1)), false),
        ((nano(13, 1), nano(13, 2)), false),
        ((nano(13, 2), nano(11, 2)), false),
        ((nano(11, 2), nano(11, 1)), true),
    ];
    let edges = edges_of(alloc, &moved)?;
    assert_eq!(rt; edges.as_slice(), want.as_slice());
    Ok(())
}

#[test]
fn an_area_leaves_with_any_of_its_points(rt: HostRuntime) -> Result<(), Fail> {
    let alloc = rt.alloc();
    let mut area = Poly::empty(alloc);
    assert_eq!(rt;
        area.add_loop(&[nano(0, 0), nano(1, 1), nano(0, 2)]),
        Ok(())
    );
    assert_eq!(rt;
        area.add_loop(&[nano(0, 0), nano(4, 0), nano(3, 3)]),
        Ok(())
    );
    // The second point of the second loop comes to the end of the range, and past it.
    for (by, leaves) in [(499_999_996_u32, false), (499_999_997, true)] {
        let east = East { by };
        let moved = area.moved(alloc, &east)?;
        assert_eq!(rt;
            (area.leaves(&east), moved.is_none()),
            (leaves, leaves),
            "by {by}"
        );
    }
    Ok(())
}

#[test]
fn a_frame_is_held_on_both_sides_of_its_hole(rt: HostRuntime) {
    let mut area = Poly::empty(rt.alloc());
    let outer = [
        micro(0, 0),
        micro(1400, 0),
        micro(1400, 1400),
        micro(0, 1400),
    ];
    let inner = [
        micro(500, 500),
        micro(900, 500),
        micro(900, 900),
        micro(500, 900),
    ];
    assert_eq!(rt;
        (area.add_loop(&outer), area.add_loop(&inner)),
        (Ok(()), Ok(()))
    );
    // The centres stand at 100, 300 and so on, to 1700, and the first one at -100.
    for (y, want) in [
        (
            -100_i16,
            [
                false, false, false, false, false, false, false, false, false, false,
            ],
        ),
        (
            100,
            [
                false, true, true, true, true, true, true, true, false, false,
            ],
        ),
        (
            700,
            [
                false, true, true, false, false, true, true, true, false, false,
            ],
        ),
        (
            1500,
            [
                false, false, false, false, false, false, false, false, false, false,
            ],
        ),
    ] {
        let mut marks = [true; 10];
        row_bits(&mut marks, &area, micro(-100, y), PITCH);
        assert_eq!(rt; marks, want, "row {y}");
    }
}

#[test]
fn what_stood_in_the_marks_is_written_over(rt: HostRuntime) {
    let mut area = Poly::empty(rt.alloc());
    let added = area.add_loop(&[micro(100, 0), micro(400, 300), micro(100, 600)]);
    assert_eq!(rt; added, Ok(()));
    // The slanted side crosses the row at 200, and a centre on the left side is held.
    let mut marks = [true, false, true];
    row_bits(&mut marks, &area, micro(-100, 100), PITCH);
    assert_eq!(rt; marks, [false, true, false]);
}
