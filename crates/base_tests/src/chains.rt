ghost use Rattle.board_base.specs.Places.{IsPlace};
ghost use Rattle.plane_arcs.specs.Vectors.{IsArcPlace};

use board_base::Point;
use plane_arcs::{Arc, ArcError, arc_chain, rotate};
use std::alloc::Global;
use std::process::Abort;
use std::test::Fail;

// In nanometres; the last value of each row is the point, or none past 500 mm.
#[test]
fn points_are_turned(rt: HostRuntime) {
    for (x, y, angle, turned) in [
        (
            500_000_i64,
            0_i64,
            90_000_000_i64,
            Some((0_i64, 500_000_i64)),
        ),
        (500_000, 0, 30_000_000, Some((433_013, 250_000))),
        (3, 5, 180_000_000, Some((-3, -5))),
        (-1_000_001, 2, 45_000_000, Some((-707_109, -707_106))),
        (1_000_000, 0, -30_000_000, Some((866_025, -500_000))),
        (500_000_000, 0, 0, Some((500_000_000, 0))),
        (0, -500_000_000, 90_000_000, Some((500_000_000, 0))),
        (600_000_000, 0, 45_000_000, Some((424_264_083, 424_264_070))),
        (600_000_000, 0, 0, None),
        (500_000_001, 0, 0, None),
        (0, -500_000_001, 0, None),
        (353_553_391, 353_553_391, 45_000_000, None),
        (i64::MIN, i64::MAX, 1, None),
    ] {
        let expected = turned.map(|(x, y)| Point { x, y });
        assert_eq!(rt;
            rotate(Point { x, y }, angle),
            expected,
            "({x}, {y}) by {angle}"
        );
    }
}

fn place(rt: &impl Abort, at: (i64, i64)) -> Point
    ensures { IsPlace result }
{
    let (x, y) = at;
    assert!(rt; -500_000_000 <= x);
    assert!(rt; x <= 500_000_000);
    assert!(rt; -500_000_000 <= y);
    assert!(rt; y <= 500_000_000);
    Point { x, y }
}

fn arc_place(rt: &impl Abort, at: (i64, i64)) -> Point
    ensures { IsArcPlace result }
{
    let (x, y) = at;
    assert!(rt; -30_000_000_000_000 <= x);
    assert!(rt; x <= 30_000_000_000_000);
    assert!(rt; -30_000_000_000_000 <= y);
    assert!(rt; y <= 30_000_000_000_000);
    Point { x, y }
}

fn chain(
    rt: &impl Abort,
    alloc: Global,
    start: (i64, i64),
    end: (i64, i64),
    centre: (i64, i64),
    ccw: bool,
) -> Result<Vec<Point>, ArcError> {
    let arc = Arc {
        start: place(rt, start),
        end: arc_place(rt, end),
        centre: arc_place(rt, centre),
        ccw,
    };
    arc_chain(alloc, &arc)
}

// Each row is the index of a point of the chain and the point, in nanometres.
fn has_points(rt: &impl Abort, chain: &[Point], rows: &[(usize, i64, i64)]) {
    for (k, x, y) in rows {
        let expected = Some(&Point { x: *x, y: *y });
        assert_eq!(rt; chain.get(*k), expected, "at {k}");
    }
}

#[test]
fn arcs_are_chains(rt: HostRuntime) -> Result<(), Fail> {
    let alloc = rt.alloc();
    let round = chain(&rt, alloc, (500_000, 0), (500_000, 0), (0, 0), true)?;
    assert_eq!(rt; round.len(), 129);
    has_points(
        &rt,
        &round,
        &[
            (0, 500_000, 0),
            (16, 353_554, 353_554),
            (32, 0, 500_000),
            (64, -500_000, 0),
            (96, 0, -500_000),
            (128, 500_000, 0),
        ],
    );
    let half = chain(&rt, alloc, (500_000, 0), (-500_000, 0), (0, 0), false)?;
    assert_eq!(rt; half.len(), 65);
    has_points(
        &rt,
        &half,
        &[
            (0, 500_000, 0),
            (16, 353_554, -353_554),
            (32, 0, -500_000),
            (48, -353_554, -353_554),
            (64, -500_000, 0),
        ],
    );
    let point = chain(&rt, alloc, (7, -3), (7, -3), (7, -3), true)?;
    assert_eq!(rt; point.len(), 2);
    has_points(&rt, &point, &[(0, 7, -3), (1, 7, -3)]);
    Ok(())
}

// Quarters of circles of these radii, with the number of points.
#[test]
fn large_circles_are_finer(rt: HostRuntime) -> Result<(), Fail> {
    for (radius, points) in [
        (99_999_i64, 9_usize),
        (100_000, 33),
        (999_999, 33),
        (1_000_000, 65),
        (9_999_999, 65),
        (10_000_000, 257),
        (99_999_999, 257),
        (100_000_000, 513),
    ] {
        let quarter = chain(&rt, rt.alloc(), (radius, 0), (0, radius), (0, 0), true)?;
        assert_eq!(rt; quarter.len(), points, "of {radius}");
    }
    Ok(())
}

fn fails(
    rt: &impl Abort,
    alloc: Global,
    start: (i64, i64),
    end: (i64, i64),
    centre: (i64, i64),
    expected: ArcError,
) {
    let chain = chain(rt, alloc, start, end, centre, false);
    assert_eq!(rt; chain.err(), Some(expected));
}

#[test]
fn other_arcs_are_refused(rt: HostRuntime) -> Result<(), Fail> {
    let alloc = rt.alloc();
    let wide = ArcError::OpenArc {
        start_radius: 1_000_000,
        end_radius: 1_050_001,
    };
    fails(&rt, alloc, (1_000_000, 0), (0, 1_050_001), (0, 0), wide);
    let quarter = chain(&rt, alloc, (1_000_000, 0), (0, 1_050_000), (0, 0), true)?;
    assert_eq!(rt; quarter.len(), 65);
    let lone = ArcError::OpenArc {
        start_radius: 0,
        end_radius: 3,
    };
    fails(&rt, alloc, (0, 0), (2, 3), (0, 0), lone);
    // Clockwise the half circle passes (510,000,000, 0), counterclockwise (390,000,000, 0).
    let (north, south) = ((450_000_000, 60_000_000), (450_000_000, -60_000_000));
    let centre = (450_000_000, 0);
    fails(&rt, alloc, north, south, centre, ArcError::PastRange);
    let half = chain(&rt, alloc, north, south, centre, true)?;
    has_points(&rt, &half, &[(256, 390_000_000, 0)]);
    Ok(())
}

#[test]
fn refused_arcs_are_named(rt: HostRuntime) -> Result<(), Fail> {
    let alloc = rt.alloc();
    let wide = ArcError::OpenArc {
        start_radius: 1_000_000,
        end_radius: 1_050_001,
    };
    let text = format!(in alloc; "{wide}")?;
    assert_eq!(rt;
        text.as_str(),
        "an arc whose ends are 1000000 and 1050001 nm from its centre"
    );
    let text = format!(in alloc; "{}", ArcError::PastRange)?;
    assert_eq!(rt; text.as_str(), "an arc past the range");
    Ok(())
}
