// Runs of programs: the moves that they make, what watchers find of them, and what stops them.
ghost use Rattle.std.specs.Prelude.{◌≡◌, ◌<◌, ◌^◌, vec_len, None};
ghost use Rattle.std.specs.List.{All};
ghost use Rattle.move_watch.specs.Watch.{IsFresh};
ghost use Rattle.rs274_sim.specs.Few.{HasFewSettings};

use board_base::{Move, MoveKind, Pos};
use move_watch::{
    DepthFloor, FeedCap, Finding, Findings, Limits, Patrol, ToolList, TravelBox, Watcher, breaks,
};
use ngc_reader::read_program;
use rs274_sim::{Line, RunFault, SimFault, moves, run};
use std::alloc::Global;
use std::process::Abort;
use std::test::Fail;

/// The program of two round pads, 0.8 mm wide, with their contours as cuts.
const TWO_PADS: &[u8] = b"G17 G21 G61 G90 G94
G0 Z10.000000
M5
T1 M6
S10000 M3
G4 P1.000000
G0 Z2.000000
G0 X-0.300000 Y-0.300000
G1 Z-0.100000 F100.000000
G1 X0.500000 Y-0.300000 F200.000000
G1 X0.500000 Y0.500000
G1 X-0.300000 Y0.500000
G1 X-0.300000 Y-0.100000
G0 Z2.000000
G0 X0.900000 Y-0.300000
G1 Z-0.100000 F100.000000
G1 X1.700000 Y-0.300000 F200.000000
G1 X1.700000 Y0.500000
G1 X0.900000 Y0.500000
G1 X0.900000 Y-0.100000
G0 Z2.000000
G0 Z10.000000
M5
M2
";

/// Four probes, a centimetre from one another, and one stroke over their surface.
const FOUR_PROBES: &[u8] = b"F50
G0 Z2
G0 X0 Y0
G38.2 Z-0.5
#101=#5063
G0 Z2
G0 X10 Y0
G38.2 Z-0.5
#102=#5063
G0 Z2
G0 X0 Y10
G38.2 Z-0.5
#103=#5063
G0 Z2
G0 X10 Y10
G38.2 Z-0.5
#104=#5063
G0 Z2
M3
G1 X2.5 Y5 Z[-0.1+0.375*#101+0.125*#102+0.375*#103+0.125*#104]
M2
";

// A watcher of the test's own.
#[derive(Drop)]
struct OwnFloor {
    z: i64,
    count: u64,
    first: Option<u64>,
}

impl OwnFloor {
    fn new(z: i64) -> OwnFloor
        ensures { result ≡ record { z = z; count = 0; first = None } }
    {
        OwnFloor {
            z,
            count: 0,
            first: None,
        }
    }
}

impl Watcher for OwnFloor {
    ghost use Rattle.move_watch.specs.declared.bounds.Limits.TheVariants.{Floor as floor};

    ghost watch = { λ w. record { limits = floor w.z; seen = w.count; first = w.first } };

    fn see(&mut self, m: &Move) {
        if self.first.is_none() && breaks(&Limits::Floor { z: self.z }, m) {
            self.first = Some(self.count);
        }
        self.count = self.count.saturating_add(1);
    }

    fn bounds(&self) -> Limits {
        Limits::Floor { z: self.z }
    }

    fn count(&self) -> u64 {
        self.count
    }

    fn first(&self) -> Option<u64> {
        self.first
    }
}

// A millimetre, in the units of a position.
const MILLIMETRE: i64 = 1_000_000_000_000;

#[test]
fn two_pads_have_moves(rt: HostRuntime) -> Result<(), Fail> {
    let alloc = rt.alloc();
    let lines = read_program(alloc, TWO_PADS)?;
    let made = moves(alloc, &lines, &Vec::new(alloc))?;
    assert_eq!(rt; made.len(), 17);
    let tenth = MILLIMETRE / 10;
    let plunge = Move {
        from: Pos {
            x: -3 * tenth,
            y: -3 * tenth,
            z: 20 * tenth,
        },
        to: Pos {
            x: -3 * tenth,
            y: -3 * tenth,
            z: -tenth,
        },
        kind: MoveKind::Feed,
        turning: true,
        speed: 10_000,
        feed: 100_000,
        tool: 1,
        line: 9,
    };
    assert_eq!(rt; made[3], plunge);
    Ok(())
}

// What a run tells of itself and what one watcher finds of it.
fn found(
    alloc: Global,
    lines: &Vec<Line>,
    watcher: Box<dyn Watcher>,
) -> Result<(u64, Findings), Fail>
    requires settings { All HasFewSettings (lines.now).items }
    requires few { vec_len lines.now < 2 ^ 32 }
    requires fresh { IsFresh (watch watcher) }
{
    let mut watchers = Vec::new(alloc);
    watchers.push(watcher)?;
    let mut patrol = Patrol::new(alloc, watchers)?;
    let count = run(alloc, lines, &Vec::new(alloc), &mut patrol)?;
    Ok((count, patrol.close()))
}

// A run of 17 moves, of which the watcher saw so many, up to the first one that it objects to.
fn finds(rt: &impl Abort, found: &(u64, Findings), seen: u64, first: Option<u64>) {
    assert_eq!(rt; found.0, 17);
    assert_eq!(rt; found.1.len(), 1);
    let finding = Finding {
        watcher: 0,
        seen,
        first,
    };
    assert_eq!(rt; found.1.inner()[0], finding);
}

#[test]
fn watchers_find_the_first_move(rt: HostRuntime) -> Result<(), Fail> {
    let alloc = rt.alloc();
    let lines = read_program(alloc, TWO_PADS)?;
    let tenth = MILLIMETRE / 10;
    let floor = found(alloc, &lines, Box::new(alloc, DepthFloor::new(-tenth / 2))?)?;
    finds(&rt, &floor, 4, Some(3));
    let own = found(alloc, &lines, Box::new(alloc, OwnFloor::new(-tenth / 2))?)?;
    finds(&rt, &own, 4, Some(3));
    let deep = found(alloc, &lines, Box::new(alloc, DepthFloor::new(-tenth))?)?;
    finds(&rt, &deep, 17, None);
    let narrow = TravelBox::new(-3 * tenth, -3 * tenth, 16 * tenth, 5 * tenth);
    let narrow = found(alloc, &lines, Box::new(alloc, narrow)?)?;
    finds(&rt, &narrow, 12, Some(11));
    let slow = found(alloc, &lines, Box::new(alloc, FeedCap::new(150_000))?)?;
    finds(&rt, &slow, 5, Some(4));
    let tools = found(alloc, &lines, Box::new(alloc, ToolList::new(2, 9))?)?;
    finds(&rt, &tools, 2, Some(1));
    Ok(())
}

#[test]
fn programs_stop_at_faults(rt: HostRuntime) -> Result<(), Fail> {
    let alloc = rt.alloc();
    let rows: [(&[u8], SimFault, u32); 9] = [
        (b"\nG2 X1 Y1\n", SimFault::UnknownWord, 2),
        (b"G0 G1 X1\n", SimFault::TwoWords, 1),
        (b"F50 G38.2\n", SimFault::MissingWord, 1),
        (b"G0 X0.0000001\n", SimFault::FinePosition, 1),
        (b"G0 X501\n", SimFault::OutOfRange, 1),
        (b"S0.5\n", SimFault::SpindleRange, 1),
        (b"X1\n", SimFault::NoMotion, 1),
        (b"G1 X1\n", SimFault::NoFeed, 1),
        (b"G0 X1\n\n", SimFault::NoEnd, 2),
    ];
    for (text, fault, line) in rows {
        assert!(rt; text.len() < 100);
        let lines = read_program(alloc, text)?;
        let stop = moves(alloc, &lines, &Vec::new(alloc)).err();
        assert_eq!(rt; stop, Some(RunFault::Sim { fault, line }));
    }
    Ok(())
}

#[test]
fn probes_answer_one_after_another(rt: HostRuntime) -> Result<(), Fail> {
    let alloc = rt.alloc();
    let lines = read_program(alloc, FOUR_PROBES)?;

    let answers = [0, 100_000, -100_000, 50_000].to_vec(alloc)?;
    let made = moves(alloc, &lines, &answers)?;
    assert_eq!(rt; made.len(), 14);
    assert_eq!(rt; made[13].to.z, -118_750_000_000);

    let three = [0, 100_000, -100_000].to_vec(alloc)?;
    let fault = SimFault::NoProbeAnswer { count: 3 };
    assert_eq!(rt;
        moves(alloc, &lines, &three).err(),
        Some(RunFault::Sim { fault, line: 16 })
    );

    let deep = [-600_000, 0, 0, 0].to_vec(alloc)?;
    let fault = SimFault::ProbeMissed {
        target: -500_000_000_000,
        answer: -600_000,
    };
    assert_eq!(rt;
        moves(alloc, &lines, &deep).err(),
        Some(RunFault::Sim { fault, line: 4 })
    );
    Ok(())
}
