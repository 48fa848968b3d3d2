// Programs that are simulated: what watchers find, what probes answer, and what is refused.
ghost use Rattle.std.specs.Prelude.{◌≡◌, None};

use board_base::{MemoryShelf, Move, Role};
use mill_top::{NgcKind, NgcOrSim, SimFault, Status};
use move_watch::{DepthFloor, Limits, Watcher, breaks};
use std::alloc::Global;
use std::test::Fail;
use trial_runs::{CUTS_OF_TWO_DISCS, FOOT, HEAD, WORDS, carried_out, two_discs, watched};

const SIMULATE: [&str; 2] = ["simulate", "front.ngc"];

// A twentieth of a millimetre below the board, in 10^-12 mm.
const FLOOR: i64 = -50_000_000_000;

// A watcher of the test's own.
#[derive(Drop)]
struct OwnFloor {
    z: i64,
    count: u64,
    first: Option<u64>,
}

impl OwnFloor {
    fn new(z: i64) -> OwnFloor
        ensures { result ≡ record { z = z; count = 0; first = None } }
    {
        OwnFloor {
            z,
            count: 0,
            first: None,
        }
    }
}

impl Watcher for OwnFloor {
    ghost use Rattle.move_watch.specs.declared.bounds.Limits.TheVariants.{Floor as floor};

    ghost watch = { λ w. record { limits = floor w.z; seen = w.count; first = w.first } };

    fn see(&mut self, m: &Move) {
        if self.first.is_none() && breaks(&Limits::Floor { z: self.z }, m) {
            self.first = Some(self.count);
        }
        self.count = self.count.saturating_add(1);
    }

    fn bounds(&self) -> Limits {
        Limits::Floor { z: self.z }
    }

    fn count(&self) -> u64 {
        self.count
    }

    fn first(&self) -> Option<u64> {
        self.first
    }
}

// A shelf with a program, and with the answers of its probe.
fn shelf_with(alloc: Global, program: &str, probes: &str) -> Result<MemoryShelf, Fail> {
    let mut shelf = MemoryShelf::new(alloc);
    shelf.add("front.ngc", program.as_bytes())?;
    shelf.add("probes.txt", probes.as_bytes())?;
    Ok(shelf)
}

// The program of two discs, beside their layer.
fn milled(alloc: Global) -> Result<MemoryShelf, Fail> {
    let mut shelf = two_discs(alloc)?;
    carried_out(alloc, &WORDS, &mut shelf)?;
    Ok(shelf)
}

#[test]
fn two_discs_are_simulated(rt: HostRuntime) -> Result<(), Fail> {
    let alloc = rt.alloc();
    let (status, lines) = carried_out(alloc, &SIMULATE, &mut milled(alloc)?)?;
    assert_eq!(rt; status, Status::Done);
    assert_eq!(rt; lines.as_slice(), b"moves 17\npcbmill: ok\n".as_slice());
    Ok(())
}

#[test]
fn a_floor_objects_to_the_first_plunge(rt: HostRuntime) -> Result<(), Fail> {
    let alloc = rt.alloc();
    let mut watchers: Vec<Box<dyn Watcher>> = Vec::new(alloc);
    watchers.push(Box::new(alloc, DepthFloor::new(FLOOR))?)?;
    let (status, lines) = watched(alloc, &SIMULATE, &mut milled(alloc)?, watchers)?;
    assert_eq!(rt; status, Status::Watch { watcher: 0, at: 3 });
    assert_eq!(rt; status.number(), 11);
    assert_eq!(rt;
        lines.as_slice(),
        b"moves 17\nwatcher 0 seen 4 first 3\npcbmill: refused: watcher 0 move 3\n".as_slice()
    );
    Ok(())
}

#[test]
fn a_watcher_of_another_kind_finds_the_same(rt: HostRuntime) -> Result<(), Fail> {
    let alloc = rt.alloc();
    let mut watchers: Vec<Box<dyn Watcher>> = Vec::new(alloc);
    watchers.push(Box::new(alloc, DepthFloor::new(2 * FLOOR))?)?;
    watchers.push(Box::new(alloc, OwnFloor::new(FLOOR))?)?;
    let (status, lines) = watched(alloc, &SIMULATE, &mut milled(alloc)?, watchers)?;
    assert_eq!(rt; status, Status::Watch { watcher: 1, at: 3 });
    assert_eq!(rt;
        lines.as_slice(),
        b"moves 17\nwatcher 0 seen 17 first none\nwatcher 1 seen 4 first 3\npcbmill: refused: watcher 1 move 3\n".as_slice()
    );
    Ok(())
}

// Words, and the number of the one that is refused.
const WRONG_WORDS: [(&[&str], u32); 4] = [
    (&["simulate"], 2),
    (&["simulate", "--front=a.gbr"], 2),
    (&["simulate", "a", ""], 3),
    (&["simulate", "a", "b", "c"], 4),
];

#[test]
fn words_outside_the_grammar_are_refused(rt: HostRuntime) -> Result<(), Fail> {
    let alloc = rt.alloc();
    for (words, number) in WRONG_WORDS {
        let (status, lines) = carried_out(alloc, words, &mut two_discs(alloc)?)?;
        assert_eq!(rt; status, Status::Usage { word: number });
        let line = format!(in alloc; "pcbmill: usage: word {number}\n")?;
        assert_eq!(rt; lines.as_slice(), line.as_bytes());
    }
    Ok(())
}

#[test]
fn inputs_that_are_not_there_are_told(rt: HostRuntime) -> Result<(), Fail> {
    let alloc = rt.alloc();
    for (words, role, text) in [
        (
            ["simulate", "gone", "gone"],
            Role::Ngc,
            "pcbmill: read ngc\n",
        ),
        (
            ["simulate", "front.ngc", "gone"],
            Role::Probes,
            "pcbmill: read probes\n",
        ),
    ] {
        let (status, lines) = carried_out(alloc, &words, &mut shelf_with(alloc, "M2\n", "")?)?;
        assert_eq!(rt; status, Status::ReadFault { role });
        assert_eq!(rt; status.number(), 8);
        assert_eq!(rt; lines.as_slice(), text.as_bytes());
    }
    Ok(())
}

#[test]
fn arcs_are_refused(rt: HostRuntime) -> Result<(), Fail> {
    let alloc = rt.alloc();
    let program = format!(in alloc; "{HEAD}G2 X1 Y1\n{CUTS_OF_TWO_DISCS}{FOOT}")?;
    let (status, lines) = carried_out(alloc, &SIMULATE, &mut shelf_with(alloc, &program, "")?)?;
    let refused = Status::Ngc {
        role: Role::Ngc,
        fault: NgcOrSim::Machine(SimFault::UnknownWord),
        line: 8,
    };
    assert_eq!(rt; status, refused);
    assert_eq!(rt; status.number(), 10);
    assert_eq!(rt;
        lines.as_slice(),
        b"pcbmill: ngc: UnknownWord line 8\n".as_slice()
    );
    Ok(())
}

/// Probes at four places, a centimetre from one another, each down to half a millimetre below the board at most.
pub const FOUR_PROBES: &str = "F50\n\
    G0 Z2\nG0 X0 Y0\nG38.2 Z-0.5\n\
    G0 Z2\nG0 X10 Y0\nG38.2 Z-0.5\n\
    G0 Z2\nG0 X0 Y10\nG38.2 Z-0.5\n\
    G0 Z2\nG0 X10 Y10\nG38.2 Z-0.5\n\
    G0 Z2\nM2\n";

// Answers of the probe, and the lines.
const PROBES: [(&str, &str); 4] = [
    ("0\n0.1\n-0.1\n0.05\n", "moves 13\npcbmill: ok\n"),
    ("0\n0.1\n-0.1\n", "pcbmill: ngc: NoProbeAnswer line 13\n"),
    ("-0.6\n0\n0\n0\n", "pcbmill: ngc: ProbeMissed line 4\n"),
    ("0\n\n0.1 mm\n", "pcbmill: probes: BadNumber line 3\n"),
];

#[test]
fn probes_answer_one_after_another(rt: HostRuntime) -> Result<(), Fail> {
    let alloc = rt.alloc();
    for (probes, text) in PROBES {
        let mut shelf = shelf_with(alloc, FOUR_PROBES, probes)?;
        let words = ["simulate", "front.ngc", "probes.txt"];
        let (_, lines) = carried_out(alloc, &words, &mut shelf)?;
        assert_eq!(rt; lines.as_slice(), text.as_bytes());
    }
    Ok(())
}

#[test]
fn a_wrong_answer_is_told_with_its_role(rt: HostRuntime) -> Result<(), Fail> {
    let alloc = rt.alloc();
    let words = ["simulate", "front.ngc", "probes.txt"];
    let (status, _) = carried_out(alloc, &words, &mut shelf_with(alloc, FOUR_PROBES, "500.1")?)?;
    let refused = Status::Ngc {
        role: Role::Probes,
        fault: NgcOrSim::Reader(NgcKind::BadNumber),
        line: 1,
    };
    assert_eq!(rt; status, refused);
    Ok(())
}
