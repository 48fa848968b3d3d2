// Watchers that object, one of them of the test's own, under puts that fail in turn.
ghost use Rattle.std.specs.Prelude.{◌≡◌, None};

use board_base::{MemoryShelf, Move};
use mill_top::Status;
use move_watch::{DepthFloor, Limits, TravelBox, Watcher, breaks};
use std::test::Fail;
use trial_runs::watched_with_a_put_that_fails;

// 1.5 mm and 20 mm, in 10^-12 mm.
const EDGE: i64 = 1_500_000_000_000;

const HEIGHT: i64 = 20_000_000_000_000;

// A box of the test's own, with the same edges for X and Y.
#[derive(Drop)]
struct OwnBox {
    least: i64,
    most: i64,
    count: u64,
    first: Option<u64>,
}

impl OwnBox {
    fn new(least: i64, most: i64) -> OwnBox
        ensures { result ≡ record { least = least; most = most; count = 0; first = None } }
    {
        OwnBox {
            least,
            most,
            count: 0,
            first: None,
        }
    }
}

impl Watcher for OwnBox {
    ghost use Rattle.move_watch.specs.declared.bounds.Limits.TheVariants.{Travel as travel};

    ghost watch = { λ w. record { limits = travel w.least w.least w.most w.most; seen = w.count; first = w.first } };

    fn see(&mut self, m: &Move) {
        if self.first.is_none() && breaks(&self.bounds(), m) {
            self.first = Some(self.count);
        }
        self.count = self.count.saturating_add(1);
    }

    fn bounds(&self) -> Limits {
        Limits::Travel {
            x0: self.least,
            y0: self.least,
            x1: self.most,
            y1: self.most,
        }
    }

    fn count(&self) -> u64 {
        self.count
    }

    fn first(&self) -> Option<u64> {
        self.first
    }
}

// A put that fails, 0 for none, and what the sink got.
const PUTS: [(u64, &str); 5] = [
    (
        0,
        "moves 2\nwatcher 0 seen 1 first 0\nwatcher 1 seen 2 first 1\npcbmill: refused: watcher 0 move 0\n",
    ),
    (1, "pcbmill: write lines\n"),
    (2, "moves 2\npcbmill: write lines\n"),
    (
        3,
        "moves 2\nwatcher 0 seen 1 first 0\npcbmill: write lines\n",
    ),
    (
        4,
        "moves 2\nwatcher 0 seen 1 first 0\nwatcher 1 seen 2 first 1\n",
    ),
];

const PROGRAM: &[u8] = b"G0 X1 Y0\nG0 X2 Y0\nM2\n";

#[test]
fn lines_of_a_simulation_fail_in_turn(rt: HostRuntime) -> Result<(), Fail> {
    let alloc = rt.alloc();
    for (put, text) in PUTS {
        for is_own in [false, true] {
            let mut shelf = MemoryShelf::new(alloc);
            shelf.add("a.ngc", PROGRAM)?;
            let mut watchers: Vec<Box<dyn Watcher>> = Vec::new(alloc);
            watchers.push(Box::new(alloc, DepthFloor::new(HEIGHT))?)?;
            if is_own {
                watchers.push(Box::new(alloc, OwnBox::new(-EDGE, EDGE))?)?;
            } else {
                watchers.push(Box::new(alloc, TravelBox::new(-EDGE, -EDGE, EDGE, EDGE))?)?;
            }
            let words = ["simulate", "a.ngc"];
            let (status, lines) = watched_with_a_put_that_fails(
                alloc, &words, &mut shelf, watchers, put,
            )?;
            let is_refused = status == Status::Watch { watcher: 0, at: 0 };
            assert_eq!(rt; is_refused, put == 0 || put == 4, "put {put}");
            assert_eq!(rt; lines.as_slice(), text.as_bytes(), "put {put}");
        }
    }
    Ok(())
}
