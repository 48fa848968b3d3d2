// A drill file that is cut off at each of its bytes.
use board_base::MemoryShelf;
use mill_top::{DrillError, DrillKind, Status};
use std::test::Fail;
use trial_runs::carried_out;

// Holes and a slot in the manner of KiCad. The lines begin at 0, 4, 31, 75, 82, 89, 98, 107, 109, 113, 117, 120, 130, 140,
// 143, 165, 169 and 172.
const FILE: &[u8] =
    b"M48\n; DRILL file {KiCad 7.0.0}\n; FORMAT={-:-/ absolute / metric / decimal}\n\
    FMAT,2\nMETRIC\nT1C0.800\nT2C1.000\n%\nG90\nG05\nT1\nX1.0Y-1.0\nX2.5Y-1.0\nT2\n\
    X5.0Y-1.0G85X5.0Y-3.0\nG05\nT0\nM30\n";

// What a file that is cut off leads to.
#[derive(Clone, Copy)]
enum Answer {
    // The line that begins at this offset is refused as Syntax.
    Line { at: usize },
    // All lines are taken, and none ends the file.
    NoEnd,
    // The line is there that ends the file.
    Whole,
}

// The first and the last length of those that lead to the same.
const ANSWERS: [(usize, usize, Answer); 45] = [
    // No line.
    (0, 0, Answer::NoEnd),
    // M48
    (1, 2, Answer::Line { at: 0 }),
    // Behind it, and in two comments, which may end anywhere.
    (3, 75, Answer::NoEnd),
    // FMAT,2
    (76, 80, Answer::Line { at: 75 }),
    (81, 82, Answer::NoEnd),
    // METRIC
    (83, 87, Answer::Line { at: 82 }),
    (88, 89, Answer::NoEnd),
    // T1C0.800: without a number behind the T, then without one behind the C.
    (90, 90, Answer::Line { at: 89 }),
    (91, 91, Answer::NoEnd),
    (92, 92, Answer::Line { at: 89 }),
    (93, 98, Answer::NoEnd),
    // T2C1.000, and %, which is whole.
    (99, 99, Answer::Line { at: 98 }),
    (100, 100, Answer::NoEnd),
    (101, 101, Answer::Line { at: 98 }),
    (102, 109, Answer::NoEnd),
    // G90
    (110, 111, Answer::Line { at: 109 }),
    (112, 113, Answer::NoEnd),
    // G05
    (114, 115, Answer::Line { at: 113 }),
    (116, 117, Answer::NoEnd),
    // T1
    (118, 118, Answer::Line { at: 117 }),
    (119, 120, Answer::NoEnd),
    // X1.0Y-1.0: without a number behind the X, then without one behind the Y or its sign.
    (121, 121, Answer::Line { at: 120 }),
    (122, 124, Answer::NoEnd),
    (125, 126, Answer::Line { at: 120 }),
    (127, 130, Answer::NoEnd),
    // X2.5Y-1.0
    (131, 131, Answer::Line { at: 130 }),
    (132, 134, Answer::NoEnd),
    (135, 136, Answer::Line { at: 130 }),
    (137, 140, Answer::NoEnd),
    // T2
    (141, 141, Answer::Line { at: 140 }),
    (142, 143, Answer::NoEnd),
    // X5.0Y-1.0G85X5.0Y-3.0: the same, and in G85 up to a number behind its X.
    (144, 144, Answer::Line { at: 143 }),
    (145, 147, Answer::NoEnd),
    (148, 149, Answer::Line { at: 143 }),
    (150, 152, Answer::NoEnd),
    (153, 156, Answer::Line { at: 143 }),
    (157, 159, Answer::NoEnd),
    (160, 161, Answer::Line { at: 143 }),
    (162, 165, Answer::NoEnd),
    // G05
    (166, 167, Answer::Line { at: 165 }),
    (168, 169, Answer::NoEnd),
    // T0
    (170, 170, Answer::Line { at: 169 }),
    (171, 172, Answer::NoEnd),
    // M30, which may lack the end of its line.
    (173, 174, Answer::Line { at: 172 }),
    (175, 176, Answer::Whole),
];

// What a length leads to.
fn answer_at(length: usize) -> Option<Answer> {
    for (first, last, answer) in ANSWERS {
        if first <= length && length <= last {
            return Some(answer);
        }
    }
    None
}

// The status that a length has.
fn status_at(length: usize) -> Option<Status> {
    match answer_at(length)? {
        Answer::Line { at } => Some(Status::Drill(DrillError {
            kind: DrillKind::Syntax,
            at,
        })),
        Answer::NoEnd => Some(Status::Drill(DrillError {
            kind: DrillKind::NoEnd,
            at: length,
        })),
        Answer::Whole => Some(Status::Done),
    }
}

#[test]
fn a_drill_file_that_is_cut_off_is_refused_at_its_last_line(rt: HostRuntime) -> Result<(), Fail> {
    let alloc = rt.alloc();
    for length in 0..FILE.len() + 1 {
        let mut shelf = MemoryShelf::new(alloc);
        shelf.add("a.drl", &FILE[..length])?;
        let (status, _) = carried_out(alloc, &["mill", "-", "--drill=a.drl"], &mut shelf)?;
        assert_eq!(rt; Some(status), status_at(length), "at {length}");
        let is_written = shelf.get("drill.ngc").is_some();
        assert_eq!(rt; is_written, status == Status::Done, "at {length}");
    }
    Ok(())
}
