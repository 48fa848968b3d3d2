// Files that are cut off: each is refused until its end stands there.
use crate::holes::HOLES_AND_A_ROUTED_SLOT;
use board_base::MemoryShelf;
use mill_top::Status;
use std::test::Fail;
use trial_runs::{TRACK, carried_out};

const LAYER: [&str; 4] = ["mill", "-", "--front=f.txt", "--pitch=0.1"];

const DRILL: [&str; 3] = ["mill", "-", "--drill=f.txt"];

// The last byte may be missing, which ends the last line.
#[test]
fn files_that_are_cut_off_are_refused(rt: HostRuntime) -> Result<(), Fail> {
    let alloc = rt.alloc();
    for (words, file, number) in [
        (LAYER.as_slice(), TRACK, 4),
        (DRILL.as_slice(), HOLES_AND_A_ROUTED_SLOT.as_bytes(), 5),
    ] {
        for length in 0..file.len() {
            let mut shelf = MemoryShelf::new(alloc);
            shelf.add("f.txt", &file[..length])?;
            let (status, _) = carried_out(alloc, words, &mut shelf)?;
            if length + 1 < file.len() {
                assert_eq!(rt; status.number(), number, "at {length}");
                assert!(rt; shelf.get("report.txt").is_none());
            } else {
                assert_eq!(rt; status, Status::Done);
            }
        }
    }
    Ok(())
}
