// Reads and puts that fail in turn, of the commands that write no files.
use board_base::{MemoryShelf, Role};
use mill_top::Status;
use std::alloc::Global;
use std::test::Fail;
use trial_runs::{carried_out, two_discs, with_a_put_that_fails};

// A read that fails, and the line.
const READS: [(u64, &str); 3] = [
    (1, "pcbmill: read ngc\n"),
    (2, "pcbmill: read probes\n"),
    (3, "moves 0\npcbmill: ok\n"),
];

#[test]
fn reads_of_a_simulation_fail_in_turn(rt: HostRuntime) -> Result<(), Fail> {
    let alloc = rt.alloc();
    for (read, text) in READS {
        let mut shelf = MemoryShelf::new(alloc);
        shelf.add("a.ngc", b"M2\n")?;
        shelf.add("p.txt", b"")?;
        shelf.fail_read(read);
        let (_, lines) = carried_out(alloc, &["simulate", "a.ngc", "p.txt"], &mut shelf)?;
        assert_eq!(rt; lines.as_slice(), text.as_bytes());
    }
    Ok(())
}

// A put that fails, and what the sink got, of a board with one pad.
const PUTS: [(u64, &str); 3] = [
    (1, "pcbmill: write lines\n"),
    (
        2,
        "sample 1 islands 1 listed 0 holes 1 chains 1\npcbmill: write lines\n",
    ),
    (
        3,
        "sample 1 islands 1 listed 0 holes 1 chains 1\npcbmill: ok\n",
    ),
];

#[test]
fn puts_of_a_sample_fail_in_turn(rt: HostRuntime) -> Result<(), Fail> {
    let alloc = rt.alloc();
    for (put, text) in PUTS {
        let mut shelf = MemoryShelf::new(alloc);
        let (_, lines) = with_a_put_that_fails(alloc, &["sample", "1"], &mut shelf, put)?;
        assert_eq!(rt; lines.as_slice(), text.as_bytes());
    }
    Ok(())
}

// A side, a job with it, and its role.
const SIDES: [(&str, &str, Role); 2] = [
    (
        "front",
        "front=a.gbr\npitch=0.2\nmill-diameters=0.4\n",
        Role::Front,
    ),
    (
        "back",
        "back=a.gbr\npitch=0.2\nmill-diameters=0.4\n",
        Role::Back,
    ),
];

// A shelf with this job, the layer of two discs, a program without moves and no answers.
fn checked_shelf(alloc: Global, job: &str) -> Result<MemoryShelf, Fail> {
    let mut shelf = two_discs(alloc)?;
    shelf.add("job.txt", job.as_bytes())?;
    shelf.add("p.ngc", b"M2\n")?;
    shelf.add("p.txt", b"")?;
    Ok(shelf)
}

#[test]
fn reads_of_a_check_fail_in_turn(rt: HostRuntime) -> Result<(), Fail> {
    let alloc = rt.alloc();
    for (side, job, layer) in SIDES {
        for (read, role, input) in [
            (1, Role::Job, "job"),
            (2, layer, side),
            (3, Role::Ngc, "ngc"),
            (4, Role::Probes, "probes"),
        ] {
            let mut shelf = checked_shelf(alloc, job)?;
            shelf.fail_read(read);
            let words = ["check", "job.txt", side, "p.ngc", "p.txt"];
            let (status, lines) = carried_out(alloc, &words, &mut shelf)?;
            assert_eq!(rt; status, Status::ReadFault { role });
            assert_eq!(rt; status.number(), 8);
            let line = format!(in alloc; "pcbmill: read {input}\n")?;
            assert_eq!(rt; lines.as_slice(), line.as_bytes());
        }
    }
    Ok(())
}

#[test]
fn a_check_reads_four_files(rt: HostRuntime) -> Result<(), Fail> {
    let alloc = rt.alloc();
    for (side, job, _) in SIDES {
        let mut shelf = checked_shelf(alloc, job)?;
        shelf.fail_read(5);
        let words = ["check", "job.txt", side, "p.ngc", "p.txt"];
        let (status, lines) = carried_out(alloc, &words, &mut shelf)?;
        assert_eq!(rt; status, Status::Done);
        assert_eq!(rt; lines.as_slice(), b"joined 1 2\npcbmill: ok\n".as_slice());
    }
    Ok(())
}
