// What a check refuses, in which order.
use board_base::MemoryShelf;
use mill_top::Status;
use std::alloc::Global;
use std::test::Fail;
use trial_runs::{carried_out, two_discs};

// Words, and the number of the one that is refused.
const WRONG_WORDS: [(&[&str], u32); 12] = [
    (&["check"], 2),
    (&["check", ""], 2),
    (&["check", "-"], 3),
    (&["check", "-", "top", "p.ngc"], 3),
    (&["check", "-", "front"], 4),
    (&["check", "-", "front", "--front=a.gbr"], 4),
    (&["check", "-", "front", "p.ngc", ""], 5),
    (&["check", "-", "front", "p.ngc", "--front"], 5),
    (&["check", "j", "front", "p", "x", "y"], 6),
    (&["check", "j", "back", "p", "x", "--zwork"], 6),
    (&["check", "j", "front", "p", "--zwork=-1", "x"], 6),
    (&["check", "j", "front", "p", "x", "--zwork=-1", "y"], 7),
];

#[test]
fn words_outside_the_grammar_are_refused(rt: HostRuntime) -> Result<(), Fail> {
    let alloc = rt.alloc();
    for (words, number) in WRONG_WORDS {
        let (status, lines) = carried_out(alloc, words, &mut two_discs(alloc)?)?;
        assert_eq!(rt; status, Status::Usage { word: number });
        let line = format!(in alloc; "pcbmill: usage: word {number}\n")?;
        assert_eq!(rt; lines.as_slice(), line.as_bytes());
    }
    Ok(())
}

// Two pads that lie so far from one another that no frame holds them.
const FAR_PADS: &[u8] = b"%FSLAX46Y46*%%MOMM*%%ADD10C,1*%D10*X-400000000Y0D03*X400000000Y0D03*M02*";

// A shelf on which each file has something wrong with it, beside the layer of two discs.
fn wrong_files(alloc: Global) -> Result<MemoryShelf, Fail> {
    let mut shelf = two_discs(alloc)?;
    shelf.add("job.txt", b"pitch=0.2\nmill-diameters=0.4\n")?;
    shelf.add("bad.gbr", b"%FSLAX46Y46*%%MOMM*%")?;
    shelf.add("far.gbr", FAR_PADS)?;
    shelf.add("bad.ngc", b"G1 X\n")?;
    shelf.add("stuck.ngc", b"M3 S1\nG1 Z-1 F9\nX0.1 Y0.1\nG2\n")?;
    shelf.add("over.ngc", b"M3 S1\nG1 Z-1 F9\nX0.1 Y0.1\nM2\n")?;
    shelf.add("bad.txt", b"0\n1 mm\n")?;
    Ok(shelf)
}

// Words of which all that comes later is wrong too, and how the line begins.
const FIRST_REFUSALS: [(&[&str], &str); 13] = [
    (
        &["check", "gone", "front", "gone", "gone", "--zworc=1"],
        "pcbmill: read job\n",
    ),
    (
        &["check", "job.txt", "front", "gone", "gone", "--zworc=1"],
        "pcbmill: job: UnknownKey key 0 place 100000006\n",
    ),
    (
        &["check", "job.txt", "front", "gone", "gone", "--back=gone"],
        "pcbmill: job: Missing key 1 place 0\n",
    ),
    (
        &["check", "job.txt", "back", "gone", "gone", "--front=gone"],
        "pcbmill: job: Missing key 2 place 0\n",
    ),
    (
        &["check", "job.txt", "front", "gone", "gone", "--front=gone"],
        "pcbmill: read front\n",
    ),
    (
        &["check", "job.txt", "back", "gone", "gone", "--back=gone"],
        "pcbmill: read back\n",
    ),
    (
        &[
            "check",
            "job.txt",
            "front",
            "gone",
            "gone",
            "--front=bad.gbr",
        ],
        "pcbmill: read ngc\n",
    ),
    (
        &["check", "-", "front", "bad.ngc", "gone", "--front=bad.gbr"],
        "pcbmill: read probes\n",
    ),
    (
        &[
            "check",
            "-",
            "front",
            "bad.ngc",
            "bad.txt",
            "--front=bad.gbr",
        ],
        "pcbmill: front: NoEnd at 20\n",
    ),
    (
        &[
            "check",
            "-",
            "front",
            "bad.ngc",
            "bad.txt",
            "--front=far.gbr",
        ],
        "pcbmill: ngc: BadNumber line 1\n",
    ),
    (
        &[
            "check",
            "-",
            "front",
            "stuck.ngc",
            "bad.txt",
            "--front=far.gbr",
        ],
        "pcbmill: probes: BadNumber line 2\n",
    ),
    (
        &["check", "-", "front", "stuck.ngc", "--front=far.gbr"],
        "pcbmill: limit: Side ",
    ),
    (
        &["check", "job.txt", "front", "stuck.ngc", "--front=a.gbr"],
        "pcbmill: ngc: UnknownWord line 4\n",
    ),
];

#[test]
fn the_first_refusal_is_told(rt: HostRuntime) -> Result<(), Fail> {
    let alloc = rt.alloc();
    for (words, text) in FIRST_REFUSALS {
        let (_, lines) = carried_out(alloc, words, &mut wrong_files(alloc)?)?;
        assert!(rt; lines.as_slice().starts_with(text.as_bytes()));
    }
    let words = ["check", "job.txt", "front", "over.ngc", "--front=a.gbr"];
    let (status, lines) = carried_out(alloc, &words, &mut wrong_files(alloc)?)?;
    assert_eq!(rt; status.number(), 11);
    assert_eq!(rt;
        lines.as_slice(),
        b"pcbmill: refused: cell 0 0 line 2\n".as_slice()
    );
    Ok(())
}
