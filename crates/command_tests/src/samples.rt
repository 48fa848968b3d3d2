// Sample boards.
use board_base::MemoryShelf;
use mill_top::Status;
use std::test::Fail;
use trial_runs::carried_out;

// A number of pads, and the line of their board: one pad, five with two tracks, and 200 with 80.
const BOARDS: [(&str, &str); 3] = [
    ("1", "sample 1 islands 1 listed 0 holes 1 chains 1\n"),
    ("5", "sample 5 islands 3 listed 0 holes 5 chains 1\n"),
    (
        "200",
        "sample 200 islands 120 listed 0 holes 200 chains 1\n",
    ),
];

#[test]
fn boards_are_milled_and_told(rt: HostRuntime) -> Result<(), Fail> {
    let alloc = rt.alloc();
    for (pads, line) in BOARDS {
        let mut shelf = MemoryShelf::new(alloc);
        let (status, lines) = carried_out(alloc, &["sample", pads], &mut shelf)?;
        assert_eq!(rt; status, Status::Done);
        let text = format!(in alloc; "{line}pcbmill: ok\n")?;
        assert_eq!(rt; lines.as_slice(), text.as_bytes());
        assert!(rt; shelf.get("report.txt").is_none());
    }
    Ok(())
}

// Words, and the number of the one that is refused.
const WRONG_WORDS: [(&[&str], u32); 6] = [
    (&["sample"], 2),
    (&["sample", "0"], 2),
    (&["sample", "401"], 2),
    (&["sample", "01"], 2),
    (&["sample", "x"], 2),
    (&["sample", "1", "2"], 3),
];

#[test]
fn words_outside_the_grammar_are_refused(rt: HostRuntime) -> Result<(), Fail> {
    let alloc = rt.alloc();
    for (words, number) in WRONG_WORDS {
        let (status, lines) = carried_out(alloc, words, &mut MemoryShelf::new(alloc))?;
        assert_eq!(rt; status, Status::Usage { word: number });
        let line = format!(in alloc; "pcbmill: usage: word {number}\n")?;
        assert_eq!(rt; lines.as_slice(), line.as_bytes());
    }
    Ok(())
}
