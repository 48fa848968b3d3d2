use super::run_watched;
use crate::exit::ending;
use crate::folder::FolderShelf;
use board_base::{MemorySink, Role};
use mill_top::Status;
use std::alloc::AllocError;
use std::process::ExitCode;
use std::test::Fail;

// Words, the status that they come to in a folder without files, its number and its line.
const REFUSED: [(&[&str], Status, u8, &str); 4] = [
    (
        &[],
        Status::Usage { word: 1 },
        2,
        "pcbmill: usage: word 1\n",
    ),
    (
        &["mill"],
        Status::Usage { word: 2 },
        2,
        "pcbmill: usage: word 2\n",
    ),
    (
        &["mill", "none.txt"],
        Status::ReadFault { role: Role::Job },
        8,
        "pcbmill: read job\n",
    ),
    (
        &["simulate", "none.ngc"],
        Status::ReadFault { role: Role::Ngc },
        8,
        "pcbmill: read ngc\n",
    ),
];

#[test]
fn refusals_have_their_numbers_and_lines(rt: HostRuntime) -> Result<(), Fail> {
    let alloc = rt.alloc();
    for (texts, status, number, line) in REFUSED {
        let mut words = Vec::new(alloc);
        for text in texts {
            words.push(String::from_str(alloc, text)?)?;
        }
        let mut shelf = FolderShelf::new(&rt);
        let mut sink = MemorySink::new(alloc);
        let answer = run_watched(alloc, &words, &mut shelf, &mut sink)?;
        assert_eq!(rt; answer, status);
        assert_eq!(rt; ending(Ok(answer), &mut sink), ExitCode::from(number));
        assert_eq!(rt; sink.bytes(), line.as_bytes());
    }
    Ok(())
}

#[test]
fn want_of_memory_for_the_words_has_its_line(rt: HostRuntime) {
    let mut sink = MemorySink::new(rt.alloc());
    assert_eq!(rt; ending(Err(AllocError), &mut sink), ExitCode::from(12));
    assert_eq!(rt; sink.bytes(), b"pcbmill: memory\n".as_slice());
}
