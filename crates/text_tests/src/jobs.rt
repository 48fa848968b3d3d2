// Jobs that are read and refused, worked out by hand.

use board_base::Side;
use job_file::{Job, JobError, JobKind, read_job};
use std::alloc::{AllocError, Global};
use std::process::Abort;
use std::test::*;

// What a file and words give.
fn read(alloc: Global, file: &str, words: &[&str], side: Option<Side>) -> Result<Job, JobError> {
    let Ok(words) = owned(alloc, words) else {
        return Err(refusal((JobKind::Memory, 0, 0)));
    };
    read_job(alloc, file.as_bytes(), &words, side)
}

fn owned(alloc: Global, words: &[&str]) -> Result<Vec<String>, AllocError> {
    let mut all = Vec::new(alloc);
    for word in words {
        all.push(String::from_str(alloc, word)?)?;
    }
    Ok(all)
}

fn refusal(error: (JobKind, u8, u32)) -> JobError {
    let (kind, key, place) = error;
    JobError { kind, key, place }
}

const FILE: &str = "# board\nmetric=true\nfront=a.gbr\nzwork=-0.05\n";

// The place of the first word behind those of a command.
const WORD: u32 = 100_000_001;

#[test]
fn a_word_takes_the_place_of_a_line(rt: HostRuntime) -> Result<(), Fail> {
    let job = read(rt.alloc(), FILE, &["mill", "job", "--zwork=-0.1"], None)?;
    assert_eq!(rt; job.zwork, -100_000);
    let name = job.front.ok_or("no front")?;
    assert_eq!(rt; name.text(), "a.gbr");
    Ok(())
}

#[test]
fn lines_are_refused_at_their_places(rt: HostRuntime) {
    for (file, expected) in [
        (
            "# board\nmetric=true\nzworc=1\n",
            (JobKind::UnknownKey, 0, 3),
        ),
        (
            "# board\nmetric=true\nfront=a.gbr\nzwork=-0.05\nzwork=-0.1\n",
            (JobKind::TwiceGiven, 8, 5),
        ),
        ("# board\nmetric=true\n", (JobKind::Missing, 0, 0)),
        ("front=a\n\nx\n", (JobKind::BadValue, 0, 3)),
        ("front=a\ntile-x=0\n", (JobKind::OutOfRange, 31, 2)),
        (
            "outline=b\r\nal-front=1\r\ntile-x=2\r\n",
            (JobKind::OutOfRange, 31, 3),
        ),
    ] {
        assert_eq!(rt;
            read(rt.alloc(), file, &[], None).err(),
            Some(refusal(expected)),
            "of {file}"
        );
    }
}

#[test]
fn words_are_refused_at_their_places(rt: HostRuntime) {
    for (word, expected) in [
        ("--pitch=0.003", Some((JobKind::BadValue, 40, WORD))),
        (
            "--tolerance=0.1",
            Some((JobKind::TolerancePastCutter, 41, WORD)),
        ),
        ("--pitch=0.2", Some((JobKind::PitchTooCoarse, 40, WORD))),
        ("--mill-speed=05", Some((JobKind::BadValue, 13, WORD))),
        ("--tile-x=21", Some((JobKind::OutOfRange, 31, WORD))),
        ("--tile-y=21", Some((JobKind::OutOfRange, 32, WORD))),
        ("--tile-x=2", None),
        ("--tile-y=20", None),
        ("--al-front=1", None),
        ("--tile-x=1", None),
        ("--al-front=0", None),
        ("--zchange=1.999", Some((JobKind::OutOfRange, 10, WORD))),
        ("--zsafe=11", Some((JobKind::OutOfRange, 10, 0))),
    ] {
        assert_eq!(rt;
            read(rt.alloc(), FILE, &[word], None).err(),
            expected.map(|error| refusal(error)),
            "of {word}"
        );
    }
}

// The value of `isolation-width`, in nanometres, or none where the text is none.
#[test]
fn lengths_are_rounded_to_micrometres(rt: HostRuntime) {
    for (text, expected) in [
        ("--isolation-width=0.1in", Some(2_540_000_i64)),
        ("--isolation-width=+5.mm", Some(5_000_000)),
        ("-- isolation-width = .5 ", Some(500_000)),
        ("--isolation-width=0.0005", Some(1_000)),
        ("--isolation-width=0.0004999999", Some(0)),
        ("--isolation-width=0.00049999999in", Some(13_000)),
        ("--isolation-width=10.0004", Some(10_000_000)),
        ("--isolation-width=-0.0004", Some(0)),
        ("--isolation-width=1 mm", None),
        ("--isolation-width=10.0005", None),
    ] {
        let job = read(rt.alloc(), FILE, &[text], None);
        assert_eq!(rt;
            job.ok().map(|job| job.isolation_width),
            expected,
            "of {text}"
        );
    }
}

#[test]
fn lists_and_other_values(rt: HostRuntime) -> Result<(), Fail> {
    let words = [
        "--drills-available=0.8,1,0.05in",
        "--milling-overlap=7%",
        "--mill-feed=100.1250",
        "--clear=1",
        "--basename=b.1",
    ];
    let job = read(rt.alloc(), FILE, &words, None)?;
    assert_eq!(rt;
        job.drills_available.inner().as_slice(),
        [800_000_i64, 1_000_000, 1_270_000].as_slice()
    );
    assert_eq!(rt; job.milling_overlap, 7);
    assert_eq!(rt; job.mill_feed, 100_125);
    assert_eq!(rt; (job.clear, job.al_range), (true, 500_000));
    Ok(())
}

#[test]
fn the_side_that_is_checked_is_named(rt: HostRuntime) {
    let alloc = rt.alloc();
    let front = read(alloc, FILE, &[], Some(Side::Front));
    assert_eq!(rt; front.err(), None);
    let back = read(alloc, FILE, &[], Some(Side::Back));
    assert_eq!(rt; back.err(), Some(refusal((JobKind::Missing, 2, 0))));
}
