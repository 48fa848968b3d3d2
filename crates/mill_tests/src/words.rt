// Words outside the grammar, and jobs that are refused.
use mill_top::{JobError, JobKind, Status};
use std::test::Fail;
use trial_runs::{WORDS, carried_out, two_discs};

// Words, and the number of the one that is refused.
const WRONG_WORDS: [(&[&str], u32); 9] = [
    (&[], 1),
    (&["Mill", "-"], 1),
    (&["mill"], 2),
    (&["mill", "--front=a.gbr"], 2),
    (&["mill", ""], 2),
    (&["mill", "-", "front=a.gbr"], 3),
    (&["mill", "-", "--front"], 3),
    (&["mill", "-", "--front=a.gbr", "-"], 4),
    (
        &["mill", "job.txt", "--front=a.gbr", "--clear=1", "again"],
        5,
    ),
];

#[test]
fn words_outside_the_grammar_are_refused(rt: HostRuntime) -> Result<(), Fail> {
    let alloc = rt.alloc();
    for (words, number) in WRONG_WORDS {
        let (status, lines) = carried_out(alloc, words, &mut two_discs(alloc)?)?;
        assert_eq!(rt; status, Status::Usage { word: number });
        assert_eq!(rt; status.number(), 2);
        let line = format!(in alloc; "pcbmill: usage: word {number}\n")?;
        assert_eq!(rt; lines.as_slice(), line.as_bytes());
    }
    Ok(())
}

// A job, and its refusal: the kind, the number of the key and the place.
const JOBS: [(&str, JobKind, u8, u32, &str); 8] = [
    (
        "# board\nmetric=true\nzworc=1\n",
        JobKind::UnknownKey,
        0,
        3,
        "UnknownKey key 0 place 3",
    ),
    (
        "# board\nmetric=true\nfront=a.gbr\nzwork=-0.05\nzwork=-0.05\n",
        JobKind::TwiceGiven,
        8,
        5,
        "TwiceGiven key 8 place 5",
    ),
    (
        "front=a.gbr\nmill-diameters=0.2\ntolerance=0.1\n",
        JobKind::TolerancePastCutter,
        41,
        3,
        "TolerancePastCutter key 41 place 3",
    ),
    (
        "front=a.gbr\nmill-diameters=0.2\npitch=0.2\n",
        JobKind::PitchTooCoarse,
        40,
        3,
        "PitchTooCoarse key 40 place 3",
    ),
    ("# board\n", JobKind::Missing, 0, 0, "Missing key 0 place 0"),
    (
        "pitch=0.003\n",
        JobKind::BadValue,
        40,
        1,
        "BadValue key 40 place 1",
    ),
    (
        "front=a.gbr\nzwork=-10.001\n",
        JobKind::OutOfRange,
        8,
        2,
        "OutOfRange key 8 place 2",
    ),
    (
        "front=a.gbr\ntile-x=2\nal-front=1\n",
        JobKind::OutOfRange,
        31,
        2,
        "OutOfRange key 31 place 2",
    ),
];

#[test]
fn jobs_outside_their_grammar_are_refused(rt: HostRuntime) -> Result<(), Fail> {
    let alloc = rt.alloc();
    for (job, kind, key, place, text) in JOBS {
        let mut shelf = two_discs(alloc)?;
        shelf.add("job.txt", job.as_bytes())?;
        let (status, lines) = carried_out(alloc, &["mill", "job.txt"], &mut shelf)?;
        assert_eq!(rt; status, Status::Job(JobError { kind, key, place }));
        assert_eq!(rt; status.number(), 3);
        let line = format!(in alloc; "pcbmill: job: {text}\n")?;
        assert_eq!(rt; lines.as_slice(), line.as_bytes());
        assert!(rt; shelf.get("report.txt").is_none());
    }
    Ok(())
}

#[test]
fn no_file_is_named(rt: HostRuntime) -> Result<(), Fail> {
    let alloc = rt.alloc();
    let (status, lines) = carried_out(alloc, &["mill", "-"], &mut two_discs(alloc)?)?;
    assert_eq!(rt; status.number(), 3);
    assert_eq!(rt;
        lines.as_slice(),
        b"pcbmill: job: Missing key 0 place 0\n".as_slice()
    );
    Ok(())
}

#[test]
fn a_word_takes_the_place_of_a_line(rt: HostRuntime) -> Result<(), Fail> {
    let alloc = rt.alloc();
    let mut shelf = two_discs(alloc)?;
    let job =
        "# two discs\nfront=a.gbr\npitch=0.2\nmill-diameters=0.4\ntolerance=0.14\nzwork=-0.05\n";
    shelf.add("job.txt", job.as_bytes())?;
    let (status, _) = carried_out(alloc, &["mill", "job.txt", "--zwork=-0.1"], &mut shelf)?;
    assert_eq!(rt; status, Status::Done);
    let by_job = shelf.get("front.ngc").ok_or("not written")?.to_vec(alloc)?;

    let mut other = two_discs(alloc)?;
    let (status, _) = carried_out(alloc, &WORDS, &mut other)?;
    assert_eq!(rt; status, Status::Done);
    assert_eq!(rt;
        by_job.as_slice(),
        other.get("front.ngc").ok_or("not written")?
    );
    Ok(())
}
