// Files without an image, and reads, writes and puts that fail.
use board_base::{MemoryShelf, Role};
use macro_eval::MacroFault;
use mill_top::{GerberError, GerberKind, Status};
use std::test::Fail;
use trial_runs::{TWO_DISCS, WORDS, carried_out, shelf_with, two_discs, with_a_put_that_fails};

// A file without an image, where it is refused, and the line.
const REFUSED: [(&[u8], GerberKind, usize, &str); 6] = [
    (
        b"%FSLAX46Y46*%%MOMM*%",
        GerberKind::NoEnd,
        20,
        "pcbmill: front: NoEnd at 20\n",
    ),
    (
        b"%FSLAX46Y46*%%MOMM*",
        GerberKind::Syntax,
        13,
        "pcbmill: front: Syntax at 13\n",
    ),
    (
        b"%FSLAX46Y46*%\nG04 no unit*\nX0Y0D03*\nM02*",
        GerberKind::NoUnit,
        27,
        "pcbmill: front: NoUnit at 27\n",
    ),
    (
        b"%FSLAX46Y46*%\n%MOMM*%\n%AMA*1,1,$1/0,0,0*%\n%ADD10A,1*%\nM02*",
        GerberKind::Macro(MacroFault::ZeroDivisor),
        43,
        "pcbmill: front: Macro ZeroDivisor at 43\n",
    ),
    (
        b"%FSLAX46Y46*%%MOMM*%G36*M02*",
        GerberKind::OpenRegion,
        24,
        "pcbmill: front: OpenRegion at 24\n",
    ),
    (
        b"%FSLAX46Y46*%%MOMM*%G75*G36*G02X1000000J1000000D01*",
        GerberKind::OpenArc,
        28,
        "pcbmill: front: OpenArc at 28\n",
    ),
];

#[test]
fn files_without_an_image_are_refused(rt: HostRuntime) -> Result<(), Fail> {
    let alloc = rt.alloc();
    for (front, kind, at, text) in REFUSED {
        let mut shelf = shelf_with(alloc, front)?;
        let (status, lines) = carried_out(alloc, &WORDS, &mut shelf)?;
        let error = GerberError { kind, at };
        let role = Role::Front;
        assert_eq!(rt; status, Status::Gerber { role, error });
        assert_eq!(rt; status.number(), 4);
        assert_eq!(rt; lines.as_slice(), text.as_bytes());
        assert!(rt; shelf.get("front.ngc").is_none());
    }
    Ok(())
}

#[test]
fn inputs_that_are_not_read_are_told(rt: HostRuntime) -> Result<(), Fail> {
    let alloc = rt.alloc();
    let role = Role::Front;
    let (status, lines) = carried_out(alloc, &WORDS, &mut MemoryShelf::new(alloc))?;
    assert_eq!(rt; status, Status::ReadFault { role });
    assert_eq!(rt; status.number(), 8);
    assert_eq!(rt; lines.as_slice(), b"pcbmill: read front\n".as_slice());

    let mut shelf = two_discs(alloc)?;
    shelf.fail_read(1);
    let (status, lines) = carried_out(alloc, &WORDS, &mut shelf)?;
    assert_eq!(rt; status, Status::ReadFault { role });
    assert_eq!(rt; lines.as_slice(), b"pcbmill: read front\n".as_slice());

    let mut shelf = shelf_with(alloc, &vec![in alloc; b' '; 16_777_217]?)?;
    let (status, lines) = carried_out(alloc, &WORDS, &mut shelf)?;
    assert_eq!(rt; status, Status::TooLong { role });
    assert_eq!(rt; status.number(), 7);
    assert_eq!(rt; lines.as_slice(), b"pcbmill: long front\n".as_slice());
    Ok(())
}

#[test]
fn files_that_are_not_written_are_told(rt: HostRuntime) -> Result<(), Fail> {
    let alloc = rt.alloc();
    for (write, role, text, has_program) in [
        (1, Role::Front, "pcbmill: write front\n", false),
        (2, Role::Report, "pcbmill: write report\n", true),
    ] {
        let mut shelf = two_discs(alloc)?;
        shelf.fail_write(write);
        let (status, lines) = carried_out(alloc, &WORDS, &mut shelf)?;
        assert_eq!(rt; status, Status::WriteFault { role });
        assert_eq!(rt; status.number(), 9);
        assert_eq!(rt; lines.as_slice(), text.as_bytes());
        assert_eq!(rt; shelf.get("front.ngc").is_some(), has_program);
        assert!(rt; shelf.get("report.txt").is_none());
    }
    Ok(())
}

#[test]
fn lines_that_are_not_put_are_told(rt: HostRuntime) -> Result<(), Fail> {
    let alloc = rt.alloc();
    let mut shelf = two_discs(alloc)?;
    let (status, lines) = with_a_put_that_fails(alloc, &WORDS, &mut shelf, 1)?;
    assert_eq!(rt; status, Status::WriteFault { role: Role::Lines });
    assert_eq!(rt; status.number(), 9);
    assert_eq!(rt; lines.as_slice(), b"pcbmill: write lines\n".as_slice());
    assert!(rt; shelf.get("front.ngc").is_some());
    assert!(rt; shelf.get("report.txt").is_some());

    let (status, lines) = with_a_put_that_fails(alloc, &WORDS, &mut shelf, 2)?;
    assert_eq!(rt; status, Status::Done);
    assert_eq!(rt; lines.as_slice(), b"pcbmill: ok\n".as_slice());

    let (status, lines) = with_a_put_that_fails(alloc, &["mill"], &mut shelf, 1)?;
    assert_eq!(rt; status, Status::Usage { word: 2 });
    assert!(rt; lines.is_empty());
    Ok(())
}
