// A layer that is cut off at each of its bytes.
use board_base::Role;
use mill_top::{GerberError, GerberKind, Status};
use std::test::Fail;
use trial_runs::{TRACK, carried_out, shelf_with};

const WORDS: [&str; 4] = ["mill", "-", "--front=a.gbr", "--pitch=0.1"];

// Each line is one command: one that is cut has no end, and behind whole ones the file has none.
#[test]
fn a_layer_that_is_cut_off_is_refused_where_it_ends(rt: HostRuntime) -> Result<(), Fail> {
    let alloc = rt.alloc();
    let role = Role::Front;
    let mut start = 0;
    for length in 0..TRACK.len() - 1 {
        if length > 0 && TRACK[length - 1] == b'\n' {
            start = length;
        }
        let error = if length == start || TRACK[length] == b'\n' {
            GerberError {
                kind: GerberKind::NoEnd,
                at: length,
            }
        } else {
            GerberError {
                kind: GerberKind::Syntax,
                at: start,
            }
        };
        let mut shelf = shelf_with(alloc, &TRACK[..length])?;
        let (status, _) = carried_out(alloc, &WORDS, &mut shelf)?;
        assert_eq!(rt; status, Status::Gerber { role, error });
        assert!(rt; shelf.get("report.txt").is_none());
    }
    Ok(())
}
