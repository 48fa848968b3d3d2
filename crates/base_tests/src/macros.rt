// What the texts of macros' apertures stand for, worked out by hand.
use crate::drawn::{Seen, disc, four, own_shape, seen};
use apertures::{ApertureError, Macros, NamedMacro, Unit, define};
use board_base::Items;
use macro_eval::{MacroFault, read_macro};
use std::alloc::Global;
use std::test::Fail;

// The pieces of an aperture of a macro `M` with this body.
fn painted(alloc: Global, body: &[u8], bytes: &[u8]) -> Result<Vec<Seen>, Fail> {
    let mut macros = Macros::empty(alloc);
    macros.push(NamedMacro {
        name: Items::of(b"M".to_vec(alloc)?),
        body: read_macro(alloc, body)?,
    })?;
    let a = define(alloc, bytes, Unit::Mm, &macros)?;
    Ok(seen(alloc, &own_shape(alloc, &a)?)?)
}

#[test]
fn an_octagon_macro_is_defined(rt: HostRuntime) -> Result<(), Fail> {
    let parts = painted(rt.alloc(), b"5,1,8,0,0,1.08239X$1,22.5", b"M,1")?;
    assert_eq!(rt; parts.len(), 8);
    assert_eq!(rt;
        parts[0],
        (true, (499_999, 207_106), (207_106, 499_999), -1)
    );
    Ok(())
}

#[test]
fn a_rounded_rectangle_is_defined(rt: HostRuntime) -> Result<(), Fail> {
    let body = b"4,1,4,$2,$3,$4,$5,$6,$7,$8,$9,$2,$3,0\
        *1,1,$1+$1,$2,$3*1,1,$1+$1,$4,$5*1,1,$1+$1,$6,$7*1,1,$1+$1,$8,$9\
        *20,1,$1+$1,$2,$3,$4,$5,0*20,1,$1+$1,$4,$5,$6,$7,0\
        *20,1,$1+$1,$6,$7,$8,$9,0*20,1,$1+$1,$8,$9,$2,$3,0";
    let bytes = b"M,0.25X-0.5X0.25X-0.5X-0.25X0.5X-0.25X0.5X0.25X0";
    let parts = painted(rt.alloc(), body, bytes)?;
    let [w, s, e, n] = [
        (-500_000, 250_000),
        (-500_000, -250_000),
        (500_000, -250_000),
        (500_000, 250_000),
    ];
    let discs = [w, s, e, n].map(|c| (true, c, c, 500_000));
    assert_eq!(rt; parts.len(), 24);
    assert_eq!(rt; &parts[..4], four(w, s, e, n).as_slice());
    assert_eq!(rt; &parts[4..8], discs.as_slice());
    // Half of the width, 250,000 nm, to either side of the left edge.
    let left = four(
        (-250_000, 250_000),
        (-250_000, -250_000),
        (-750_000, -250_000),
        (-750_000, 250_000),
    );
    assert_eq!(rt; &parts[8..12], left.as_slice());
    Ok(())
}

#[test]
fn a_thermal_is_on_and_off(rt: HostRuntime) -> Result<(), Fail> {
    let parts = painted(rt.alloc(), b"7,0,0,1,0.5,0.2,90", b"M")?;
    let first = [disc(true, 1_000_000), disc(false, 500_000)];
    assert_eq!(rt; parts.len(), 10);
    assert_eq!(rt; &parts[..2], first.as_slice());
    // The upright bar, 0.2 mm by 1 mm, lies down after the turn.
    assert_eq!(rt;
        parts[2],
        (false, (-500_000, 100_000), (-500_000, -100_000), -1)
    );
    Ok(())
}

#[test]
fn the_last_macro_of_a_name_counts(rt: HostRuntime) -> Result<(), Fail> {
    let alloc = rt.alloc();
    let mut macros = Macros::empty(alloc);
    for (name, body) in [
        (b"M".as_slice(), b"1,1,1,0,0".as_slice()),
        (b"N", b"1,1,2,0,0"),
        (b"M", b"1,1,3,0,0"),
    ] {
        macros.push(NamedMacro {
            name: Items::of(name.to_vec(alloc)?),
            body: read_macro(alloc, body)?,
        })?;
    }
    for (bytes, d) in [(b"M".as_slice(), 3_000_000), (b"N", 2_000_000)] {
        let a = define(alloc, bytes, Unit::Mm, &macros)?;
        let parts = seen(alloc, &own_shape(alloc, &a)?)?;
        assert_eq!(rt; parts.as_slice(), [disc(true, d)].as_slice(), "{bytes:?}");
    }
    Ok(())
}

#[test]
fn macros_have_their_faults(rt: HostRuntime) -> Result<(), Fail> {
    let alloc = rt.alloc();
    for (body, bytes, fault) in [
        (
            b"1,1,$1/0,0,0".as_slice(),
            b"M,1".as_slice(),
            Some(ApertureError::Macro(MacroFault::ZeroDivisor)),
        ),
        (b"1,1,1,0,0", b"N", Some(ApertureError::Syntax)),
        (b"1,1,1,0,0", b"M,", Some(ApertureError::Syntax)),
        (b"1,1,1,600,0", b"M", Some(ApertureError::OutOfRange)),
        (b"1,1,1000.1,0,0", b"M", Some(ApertureError::OutOfRange)),
        (b"1,1,1,600,0,45", b"M", None),
    ] {
        let mut macros = Macros::empty(alloc);
        macros.push(NamedMacro {
            name: Items::of(b"M".to_vec(alloc)?),
            body: read_macro(alloc, body)?,
        })?;
        let refused = define(alloc, bytes, Unit::Mm, &macros).err();
        assert_eq!(rt; refused, fault, "{body:?}");
    }
    Ok(())
}
