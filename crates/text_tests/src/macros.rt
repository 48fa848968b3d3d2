// What bodies stand for, worked out by hand.
use macro_eval::{MacroFault, evaluate, read_macro};
use std::alloc::Global;
use std::process::Abort;
use std::test::Fail;

// The fault of a body for one argument, if it has one.
fn fault_of(alloc: Global, body: &[u8]) -> Option<MacroFault> {
    let m = match read_macro(alloc, body) {
        Ok(m) => m,
        Err(fault) => return Some(fault),
    };
    let mut arguments = Vec::new(alloc);
    if arguments.push(1_000_000_000).is_err() {
        return Some(MacroFault::Memory);
    }
    match evaluate(alloc, &m, &arguments) {
        Ok(_) => None,
        Err(fault) => Some(fault),
    }
}

#[test]
fn an_octagon_has_its_values(rt: HostRuntime) -> Result<(), Fail> {
    let alloc = rt.alloc();
    let m = read_macro(alloc, b"5,1,8,0,0,1.08239X$1,22.5")?;
    let mut arguments = Vec::new(alloc);
    arguments.push(1_000_000_000)?;
    let primitives = evaluate(alloc, &m, &arguments)?;
    assert_eq!(&rt; primitives.len(), 1);
    assert_eq!(&rt; primitives[0].code, 5);
    let values = [
        1_000_000_000,
        8_000_000_000,
        0,
        0,
        1_082_390_000,
        22_500_000_000,
    ];
    assert_eq!(&rt; primitives[0].values.inner().as_slice(), values.as_slice());
    Ok(())
}

#[test]
fn faults_come_in_order(rt: HostRuntime) -> Result<(), Fail> {
    let alloc = rt.alloc();
    assert_eq!(&rt; fault_of(alloc, b"0 any )(thing*1,1,$1,0,0"), None);
    assert_eq!(&rt;
        fault_of(alloc, b"1,1,$1/0,0,0"),
        Some(MacroFault::ZeroDivisor)
    );
    assert_eq!(&rt;
        fault_of(alloc, b"9,1/0"),
        Some(MacroFault::UnknownPrimitive { code: 9 })
    );
    assert_eq!(&rt;
        fault_of(alloc, b"1,5,1,0,1/0"),
        Some(MacroFault::ZeroDivisor)
    );
    assert_eq!(&rt;
        fault_of(alloc, b"1,1,2000000000/0,0,0"),
        Some(MacroFault::Overflow)
    );
    assert_eq!(&rt; fault_of(alloc, b""), Some(MacroFault::BadExpression));
    assert_eq!(&rt;
        fault_of(alloc, b"1,(1,(2)"),
        Some(MacroFault::BadExpression)
    );
    Ok(())
}
