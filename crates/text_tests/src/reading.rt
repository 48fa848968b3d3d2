// Programs that are read, and each fault of a line once.
use ngc_reader::{NgcError, NgcKind, read_program};
use rs274_sim::Value;
use std::test::Fail;

#[test]
fn lines_have_words_and_settings(rt: HostRuntime) -> Result<(), Fail> {
    let alloc = rt.alloc();
    let lines = read_program(alloc, b"%\r\nN10 g1 x[1+2*#5] (a) y-.5;b\n\n#101 = #5063")?;
    assert_eq!(rt; lines.len(), 4);
    assert_eq!(rt; lines[0].words.len(), 0);
    assert_eq!(rt; lines[1].words.len(), 3);
    let words = lines[1].words.inner();
    assert_eq!(rt; words[1].letter, b'X');
    assert!(rt; matches!(&words[1].value, Value::Expr(_)));
    assert!(rt; matches!(&words[2].value, Value::Num(n) if *n == -500_000_000_000));
    assert_eq!(rt; lines[2].words.len(), 0);
    assert_eq!(rt; lines[3].settings.len(), 1);
    assert_eq!(rt; lines[3].settings.inner()[0].0, 101);
    Ok(())
}

#[test]
fn faults_of_lines(rt: HostRuntime) -> Result<(), Fail> {
    let alloc = rt.alloc();
    let rows: [(&[u8], NgcKind, u32); 8] = [
        (&[b' '; 257], NgcKind::LongLine, 1),
        (b"G0\nX1.2.3\n", NgcKind::BadNumber, 2),
        (b"X[5]\n", NgcKind::BadExpression, 1),
        (b"X[[[[[[[[[[[[[[[[[1+1]\n", NgcKind::TooDeep, 1),
        (b"\n\nG0 (a\n", NgcKind::OpenComment, 3),
        (b"#5400=1\n", NgcKind::BadParameter, 1),
        (b"G1 N5\n", NgcKind::BadByte, 1),
        (b"X0.0000000000001\n", NgcKind::TooFine, 1),
    ];
    for (text, kind, line) in rows {
        assert!(rt; text.len() < 300);
        assert_eq!(rt;
            read_program(alloc, text).err(),
            Some(NgcError { kind, line })
        );
    }
    Ok(())
}
