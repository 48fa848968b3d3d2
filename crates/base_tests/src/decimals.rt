use fixed_num::{
    NumError, SignMark, cosine, cut_decimal, isqrt, read_decimal, round_div, sine, split_decimal,
    write_fixed6,
};
use std::alloc::Global;
use std::process::Abort;
use std::test::Fail;

fn reads(rt: &impl Abort, bytes: &[u8], scale: u32, expected: Result<i128, NumError>) {
    assert!(rt; scale <= 12);
    assert_eq!(rt; read_decimal(bytes, scale), expected);
}

fn cuts(rt: &impl Abort, bytes: &[u8], scale: u32, expected: Result<i128, NumError>) {
    assert!(rt; scale <= 12);
    assert_eq!(rt; cut_decimal(bytes, scale), expected);
}

#[test]
fn numbers_are_read(rt: HostRuntime) {
    reads(&rt, b"1", 6, Ok(1_000_000));
    reads(&rt, b"-.5", 1, Ok(-5));
    reads(&rt, b"+2.", 2, Ok(200));
    reads(&rt, b"0.1000", 1, Ok(1));
    reads(
        &rt,
        b"999999999999999999.999999999999",
        12,
        Ok(999_999_999_999_999_999_999_999_999_999),
    );
    cuts(&rt, b"-1.29", 1, Ok(-12));
    cuts(&rt, b"0.1001", 12, Ok(100_100_000_000));
}

#[test]
fn others_are_refused(rt: HostRuntime) {
    reads(&rt, b"", 3, Err(NumError::NotNumber));
    reads(&rt, b"-", 3, Err(NumError::NotNumber));
    reads(&rt, b".", 3, Err(NumError::NotNumber));
    reads(&rt, b"1.2.3", 3, Err(NumError::NotNumber));
    reads(&rt, b"1234567890123456789.5", 0, Err(NumError::TooLong));
    reads(&rt, b"0.1001", 1, Err(NumError::TooFine { decimals: 4 }));
    cuts(&rt, b"1234567890123456789", 0, Err(NumError::TooLong));
}

#[test]
fn decimals_are_split(rt: HostRuntime) -> Result<(), Fail> {
    let text = split_decimal(b"-1.50").ok_or("a decimal")?;
    assert_eq!(rt; text.sign, SignMark::Minus);
    assert_eq!(rt; text.whole, b"1".as_slice());
    assert_eq!(rt; text.decimals(), b"50".as_slice());
    Ok(())
}

fn written(alloc: Global, v: i64) -> Result<Vec<u8>, Fail> {
    let mut out = b"X".to_vec(alloc)?;
    write_fixed6(alloc, &mut out, v)?;
    Ok(out)
}

#[test]
fn millionths_are_written(rt: HostRuntime) -> Result<(), Fail> {
    let alloc = rt.alloc();
    assert_eq!(rt; written(alloc, 0)?.as_slice(), b"X0.000000".as_slice());
    assert_eq!(rt; written(alloc, 1)?.as_slice(), b"X0.000001".as_slice());
    assert_eq!(rt; written(alloc, -1)?.as_slice(), b"X-0.000001".as_slice());
    assert_eq!(rt;
        written(alloc, 1_000_000)?.as_slice(),
        b"X1.000000".as_slice()
    );
    assert_eq!(rt;
        written(alloc, -300_000)?.as_slice(),
        b"X-0.300000".as_slice()
    );
    assert_eq!(rt;
        written(alloc, i64::MIN)?.as_slice(),
        b"X-9223372036854.775808".as_slice()
    );
    Ok(())
}

#[test]
fn roots_are_cut(rt: HostRuntime) {
    for (n, root) in [
        (0_u128, 0_u128),
        (1, 1),
        (3, 1),
        (4, 2),
        (99, 9),
        (100, 10),
        (u128::MAX, (1 << 64) - 1),
    ] {
        assert_eq!(rt; isqrt(n), root, "of {n}");
    }
}

fn rounds(rt: &impl Abort, a: i128, b: i128, expected: i128) {
    assert!(rt; b > 0);
    assert_eq!(rt; round_div(a, b), expected, "{a} by {b}");
}

#[test]
fn quotients_are_rounded_away_from_zero(rt: HostRuntime) {
    for (a, b, q) in [
        (4_i128, 3_i128, 1_i128),
        (5, 3, 2),
        (5, 2, 3),
        (0, 7, 0),
        (1, 3, 0),
        (499, 1000, 0),
        (500, 1000, 1),
    ] {
        rounds(&rt, a, b, q);
        rounds(&rt, -a, b, -q);
    }
    rounds(&rt, i128::MIN, 1, i128::MIN);
    rounds(&rt, i128::MAX, i128::MAX, 1);
    rounds(&rt, i128::MAX, 2, 1 << 126);
}

// The sines and cosines of these angles were worked out by another program from the rule alone.
#[test]
fn sines_follow_the_rule(rt: HostRuntime) {
    for (angle, s, c) in [
        (0_i64, 0_i64, 1_000_000_000_000_i64),
        (1, 17_453, 1_000_000_000_000),
        (-1, -17_453, 1_000_000_000_000),
        (30_000_000, 500_000_000_022, 866_025_404_209),
        (45_000_000, 707_106_782_938, 707_106_805_682),
        (45_000_001, 707_106_818_023, 707_106_770_597),
        (60_000_000, 866_025_404_209, 500_000_000_022),
        (90_000_000, 1_000_000_000_000, 0),
        (123_456_789, 834_301_842_792, -551_307_933_283),
        (180_000_000, 0, -1_000_000_000_000),
        (210_000_000, -500_000_000_022, -866_025_404_209),
        (270_000_000, -1_000_000_000_000, 0),
        (330_000_000, -500_000_000_022, 866_025_404_209),
        (360_000_000, 0, 1_000_000_000_000),
        (-90_000_000, -1_000_000_000_000, 0),
        (i64::MIN, -816_901_440_574, 576_777_288_031),
        (i64::MAX, 816_901_430_508, 576_777_302_287),
    ] {
        assert_eq!(rt; (sine(angle), cosine(angle)), (s, c), "of {angle}");
    }
}
