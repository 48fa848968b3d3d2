//! Writing millionths with six decimals.
ghost use Rattle.std.specs.Prelude.{◌≡◌, ◌++◌, IfOk, OnOk, OnErr};
ghost use Rattle.fixed_num.specs.Fixed.{fixed6, six_digits};

use itoa::Buffer;
use std::alloc::{AllocError, Global};

// The last six digits of a number.
fn six_digits(n: u64) -> [u8; 6]
    ensures { result ≡ six_digits n }
{
    [
        b'0' + (n / 100_000 % 10) as u8,
        b'0' + (n / 10_000 % 10) as u8,
        b'0' + (n / 1_000 % 10) as u8,
        b'0' + (n / 100 % 10) as u8,
        b'0' + (n / 10 % 10) as u8,
        b'0' + (n % 10) as u8,
    ]
}

// The text of a number of millionths.
fn fixed6_text(alloc: Global, v: i64) -> Result<Vec<u8>, AllocError>
    ensures { IfOk result (λ text. text.items ≡ fixed6 v) }
{
    let size = v.unsigned_abs();
    let mut text = Vec::new(alloc);
    if v < 0 {
        text.push(b'-')?;
    }
    let mut buffer = Buffer::new();
    text.extend_from_slice(buffer.format(size / 1_000_000).as_bytes())?;
    text.push(b'.')?;
    text.extend_from_slice(&six_digits(size))?;
    Ok(text)
}

/// Appends `v` millionths to `out`: a `-` where `v` is negative, the whole part, a point and exactly six
/// decimals, as `-0.300000` for -300,000.
///
/// # Errors
///
/// `AllocError` where the memory doesn't suffice; `out` then holds what it held.
pub fn write_fixed6(alloc: Global, out: &mut Vec<u8>, v: i64) -> Result<(), AllocError>
    ensures ok { OnOk result (out.new.items ≡ out.old.items ++ fixed6 v) }
    ensures err { OnErr result (out.new.items ≡ out.old.items) }
{
    let text = fixed6_text(alloc, v)?;
    out.extend_from_slice(&text)
}
