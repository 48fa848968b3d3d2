// Bytes at the front.
ghost use Rattle.std.specs.Prelude.{◌≡◌, ◌≤◌, length, take, drop, not, IfOk};
ghost use Rattle.rs274_sim.specs.Text.{is_round as is_round_in, is_blank as is_blank_in, unblanked as unblanked_in};
ghost use Rattle.rs274_sim.specs.Reading.{front, behind, is_decimal_byte as is_decimal_byte_in};
ghost use Rattle.ngc_reader.specs.Views.{test_of};

use std::alloc::{AllocError, Global};

/// A class of bytes.
#[derive(Clone, Copy, Debug, PartialEq, Eq)]
pub enum Class {
    /// Digits.
    Digit,
    /// Digits and points.
    Decimal,
    /// All but round brackets.
    Comment,
}

// The byte is a digit or a point.
fn is_decimal_byte(byte: u8) -> bool
    ensures { result ≡ is_decimal_byte_in byte }
{
    byte.is_ascii_digit() || byte == b'.'
}

// The byte is a round bracket.
fn is_round(byte: u8) -> bool
    ensures { result ≡ is_round_in byte }
{
    byte == b'(' || byte == b')'
}

// The byte is in the class.
fn is_in(class: Class, byte: u8) -> bool
    ensures { result ≡ test_of class byte }
{
    match class {
        Class::Digit => byte.is_ascii_digit(),
        Class::Decimal => is_decimal_byte(byte),
        Class::Comment => !is_round(byte),
    }
}

/// How many bytes at the front are in the class.
pub fn front_length(class: Class, bytes: &[u8]) -> usize
    ensures front { take result bytes.now ≡ front (test_of class) bytes.now }
    ensures behind { drop result bytes.now ≡ behind (test_of class) bytes.now }
    ensures within { result ≤ length bytes.now }
{
    let mut n = 0;
    while n < bytes.len() && is_in(class, bytes[n]) {
        n += 1;
    }
    n
}

// The byte is a space or a tab.
fn is_blank(byte: u8) -> bool
    ensures { result ≡ is_blank_in byte }
{
    byte == b' ' || byte == b'\t'
}

/// The bytes without spaces and tabs.
pub fn unblanked(alloc: Global, bytes: &[u8]) -> Result<Vec<u8>, AllocError>
    ensures { IfOk result (λ plain. plain.items ≡ unblanked_in bytes.now) }
{
    bytes
        .iter()
        .copied()
        .filter(|b| !is_blank(*b))
        .collect(alloc)
}
