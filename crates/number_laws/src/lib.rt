//! Laws of the whole numbers, for the proofs of other crates: equations of polynomials by one call of
//! `ring` (proofs/Ring), the order of products (proofs/Order), squares (proofs/Squares), tests
//! (proofs/Tests) and quotients (proofs/Quotients); and exact sums and products of 64-bit numbers.
//! A law may be added; none may become weaker.
#![tactic(auto)]

ghost use Rattle.std.specs.Prelude.{◌≡◌, ℤ, ◌+ℤ◌, ◌-ℤ◌, ◌*ℤ◌, ◌*◌, ◌≤◌, ◌+◌, unsigned_abs};
ghost use Rattle.number_laws.specs.Whole.{Laws};

/// The laws of products and of their order that the other laws here rest on.
pub fn whole_laws()
    ensures { Laws }
{}

/// The exact product of two numbers.
pub fn product(a: i64, b: i64) -> i128
    ensures value { result ≡ a *ℤ b }
    ensures size { unsigned_abs result ≡ unsigned_abs a * unsigned_abs b }
{
    a as i128 * b as i128
}

/// The exact sum of two numbers.
pub fn sum(a: i64, b: i64) -> i128
    ensures value { result ≡ a +ℤ b }
    ensures size { unsigned_abs result ≤ unsigned_abs a + unsigned_abs b }
{
    a as i128 + b as i128
}

/// The exact difference of two numbers.
pub fn difference(a: i64, b: i64) -> i128
    ensures value { result ≡ a -ℤ b }
    ensures size { unsigned_abs result ≤ unsigned_abs a + unsigned_abs b }
{
    a as i128 - b as i128
}
