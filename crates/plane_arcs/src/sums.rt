//! Exact sums of two products.
ghost use Rattle.std.specs.Prelude.{◌≡◌, ◌≤◌, ◌+ℤ◌, ◌-ℤ◌, unsigned_abs};

// The sum of two products. None is above the square of 10^17.
pub(crate) fn plus(a: i128, b: i128) -> i128
    requires a { unsigned_abs a ≤ 10000000000000000000000000000000000 }
    requires b { unsigned_abs b ≤ 10000000000000000000000000000000000 }
    ensures { result ≡ a +ℤ b }
{
    a + b
}

// Their difference.
pub(crate) fn minus(a: i128, b: i128) -> i128
    requires a { unsigned_abs a ≤ 10000000000000000000000000000000000 }
    requires b { unsigned_abs b ≤ 10000000000000000000000000000000000 }
    ensures { result ≡ a -ℤ b }
{
    a - b
}
