//! Whole roots, and quotients to the nearest.
ghost use Rattle.std.specs.Prelude.{◌≡◌, ◌+◌, ◌*◌, ◌<◌, ◌≤◌, ◌^◌, pos, neg_ℤ, ◌<ℤ◌};
ghost use Rattle.fixed_num.specs.Rounding.{rounded as rounded_of, round_div_of, IsNearest};

/// The greatest whole number whose square is at most `n`.
pub fn isqrt(n: u128) -> u128
    ensures square { result * result ≤ n }
    ensures next { n < (result + 1) * (result + 1) }
    ensures bound { result < 2 ^ 64 }
{
    n.isqrt()
}

// The quotient of two sizes to the nearest, half up.
fn rounded(a: u128, b: u128) -> u128
    requires { 0 < b }
    ensures value { result ≡ rounded_of a b }
    ensures bound { result ≤ a }
{
    let cut = a / b;
    let rest = a % b;
    if rest >= b - rest { cut + 1 } else { cut }
}

// A size below zero.
fn negative(size: u128) -> i128
    requires { size ≤ 2 ^ 127 }
    ensures { result ≡ neg_ℤ (pos size) }
{
    if size == 0 {
        0
    } else {
        -1 - (size - 1) as i128
    }
}

/// The quotient of `a` by `b` to the nearest whole number, half away from zero, as 3 for 5 by 2 and -3 for -5 by 2.
#[tactic(auto, unfolding(crate::specs::Rounding::round_div_of))]
pub fn round_div(a: i128, b: i128) -> i128
    requires { pos 0 <ℤ b }
    ensures value { result ≡ round_div_of a b }
    ensures nearest { IsNearest a b result }
{
    let size = rounded(a.unsigned_abs(), b.unsigned_abs());
    if a < 0 { negative(size) } else { size as i128 }
}
