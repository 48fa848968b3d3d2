//! Sine and cosine by one rule that computes in whole numbers alone.
ghost use Rattle.std.specs.Prelude.{◌≡◌, ℤ, ◌+◌, ◌*◌, ◌<◌, ◌≤◌, pos, unsigned_abs};
ghost use Rattle.fixed_num.specs.Angles.{scaled as scaled_of, arc as arc_of, sine_series as sine_series_of, cosine_series as cosine_series_of, quarter_sine as quarter_sine_of, quarter_cosine as quarter_cosine_of, in_turn as in_turn_of, sine_of, cosine_of};

// 1 in units of 10^-12.
const ONE: u128 = 1_000_000_000_000;

// The product of two numbers in 10^-12, cut.
#[tactic(auto, unfolding(crate::specs::Angles::scaled))]
fn scaled(a: u128, b: u128) -> u128
    requires a { a ≤ 1000000000000 }
    requires b { b ≤ 1000000000000 }
    ensures value { result ≡ scaled_of a b }
    ensures below { result ≤ a }
{
    a * b / ONE
}

// The length of the arc of an angle, in 10^-12.
#[tactic(auto, unfolding(crate::specs::Angles::arc))]
fn arc(angle: u64) -> u128
    requires { angle ≤ 45000000 }
    ensures value { result ≡ arc_of angle }
    ensures bound { result ≤ 1000000000000 }
{
    angle as u128 * 17_453_292_520 / 1_000_000
}

// The first terms of the sine's series.
#[tactic(auto, unfolding(crate::specs::Angles::sine_series))]
fn sine_series(x: u128) -> i64
    requires { x ≤ 1000000000000 }
    ensures value { result ≡ sine_series_of x }
    ensures size { unsigned_abs result ≤ 1000000000000 }
{
    let x2 = scaled(x, x);
    let x3 = scaled(x2, x);
    let x4 = scaled(x3, x);
    let x5 = scaled(x4, x);
    let x6 = scaled(x5, x);
    let x7 = scaled(x6, x);
    let x8 = scaled(x7, x);
    let x9 = scaled(x8, x);
    (x - x3 / 6 + x5 / 120 - x7 / 5_040 + x9 / 362_880) as i64
}

// The first terms of the cosine's series.
#[tactic(auto, unfolding(crate::specs::Angles::cosine_series))]
fn cosine_series(x: u128) -> i64
    requires { x ≤ 1000000000000 }
    ensures value { result ≡ cosine_series_of x }
    ensures size { unsigned_abs result ≤ 1000000000000 }
{
    let x2 = scaled(x, x);
    let x3 = scaled(x2, x);
    let x4 = scaled(x3, x);
    let x5 = scaled(x4, x);
    let x6 = scaled(x5, x);
    let x7 = scaled(x6, x);
    let x8 = scaled(x7, x);
    (ONE - x2 / 2 + x4 / 24 - x6 / 720 + x8 / 40_320) as i64
}

// The sine of an angle of the first quarter.
#[tactic(auto, unfolding(crate::specs::Angles::quarter_sine))]
fn quarter_sine(angle: u64) -> i64
    requires { angle < 90000000 }
    ensures value { result ≡ quarter_sine_of angle }
    ensures size { unsigned_abs result ≤ 1000000000000 }
{
    if angle <= 45_000_000 {
        sine_series(arc(angle))
    } else {
        cosine_series(arc(90_000_000 - angle))
    }
}

// The cosine of an angle of the first quarter.
#[tactic(auto, unfolding(crate::specs::Angles::quarter_cosine))]
fn quarter_cosine(angle: u64) -> i64
    requires { angle < 90000000 }
    ensures value { result ≡ quarter_cosine_of angle }
    ensures size { unsigned_abs result ≤ 1000000000000 }
{
    if angle <= 45_000_000 {
        cosine_series(arc(angle))
    } else {
        sine_series(arc(90_000_000 - angle))
    }
}

// The angle in the first turn.
#[tactic(auto, unfolding(crate::specs::Angles::in_turn))]
fn in_turn(angle: i64) -> u64
    ensures value { result ≡ in_turn_of angle }
    ensures bound { result < 360000000 }
{
    angle.rem_euclid(360_000_000) as u64
}

/// The sine of an angle in millionths of a degree, in 10^-12. Multiples of 90 degrees are exact.
#[tactic(auto, unfolding(crate::specs::Angles::sine_of))]
pub fn sine(angle: i64) -> i64
    ensures value { result ≡ sine_of angle }
    ensures size { unsigned_abs result ≤ 1000000000000 }
{
    let turn = in_turn(angle);
    let rest = turn % 90_000_000;
    match turn / 90_000_000 {
        0 => quarter_sine(rest),
        1 => quarter_cosine(rest),
        2 => -quarter_sine(rest),
        _ => -quarter_cosine(rest),
    }
}

/// The cosine of an angle in millionths of a degree, in 10^-12. Multiples of 90 degrees are exact.
#[tactic(auto, unfolding(crate::specs::Angles::cosine_of))]
pub fn cosine(angle: i64) -> i64
    ensures value { result ≡ cosine_of angle }
    ensures size { unsigned_abs result ≤ 1000000000000 }
{
    let turn = in_turn(angle);
    let rest = turn % 90_000_000;
    match turn / 90_000_000 {
        0 => quarter_cosine(rest),
        1 => -quarter_sine(rest),
        2 => -quarter_cosine(rest),
        _ => quarter_sine(rest),
    }
}
