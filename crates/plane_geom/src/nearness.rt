// Whether a point is near a segment, by exact products of 128 bits.
ghost use Rattle.std.specs.Prelude.{◌≡◌, ℤ, ℕ, pos, ◌≤ℤ◌, ◌-ℤ◌, ◌+ℤ◌, ◌*ℤ◌, ◌<◌, ◌≤◌, ◌*◌, ◌+◌, ◌^◌, unsigned_abs, int_le};
ghost use Rattle.board_base.specs.Places.{IsNearPlace, IsNearCoordinate, IsSpan};
ghost use Rattle.board_base.specs.Near.{near_of, near_vec, dot as dot_of, cross as cross_of, square, area_by, fits_four_times, is_short as is_short_of, is_beside as is_beside_of, from_to};

use board_base::Point;

// The product, where it fits.
fn times(a: i128, b: i128) -> i128
    requires { unsigned_abs a * unsigned_abs b < 2 ^ 127 }
    ensures value { result ≡ a *ℤ b }
    ensures size { unsigned_abs result ≡ unsigned_abs a * unsigned_abs b }
{
    a * b
}

// The sum, where it fits.
fn plus(a: i128, b: i128) -> i128
    requires { unsigned_abs a + unsigned_abs b < 2 ^ 127 }
    ensures value { result ≡ a +ℤ b }
    ensures size { unsigned_abs result ≤ unsigned_abs a + unsigned_abs b }
{
    a + b
}

// The difference, where it fits.
fn minus(a: i128, b: i128) -> i128
    requires { unsigned_abs a + unsigned_abs b < 2 ^ 127 }
    ensures value { result ≡ a -ℤ b }
    ensures size { unsigned_abs result ≤ unsigned_abs a + unsigned_abs b }
{
    a - b
}

// The order as a value.
fn at_most(a: i128, b: i128) -> bool
    ensures { result ≡ int_le a b }
{
    a <= b
}

// From one coordinate to another.
#[tactic(auto, unfolding(board_base::specs::Near::from_to))]
fn span(from: i64, to: i64) -> i128
    requires from { IsNearCoordinate from }
    requires to { IsNearCoordinate to }
    ensures value { result ≡ from_to from to }
    ensures size { unsigned_abs result ≤ 1000200000 }
{
    (to - from) as i128
}

// The product of two spans.
fn product(a: i128, b: i128) -> i128
    requires a { unsigned_abs a ≤ 1000200000 }
    requires b { unsigned_abs b ≤ 1000200000 }
    ensures value { result ≡ a *ℤ b }
    ensures size { unsigned_abs result ≤ 1000400040000000000 }
{
    times(a, b)
}

// The scalar product of two spans.
#[tactic(auto, unfolding(board_base::specs::Near::dot))]
fn dot(ax: i128, ay: i128, bx: i128, by: i128) -> i128
    requires ax { unsigned_abs ax ≤ 1000200000 }
    requires ay { unsigned_abs ay ≤ 1000200000 }
    requires bx { unsigned_abs bx ≤ 1000200000 }
    requires by { unsigned_abs by ≤ 1000200000 }
    ensures value { result ≡ dot_of ax ay bx by }
    ensures size { unsigned_abs result ≤ 2000800080000000000 }
{
    plus(product(ax, bx), product(ay, by))
}

// The cross product of two spans.
#[tactic(auto, unfolding(board_base::specs::Near::cross))]
fn cross(ax: i128, ay: i128, bx: i128, by: i128) -> i128
    requires ax { unsigned_abs ax ≤ 1000200000 }
    requires ay { unsigned_abs ay ≤ 1000200000 }
    requires bx { unsigned_abs bx ≤ 1000200000 }
    requires by { unsigned_abs by ≤ 1000200000 }
    ensures value { result ≡ cross_of ax ay bx by }
    ensures size { unsigned_abs result ≤ 2000800080000000000 }
{
    minus(product(ax, by), product(ay, bx))
}

// Four times the number is at most the limit.
#[tactic(auto, unfolding(board_base::specs::Near::fits_four_times))]
fn four_within(n: i128, limit: i128) -> bool
    requires { unsigned_abs n ≤ 4003200960128006400000000000000000000 }
    ensures { result ≡ fits_four_times n limit }
{
    at_most(times(4, n), limit)
}

#[tactic(auto, unfolding(board_base::specs::Near::square))]
fn square_of_area(n: i128) -> i128
    requires { unsigned_abs n ≤ 2000800080000000000 }
    ensures value { result ≡ square n }
    ensures size { unsigned_abs result ≤ 4003200960128006400000000000000000000 }
{
    times(n, n)
}

#[tactic(auto, unfolding(board_base::specs::Near::square))]
fn square_of_width(n: i64) -> i128
    requires { unsigned_abs n ≤ 4000000000 }
    ensures value { result ≡ square n }
    ensures size { unsigned_abs result ≤ 16000000000000000000 }
{
    times(n as i128, n as i128)
}

#[tactic(auto, unfolding(board_base::specs::Near::area_by))]
fn scaled(limit: i128, area: i128) -> i128
    requires limit { unsigned_abs limit ≤ 16000000000000000000 }
    requires area { unsigned_abs area ≤ 2000800080000000000 }
    ensures value { result ≡ area_by limit area }
{
    times(limit, area)
}

// Twice the length of a span is at most `d`.
#[tactic(auto, unfolding(board_base::specs::Near::is_short))]
fn is_short(x: i128, y: i128, d: i64) -> bool
    requires x { unsigned_abs x ≤ 1000200000 }
    requires y { unsigned_abs y ≤ 1000200000 }
    requires d { unsigned_abs d ≤ 4000000000 }
    ensures { result ≡ is_short_of x y d }
{
    four_within(dot(x, y, x, y), square_of_width(d))
}

// Twice the distance of `w` from the line along `u` is at most `d`.
#[tactic(auto, unfolding(board_base::specs::Near::is_beside))]
fn is_beside(ux: i128, uy: i128, wx: i128, wy: i128, d: i64) -> bool
    requires ux { unsigned_abs ux ≤ 1000200000 }
    requires uy { unsigned_abs uy ≤ 1000200000 }
    requires wx { unsigned_abs wx ≤ 1000200000 }
    requires wy { unsigned_abs wy ≤ 1000200000 }
    requires d { unsigned_abs d ≤ 4000000000 }
    ensures { result ≡ is_beside_of ux uy wx wy d }
{
    four_within(
        square_of_area(cross(ux, uy, wx, wy)),
        scaled(square_of_width(d), dot(ux, uy, ux, uy)),
    )
}

// `near` by the spans from the ends.
#[tactic(auto, unfolding(board_base::specs::Near::near_vec))]
fn near_by_spans(ux: i128, uy: i128, wx: i128, wy: i128, vx: i128, vy: i128, d: i64) -> bool
    requires ux { unsigned_abs ux ≤ 1000200000 }
    requires uy { unsigned_abs uy ≤ 1000200000 }
    requires wx { unsigned_abs wx ≤ 1000200000 }
    requires wy { unsigned_abs wy ≤ 1000200000 }
    requires vx { unsigned_abs vx ≤ 1000200000 }
    requires vy { unsigned_abs vy ≤ 1000200000 }
    requires d { unsigned_abs d ≤ 4000000000 }
    ensures { result ≡ near_vec ux uy wx wy vx vy d }
{
    let uu = dot(ux, uy, ux, uy);
    let s = dot(wx, wy, ux, uy);
    if at_most(uu, 0) {
        is_short(wx, wy, d)
    } else if at_most(s, 0) {
        is_short(wx, wy, d)
    } else if at_most(uu, s) {
        is_short(vx, vy, d)
    } else {
        is_beside(ux, uy, wx, wy, d)
    }
}

/// Whether twice the distance of `q` from the segment `ab` is at most `d`, all in nanometres.
pub fn near(q: Point, a: Point, b: Point, d: i64) -> bool
    requires q { IsNearPlace q }
    requires a { IsNearPlace a }
    requires b { IsNearPlace b }
    requires d { IsSpan d }
    ensures { result ≡ near_of q a b d }
{
    let ux = span(a.x, b.x);
    let uy = span(a.y, b.y);
    let wx = span(a.x, q.x);
    let wy = span(a.y, q.y);
    let vx = span(b.x, q.x);
    let vy = span(b.y, q.y);
    near_by_spans(ux, uy, wx, wy, vx, vy, d)
}
