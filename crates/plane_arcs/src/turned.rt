//! Points in the range, and turns about the origin.
ghost use Rattle.std.specs.Prelude.{◌≡◌, ◌*◌, ◌≤◌, pos, ◌*ℤ◌, ◌+ℤ◌, ◌-ℤ◌, unsigned_abs, IfSome};
ghost use Rattle.board_base.specs.Places.{IsPlace};
ghost use Rattle.fixed_num.specs.Rounding.{round_div_of};
ghost use Rattle.plane_arcs.specs.Turned.{turned_x as turned_x_of, turned_y as turned_y_of, in_range, point_at as point_at_of, rotated};

use crate::sums::{minus, plus};
use board_base::Point;
use fixed_num::{cosine, round_div, sine};
use number_laws::product;

// A coordinate times a sine.
fn by_sine(v: i64, sine: i64) -> i128
    requires { unsigned_abs sine ≤ 1000000000000 }
    ensures value { result ≡ v *ℤ sine }
    ensures size { unsigned_abs result ≤ 9223372036854775808000000000000 }
{
    product(v, sine)
}

// The nearest whole number of 10^12 parts of a sum.
fn whole_of(v: i128) -> i128
    ensures { result ≡ round_div_of v (pos 1000000000000) }
{
    round_div(v, 1_000_000_000_000)
}

// The x of a turned point.
#[tactic(auto, unfolding(crate::specs::Turned::turned_x))]
fn turned_x(p: Point, angle: i64) -> i128
    ensures { result ≡ turned_x_of p angle }
{
    let along = by_sine(p.x, cosine(angle));
    let across = by_sine(p.y, sine(angle));
    whole_of(minus(along, across))
}

// The y of a turned point.
#[tactic(auto, unfolding(crate::specs::Turned::turned_y))]
fn turned_y(p: Point, angle: i64) -> i128
    ensures { result ≡ turned_y_of p angle }
{
    let across = by_sine(p.x, sine(angle));
    let along = by_sine(p.y, cosine(angle));
    whole_of(plus(across, along))
}

/// The point with these coordinates, in nanometres; `None` where one is above 500,000,000 in size.
#[tactic(auto, unfolding(crate::specs::Turned::in_range))]
pub fn point_at(x: i128, y: i128) -> Option<Point>
    ensures value { result ≡ point_at_of x y }
    ensures inside { IfSome result IsPlace }
{
    if x.unsigned_abs() <= 500_000_000 && y.unsigned_abs() <= 500_000_000 {
        Some(Point {
            x: x as i64,
            y: y as i64,
        })
    } else {
        None
    }
}

/// The point turned about the origin by an angle in millionths of a degree, counterclockwise, each coordinate to
/// the nearest nanometre, half away from zero. `None` where a coordinate is then above 500,000,000 in size.
pub fn rotate(p: Point, angle: i64) -> Option<Point>
    ensures value { result ≡ rotated p angle }
    ensures inside { IfSome result IsPlace }
{
    point_at(turned_x(p, angle), turned_y(p, angle))
}
