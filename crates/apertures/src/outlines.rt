//! The outlines of rectangles and polygons about the origin.
ghost use Rattle.std.specs.Prelude.{◌≡◌, ℤ, ◌<◌, ◌≤◌, ◌≤ℤ◌, ◌*ℤ◌, pos, [], ◌∷◌, length, unsigned_abs, IfOk};
ghost use Rattle.std.specs.List.{All};
ghost use Rattle.board_base.specs.Places.{IsPlace, IsCoordinate};
ghost use Rattle.shape_parts.specs.Parts.{IsWidth};
ghost use Rattle.shape_parts.specs.Boxes.{half_up};
ghost use Rattle.apertures.specs.Outlines.{corners as corners_of, vertex_angle as vertex_angle_of, half_times as half_times_of, on_circle as on_circle_of, vertex as vertex_of, vertices as vertices_of};

use board_base::Point;
use fixed_num::{cosine, round_div, sine};
use number_laws::product;
use std::alloc::{AllocError, Global};

// Half of a length, rounded up.
#[tactic(auto, unfolding(shape_parts::specs::Boxes::half_up))]
pub(crate) fn half(n: i64) -> i64
    requires low { pos 0 ≤ℤ n }
    requires high { n ≤ℤ pos 1000000000 }
    ensures value { result ≡ half_up n }
    ensures low { pos 0 ≤ℤ result }
    ensures high { result ≤ℤ pos 500000000 }
{
    (n + 1).div_euclid(2)
}

// The corners of a box.
#[tactic(auto, unfolding(crate::specs::Outlines::corners))]
pub(crate) fn corners(w: i64, h: i64) -> [Point; 4]
    requires w { IsWidth w }
    requires h { IsWidth h }
    ensures value { result ≡ corners_of w h }
    ensures places { All IsPlace result }
{
    let x = half(w);
    let y = half(h);
    [
        Point { x, y },
        Point { x: -x, y },
        Point { x: -x, y: -y },
        Point { x, y: -y },
    ]
}

// The angle of vertex `k` of `n`.
#[tactic(auto, unfolding(crate::specs::Outlines::vertex_angle))]
fn vertex_angle(n: u64, turn: u64, k: u64) -> i64
    requires turn { turn < 360000000 }
    requires k { k < n }
    requires n { n ≤ 12 }
    ensures { result ≡ pos (vertex_angle_of n turn k) }
{
    (turn + 360_000_000 * k / n) as i64
}

// A diameter times a sine.
fn by_sine(d: i64, sine: i64) -> i128
    requires d { IsWidth d }
    requires sine { unsigned_abs sine ≤ 1000000000000 }
    ensures value { result ≡ d *ℤ sine }
    ensures size { unsigned_abs result ≤ 1000000000000000000000 }
{
    product(d, sine)
}

// Half of a diameter times a sine.
#[tactic(auto, unfolding(crate::specs::Outlines::half_times))]
fn half_times(d: i64, sine: i64) -> i64
    requires d { IsWidth d }
    requires sine { unsigned_abs sine ≤ 1000000000000 }
    ensures value { result ≡ half_times_of d sine }
    ensures inside { IsCoordinate result }
{
    round_div(by_sine(d, sine), 2_000_000_000_000) as i64
}

// The point at an angle on the circle of diameter `d`.
fn on_circle(d: i64, angle: i64) -> Point
    requires { IsWidth d }
    ensures value { result ≡ on_circle_of d angle }
    ensures place { IsPlace result }
{
    Point {
        x: half_times(d, cosine(angle)),
        y: half_times(d, sine(angle)),
    }
}

// Vertex `k` of a regular polygon of `n` vertices.
fn vertex(d: i64, n: u64, turn: u64, k: u64) -> Point
    requires d { IsWidth d }
    requires n { n ≤ 12 }
    requires turn { turn < 360000000 }
    requires k { k < n }
    ensures value { result ≡ vertex_of d n turn k }
    ensures place { IsPlace result }
{
    on_circle(d, vertex_angle(n, turn, k))
}

// The vertices of a regular polygon of `n` vertices.
pub(crate) fn vertices(alloc: Global, d: i64, n: u64, turn: u64) -> Result<Vec<Point>, AllocError>
    requires d { IsWidth d }
    requires n { n ≤ 12 }
    requires turn { turn < 360000000 }
    ensures value { IfOk result (λ v. v.items ≡ vertices_of d n turn) }
    ensures places { IfOk result (λ v. All IsPlace v.items) }
{
    let mut points = Vec::new(alloc);
    'vertices: for k in 0..n {
        points.push(vertex(d, n, turn, k))?;
    }
    Ok(points)
}
