// Which points and cells the parts hold, touch and cover.
ghost use Rattle.std.specs.Prelude.{◌≡◌, ℤ, ℕ, pos, ◌≤ℤ◌, ◌<ℤ◌, int_lt, Bool, not, ◌&&◌, ◌||◌, ◌^◌};
ghost use Rattle.std.specs.List.{All};
ghost use Rattle.board_base.specs.Places.{IsNearPlace};
ghost use Rattle.board_base.specs.Near.{near_of};
ghost use Rattle.shape_parts.specs.Parts.{IsPart, IsPiece, IsWidth, part_holds, part_touches, part_covers, twice, grown, shrunk};
ghost use Rattle.shape_parts.specs.Shapes.{shape_holds, shape_touches, shape_covers};

use crate::shape::{Part, Piece};
use board_base::Point;
use plane_geom::near;

// Whether the first is below the second.
fn is_below(a: i64, b: i64) -> bool
    ensures { result ≡ int_lt a b }
{
    a < b
}

// Twice the reach of a cell.
#[tactic(auto, unfolding(crate::specs::Parts::twice))]
fn double(h: i64) -> i64
    requires h_low { pos 0 <ℤ h }
    requires h_high { h ≤ℤ pos 200000 }
    ensures value { result ≡ twice h }
    ensures low { pos 0 <ℤ result }
    ensures high { result ≤ℤ pos 400000 }
{
    2 * h
}

#[tactic(auto, unfolding(crate::specs::Parts::grown))]
fn wider(d: i64, h: i64) -> i64
    requires d { IsWidth d }
    requires h_low { pos 0 <ℤ h }
    requires h_high { h ≤ℤ pos 200000 }
    ensures value { result ≡ grown d h }
    ensures low { pos 0 <ℤ result }
    ensures high { result ≤ℤ pos 1000400000 }
{
    d + 2 * h
}

#[tactic(auto, unfolding(crate::specs::Parts::shrunk, crate::specs::Parts::twice))]
fn narrower(d: i64, h: i64) -> i64
    requires d { IsWidth d }
    requires h_low { pos 0 <ℤ h }
    requires h_high { h ≤ℤ pos 200000 }
    requires wide { twice h <ℤ d }
    ensures value { result ≡ shrunk d h }
    ensures low { pos 0 ≤ℤ result }
    ensures high { result ≤ℤ pos 1000000000 }
{
    d - 2 * h
}

// Whether a segment of the width `d` holds `q`.
fn segment_holds(q: Point, a: Point, b: Point, d: i64) -> bool
    requires q { IsNearPlace q }
    requires a { IsNearPlace a }
    requires b { IsNearPlace b }
    requires d { IsWidth d }
    ensures { result ≡ (int_lt (pos 0) d && near_of q a b d) }
{
    if is_below(0, d) {
        near(q, a, b, d)
    } else {
        false
    }
}

// Whether a segment of the width `d`, grown by `h`, reaches `c`.
fn segment_touches(c: Point, h: i64, a: Point, b: Point, d: i64) -> bool
    requires c { IsNearPlace c }
    requires a { IsNearPlace a }
    requires b { IsNearPlace b }
    requires d { IsWidth d }
    requires h_low { pos 0 <ℤ h }
    requires h_high { h ≤ℤ pos 200000 }
    ensures { result ≡ (int_lt (pos 0) d && near_of c a b (grown d h)) }
{
    if is_below(0, d) {
        near(c, a, b, wider(d, h))
    } else {
        false
    }
}

// Whether a segment of the width `d`, shrunk by `h`, reaches `c`.
fn segment_covers(c: Point, h: i64, a: Point, b: Point, d: i64) -> bool
    requires c { IsNearPlace c }
    requires a { IsNearPlace a }
    requires b { IsNearPlace b }
    requires d { IsWidth d }
    requires h_low { pos 0 <ℤ h }
    requires h_high { h ≤ℤ pos 200000 }
    ensures { result ≡ (int_lt (twice h) d && near_of c a b (shrunk d h)) }
{
    if is_below(double(h), d) {
        near(c, a, b, narrower(d, h))
    } else {
        false
    }
}

// Whether the part holds `q`.
fn holds(part: &Part, q: Point) -> bool
    requires part { IsPart part.now }
    requires q { IsNearPlace q }
    ensures { result ≡ part_holds q part.now }
{
    match part {
        Part::Disc { c, d } => segment_holds(q, *c, *c, *d),
        Part::Capsule { a, b, d } => segment_holds(q, *a, *b, *d),
        Part::Area { poly } => poly.contains(q),
    }
}

impl Part {
    /// Whether the part, grown by `h`, reaches the centre `c` of a cell whose half diagonal is `h`, in nanometres.
    pub fn touches(&self, c: Point, h: i64) -> bool
        requires part { IsPart self.now }
        requires c { IsNearPlace c }
        requires h_low { pos 0 <ℤ h }
        requires h_high { h ≤ℤ pos 200000 }
        ensures { result ≡ part_touches c h self.now }
    {
        match self {
            Part::Disc { c: a, d } => segment_touches(c, h, *a, *a, *d),
            Part::Capsule { a, b, d } => segment_touches(c, h, *a, *b, *d),
            Part::Area { poly } => poly.edge_near(c, double(h)) || poly.contains(c),
        }
    }

    /// Whether the part, shrunk by `h`, still reaches the centre `c` of a cell whose half diagonal is `h`.
    pub fn covers(&self, c: Point, h: i64) -> bool
        requires part { IsPart self.now }
        requires c { IsNearPlace c }
        requires h_low { pos 0 <ℤ h }
        requires h_high { h ≤ℤ pos 200000 }
        ensures { result ≡ part_covers c h self.now }
    {
        match self {
            Part::Disc { c: a, d } => segment_covers(c, h, *a, *a, *d),
            Part::Capsule { a, b, d } => segment_covers(c, h, *a, *b, *d),
            Part::Area { poly } => !poly.edge_near(c, double(h)) && poly.contains(c),
        }
    }
}

// What a piece makes of a point.
fn held_after(held: bool, piece: &Piece, q: Point) -> bool
    requires piece { IsPiece piece.now }
    requires q { IsNearPlace q }
    ensures { result ≡ ((piece.now.on && part_holds q piece.now.part) || (held && not (not piece.now.on && part_holds q piece.now.part))) }
{
    if piece.on {
        if held { true } else { holds(&piece.part, q) }
    } else if held {
        !holds(&piece.part, q)
    } else {
        false
    }
}

// What a piece makes of a touched cell.
fn touched_after(held: bool, piece: &Piece, c: Point, h: i64) -> bool
    requires piece { IsPiece piece.now }
    requires c { IsNearPlace c }
    requires h_low { pos 0 <ℤ h }
    requires h_high { h ≤ℤ pos 200000 }
    ensures { result ≡ ((piece.now.on && part_touches c h piece.now.part) || (held && not (not piece.now.on && part_covers c h piece.now.part))) }
{
    if piece.on {
        if held { true } else { piece.part.touches(c, h) }
    } else if held {
        !piece.part.covers(c, h)
    } else {
        false
    }
}

// What a piece makes of a covered cell.
fn covered_after(held: bool, piece: &Piece, c: Point, h: i64) -> bool
    requires piece { IsPiece piece.now }
    requires c { IsNearPlace c }
    requires h_low { pos 0 <ℤ h }
    requires h_high { h ≤ℤ pos 200000 }
    ensures { result ≡ ((piece.now.on && part_covers c h piece.now.part) || (held && not (not piece.now.on && part_touches c h piece.now.part))) }
{
    if piece.on {
        if held { true } else { piece.part.covers(c, h) }
    } else if held {
        !piece.part.touches(c, h)
    } else {
        false
    }
}

// Whether the last piece that holds `q` is on.
pub(crate) fn holds_last(pieces: &[Piece], q: Point) -> bool
    requires pieces { All IsPiece pieces.now }
    requires q { IsNearPlace q }
    ensures { result ≡ shape_holds q pieces.now }
{
    let mut held = false;
    for piece in pieces {
        held = held_after(held, piece, q);
    }
    held
}

// Whether an on piece touches the cell round `c`, and no later off piece covers it.
pub(crate) fn touches_last(pieces: &[Piece], c: Point, h: i64) -> bool
    requires pieces { All IsPiece pieces.now }
    requires c { IsNearPlace c }
    requires h_low { pos 0 <ℤ h }
    requires h_high { h ≤ℤ pos 200000 }
    ensures { result ≡ shape_touches c h pieces.now }
{
    let mut held = false;
    for piece in pieces {
        held = touched_after(held, piece, c, h);
    }
    held
}

// Whether an on piece covers the cell round `c`, and no later off piece touches it.
pub(crate) fn covers_last(pieces: &[Piece], c: Point, h: i64) -> bool
    requires pieces { All IsPiece pieces.now }
    requires c { IsNearPlace c }
    requires h_low { pos 0 <ℤ h }
    requires h_high { h ≤ℤ pos 200000 }
    ensures { result ≡ shape_covers c h pieces.now }
{
    let mut held = false;
    for piece in pieces {
        held = covered_after(held, piece, c, h);
    }
    held
}
