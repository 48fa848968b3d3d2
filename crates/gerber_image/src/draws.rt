// The ways of draws.
ghost use Rattle.std.specs.Prelude.{◌≡◌, ◌∷◌, [], ◌≤◌, ◌+ℤ◌, ◌||◌, ◌&&◌, unsigned_abs, MatchOption, MatchResult, IfOk, false, true, Some, None, Ok, unwrap_or, if◌then◌else◌};
ghost use Rattle.std.specs.List.{All};
ghost use Rattle.board_base.specs.Places.{IsPlace, IsCoordinate};
ghost use Rattle.plane_arcs.specs.Arcs.{chain_of};
ghost use Rattle.plane_arcs.specs.Vectors.{IsArcPlace};
ghost use Rattle.gerber_words.specs.Fits.{AreWritten};
ghost use Rattle.plane_arcs.specs.Turned.{is_far};
ghost use Rattle.gerber_image.specs.Routes.{x_after, y_after, place_after, mode_after, is_curved as is_curved_of, turns_left as turns_left_of, arc_centre, arc_of, route};
ghost use Rattle.gerber_image.specs.Checks.{has_long, is_draw, is_open, is_past, draw_leaves};
ghost use Rattle.gerber_image.specs.State.{held_of, IsReady, Stops, route_fault};

use crate::numbers::{coordinate, is_far, point, short_coordinate, x_format, y_format};
use crate::refusal::GerberKind;
use crate::state::{State, Stop};
use board_base::Point;
use gerber_words::{Act, Interpolation, Operation};
use plane_arcs::{Arc, ArcError, arc_chain};
use std::alloc::{AllocError, Global};

/// Where an operation leads, and along which points, where it draws.
#[derive(Drop)]
pub struct Reached {
    pub place: Point,
    pub points: Vec<Point>,
}

// Whether an arc leads counterclockwise.
fn turns_left(mode: Interpolation) -> bool
    ensures { result ≡ turns_left_of mode }
{
    match mode {
        Interpolation::Counterclockwise => true,
        _ => false,
    }
}

/// Whether a mode leads along arcs.
pub fn is_curved(mode: Interpolation) -> bool
    ensures { result ≡ is_curved_of mode }
{
    match mode {
        Interpolation::Linear => false,
        _ => true,
    }
}

// A coordinate and a way from it.
fn plus(v: i64, way: i64) -> i64
    requires v { IsCoordinate v }
    requires way { unsigned_abs way ≤ 25400000000000 }
    ensures value { result ≡ v +ℤ way }
    ensures size { unsigned_abs result ≤ 30000000000000 }
{
    v + way
}

// Two points.
fn pair(alloc: Global, a: Point, b: Point) -> Result<Vec<Point>, AllocError>
    ensures { IfOk result (λ v. v.items ≡ a ∷ b ∷ []) }
{
    let mut points = Vec::new(alloc);
    points.push(a)?;
    points.push(b)?;
    Ok(points)
}

impl State {
    // Where an operation leads.
    fn place(&self, o: Operation) -> Option<Point>
        requires { IsReady (held_of self.now) }
        ensures { MatchOption result (is_far (place_after (held_of self.now).now o) ≡ true)
            (λ p. (is_far (place_after (held_of self.now).now o) ≡ false) × (p ≡ place_after (held_of self.now).now o) × IsPlace p) }
    {
        let x = coordinate(x_format(self.format), self.unit, o.x, self.here.x);
        let y = coordinate(y_format(self.format), self.unit, o.y, self.here.y);
        point(x, y)
    }

    // The centre of an operation's arc.
    #[tactic(auto, unfolding(crate::specs::Routes::arc_centre))]
    fn centre(&self, o: Operation) -> Point
        requires ready { IsReady (held_of self.now) }
        requires written { AreWritten o }
        requires short { has_long self.now.format o ≡ false }
        ensures value { result ≡ arc_centre (held_of self.now).now o }
        ensures size { IsArcPlace result }
    {
        Point {
            x: plus(
                self.here.x,
                short_coordinate(x_format(self.format), self.unit, o.i, 0),
            ),
            y: plus(
                self.here.y,
                short_coordinate(y_format(self.format), self.unit, o.j, 0),
            ),
        }
    }

    // The end of an operation's arc.
    fn end_point(&self, o: Operation) -> Point
        requires ready { IsReady (held_of self.now) }
        requires written { AreWritten o }
        requires short { has_long self.now.format o ≡ false }
        ensures value { result ≡ place_after (held_of self.now).now o }
        ensures size { IsArcPlace result }
    {
        Point {
            x: short_coordinate(x_format(self.format), self.unit, o.x, self.here.x),
            y: short_coordinate(y_format(self.format), self.unit, o.y, self.here.y),
        }
    }

    // The arc of an operation.
    fn arc(&self, o: Operation, mode: Interpolation) -> Arc
        requires ready { IsReady (held_of self.now) }
        requires written { AreWritten o }
        requires short { has_long self.now.format o ≡ false }
        requires mode { mode ≡ mode_after (held_of self.now).now o }
        ensures value { result ≡ arc_of (held_of self.now).now o }
        ensures start { IsPlace result.start }
        ensures end { IsArcPlace result.end }
        ensures centre { IsArcPlace result.centre }
    {
        Arc {
            start: self.here,
            end: self.end_point(o),
            centre: self.centre(o),
            ccw: turns_left(mode),
        }
    }

    // The chain of an operation's arc.
    fn chain(&self, alloc: Global, o: Operation, mode: Interpolation) -> Result<Vec<Point>, Stop>
        requires ready { IsReady (held_of self.now) }
        requires written { AreWritten o }
        requires short { has_long self.now.format o ≡ false }
        requires mode { mode ≡ mode_after (held_of self.now).now o }
        ensures value { MatchResult result
            (λ v. (chain_of (arc_of (held_of self.now).now o) ≡ Ok v.items) × (is_far (arc_centre (held_of self.now).now o) ≡ false))
            (Stops (if is_open (chain_of (arc_of (held_of self.now).now o)) then Some GerberKind.OpenArc
            else if is_far (arc_centre (held_of self.now).now o) || is_past (chain_of (arc_of (held_of self.now).now o)) then Some GerberKind.OutOfRange
            else None)) }
        ensures places { IfOk result (λ v. All IsPlace v.items) }
    {
        let arc = self.arc(o, mode);
        match arc_chain(alloc, &arc) {
            Ok(points) => {
                if is_far(arc.centre) {
                    Err(Stop::Fault(GerberKind::OutOfRange))
                } else {
                    Ok(points)
                }
            }
            Err(ArcError::OpenArc { .. }) => Err(Stop::Fault(GerberKind::OpenArc)),
            Err(ArcError::PastRange) => Err(Stop::Fault(GerberKind::OutOfRange)),
            Err(ArcError::Memory) => Err(Stop::Memory),
        }
    }

    // Where a line leads, and its two points.
    fn line(&self, alloc: Global, o: Operation) -> Result<Reached, Stop>
        requires ready { IsReady (held_of self.now) }
        requires straight { is_curved_of (mode_after (held_of self.now).now o) ≡ false }
        ensures value { MatchResult result
            (λ r. (route_fault (held_of self.now).now true o ≡ None) × (route (held_of self.now).now o ≡ Ok r.points.items) × (r.place ≡ place_after (held_of self.now).now o))
            (Stops (route_fault (held_of self.now).now true o)) }
        ensures place { IfOk result (λ r. IsPlace r.place) }
        ensures places { IfOk result (λ r. All IsPlace r.points.items) }
    {
        let Some(place) = self.place(o) else {
            return Err(Stop::Fault(GerberKind::OutOfRange));
        };
        let points = pair(alloc, self.here, place)?;
        Ok(Reached { place, points })
    }

    // Where an arc leads, and the points of its chain.
    fn curve(&self, alloc: Global, o: Operation, mode: Interpolation) -> Result<Reached, Stop>
        requires ready { IsReady (held_of self.now) }
        requires written { AreWritten o }
        requires short { has_long self.now.format o ≡ false }
        requires mode { mode ≡ mode_after (held_of self.now).now o }
        requires curved { is_curved_of (mode_after (held_of self.now).now o) ≡ true }
        ensures value { MatchResult result
            (λ r. (route_fault (held_of self.now).now true o ≡ None) × (route (held_of self.now).now o ≡ Ok r.points.items) × (r.place ≡ place_after (held_of self.now).now o))
            (Stops (route_fault (held_of self.now).now true o)) }
        ensures place { IfOk result (λ r. IsPlace r.place) }
        ensures places { IfOk result (λ r. All IsPlace r.points.items) }
    {
        let points = match self.chain(alloc, o, mode) {
            Ok(points) => points,
            Err(stop) => return Err(stop),
        };
        let Some(place) = self.place(o) else {
            return Err(Stop::Fault(GerberKind::OutOfRange));
        };
        Ok(Reached { place, points })
    }

    // Where a draw leads, and along which points.
    fn draw(&self, alloc: Global, o: Operation) -> Result<Reached, Stop>
        requires ready { IsReady (held_of self.now) }
        requires written { AreWritten o }
        requires short { has_long self.now.format o ≡ false }
        ensures value { MatchResult result
            (λ r. (route_fault (held_of self.now).now true o ≡ None) × (route (held_of self.now).now o ≡ Ok r.points.items) × (r.place ≡ place_after (held_of self.now).now o))
            (Stops (route_fault (held_of self.now).now true o)) }
        ensures place { IfOk result (λ r. IsPlace r.place) }
        ensures places { IfOk result (λ r. All IsPlace r.points.items) }
    {
        let mode = o.mode.unwrap_or(self.mode);
        if is_curved(mode) {
            self.curve(alloc, o, mode)
        } else {
            self.line(alloc, o)
        }
    }

    // Where a move or a flash leads.
    fn hop(&self, alloc: Global, o: Operation) -> Result<Reached, Stop>
        requires { IsReady (held_of self.now) }
        ensures value { MatchResult result
            (λ r. (route_fault (held_of self.now).now false o ≡ None) × (r.points.items ≡ []) × (r.place ≡ place_after (held_of self.now).now o))
            (Stops (route_fault (held_of self.now).now false o)) }
        ensures place { IfOk result (λ r. IsPlace r.place) }
    {
        match self.place(o) {
            Some(place) => Ok(Reached {
                place,
                points: Vec::new(alloc),
            }),
            None => Err(Stop::Fault(GerberKind::OutOfRange)),
        }
    }

    /// Where an act leads, and along which points, where it draws.
    pub fn reach(&self, alloc: Global, o: Operation, act: Act) -> Result<Reached, Stop>
        requires ready { IsReady (held_of self.now) }
        requires written { AreWritten o }
        requires short { has_long self.now.format o ≡ false }
        ensures value { MatchResult result
            (λ r. (route_fault (held_of self.now).now (is_draw (Some act)) o ≡ None) × (r.place ≡ place_after (held_of self.now).now o))
            (Stops (route_fault (held_of self.now).now (is_draw (Some act)) o)) }
        ensures points { IfOk result (λ r. is_draw (Some act) ≡ true → route (held_of self.now).now o ≡ Ok r.points.items) }
        ensures place { IfOk result (λ r. IsPlace r.place) }
        ensures places { IfOk result (λ r. All IsPlace r.points.items) }
    {
        match act {
            Act::Draw => self.draw(alloc, o),
            _ => self.hop(alloc, o),
        }
    }
}
