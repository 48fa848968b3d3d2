// Operations.
ghost use Rattle.std.specs.Prelude.{◌≡◌, ◌<◌, ◌≤◌, ◌+◌, ◌^◌, ◌||◌, ◌&&◌, ◌⊎◌, ◌∷◌, [], pos, length, MatchOption, MatchResult, IfSome, false, true, not, is_some, is_none, Some, None, Ok, ⊤, if◌then◌else◌, IfErr, IfOk, OnOk, ◌++◌};
ghost use Rattle.std.specs.List.{All};
ghost use Rattle.std.specs.Option.{option_or};
ghost use Rattle.board_base.specs.Places.{IsPlace};
ghost use Rattle.shape_parts.specs.Parts.{IsWidth};
ghost use Rattle.apertures.specs.Placed.{placed};
ghost use Rattle.gerber_words.specs.declared.commands.Command.TheVariants.{Operate};
ghost use Rattle.gerber_words.specs.Fits.{AreWritten, IsAxisFormat, IsFormat};
ghost use Rattle.gerber_image.specs.Routes.{place_after, mode_after, route, strokes as strokes_of};
ghost use Rattle.gerber_image.specs.Image.{figure_of, stroked, flashed, acted};
ghost use Rattle.gerber_image.specs.Checks.{is_long as is_long_of, has_long as has_long_of, is_draw, is_flash, wants_aperture as wants_aperture_of, is_short_arc, lacks_stroke as lacks_stroke_of, opens_arc, leaves_range, first_fault_of, excess_of};
ghost use Rattle.gerber_image.specs.State.{held_of, listed, IsReady, Stops, Steps, flash_fault};

use crate::block::BlockObject;
use crate::draws::{Reached, is_curved};
use crate::numbers::{both, x_format, y_format};
use crate::refusal::GerberKind;
use crate::state::{State, Stop};
use apertures::{Aperture, ApertureError, shape_at, stroke};
use board_base::Point;
use gerber_words::{Act, AxisFormat, Digits, Format, Interpolation, Operation};
use shape_parts::{Painted, Part, Shape};
use std::alloc::{AllocError, Global};

/// What an operation does.
#[derive(Drop)]
pub struct Effect {
    pub place: Point,
    pub mode: Interpolation,
    pub act: Act,
    pub object: Option<Painted>,
}

// Whether these are more digits than the format of the axis has.
fn is_long(format: Option<AxisFormat>, digits: Option<Digits>) -> bool
    requires { IfSome format IsAxisFormat }
    ensures { result ≡ is_long_of format digits }
{
    match (format, digits) {
        (Some(format), Some(digits)) => ((format.integer_digits + format.decimal_digits) as usize)
            < digits.count,
        _ => false,
    }
}

// Whether one of the coordinates has more.
fn has_long(format: Option<Format>, o: Operation) -> bool
    requires { IfSome format IsFormat }
    ensures { result ≡ has_long_of format o }
{
    let x = x_format(format);
    let y = y_format(format);
    is_long(x, o.x) || is_long(y, o.y) || is_long(x, o.i) || is_long(y, o.j)
}

// Whether there is a coordinate.
fn has_coordinate(o: Operation) -> bool
    ensures { result ≡ (is_some o.x || is_some o.y || is_some o.i || is_some o.j) }
{
    o.x.is_some() || o.y.is_some() || o.i.is_some() || o.j.is_some()
}

// Whether an act draws.
fn draws(act: Act) -> bool
    ensures { result ≡ is_draw (Some act) }
{
    match act {
        Act::Draw => true,
        _ => false,
    }
}

// Whether an act flashes.
fn flashes(act: Act) -> bool
    ensures { result ≡ is_flash (Some act) }
{
    match act {
        Act::Flash => true,
        _ => false,
    }
}

// Whether an act wants an aperture.
fn wants_aperture(region: bool, act: Act) -> bool
    ensures { result ≡ wants_aperture_of region (Some act) }
{
    match act {
        Act::Move => false,
        Act::Draw => !region,
        Act::Flash => true,
    }
}

// A stroke from each point to the next one.
fn strokes(alloc: Global, points: &[Point], d: i64) -> Result<Shape, AllocError>
    requires points { All IsPlace points.now }
    requires d { IsWidth d }
    ensures { IfOk result (λ s. s ≡ strokes_of d points.now) }
{
    let mut shape = Shape::empty(alloc);
    'points: for k in 1..points.len() {
        shape.push(
            Part::Capsule {
                a: points[k - 1],
                b: points[k],
                d,
            },
            true,
        )?;
    }
    Ok(shape)
}

impl State {
    // Whether a draw lacks a stroke: outside regions with an aperture that makes none.
    fn lacks_stroke(&self) -> bool
        ensures { result ≡ lacks_stroke_of (held_of self.now).now }
    {
        if self.region {
            return false;
        }
        match self.aperture() {
            Some(aperture) => stroke(aperture).is_none(),
            None => false,
        }
    }

    // Whether an act isn't supported: an arc where arcs may not be longer than a quarter, or a draw without a stroke.
    fn is_left_out(&self, o: Operation, act: Act) -> bool
        ensures { result ≡ (is_draw (Some act) && (is_short_arc (held_of self.now).now o || lacks_stroke_of (held_of self.now).now)) }
    {
        if !draws(act) {
            return false;
        }
        if is_curved(o.mode.unwrap_or(self.mode)) && !self.multi_quadrant {
            return true;
        }
        self.lacks_stroke()
    }

    /// The first fault of an operation before its way is looked at, or its act.
    pub fn checked(&self, o: Operation) -> Result<Act, GerberKind>
        requires { IsReady (held_of self.now) }
        ensures value { MatchResult result
            (λ act. (Some act ≡ option_or o.act self.now.act)
            × (has_long_of self.now.format o ≡ false)
            × (first_fault_of (held_of self.now).now self.now.block.items (Operate o)
            ≡ (if opens_arc (held_of self.now).now (Operate o) then Some GerberKind.OpenArc
            else if leaves_range (held_of self.now).now self.now.block.items (Operate o) then Some GerberKind.OutOfRange
            else None)))
            (λ kind. first_fault_of (held_of self.now).now self.now.block.items (Operate o) ≡ Some kind) }
        ensures region { IfOk result (λ act. self.now.region ≡ true → is_flash (Some act) ≡ false) }
    {
        let Some(act) = o.act.or(self.act) else {
            return Err(GerberKind::Syntax);
        };
        if has_long(self.format, o) {
            return Err(GerberKind::Syntax);
        }
        if self.is_left_out(o, act) {
            return Err(GerberKind::Unsupported);
        }
        if both(has_coordinate(o), self.format.is_none()) {
            return Err(GerberKind::NoFormat);
        }
        if both(has_coordinate(o), self.unit.is_none()) {
            return Err(GerberKind::NoUnit);
        }
        if both(wants_aperture(self.region, act), self.selected.is_none()) {
            return Err(GerberKind::NoAperture);
        }
        if both(self.region, flashes(act)) {
            return Err(GerberKind::OpenRegion);
        }
        Ok(act)
    }

    // Strokes along points.
    fn stroke_along(
        &self,
        alloc: Global,
        points: &[Point],
        aperture: &Aperture,
    ) -> Result<Option<Painted>, Stop>
        requires { All IsPlace points.now }
        ensures value { IfOk result (λ o. listed o ≡ stroked self.now.dark (Ok points.now) aperture.now.stroke) }
        ensures memory { IfErr result (λ stop. stop ≡ Stop.Memory) }
    {
        let Some(d) = stroke(aperture) else {
            return Ok(None);
        };
        let shape = strokes(alloc, points, d)?;
        Ok(Some(Painted {
            shape,
            dark: self.dark,
        }))
    }

    // The selected aperture's shape at a point.
    fn flash_at(
        &self,
        alloc: Global,
        place: Point,
        aperture: &Aperture,
    ) -> Result<Option<Painted>, Stop>
        ensures { MatchResult result
            (λ o. (listed o ≡ flashed self.now.dark (placed place self.now.mirror (pos self.now.angle) aperture.now.pieces))
            × (is_none (placed place self.now.mirror (pos self.now.angle) aperture.now.pieces) ≡ false))
            (λ stop. (stop ≡ Stop.Memory)
            ⊎ ((stop ≡ Stop.Fault GerberKind.OutOfRange)
            × (is_none (placed place self.now.mirror (pos self.now.angle) aperture.now.pieces) ≡ true))) }
    {
        match shape_at(alloc, aperture, place, self.mirror, self.angle as i64) {
            Ok(shape) => Ok(Some(Painted {
                shape,
                dark: self.dark,
            })),
            Err(ApertureError::Memory) => Err(Stop::Memory),
            Err(_) => Err(Stop::Fault(GerberKind::OutOfRange)),
        }
    }

    // The object of an act outside regions.
    fn object(
        &self,
        alloc: Global,
        o: Operation,
        reached: &Reached,
        act: Act,
    ) -> Result<Option<Painted>, Stop>
        requires place { reached.now.place ≡ place_after (held_of self.now).now o }
        requires points { is_draw (Some act) ≡ true → route (held_of self.now).now o ≡ Ok reached.now.points.items }
        requires places { All IsPlace reached.now.points.items }
        ensures { MatchResult result
            (λ p. (listed p ≡ acted (Some act) (held_of self.now).now o (figure_of self.now.selected (held_of self.now).now.aperture))
            × (flash_fault (Some act) (held_of self.now).now o ≡ false))
            (λ stop. (stop ≡ Stop.Memory)
            ⊎ ((stop ≡ Stop.Fault GerberKind.OutOfRange) × (flash_fault (Some act) (held_of self.now).now o ≡ true))) }
    {
        match (act, self.aperture()) {
            (Act::Draw, Some(aperture)) => self.stroke_along(alloc, &reached.points, aperture),
            (Act::Flash, Some(aperture)) => self.flash_at(alloc, reached.place, aperture),
            _ => Ok(None),
        }
    }

    // What an operation does outside regions, or its first fault.
    fn effect(&self, alloc: Global, o: Operation) -> Result<Effect, Stop>
        requires ready { IsReady (held_of self.now) }
        requires written { AreWritten o }
        ensures value { MatchResult result
            (λ e. (first_fault_of (held_of self.now).now self.now.block.items (Operate o) ≡ None)
            × (e.place ≡ place_after (held_of self.now).now o)
            × (e.mode ≡ mode_after (held_of self.now).now o)
            × (Some e.act ≡ option_or o.act self.now.act)
            × (listed e.object ≡ acted (option_or o.act self.now.act) (held_of self.now).now o (figure_of self.now.selected (held_of self.now).now.aperture)))
            (Stops (first_fault_of (held_of self.now).now self.now.block.items (Operate o))) }
        ensures place { IfOk result (λ e. IsPlace e.place) }
    {
        let act = match self.checked(o) {
            Ok(act) => act,
            Err(kind) => return Err(Stop::Fault(kind)),
        };
        let reached = self.reach(alloc, o, act)?;
        let object = self.object(alloc, o, &reached, act)?;
        Ok(Effect {
            place: reached.place,
            mode: o.mode.unwrap_or(self.mode),
            act,
            object,
        })
    }

    /// Adds an object to the open block, or to the image.
    pub fn add(&mut self, alloc: Global, object: Option<Painted>) -> Result<(), Stop>
        requires { IsReady (held_of self.old) }
        ensures others { self.new ≡ record self.old { block = self.new.block; painted = self.new.painted } }
        ensures ok { OnOk result
            ((self.new.block.items ≡ if is_none self.old.repeat then self.old.block.items else self.old.block.items ++ listed object)
            × (self.new.painted ≡ if is_none self.old.repeat then self.old.painted ++ listed object else self.old.painted)
            × (excess_of self.new.painted ≡ None)) }
        ensures full { IfErr result (Stops (excess_of (if is_none self.old.repeat then self.old.painted ++ listed object else self.old.painted))) }
    {
        match (object, self.repeat) {
            (Some(object), None) => {
                if let Some(kind) = self.painted.excess(1, object.shape.vertices()) {
                    return Err(Stop::Fault(kind));
                }
                self.painted.push(object)?;
                Ok(())
            }
            (Some(object), Some(_)) => {
                self.block.push(BlockObject::painted(alloc, object))?;
                Ok(())
            }
            (None, _) => Ok(()),
        }
    }

    // Carries out an operation outside regions, or answers its first fault.
    fn paint(&mut self, alloc: Global, o: Operation) -> Result<(), Stop>
        requires ready { IsReady (held_of self.old) }
        requires written { AreWritten o }
        requires outside { self.old.region ≡ false }
        ensures steps { Steps (held_of self.old) (Operate o) result (held_of self.new) }
        ensures place { OnOk result (IsPlace self.new.here) }
    {
        let effect = self.effect(alloc, o)?;
        self.add(alloc, effect.object)?;
        self.here = effect.place;
        self.mode = effect.mode;
        self.act = Some(effect.act);
        Ok(())
    }

    /// Carries out an operation, or answers its first fault.
    pub fn operate(&mut self, alloc: Global, operation: Operation) -> Result<(), Stop>
        requires ready { IsReady (held_of self.old) }
        requires written { AreWritten operation }
        ensures steps { Steps (held_of self.old) (Operate operation) result (held_of self.new) }
        ensures place { OnOk result (IsPlace self.new.here) }
    {
        if self.region {
            self.trace(alloc, operation)
        } else {
            self.paint(alloc, operation)
        }
    }
}
