// Regions.
ghost use Rattle.std.specs.Prelude.{◌≡◌, ◌∷◌, [], ◌++◌, OnOk, IfOk, IfErr, true, Some, None, Ok, drop, is_none, if◌then◌else◌};
ghost use Rattle.std.specs.List.{All, flat_map};
ghost use Rattle.board_base.specs.Places.{IsPlace};
ghost use Rattle.gerber_words.specs.declared.commands.Command.{Command};
ghost use Rattle.gerber_words.specs.declared.commands.Command.TheVariants.{Operate};
ghost use Rattle.gerber_words.specs.Fits.{AreWritten};
ghost use Rattle.gerber_image.specs.Routes.{place_after, route};
ghost use Rattle.gerber_image.specs.Regions.{area_of};
ghost use Rattle.gerber_image.specs.Image.{traced};
ghost use Rattle.gerber_image.specs.Checks.{excess_of, is_draw};
ghost use Rattle.gerber_image.specs.State.{held_of, IsReady, Stops, Steps};

use crate::block::BlockObject;
use crate::contour::{Contour, corners_of, region};
use crate::draws::Reached;
use crate::refusal::GerberKind;
use crate::state::{State, Stop};
use board_base::Point;
use gerber_words::{Act, Operation};
use shape_parts::Painted;
use std::alloc::Global;
use std::mem;

// The points behind the first one.
fn behind_first(points: &[Point]) -> &[Point]
    ensures { result.now ≡ drop 1 points.now }
{
    match points {
        [] => points,
        [_, rest @ ..] => rest,
    }
}

impl State {
    /// G36
    pub fn begin_region(&mut self, alloc: Global) -> Result<(), Stop>
        requires { IsReady (held_of self.old) }
        ensures { Steps (held_of self.old) Command.BeginRegion result (held_of self.new) }
    {
        if self.region {
            return Err(Stop::Fault(GerberKind::OpenRegion));
        }
        self.contour = Contour::from(alloc, self.here)?;
        self.contours.clear();
        self.region = true;
        Ok(())
    }

    // Ends the contour, behind which none has begun then.
    fn end_contour(&mut self, alloc: Global) -> Result<(), Stop>
        ensures others { self.new ≡ record self.old { contours = self.new.contours; contour = self.new.contour } }
        ensures contour { OnOk result (self.new.contour ≡ []) }
        ensures contours { OnOk result (self.new.contours.items ≡ self.old.contours.items ++ self.old.contour ∷ []) }
        ensures memory { IfErr result (λ stop. stop ≡ Stop.Memory) }
    {
        let contour = mem::replace(&mut self.contour, Contour::empty(alloc));
        self.contours.push(contour)?;
        Ok(())
    }

    // The object of the region whose contours have all ended, outside repeats.
    fn region_object(&self, alloc: Global) -> Result<Painted, Stop>
        ensures value { IfOk result (λ o. o ≡ record { shape = flat_map area_of self.now.contours.items; dark = self.now.dark }) }
        ensures within { IfOk result (λ o. excess_of (self.now.painted ++ o ∷ []) ≡ None) }
        ensures refused { IfErr result (Stops (excess_of (self.now.painted ++ record { shape = flat_map area_of self.now.contours.items; dark = self.now.dark } ∷ []))) }
    {
        if let Some(kind) = self.painted.excess(1, corners_of(&self.contours)) {
            return Err(Stop::Fault(kind));
        }
        let shape = region(alloc, &self.contours)?;
        Ok(Painted {
            shape,
            dark: self.dark,
        })
    }

    // Adds the region whose contours have all ended to the open block, or to the image, and drops the contours.
    fn add_region(&mut self, alloc: Global) -> Result<(), Stop>
        requires { IsReady (held_of self.old) }
        ensures others { self.new ≡ record self.old { contours = self.new.contours; block = self.new.block; painted = self.new.painted } }
        ensures ok { OnOk result
            ((self.new.contours.items ≡ [])
            × (self.new.block.items ≡ if is_none self.old.repeat then self.old.block.items else self.old.block.items ++ record { shape = flat_map area_of self.old.contours.items; dark = self.old.dark } ∷ [])
            × (self.new.painted ≡ if is_none self.old.repeat then self.old.painted ++ record { shape = flat_map area_of self.old.contours.items; dark = self.old.dark } ∷ [] else self.old.painted)
            × (excess_of self.new.painted ≡ None)) }
        ensures full { IfErr result (Stops (excess_of (if is_none self.old.repeat then self.old.painted ++ record { shape = flat_map area_of self.old.contours.items; dark = self.old.dark } ∷ [] else self.old.painted))) }
    {
        if self.repeat.is_none() {
            let object = self.region_object(alloc)?;
            self.painted.push(object)?;
            self.contours.clear();
            return Ok(());
        }
        let contours = mem::replace(&mut self.contours, Vec::new(alloc));
        let object = BlockObject::region(alloc, contours, self.dark)?;
        self.block.push(object)?;
        Ok(())
    }

    /// G37
    pub fn end_region(&mut self, alloc: Global) -> Result<(), Stop>
        requires { IsReady (held_of self.old) }
        ensures { Steps (held_of self.old) Command.EndRegion result (held_of self.new) }
    {
        if !self.region {
            return Err(Stop::Fault(GerberKind::Syntax));
        }
        self.end_contour(alloc)?;
        self.add_region(alloc)?;
        self.region = false;
        Ok(())
    }

    // Ends the contour, and starts the next one at a point.
    fn start_contour(&mut self, alloc: Global, place: Point) -> Result<(), Stop>
        requires { IsPlace place }
        ensures others { self.new ≡ record self.old { contours = self.new.contours; contour = self.new.contour } }
        ensures contour { OnOk result (self.new.contour ≡ place ∷ []) }
        ensures contours { OnOk result (self.new.contours.items ≡ self.old.contours.items ++ self.old.contour ∷ []) }
        ensures memory { IfErr result (λ stop. stop ≡ Stop.Memory) }
    {
        self.end_contour(alloc)?;
        self.contour = Contour::from(alloc, place)?;
        Ok(())
    }

    // Adds the points of a route to the contour, but for the first.
    fn extend_contour(&mut self, points: &[Point]) -> Result<(), Stop>
        requires { All IsPlace points.now }
        ensures others { self.new ≡ record self.old { contour = self.new.contour } }
        ensures contour { OnOk result (self.new.contour ≡ self.old.contour ++ drop 1 points.now) }
        ensures memory { IfErr result (λ stop. stop ≡ Stop.Memory) }
    {
        self.contour.extend(behind_first(points))?;
        Ok(())
    }

    // Changes the contours as an act does that is no flash.
    fn lead(&mut self, alloc: Global, o: Operation, reached: &Reached, act: Act) -> Result<(), Stop>
        requires place { reached.now.place ≡ place_after (held_of self.old).now o }
        requires points { is_draw (Some act) ≡ true → route (held_of self.old).now o ≡ Ok reached.now.points.items }
        requires inside { IsPlace reached.now.place }
        requires places { All IsPlace reached.now.points.items }
        ensures others { self.new ≡ record self.old { contours = self.new.contours; contour = self.new.contour } }
        ensures outline { OnOk result ((held_of self.new).outline ≡ traced (Some act) (held_of self.old).now (held_of self.old).outline o) }
        ensures memory { IfErr result (λ stop. stop ≡ Stop.Memory) }
    {
        match act {
            Act::Draw => self.extend_contour(&reached.points),
            Act::Move => self.start_contour(alloc, reached.place),
            Act::Flash => Ok(()),
        }
    }

    /// Carries out an operation in a region, or answers its first fault.
    pub fn trace(&mut self, alloc: Global, o: Operation) -> Result<(), Stop>
        requires ready { IsReady (held_of self.old) }
        requires written { AreWritten o }
        requires inside { self.old.region ≡ true }
        ensures steps { Steps (held_of self.old) (Operate o) result (held_of self.new) }
        ensures place { OnOk result (IsPlace self.new.here) }
    {
        let act = match self.checked(o) {
            Ok(act) => act,
            Err(kind) => return Err(Stop::Fault(kind)),
        };
        let reached = self.reach(alloc, o, act)?;
        self.lead(alloc, o, &reached, act)?;
        self.here = reached.place;
        self.mode = o.mode.unwrap_or(self.mode);
        self.act = Some(act);
        Ok(())
    }
}
