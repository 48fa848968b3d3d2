// Apertures and macros.
ghost use Rattle.std.specs.Prelude.{◌≡◌, [], ◌<◌, MatchOption, MatchResult, false, true, unwrap_or, Some, None, Ok, Err, if◌then◌else◌};
ghost use Rattle.macro_eval.specs.Body.{macro_of};
ghost use Rattle.gerber_image.specs.InForce.{defined_under};
ghost use Rattle.gerber_image.specs.Image.{figure_of};
ghost use Rattle.gerber_image.specs.Checks.{fault_of};
ghost use Rattle.gerber_image.specs.State.{held_of, IsReady, Stops, Steps};

use crate::refusal::GerberKind;
use crate::state::{State, Stop};
use apertures::{Aperture, ApertureError, NamedMacro, Unit, define};
use board_base::Items;
use gerber_words::{ApertureText, Command};
use macro_eval::{Macro, MacroFault, read_macro};
use std::alloc::Global;

// The unit in which the text of an aperture is read.
fn unit_or_mm(unit: Option<Unit>) -> Unit
    ensures { result ≡ unwrap_or unit Unit.Mm }
{
    match unit {
        Some(unit) => unit,
        None => Unit::Mm,
    }
}

impl State {
    // The aperture with a number.
    fn look_up(&self, number: Option<u32>) -> Option<&Aperture>
        ensures { MatchOption result (figure_of number (held_of self.now).now.aperture ≡ None)
            (λ a. figure_of number (held_of self.now).now.aperture ≡ Some a.now) }
    {
        match number {
            Some(number) => self.apertures.get(&number),
            None => None,
        }
    }

    /// The selected aperture.
    pub fn aperture(&self) -> Option<&Aperture>
        ensures { MatchOption result (figure_of self.now.selected (held_of self.now).now.aperture ≡ None)
            (λ a. figure_of self.now.selected (held_of self.now).now.aperture ≡ Some a.now) }
    {
        self.look_up(self.selected)
    }

    /// A selection of an aperture.
    pub fn select(&mut self, number: Option<u32>) -> Result<(), Stop>
        requires { IsReady (held_of self.old) }
        ensures { Steps (held_of self.old) (Command.Select number) result (held_of self.new) }
    {
        if self.look_up(number).is_none() {
            return Err(Stop::Fault(GerberKind::NoAperture));
        }
        self.selected = number;
        Ok(())
    }

    // The aperture of a definition, or its first fault.
    fn defined(&self, alloc: Global, number: u32, template: &ApertureText) -> Result<Aperture, Stop>
        requires { IsReady (held_of self.now) }
        ensures { MatchResult result
            (λ a. (fault_of (held_of self.now) (Command.Define number template.now) ≡ None) × (defined_under self.now.unit self.now.macros template.now ≡ Ok a))
            (Stops (fault_of (held_of self.now) (Command.Define number template.now))) }
    {
        let made = define(alloc, template.text(), unit_or_mm(self.unit), &self.macros);
        match (made, self.unit, self.region) {
            (Err(ApertureError::Memory), _, _) => Err(Stop::Memory),
            (Err(ApertureError::Syntax), _, _) => Err(Stop::Fault(GerberKind::Syntax)),
            (Err(ApertureError::Unsupported), _, _) => Err(Stop::Fault(GerberKind::Unsupported)),
            (_, None, _) => Err(Stop::Fault(GerberKind::NoUnit)),
            (_, Some(_), true) => Err(Stop::Fault(GerberKind::OpenRegion)),
            (Err(ApertureError::Macro(fault)), Some(_), false) => {
                Err(Stop::Fault(GerberKind::Macro(fault)))
            }
            (Err(ApertureError::OutOfRange), Some(_), false) => {
                Err(Stop::Fault(GerberKind::OutOfRange))
            }
            (Ok(aperture), Some(_), false) => Ok(aperture),
        }
    }

    /// A definition of an aperture.
    pub fn define(
        &mut self,
        alloc: Global,
        number: u32,
        template: &ApertureText,
    ) -> Result<(), Stop>
        requires { IsReady (held_of self.old) }
        ensures { Steps (held_of self.old) (Command.Define number template.now) result (held_of self.new) }
    {
        let aperture = self.defined(alloc, number, template)?;
        let _ = self.apertures.insert(number, aperture)?;
        Ok(())
    }

    // The macro of a body, or the first fault of its definition, whatever the name.
    fn read_body(&self, alloc: Global, body: &Items<u8>) -> Result<Macro, Stop>
        requires { IsReady (held_of self.now) }
        ensures { MatchResult result
            (λ m. (fault_of (held_of self.now) (Command.DefineMacro [] body.now) ≡ None) × (macro_of body.now ≡ Ok m))
            (Stops (fault_of (held_of self.now) (Command.DefineMacro [] body.now))) }
    {
        let read = read_macro(alloc, body.inner());
        match (read, self.region) {
            (Err(MacroFault::Memory), _) => Err(Stop::Memory),
            (_, true) => Err(Stop::Fault(GerberKind::OpenRegion)),
            (Err(fault), false) => Err(Stop::Fault(GerberKind::Macro(fault))),
            (Ok(body), false) => Ok(body),
        }
    }

    /// AM
    pub fn define_macro(
        &mut self,
        alloc: Global,
        name: &Items<u8>,
        body: &Items<u8>,
    ) -> Result<(), Stop>
        requires { IsReady (held_of self.old) }
        ensures { Steps (held_of self.old) (Command.DefineMacro name.now body.now) result (held_of self.new) }
    {
        let body = self.read_body(alloc, body)?;
        let name = Items::of(name.inner().to_vec(alloc)?);
        self.macros.push(NamedMacro { name, body })?;
        Ok(())
    }
}
