// Settings.
ghost use Rattle.std.specs.Prelude.{◌≡◌, ◌<◌, false, true, Some, None, Ok, Err, if◌then◌else◌};
ghost use Rattle.gerber_image.specs.Checks.{same_axis, same_format, same_unit};
ghost use Rattle.gerber_image.specs.State.{held_of, IsReady, Steps};

use crate::numbers::both;
use crate::refusal::GerberKind;
use crate::state::{State, Stop};
use apertures::{Mirror, Unit};
use gerber_words::{AxisFormat, Command, Format, Interpolation};

// Whether the digits of an axis are the same.
fn is_same_axis(format: AxisFormat, old: AxisFormat) -> bool
    ensures { result ≡ same_axis format old }
{
    format.integer_digits == old.integer_digits && format.decimal_digits == old.decimal_digits
}

// Whether no format was set, or this one.
fn is_same_format(format: Format, old: Option<Format>) -> bool
    ensures { result ≡ same_format format old }
{
    match old {
        None => true,
        Some(old) => is_same_axis(format.x, old.x) && is_same_axis(format.y, old.y),
    }
}

// Whether no unit was set, or this one.
fn is_same_unit(unit: Unit, old: Option<Unit>) -> bool
    ensures { result ≡ same_unit unit old }
{
    match (unit, old) {
        (Unit::Mm, Some(Unit::Inch)) => false,
        (Unit::Inch, Some(Unit::Mm)) => false,
        _ => true,
    }
}

impl State {
    /// FS
    pub fn set_format(&mut self, format: Format) -> Result<(), Stop>
        requires { IsReady (held_of self.old) }
        ensures { Steps (held_of self.old) (Command.Format format) result (held_of self.new) }
    {
        if !is_same_format(format, self.format) {
            return Err(Stop::Fault(GerberKind::Syntax));
        }
        if self.region {
            return Err(Stop::Fault(GerberKind::OpenRegion));
        }
        self.format = Some(format);
        Ok(())
    }

    /// MO, G70 and G71
    pub fn set_unit(&mut self, unit: Unit, in_block: bool) -> Result<(), Stop>
        requires { IsReady (held_of self.old) }
        ensures { Steps (held_of self.old) (Command.Unit unit in_block) result (held_of self.new) }
    {
        if !is_same_unit(unit, self.unit) {
            return Err(Stop::Fault(GerberKind::Syntax));
        }
        if both(self.region, in_block) {
            return Err(Stop::Fault(GerberKind::OpenRegion));
        }
        self.unit = Some(unit);
        Ok(())
    }

    /// LP
    pub fn set_dark(&mut self, dark: bool) -> Result<(), Stop>
        requires { IsReady (held_of self.old) }
        ensures { Steps (held_of self.old) (Command.Polarity dark) result (held_of self.new) }
    {
        if self.region {
            return Err(Stop::Fault(GerberKind::OpenRegion));
        }
        self.dark = dark;
        Ok(())
    }

    /// LM
    pub fn set_mirror(&mut self, mirror: Mirror) -> Result<(), Stop>
        requires { IsReady (held_of self.old) }
        ensures { Steps (held_of self.old) (Command.Mirror mirror) result (held_of self.new) }
    {
        if self.region {
            return Err(Stop::Fault(GerberKind::OpenRegion));
        }
        self.mirror = mirror;
        Ok(())
    }

    /// LR
    pub fn set_angle(&mut self, angle: u32) -> Result<(), Stop>
        requires { IsReady (held_of self.old) }
        ensures { Steps (held_of self.old) (Command.Rotation angle) result (held_of self.new) }
    {
        if self.region {
            return Err(Stop::Fault(GerberKind::OpenRegion));
        }
        self.angle = angle;
        Ok(())
    }

    /// G01, G02 and G03
    pub fn set_mode(&mut self, mode: Interpolation) -> Result<(), Stop>
        requires { IsReady (held_of self.old) }
        ensures { Steps (held_of self.old) (Command.Interpolation mode) result (held_of self.new) }
    {
        self.mode = mode;
        Ok(())
    }

    /// G74 and G75
    pub fn set_multi_quadrant(&mut self, on: bool) -> Result<(), Stop>
        requires { IsReady (held_of self.old) }
        ensures { Steps (held_of self.old) (Command.MultiQuadrant on) result (held_of self.new) }
    {
        self.multi_quadrant = on;
        Ok(())
    }

    /// A setting that holds without it.
    pub fn deprecated_setting(&self) -> Result<(), Stop>
        requires { IsReady (held_of self.now) }
        ensures { Steps (held_of self.now) Command.DeprecatedSetting result (held_of self.now) }
    {
        if self.region {
            return Err(Stop::Fault(GerberKind::OpenRegion));
        }
        Ok(())
    }
}
