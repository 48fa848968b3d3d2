// What the reader keeps, and how commands change it.
ghost use Rattle.std.specs.Prelude.{◌≡◌, ◌<◌, ◌≤◌, ◌+◌, false, true, Some, None, Ok, Err, if◌then◌else◌, IfSome, IfErr, OnOk, ◌++◌};
ghost use Rattle.std.specs.List.{list_any};
ghost use Rattle.apertures.specs.Texts.{IsSize};
ghost use Rattle.gerber_image.specs.InForce.{opened as opened_of};
ghost use Rattle.gerber_image.specs.Image.{copies};
ghost use Rattle.gerber_image.specs.Checks.{is_outside, excess_of};
ghost use Rattle.gerber_words.specs.Fits.{IsCommand};
ghost use Rattle.gerber_image.specs.State.{held_of, nothing, IsReady, IsRepeat, block_fault, Stops, Steps};

use crate::block::BlockObject;
use crate::contour::Contour;
use crate::numbers::step_length;
use crate::objects::Objects;
use crate::refusal::GerberKind;
use crate::repeat::{Repeat, copies_excess, copies_leave, paint_copies};
use apertures::{Aperture, Macros, Mirror, Unit};
use board_base::Point;
use gerber_words::{Act, Command, Format, Interpolation};
use std::alloc::{AllocError, AllocFailed, Global};
use std::collections::BTreeMap;

/// What is in force, the contours of the open region, the block of the open repeat, and what is painted.
#[derive(Drop)]
pub struct State {
    pub format: Option<Format>,
    pub unit: Option<Unit>,
    pub dark: bool,
    pub mirror: Mirror,
    pub angle: u32,
    pub mode: Interpolation,
    pub multi_quadrant: bool,
    pub region: bool,
    pub selected: Option<u32>,
    pub macros: Macros,
    pub apertures: BTreeMap<u32, Aperture, Global>,
    pub here: Point,
    pub act: Option<Act>,
    pub repeat: Option<Repeat>,
    pub contours: Vec<Contour>,
    pub contour: Contour,
    pub block: Vec<BlockObject>,
    pub painted: Objects,
}

/// What stops the reader.
#[derive(Clone, Copy, Debug, PartialEq, Eq)]
pub enum Stop {
    /// A check of a command fails.
    Fault(GerberKind),
    /// The memory doesn't suffice.
    Memory,
}

impl From<AllocError> for Stop {
    ghost use Rattle.std.specs.Prelude.{◌≡◌};
    ghost use Rattle.gerber_image.specs.declared.state.Stop.TheVariants.{Memory};

    ghost from_gives = { λ _ e. e ≡ Memory };

    fn from(_: AllocError) -> Self {
        Stop::Memory
    }
}

impl<T: Drop> From<AllocFailed<T>> for Stop {
    ghost use Rattle.std.specs.Prelude.{◌≡◌};
    ghost use Rattle.gerber_image.specs.declared.state.Stop.TheVariants.{Memory};

    ghost from_gives = { λ _ e. e ≡ Memory };

    fn from(_: AllocFailed<T>) -> Self {
        Stop::Memory
    }
}

// The repeat that opens, if it has more than one copy.
fn opened(unit: Unit, columns: u32, rows: u32, dx: u128, dy: u128) -> Option<Repeat>
    requires columns { (0 < columns) × (columns ≤ 1000) }
    requires rows { (0 < rows) × (rows ≤ 1000) }
    requires dx { IsSize dx }
    requires dy { IsSize dy }
    ensures value { result ≡ opened_of (Some unit) columns rows dx dy }
    ensures fits { IfSome result IsRepeat }
{
    if columns as u64 * rows as u64 == 1 {
        None
    } else {
        Some(Repeat {
            columns,
            rows,
            dx: step_length(unit, dx),
            dy: step_length(unit, dy),
        })
    }
}

impl State {
    /// What is kept at first.
    pub fn new(alloc: Global) -> State
        ensures value { held_of result ≡ nothing }
        ensures ready { IsReady (held_of result) }
    {
        State {
            format: None,
            unit: None,
            dark: true,
            mirror: Mirror::Keep,
            angle: 0,
            mode: Interpolation::Linear,
            multi_quadrant: false,
            region: false,
            selected: None,
            macros: Macros::empty(alloc),
            apertures: BTreeMap::new(alloc),
            here: Point { x: 0, y: 0 },
            act: None,
            repeat: None,
            contours: Vec::new(alloc),
            contour: Contour::empty(alloc),
            block: Vec::new(alloc),
            painted: Objects::empty(alloc),
        }
    }

    // Paints the copies of the open block, where one is open.
    fn paint_block(&mut self, alloc: Global) -> Result<(), Stop>
        requires { IsReady (held_of self.old) }
        ensures others { self.new ≡ record self.old { painted = self.new.painted } }
        ensures ok { OnOk result
            ((self.new.painted ≡ self.old.painted ++ copies self.old.repeat self.old.block.items)
            × (list_any is_outside (copies self.old.repeat self.old.block.items) ≡ false)
            × (excess_of self.new.painted ≡ None)) }
        ensures refused { IfErr result (Stops (block_fault (held_of self.old))) }
    {
        let Some(repeat) = self.repeat else {
            return Ok(());
        };
        if copies_leave(repeat, &self.block) {
            return Err(Stop::Fault(GerberKind::OutOfRange));
        }
        if let Some(kind) = copies_excess(&self.painted, repeat, &self.block) {
            return Err(Stop::Fault(kind));
        }
        paint_copies(alloc, &mut self.painted, repeat, &self.block)?;
        Ok(())
    }

    // SR alone.
    fn close(&mut self, alloc: Global) -> Result<(), Stop>
        requires { IsReady (held_of self.old) }
        ensures { Steps (held_of self.old) Command.CloseRepeat result (held_of self.new) }
    {
        if self.repeat.is_none() {
            return Err(Stop::Fault(GerberKind::Syntax));
        }
        if self.region {
            return Err(Stop::Fault(GerberKind::OpenRegion));
        }
        self.paint_block(alloc)?;
        self.block.clear();
        self.repeat = None;
        Ok(())
    }

    // SR with counts and steps.
    fn open(
        &mut self,
        alloc: Global,
        columns: u32,
        rows: u32,
        dx: u128,
        dy: u128,
    ) -> Result<(), Stop>
        requires ready { IsReady (held_of self.old) }
        requires command { IsCommand (Command.OpenRepeat columns rows dx dy) }
        ensures { Steps (held_of self.old) (Command.OpenRepeat columns rows dx dy) result (held_of self.new) }
    {
        let Some(unit) = self.unit else {
            return Err(Stop::Fault(GerberKind::NoUnit));
        };
        if self.region {
            return Err(Stop::Fault(GerberKind::OpenRegion));
        }
        self.paint_block(alloc)?;
        self.block.clear();
        self.repeat = opened(unit, columns, rows, dx, dy);
        Ok(())
    }

    // M02
    fn end(&self) -> Result<(), Stop>
        requires { IsReady (held_of self.now) }
        ensures { Steps (held_of self.now) Command.End result (held_of self.now) }
    {
        if self.region {
            return Err(Stop::Fault(GerberKind::OpenRegion));
        }
        if self.repeat.is_some() {
            return Err(Stop::Fault(GerberKind::OpenRepeat));
        }
        Ok(())
    }

    /// Takes a command, or answers its first fault.
    pub fn step(&mut self, alloc: Global, command: &Command) -> Result<(), Stop>
        requires ready { IsReady (held_of self.old) }
        requires command { IsCommand command.now }
        ensures steps { Steps (held_of self.old) command.now result (held_of self.new) }
        ensures ready { OnOk result (IsReady (held_of self.new)) }
    {
        match command {
            Command::Format { format } => self.set_format(*format),
            Command::Unit { unit, in_block } => self.set_unit(*unit, *in_block),
            Command::Polarity { dark } => self.set_dark(*dark),
            Command::Mirror { mirror } => self.set_mirror(*mirror),
            Command::Rotation { angle } => self.set_angle(*angle),
            Command::Interpolation { mode } => self.set_mode(*mode),
            Command::MultiQuadrant { on } => self.set_multi_quadrant(*on),
            Command::BeginRegion => self.begin_region(alloc),
            Command::EndRegion => self.end_region(alloc),
            Command::Define { number, template } => self.define(alloc, *number, template),
            Command::DefineMacro { name, body } => self.define_macro(alloc, name, body),
            Command::Select { number } => self.select(*number),
            Command::OpenRepeat {
                columns,
                rows,
                dx,
                dy,
            } => self.open(alloc, *columns, *rows, *dx, *dy),
            Command::CloseRepeat => self.close(alloc),
            Command::Operate { operation } => self.operate(alloc, *operation),
            Command::Ignored => Ok(()),
            Command::DeprecatedSetting => self.deprecated_setting(),
            Command::Unsupported => Err(Stop::Fault(GerberKind::Unsupported)),
            Command::End => self.end(),
        }
    }
}
