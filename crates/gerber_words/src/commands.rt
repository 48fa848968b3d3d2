// What commands say. Sections are those of the Gerber Layer Format Specification of Ucamco, revision 2022.02.
use apertures::{Mirror, Unit};
use board_base::Items;
use std::marker::Model;

/// How many digits of a coordinate stand before and behind the point (section 4.2, FS).
#[derive(Clone, Copy, Debug, PartialEq, Eq)]
pub struct AxisFormat {
    /// From 1 to 6.
    pub integer_digits: u32,
    /// From 2 to 6.
    pub decimal_digits: u32,
}

/// The digits of coordinates (section 4.2, FS).
#[derive(Clone, Copy, Debug, PartialEq, Eq)]
pub struct Format {
    /// Of X and I.
    pub x: AxisFormat,
    /// Of Y and J.
    pub y: AxisFormat,
}

/// The digits of a coordinate (section 4.2).
#[derive(Clone, Copy, Debug, PartialEq, Eq)]
pub struct Digits {
    /// How many they are.
    pub count: usize,
    /// Their number with its sign, where they are at most 18.
    pub value: i64,
}

/// What an operation does (section 4.8, D01 to D03).
#[derive(Clone, Copy, Debug, PartialEq, Eq)]
pub enum Act {
    /// A stroke from the current point, or an edge.
    Draw,
    /// A move that paints nothing.
    Move,
    /// The aperture's shape.
    Flash,
}

/// How a stroke leads to its end (section 4.7, G01 to G03).
#[derive(Clone, Copy, Debug, PartialEq, Eq)]
pub enum Interpolation {
    Linear,
    Clockwise,
    Counterclockwise,
}

/// The text of an aperture: a template's name and its values (sections 4.3 and 4.4, AD).
#[derive(Drop)]
pub struct ApertureText {
    bytes: Vec<u8>,
}

impl Model for ApertureText {
    ghost use Rattle.std.specs.Prelude.{List, ℕ};

    ghost Value = { List ℕ };

    ghost view = { λ t. t.bytes.items };
}

impl ApertureText {
    ghost use Rattle.std.specs.Prelude.{◌≡◌};

    /// The aperture with this text.
    pub fn of(bytes: Vec<u8>) -> ApertureText
        ensures { result ≡ bytes.items }
    {
        ApertureText { bytes }
    }

    /// Its text.
    pub fn text(&self) -> &[u8]
        ensures { result.now ≡ self.now }
    {
        &self.bytes
    }
}

/// The words of an operation (section 4.8).
#[derive(Clone, Copy, Debug, PartialEq, Eq)]
pub struct Operation {
    pub mode: Option<Interpolation>,
    pub x: Option<Digits>,
    pub y: Option<Digits>,
    pub i: Option<Digits>,
    pub j: Option<Digits>,
    pub act: Option<Act>,
}

/// What a command says (chapter 4; chapter 8 of what is deprecated).
#[derive(Drop)]
pub enum Command {
    /// FS, section 4.2.
    Format {
        format: Format,
    },
    /// MO, section 4.2, or G70 and G71, chapter 8. Whether it stands between percent signs, as MO does and G70 and G71 don't.
    Unit {
        unit: Unit,
        in_block: bool,
    },
    /// LP, section 4.9.
    Polarity {
        dark: bool,
    },
    /// LM, section 4.9.
    Mirror {
        mirror: Mirror,
    },
    /// LR, section 4.9. An angle in millionths of a degree, counterclockwise.
    Rotation {
        angle: u32,
    },
    /// G01 to G03 alone, section 4.7.
    Interpolation {
        mode: Interpolation,
    },
    /// G74 and G75, section 4.7. Whether arcs may be longer than a quarter.
    MultiQuadrant {
        on: bool,
    },
    /// G36, section 4.10.
    BeginRegion,
    /// G37, section 4.10.
    EndRegion,
    /// AD, section 4.3.
    Define {
        number: u32,
        template: ApertureText,
    },
    /// Dnn, section 4.6. No number where none such can be defined.
    Select {
        number: Option<u32>,
    },
    /// SR with counts and steps, section 4.12: a repeat opens. The steps are in 10^-9 of the unit.
    OpenRepeat {
        columns: u32,
        rows: u32,
        dx: u128,
        dy: u128,
    },
    /// SR alone, section 4.12: the open repeat closes.
    CloseRepeat,
    /// An operation, section 4.8.
    Operate {
        operation: Operation,
    },
    /// No effect, also in a region: comments (section 4.1), attributes (chapter 5) and names.
    Ignored,
    /// A setting between percent signs that holds without it (chapter 8).
    DeprecatedSetting,
    /// AM, section 4.5: the name and the body, which is without its last star. A macro without a body has a comment.
    DefineMacro {
        name: Items<u8>,
        body: Items<u8>,
    },
    /// A command that is left out, as AB (section 4.11).
    Unsupported,
    /// M02, section 4.13.
    End,
}
