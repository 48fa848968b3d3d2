// Places on the board, moves over it, and the files that a command names.
ghost use Rattle.std.specs.Prelude.{◌≡◌, ◌↔◌, true};
ghost use Rattle.board_base.specs.Places.{IsCoordinate, is_coordinate as is_coordinate_of};

// The largest coordinate, in nanometres.
const MOST_COORDINATE: u128 = 500_000_000;

/// Whether a number of nanometres is a coordinate of the board: at most 500 mm in size.
pub fn is_coordinate(v: i128) -> bool
    ensures value { result ≡ is_coordinate_of v }
    ensures inside { (result ≡ true) ↔ IsCoordinate v }
{
    v.unsigned_abs() <= MOST_COORDINATE
}

/// A point of the board, in nanometres.
#[derive(Clone, Copy, Debug, PartialEq, Eq)]
pub struct Point {
    pub x: i64,
    pub y: i64,
}

/// A cell of the lattice, by its column and its row.
#[derive(Clone, Copy, Debug, PartialEq, Eq)]
pub struct Cell {
    pub i: i32,
    pub j: i32,
}

/// A rectangle in nanometres, with its ends.
#[derive(Clone, Copy, Debug, PartialEq, Eq)]
pub struct Bounds {
    pub x0: i64,
    pub y0: i64,
    pub x1: i64,
    pub y1: i64,
}

/// A rectangle of cells, with its ends.
#[derive(Clone, Copy, Debug, PartialEq, Eq)]
pub struct CellBox {
    pub i0: i32,
    pub j0: i32,
    pub i1: i32,
    pub j1: i32,
}

/// A position of the machine, in units of 10^-12 mm.
#[derive(Clone, Copy, Debug, PartialEq, Eq)]
pub struct Pos {
    pub x: i64,
    pub y: i64,
    pub z: i64,
}

/// How the machine moves: at its own pace, at the feed, or down to a probe's contact.
#[derive(Clone, Copy, Debug, PartialEq, Eq)]
pub enum MoveKind {
    Rapid,
    Feed,
    Probe,
}

/// One straight move of the machine. The speed is in turns a minute, the feed in thousandths of a
/// millimetre a minute, and the line is the program's, counted from 1.
#[derive(Clone, Copy, Debug, PartialEq, Eq)]
pub struct Move {
    pub from: Pos,
    pub to: Pos,
    pub kind: MoveKind,
    pub turning: bool,
    pub speed: u32,
    pub feed: i64,
    pub tool: u32,
    pub line: u32,
}

/// A side of the board.
#[derive(Clone, Copy, Debug, PartialEq, Eq)]
pub enum Side {
    Front,
    Back,
}

/// What a file is to a command; `Lines` is what goes to the sink.
#[derive(Clone, Copy, Debug, PartialEq, Eq)]
pub enum Role {
    Job,
    Front,
    Back,
    Drill,
    Outline,
    Ngc,
    Probes,
    Report,
    Lines,
}
