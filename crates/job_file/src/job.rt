// What a command is asked to make.

use board_base::{Items, Name};

/// What a command is asked to make. A field for each key, with `_` for `-` in its name. All lengths and heights are in
/// nanometres, feeds in thousandths of a millimetre a minute, speeds in turns a minute; ranges are told in the units
/// that a job is written in.
#[derive(Drop)]
pub struct Job {
    /// The Gerber file of the front's copper: a name of 1 to 200 printable ASCII characters.
    pub front: Option<Name>,
    /// The Gerber file of the back's copper: a name.
    pub back: Option<Name>,
    /// The Excellon file of the holes: a name.
    pub drill: Option<Name>,
    /// The Gerber file of the board's outline: a name.
    pub outline: Option<Name>,
    /// What the names of the programs begin with: 1 to 64 letters, digits, `_`, `-` and `.`.
    pub basename: Option<Name>,
    /// Lengths of the job are in millimetres: always true.
    pub metric: bool,
    /// Programs are in millimetres: always true.
    pub metricoutput: bool,
    /// The height at which copper is milled: -10 to -0.001 mm; -0.05 where none is given.
    pub zwork: i64,
    /// The height over which the cutter moves freely: 0.1 to 50 mm; 2 where none is given.
    pub zsafe: i64,
    /// The height at which tools are changed: 0.1 to 100 mm, no lower than `zsafe`; 10 where none is given.
    pub zchange: i64,
    /// The feed along copper: 1 to 6,000 mm a minute; 200 where none is given.
    pub mill_feed: i64,
    /// The feed down into copper: 1 to 6,000 mm a minute; 100 where none is given.
    pub mill_vertfeed: i64,
    /// The spindle's speed on copper: 1 to 100,000 turns a minute; 10,000 where none is given.
    pub mill_speed: u32,
    /// The cutter's diameter on copper: 0.02 to 10 mm; 0.2 where none is given.
    pub mill_diameters: i64,
    /// How many passes go round the copper past the first, at least: 0 to 50; 0 where none is given.
    pub extra_passes: u32,
    /// How wide the isolation is at least: 0 to 10 mm; 0 where none is given.
    pub isolation_width: i64,
    /// By how much passes overlap: 0 to 99 percent of the cutter's diameter; 50 where none is given.
    pub milling_overlap: u32,
    /// The cutter's diameter on the outline: 0.1 to 20 mm; 2 where none is given.
    pub cutter_diameter: i64,
    /// The height to which the outline is cut: -50 to -0.001 mm; -1.8 where none is given.
    pub zcut: i64,
    /// The feed along the outline: 1 to 6,000 mm a minute; 100 where none is given.
    pub cut_feed: i64,
    /// The feed down into the outline: 1 to 6,000 mm a minute; 60 where none is given.
    pub cut_vertfeed: i64,
    /// The spindle's speed on the outline: 1 to 100,000 turns a minute; 10,000 where none is given.
    pub cut_speed: u32,
    /// How much deeper each level of the outline is cut: 0.01 to 50 mm; 0.6 where none is given.
    pub cut_infeed: i64,
    /// How wide bridges are that hold the board: 0 to 20 mm; 0, which is none, where none is given.
    pub bridges: i64,
    /// How many bridges a chain of the outline has: 0 to 100; 2 where none is given.
    pub bridgesnum: u32,
    /// The height of bridges: -50 to -0.001 mm, above `zcut` where there are any; -0.6 where none is given.
    pub zbridges: i64,
    /// The height to which holes are drilled: -50 to -0.001 mm; -1.8 where none is given.
    pub zdrill: i64,
    /// The feed down into a hole: 1 to 6,000 mm a minute; 100 where none is given.
    pub drill_feed: i64,
    /// The drill's speed: 1 to 100,000 turns a minute; 10,000 where none is given.
    pub drill_speed: u32,
    /// The diameters of the drills at hand: at most 100 of 0.05 to 20 mm; none where none is given.
    pub drills_available: Items<i64>,
    /// How many tiles stand side by side: 1 to 20; 1 where none is given.
    pub tile_x: u32,
    /// How many tiles stand one above the other: 1 to 20; 1 where none is given.
    pub tile_y: u32,
    /// Whether programs follow the surface that probes find; false where none is given.
    pub al_front: bool,
    /// How far apart probes stand along x at most: 1 to 100 mm; 10 where none is given.
    pub al_x: i64,
    /// The same along y.
    pub al_y: i64,
    /// The feed of probes: 1 to 6,000 mm a minute; 50 where none is given.
    pub al_probefeed: i64,
    /// How far above and below zero probes seek: 0.01 to 10 mm, less than `zsafe`; 0.5 where none is given.
    pub al_range: i64,
    /// Whether copper is parted half way between islands: always false.
    pub voronoi: bool,
    /// Whether all copper round the islands is milled away; false where none is given.
    pub clear: bool,
    /// The pitch of cells: an even number of micrometres, 0.002 to 0.2 mm; 0.02 where none is given.
    pub pitch: i64,
    /// How far the cutter may reach into copper: 0 to 10 mm, less than its radius; 0 where none is given.
    pub tolerance: i64,
}
