// What a command answers.
ghost use Rattle.std.specs.Prelude.{◌≡◌};

use board_base::Role;
use excellon::DrillError;
use gerber_image::GerberError;
use job_file::JobError;
use mill_plan::LimitHit;
use ngc_reader::NgcKind;
use outline_loops::OutlineError;
use rs274_sim::SimFault;

/// What is wrong with a program: with its text, or with its run.
#[derive(Clone, Copy, Debug, PartialEq, Eq)]
pub enum NgcOrSim {
    /// A line is outside the grammar.
    Reader(NgcKind),
    /// The machine has no step for a line.
    Machine(SimFault),
}

/// The outcome of a command.
#[derive(Clone, Copy, Debug, PartialEq, Eq)]
pub enum Status {
    /// The command was carried out, and all its output was written.
    Done,
    /// The words are outside the command grammar; `word` counts from 1, and is one more than the count
    /// of words where a word is missing.
    Usage {
        word: u32,
    },
    /// The job is outside its grammar. No status carries its kind Memory: that becomes `Memory`.
    Job(JobError),
    /// A Gerber file has no image. No status carries its kinds TooManyObjects, TooManyVertices and Memory: they become
    /// `Limit` and `Memory`.
    Gerber {
        role: Role,
        error: GerberError,
    },
    /// The drill file drills nothing. No status carries its kinds TooMany and Memory: they become `Limit` and `Memory`.
    Drill(DrillError),
    /// The outline is open at an end, or has no loop. No status carries its kinds TooManyPoints and Memory: they become
    /// `Limit` and `Memory`.
    Outline(OutlineError),
    /// An input has more than 16,777,216 bytes.
    TooLong {
        role: Role,
    },
    /// What is read or planned passes a limit.
    Limit(LimitHit),
    /// An input could not be read.
    ReadFault {
        role: Role,
    },
    /// An output could not be written; `Lines` stands for the sink.
    WriteFault {
        role: Role,
    },
    /// A program is outside its grammar, or the machine has no step; `line` counts from 1. In the role Probes a line of
    /// that file is no answer of a probe. No status carries the reader's kind Memory: that becomes `Memory`.
    Ngc {
        role: Role,
        fault: NgcOrSim,
        line: u32,
    },
    /// A watcher objected to a move of the program. Both count from 0.
    Watch {
        watcher: u32,
        at: u64,
    },
    /// A low move of the checked program, on this line, is so near to the centre of this kept cell that it may bite copper.
    Cell {
        i: i32,
        j: i32,
        line: u32,
    },
    /// There was no memory.
    Memory,
}

impl Status {
    ghost use Rattle.endings.specs.Numbers.{number_of};

    /// The number with which a program ends.
    pub fn number(self) -> u8
        ensures { result ≡ number_of self }
    {
        match self {
            Status::Done => 0,
            Status::Usage { word: _ } => 2,
            Status::Job(_) => 3,
            Status::Gerber { role: _, error: _ } => 4,
            Status::Drill(_) => 5,
            Status::Outline(_) => 6,
            Status::TooLong { role: _ } => 7,
            Status::Limit(_) => 7,
            Status::ReadFault { role: _ } => 8,
            Status::WriteFault { role: _ } => 9,
            Status::Ngc {
                role: _,
                fault: _,
                line: _,
            } => 10,
            Status::Watch { watcher: _, at: _ } => 11,
            Status::Cell {
                i: _,
                j: _,
                line: _,
            } => 11,
            Status::Memory => 12,
        }
    }
}
