// Runs of programs.
ghost use Rattle.std.specs.Prelude.{◌≡◌, ◌<◌, ◌^◌, ◌++◌, [], OnOk, Ok, List, length, vec_len, MatchResult};
ghost use Rattle.std.specs.List.{All};
ghost use Rattle.move_watch.specs.Watched.{watched};
ghost use Rattle.rs274_sim.specs.Few.{HasFewSettings};
ghost use Rattle.rs274_sim.specs.Machine.{run_of, is_end as is_end_in};
ghost use Rattle.rs274_sim.specs.Made.{made_of, some_move, StopsRun, seen_after};

use crate::forms::has;
use crate::ranges::either;
use crate::{Line, Machine, SimFault, Word};
use board_base::Move;
use move_watch::Viewer;
use std::alloc::{AllocError, Global};
use thiserror::Error;

/// What stops a run: a fault of the line of this number (NoEnd with the number of lines), or want of memory.
#[derive(Clone, Copy, Debug, PartialEq, Eq, Error)]
pub enum RunFault {
    /// A fault of this line.
    #[error("{fault} at line {line}")]
    Sim { fault: SimFault, line: u32 },
    /// The memory doesn't suffice.
    #[error("out of memory")]
    Memory,
}

// The line ends the program.
fn is_end(words: &[Word]) -> bool
    ensures { result ≡ is_end_in words.now }
{
    either(has(b'M', 2, words), has(b'M', 30, words))
}

// A move, if any, is put behind those that were made.
fn add_move(made: &mut Vec<Move>, m: Option<Move>) -> Result<(), AllocError>
    ensures { OnOk result (made.new.items ≡ made.old.items ++ some_move m []) }
{
    match m {
        Some(m) => {
            made.push(m)?;
            Ok(())
        }
        None => Ok(()),
    }
}

/// The moves of a program.
pub fn moves(alloc: Global, lines: &Vec<Line>, probes: &Vec<i64>) -> Result<Vec<Move>, RunFault>
    requires settings { All HasFewSettings (lines.now).items }
    requires few { vec_len lines.now < 2 ^ 32 }
    ensures { MatchResult result
        (λ moves. run_of (probes.now).items (lines.now).items ≡ Ok moves.items)
        (λ e. StopsRun e (run_of (probes.now).items (lines.now).items)) }
{
    let mut machine = match Machine::new(alloc) {
        Ok(machine) => machine,
        Err(_) => return Err(RunFault::Memory),
    };
    let mut made = Vec::new(alloc);
    for k in 0..lines.len() {
        let line = &lines[k];
        let number = k as u32 + 1;
        let m = match machine.step(line, number, probes) {
            Ok(m) => m,
            Err(fault) => {
                return Err(RunFault::Sim {
                    fault,
                    line: number,
                });
            }
        };
        if let Err(_) = add_move(&mut made, m) {
            return Err(RunFault::Memory);
        }
        if is_end(line.words.inner()) {
            return Ok(made);
        }
    }
    Err(RunFault::Sim {
        fault: SimFault::NoEnd,
        line: lines.len() as u32,
    })
}

// A move, if any, is shown and counted.
fn show_made<V: Viewer>(viewer: &mut V, m: Option<Move>) -> u64
    ensures shown { (rest : List Move) → watched rest (V.views viewer.new) ≡ watched (some_move m rest) (V.views viewer.old) }
    ensures count { result ≡ length (some_move m []) }
{
    match m {
        Some(m) => {
            viewer.view(&m);
            1
        }
        None => 0,
    }
}

/// Shows the moves of a program to a patrol, each as it is made, and counts them. Want of memory comes before the
/// first move: the machine's parameters are all that is taken.
pub fn run<V: Viewer>(
    alloc: Global,
    lines: &Vec<Line>,
    probes: &Vec<i64>,
    patrol: &mut V,
) -> Result<u64, RunFault>
    requires settings { All HasFewSettings (lines.now).items }
    requires few { vec_len lines.now < 2 ^ 32 }
    ensures value { MatchResult result
        (λ count. (run_of (probes.now).items (lines.now).items ≡ Ok (made_of (probes.now).items (lines.now).items)) × (count ≡ length (made_of (probes.now).items (lines.now).items)))
        (λ e. StopsRun e (run_of (probes.now).items (lines.now).items)) }
    // It has seen the moves up to the program's end or up to the line with the fault.
    ensures shown { V.views patrol.new ≡ seen_after result (made_of (probes.now).items (lines.now).items) (V.views patrol.old) }
{
    let mut machine = match Machine::new(alloc) {
        Ok(machine) => machine,
        Err(_) => return Err(RunFault::Memory),
    };
    let mut count = 0;
    for k in 0..lines.len() {
        let line = &lines[k];
        let number = k as u32 + 1;
        let m = match machine.step(line, number, probes) {
            Ok(m) => m,
            Err(fault) => {
                return Err(RunFault::Sim {
                    fault,
                    line: number,
                });
            }
        };
        count += show_made(patrol, m);
        if is_end(line.words.inner()) {
            return Ok(count);
        }
    }
    Err(RunFault::Sim {
        fault: SimFault::NoEnd,
        line: lines.len() as u32,
    })
}
