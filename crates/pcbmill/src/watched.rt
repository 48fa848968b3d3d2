// The watchers over programs that are simulated.
ghost use Rattle.std.specs.Prelude.{IfOk};
ghost use Rattle.endings.specs.Run.{Leaves, HasCause, Tells};
ghost use Rattle.job_file.specs.Reading.{texts};
ghost use Rattle.mill_top.specs.Commands.{CommandOf, IsExactUsageOf};
ghost use Rattle.pcbmill.specs.Watched.{program_bounds};

use board_base::{Shelf, Sink};
use mill_top::{Status, run};
use move_watch::{DepthFloor, FeedCap, ToolList, TravelBox, Watcher};
use std::alloc::{AllocError, Global};

// How far from the origin of X and Y a program may go: 500 mm, in 10^-12 mm.
const FARTHEST: i64 = 500_000_000_000_000;

// How low: 50 mm below the board, in the same unit.
const LOWEST: i64 = -50_000_000_000_000;

// How fast at the feed: 6,000 mm a minute, in thousandths.
const FASTEST: i64 = 6_000_000;

// Which tools it may turn.
const FIRST_TOOL: u32 = 1;

const LAST_TOOL: u32 = 99;

/// Carries out the command that the words give, with the program's four watchers: over travel, depth, feed and tools, in
/// this order. The only error is want of memory for them.
pub fn run_watched<S: Shelf, K: Sink>(
    alloc: Global,
    words: &Vec<String>,
    shelf: &mut S,
    out: &mut K,
) -> Result<Status, AllocError>
    ensures leaves { IfOk result (λ status. Leaves (CommandOf program_bounds (texts words.now)) status (S.state shelf.old) (S.state shelf.new)) }
    ensures lines { IfOk result (λ status. Tells (CommandOf program_bounds (texts words.now)) status
        (S.state shelf.old) (S.state shelf.new) (K.state out.old) (K.state out.new)) }
    ensures usage { IfOk result (IsExactUsageOf (texts words.now)) }
    ensures cause { IfOk result (λ status. HasCause (CommandOf program_bounds (texts words.now)) status
        (S.state shelf.old) (S.state shelf.new) (K.state out.old) (K.state out.new)) }
{
    let travel = TravelBox::new(-FARTHEST, -FARTHEST, FARTHEST, FARTHEST);
    let mut watchers: Vec<Box<dyn Watcher>> = Vec::new(alloc);
    watchers.push(Box::new(alloc, travel)?)?;
    watchers.push(Box::new(alloc, DepthFloor::new(LOWEST))?)?;
    watchers.push(Box::new(alloc, FeedCap::new(FASTEST))?)?;
    watchers.push(Box::new(alloc, ToolList::new(FIRST_TOOL, LAST_TOOL))?)?;
    Ok(run(alloc, words, shelf, out, watchers))
}

#[cfg(test)]
mod tests;
