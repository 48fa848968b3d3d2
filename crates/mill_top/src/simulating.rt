// The command `simulate`.
ghost use Rattle.std.specs.Prelude.{map, string_bytes, MatchResult};
ghost use Rattle.std.specs.List.{All};
ghost use Rattle.move_watch.specs.Watch.{IsFresh};
ghost use Rattle.endings.specs.Answers.{IfTold};
ghost use Rattle.endings.specs.Run.{Leaves, Answers, HasCause, Tells};
ghost use Rattle.endings.specs.Works.{Gives, Works, WorksAlone, status_of};
ghost use Rattle.job_file.specs.Reading.{texts};
ghost use Rattle.endings.specs.Words.{IsExactUsage};
ghost use Rattle.simulation.specs.Words.{words_of};
ghost use Rattle.simulation.specs.Simulated.{told_of, simulated, SimulationEnds};

use board_base::{Shelf, Sink};
use endings::{Status, tell, tell_lines};
use move_watch::Watcher;
use simulation::{Simulation, simulate};
use std::alloc::Global;

// So many watchers have numbers of 32 bits.
const MOST_WATCHERS: usize = 4_294_967_296;

// Carries out `simulate`, but for its lines. Watchers that can't be numbered are too many for memory.
fn simulate_numbered<S: Shelf>(
    alloc: Global,
    words: &Vec<String>,
    shelf: &mut S,
    watchers: Vec<Box<dyn Watcher>>,
) -> Result<Simulation, Status>
    requires fresh { All (λ w. IsFresh (watch w)) watchers.items }
    ensures usage { IsExactUsage (words_of (texts words.now)) (status_of result) }
    ensures gives { Gives told_of (S.state shelf.old) (S.state shelf.new)
        (simulated (map (λ w. (watch w).limits) watchers.items) (texts words.now)) result }
    ensures works { MatchResult result
        (λ s. WorksAlone (SimulationEnds (map (λ w. (watch w).limits) watchers.items) (texts words.now)) (string_bytes s.lines) s.status
        (S.state shelf.old) (S.state shelf.new))
        (λ status. Works (SimulationEnds (map (λ w. (watch w).limits) watchers.items) (texts words.now)) status
        (S.state shelf.old) (S.state shelf.new)) }
{
    if watchers.len() > MOST_WATCHERS {
        return Err(Status::Memory);
    }
    simulate(alloc, words, shelf, watchers)
}

/// Carries out `simulate`, under these watchers.
pub fn run_simulation<S: Shelf, K: Sink>(
    alloc: Global,
    words: &Vec<String>,
    shelf: &mut S,
    out: &mut K,
    watchers: Vec<Box<dyn Watcher>>,
) -> Status
    requires fresh { All (λ w. IsFresh (watch w)) watchers.items }
    ensures leaves { Leaves (SimulationEnds (map (λ w. (watch w).limits) watchers.items) (texts words.now)) result
        (S.state shelf.old) (S.state shelf.new) }
    ensures lines { Tells (SimulationEnds (map (λ w. (watch w).limits) watchers.items) (texts words.now)) result
        (S.state shelf.old) (S.state shelf.new) (K.state out.old) (K.state out.new) }
    ensures usage { IsExactUsage (words_of (texts words.now)) result }
    ensures cause { HasCause (SimulationEnds (map (λ w. (watch w).limits) watchers.items) (texts words.now)) result
        (S.state shelf.old) (S.state shelf.new) (K.state out.old) (K.state out.new) }
    ensures answers { IfTold (S.state shelf.old).files (λ files.
        Answers (SimulationEnds (map (λ w. (watch w).limits) watchers.items) (texts words.now)) files result
        (S.state shelf.old) (S.state shelf.new) (K.state out.old) (K.state out.new)) }
{
    match simulate_numbered(alloc, words, shelf, watchers) {
        Ok(simulation) => tell_lines(alloc, simulation.lines.as_bytes(), simulation.status, out),
        Err(status) => tell(alloc, status, out),
    }
}
