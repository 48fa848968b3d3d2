// Runs under watch.
ghost use Rattle.std.specs.Prelude.{◌≡◌, ◌≤◌, ◌<◌, ◌^◌, map, vec_len, MatchResult};
ghost use Rattle.std.specs.List.{All};
ghost use Rattle.move_watch.specs.Watch.{IsFresh};
ghost use Rattle.rs274_sim.specs.Few.{HasFewSettings};
ghost use Rattle.rs274_sim.specs.Machine.{run_of};
ghost use Rattle.rs274_sim.specs.Made.{StopsRun};
ghost use Rattle.simulation.specs.Simulated.{IsPatrolled};

use move_watch::{Findings, Patrol, Watcher, findings_law};
use rs274_sim::{Line, RunFault, run};
use std::alloc::Global;

/// How many moves a run made, and what each watcher found in them.
#[derive(Drop)]
pub struct Patrolled {
    pub moves: u64,
    pub findings: Findings,
}

/// Runs a program and shows each move to the watchers. Each is dropped where it objects, or at the end.
///
/// # Errors
///
/// The machine's fault and its line, or want of memory.
pub fn run_patrolled(
    alloc: Global,
    lines: &Vec<Line>,
    answers: &Vec<i64>,
    watchers: Vec<Box<dyn Watcher>>,
) -> Result<Patrolled, RunFault>
    requires settings { All HasFewSettings (lines.now).items }
    requires few { vec_len lines.now < 2 ^ 32 }
    requires fresh { All (λ w. IsFresh (watch w)) watchers.items }
    requires watchers { vec_len watchers ≤ 2 ^ 32 }
    ensures { MatchResult result
        (IsPatrolled (map (λ w. (watch w).limits) watchers.items) (run_of (answers.now).items (lines.now).items))
        (λ e. StopsRun e (run_of (answers.now).items (lines.now).items)) }
{
    findings_law();
    let mut patrol = match Patrol::new(alloc, watchers) {
        Ok(patrol) => patrol,
        Err(_) => return Err(RunFault::Memory),
    };
    match run(alloc, lines, answers, &mut patrol) {
        Ok(moves) => Ok(Patrolled {
            moves,
            findings: patrol.close(),
        }),
        Err(fault) => Err(fault),
    }
}
