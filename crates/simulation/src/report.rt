// The lines of a run, and what the watchers say of it.
ghost use Rattle.std.specs.Prelude.{◌≡◌, ◌++◌, codes, decimal, string_bytes, IfOk};
ghost use Rattle.std.specs.List.{flat_map};
ghost use Rattle.simulation.specs.Simulated.{finding_line as finding_line_of, run_lines as run_lines_of, verdict_of, told_of, told_as};

use crate::patrolled::Patrolled;
use endings::Status;
use move_watch::Finding;
use std::alloc::{AllocError, Global};

/// What a run tells: its lines, but for the last line of the command, and the status Done, or Watch with the first
/// watcher that objected and the move.
#[derive(Drop)]
pub struct Simulation {
    pub lines: String,
    pub status: Status,
}

// What a watcher found.
fn finding_line(alloc: Global, finding: Finding) -> Result<String, AllocError>
    ensures { IfOk result (λ text. string_bytes text ≡ finding_line_of finding) }
{
    let watcher = finding.watcher;
    let seen = finding.seen;
    match finding.first {
        Some(first) => { Ok(format!(in alloc; "watcher {watcher} seen {seen} first {first}\n")?) }
        None => Ok(format!(in alloc; "watcher {watcher} seen {seen} first none\n")?),
    }
}

// How many moves there were, and a line for each watcher.
fn run_lines(alloc: Global, moves: u64, findings: &Vec<Finding>) -> Result<String, AllocError>
    ensures { IfOk result (λ text. string_bytes text ≡ run_lines_of moves (findings.now).items) }
{
    let mut text = format!(in alloc; "moves {moves}\n")?;
    for finding in findings {
        let line = finding_line(alloc, *finding)?;
        text.push_str(&line)?;
    }
    Ok(text)
}

// Watch with the first watcher that objected and the move, or Done.
fn verdict(findings: &Vec<Finding>) -> Status
    ensures { result ≡ verdict_of (findings.now).items }
{
    for finding in findings {
        if let Some(at) = finding.first {
            return Status::Watch {
                watcher: finding.watcher,
                at,
            };
        }
    }
    Status::Done
}

/// The lines and the status of a run that came to its end. The only error is want of memory.
pub fn report(alloc: Global, run: &Patrolled) -> Result<Simulation, AllocError>
    ensures { IfOk result (λ s. told_of s ≡ told_as (run_lines_of (run.now).moves (run.now).findings) (verdict_of (run.now).findings)) }
{
    let findings = run.findings.inner();
    let lines = run_lines(alloc, run.moves, findings)?;
    Ok(Simulation {
        lines,
        status: verdict(findings),
    })
}
