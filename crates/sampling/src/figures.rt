// What is told of a sample board.
ghost use Rattle.std.specs.Prelude.{◌≡◌, IfOk, IfSome, string_bytes};
ghost use Rattle.drill_plan.specs.Limits.{IsWithinLimits};
ghost use Rattle.sampling.specs.Sampled.{islands_in as islands_of, listed_in as listed_of, holes_in as holes_of, chains_in as chains_of, summary_of, summary_line as summary_line_of};

use drill_plan::{DrillPlan, counts};
use mill_outputs::Plans;
use mill_plan::Isolation;
use outline_plan::OutlineCut;
use std::alloc::{AllocError, Global};

/// The pads of a sample board, the islands of its front and how many lines the report has on those that stay joined, its
/// holes, and the walks round it.
#[derive(Clone, Copy, Debug, PartialEq, Eq)]
pub struct Summary {
    pub pads: u32,
    pub islands: u32,
    pub listed: u64,
    pub holes: u64,
    pub chains: u64,
}

// The islands of a side.
fn islands_in(plan: &Option<Isolation>) -> u32
    ensures { result ≡ islands_of plan.now }
{
    match plan {
        Some(plan) => plan.islands,
        None => 0,
    }
}

// The groups of islands that stay joined.
fn listed_in(plan: &Option<Isolation>) -> u64
    ensures { result ≡ listed_of plan.now }
{
    match plan {
        Some(plan) => plan.groups.len() as u64,
        None => 0,
    }
}

// The holes of all tools.
fn holes_in(plan: &Option<DrillPlan>) -> u64
    requires { IfSome plan.now IsWithinLimits }
    ensures { result ≡ holes_of plan.now }
{
    match plan {
        Some(plan) => counts(plan).holes,
        None => 0,
    }
}

// The walks round the board.
fn chains_in(plan: &Option<OutlineCut>) -> u64
    ensures { result ≡ chains_of plan.now }
{
    match plan {
        Some(plan) => plan.chains,
        None => 0,
    }
}

/// What is told of the plans for a board of so many pads.
pub fn summarize(pads: u32, plans: &Plans) -> Summary
    requires { IfSome (plans.now).drill IsWithinLimits }
    ensures { result ≡ summary_of pads plans.now }
{
    Summary {
        pads,
        islands: islands_in(&plans.front),
        listed: listed_in(&plans.front),
        holes: holes_in(&plans.drill),
        chains: chains_in(&plans.outline),
    }
}

/// The line of that. The only error is want of memory.
pub fn summary_line(alloc: Global, summary: Summary) -> Result<String, AllocError>
    ensures { IfOk result (λ text. string_bytes text ≡ summary_line_of summary) }
{
    let pads = summary.pads;
    let islands = summary.islands;
    let listed = summary.listed;
    let holes = summary.holes;
    let chains = summary.chains;
    Ok(format!(in alloc;
        "sample {pads} islands {islands} listed {listed} holes {holes} chains {chains}\n"
    )?)
}
