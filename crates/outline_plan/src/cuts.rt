// The cuts of an outline, and their program.
ghost use Rattle.std.specs.Prelude.{◌≡◌, ◌++◌, IfOk, OnOk};
ghost use Rattle.std.specs.List.{All};
ghost use Rattle.board_base.specs.Lattice.{IsPitch};
ghost use Rattle.board_base.specs.Places.{IsPlace};
ghost use Rattle.outline_bridges.specs.Chains.{IsChain};
ghost use Rattle.outline_plan.specs.Job.{IsOutlineJob, level_at};
ghost use Rattle.outline_plan.specs.Cuts.{cut_at, walk_cuts, outline_cuts, outline_program};

use crate::cutting::{bridge_width, level, levels_count};
use board_base::{Items, Point};
use chain_walk::Chain;
use job_file::Job;
use mill_program::{Cut, Program, ToolRun};
use outline_bridges::lift;
use std::alloc::{AllocError, Global};

// One level of a walk.
fn cut(
    alloc: Global,
    walk: &Chain,
    bridges: &Vec<Point>,
    job: &Job,
    k: u32,
) -> Result<Cut, AllocError>
    requires job { IsOutlineJob job.now }
    requires pitch { IsPitch job.now.pitch }
    requires walk { IsChain job.now.pitch walk.now }
    requires bridges { All IsPlace bridges.now.items }
    ensures { IfOk result (λ cut. cut ≡ cut_at job.now bridges.now.items walk.now (level_at job.now k)) }
{
    let lifted = lift(
        alloc,
        walk,
        job.pitch,
        level(job, k),
        job.zbridges,
        bridges,
        bridge_width(job),
    )?;
    Ok(lifted)
}

// Adds all levels of a walk.
fn add_levels(
    alloc: Global,
    cuts: &mut Items<Cut>,
    walk: &Chain,
    bridges: &Vec<Point>,
    job: &Job,
) -> Result<(), AllocError>
    requires job { IsOutlineJob job.now }
    requires pitch { IsPitch job.now.pitch }
    requires walk { IsChain job.now.pitch walk.now }
    requires bridges { All IsPlace bridges.now.items }
    ensures { OnOk result (cuts.new ≡ cuts.old ++ walk_cuts job.now bridges.now.items walk.now) }
{
    'levels: for k in 0..levels_count(job) {
        let level = cut(alloc, walk, bridges, job, k)?;
        cuts.push(level)?;
    }
    Ok(())
}

/// All levels of each walk, walk after walk.
pub(crate) fn cuts(
    alloc: Global,
    walks: &Vec<Chain>,
    bridges: &Vec<Point>,
    job: &Job,
) -> Result<Items<Cut>, AllocError>
    requires job { IsOutlineJob job.now }
    requires pitch { IsPitch job.now.pitch }
    requires walks { All (IsChain job.now.pitch) walks.now.items }
    requires bridges { All IsPlace bridges.now.items }
    ensures { IfOk result (λ cuts. cuts ≡ outline_cuts job.now bridges.now.items walks.now.items) }
{
    let mut cuts = Items::empty(alloc);
    'walks: for walk in walks {
        add_levels(alloc, &mut cuts, walk, bridges, job)?;
    }
    Ok(cuts)
}

/// The program of these cuts.
pub(crate) fn program(alloc: Global, cuts: Items<Cut>, job: &Job) -> Result<Program, AllocError>
    ensures { IfOk result (λ program. program ≡ outline_program job.now cuts) }
{
    let mut runs = Items::empty(alloc);
    runs.push(ToolRun {
        tool: 1,
        speed: job.cut_speed,
        feed: job.cut_feed,
        plunge: job.cut_vertfeed,
        cuts,
    })?;
    Ok(Program {
        safe: job.zsafe,
        change: job.zchange,
        runs,
        grid: None,
    })
}
