// The program of a drill list.
ghost use Rattle.std.specs.Prelude.{◌≡◌, ◌≤◌, ◌++◌, ◌≤ℤ◌, length, map, IfOk, OnOk};
ghost use Rattle.std.specs.List.{enumerate_from};
ghost use Rattle.job_file.specs.Ranges.{IsInRanges};
ghost use Rattle.drill_plan.specs.Limits.{IsWithinLimits};
ghost use Rattle.mill_program.specs.Conditions.{IsProgram, IsRunnable};
ghost use Rattle.drill_program.specs.Program.{at_depth, hole_cut as hole_cut_of, slot_cut as slot_cut_of, tool_run as tool_run_of, program_of};
ghost use Rattle.drill_program.specs.Holes.{HolesLaw};
ghost use Rattle.drill_program.specs.Tiled.{OneTileWantsLaw, TiledHolesLaw};

use board_base::{Items, Point};
use drill_plan::{DrillPlan, ToolPlan, entries_law};
use job_file::Job;
use mill_program::{Corner, Cut, Program, ToolRun, run_law, stroke_law};
use std::alloc::{AllocError, Global};
use tiling::wanted_law;

// A place at the depth of the drill.
fn corner(at: Point, job: &Job) -> Corner
    ensures { result ≡ at_depth job.now at }
{
    Corner {
        x: at.x,
        y: at.y,
        z: job.zdrill,
    }
}

// The cut of a hole: down to its depth.
fn hole_cut(alloc: Global, at: Point, job: &Job) -> Result<Cut, AllocError>
    ensures { IfOk result (λ cut. cut ≡ hole_cut_of job.now at) }
{
    let mut cut = Items::empty(alloc);
    cut.push(corner(at, job))?;
    Ok(cut)
}

// The cut of a slot: down at its first end, and along to its second.
fn slot_cut(alloc: Global, ends: (Point, Point), job: &Job) -> Result<Cut, AllocError>
    ensures { IfOk result (λ cut. cut ≡ slot_cut_of job.now ends) }
{
    let mut cut = Items::empty(alloc);
    cut.push(corner(ends.0, job))?;
    cut.push(corner(ends.1, job))?;
    Ok(cut)
}

// Adds the cuts of holes.
fn add_holes(
    alloc: Global,
    cuts: &mut Items<Cut>,
    holes: &Vec<Point>,
    job: &Job,
) -> Result<(), AllocError>
    ensures { OnOk result (cuts.new ≡ cuts.old ++ map (hole_cut_of job.now) holes.now.items) }
{
    'holes: for at in holes {
        cuts.push(hole_cut(alloc, *at, job)?)?;
    }
    Ok(())
}

// Adds the cuts of slots.
fn add_slots(
    alloc: Global,
    cuts: &mut Items<Cut>,
    slots: &Vec<(Point, Point)>,
    job: &Job,
) -> Result<(), AllocError>
    ensures { OnOk result (cuts.new ≡ cuts.old ++ map (slot_cut_of job.now) slots.now.items) }
{
    'slots: for ends in slots {
        cuts.push(slot_cut(alloc, *ends, job)?)?;
    }
    Ok(())
}

// The run of a tool with its number.
#[tactic(auto, unfolding(crate::specs::Program::tool_run))]
fn tool_run(alloc: Global, number: u32, tool: &ToolPlan, job: &Job) -> Result<ToolRun, AllocError>
    ensures { IfOk result (λ run. run ≡ tool_run_of job.now number tool.now) }
{
    let mut cuts = Items::empty(alloc);
    add_holes(alloc, &mut cuts, tool.holes.inner(), job)?;
    add_slots(alloc, &mut cuts, tool.slots.inner(), job)?;
    Ok(ToolRun {
        tool: number,
        speed: job.drill_speed,
        feed: job.drill_feed,
        plunge: job.drill_feed,
        cuts,
    })
}

// The runs of all tools, numbered from 1.
fn tool_runs(alloc: Global, plan: &DrillPlan, job: &Job) -> Result<Items<ToolRun>, AllocError>
    requires { length plan.now ≤ 9999 }
    ensures { IfOk result (λ runs. runs ≡ map (λ t. tool_run_of job.now t.0 t.1) (enumerate_from 1 plan.now)) }
{
    let mut runs = Items::empty(alloc);
    let mut number = 0;
    'tools: for tool in plan.inner() {
        number += 1;
        runs.push(tool_run(alloc, number, tool, job)?)?;
    }
    Ok(runs)
}

/// The program that drills a drill list: for each tool a run with the number of its place in the list, counted from 1,
/// at the job's speed and feed for drills, with its holes in their order and then its slots, all down to `zdrill`.
/// Without tools the program has no run. Its tools have numbers up to 9,999, and its lines can run.
///
/// # Errors
///
/// Want of memory.
#[tactic(auto, unfolding(crate::specs::Program::program_of))]
pub fn drill_program(alloc: Global, plan: &DrillPlan, job: &Job) -> Result<Program, AllocError>
    requires ranges { IsInRanges job.now }
    requires change { (job.now).zsafe ≤ℤ (job.now).zchange }
    requires limits { IsWithinLimits plan.now }
    ensures value { IfOk result (λ program. program ≡ program_of job.now plan.now) }
    ensures program { IfOk result IsProgram }
    ensures runs { IfOk result IsRunnable }
{
    let runs = tool_runs(alloc, plan, job)?;
    Ok(Program {
        safe: job.zsafe,
        change: job.zchange,
        runs,
        grid: None,
    })
}

/// The run of the program of a file's drill list drills each hole of the file once and cuts each slot once, with the
/// tool for its diameter and down to `zdrill`, and cuts nothing else.
pub fn holes_law()
    ensures { HolesLaw }
{
    run_law();
    stroke_law();
    entries_law();
}

/// The run of the program of a file's drill list in tiles drills each hole of the file once in each tile and cuts each
/// slot once in each, tool after tool and tile after tile, and cuts nothing else. In one tile that is what it does on
/// the board alone.
pub fn tiled_holes_law()
    ensures tiles { TiledHolesLaw }
    ensures one_tile { OneTileWantsLaw }
{
    run_law();
    stroke_law();
    entries_law();
    wanted_law();
}
