// The lines of the report about the outline.
ghost use Rattle.std.specs.Prelude.{◌≡◌, ◌++◌, OnOk};
ghost use Rattle.std.specs.List.{flat_map};
ghost use Rattle.mill_outputs.specs.Report.{in_millimetres, bridge_line, cut_counts, outline_text, outline_if};

use crate::report::{add_count, add_frame};
use board_base::Point;
use fixed_num::write_fixed6;
use outline_plan::OutlineCut;
use std::alloc::{AllocError, Global};

// Appends nanometres in millimetres, behind their label.
#[tactic(auto, unfolding(crate::specs::Report::in_millimetres))]
fn add_length(
    alloc: Global,
    bytes: &mut Vec<u8>,
    label: &str,
    nanometres: i64,
) -> Result<(), AllocError>
    ensures { OnOk result (bytes.new.items ≡ bytes.old.items ++ label.now ++ in_millimetres nanometres) }
{
    bytes.extend_from_slice(label.as_bytes())?;
    write_fixed6(alloc, bytes, nanometres)
}

// Appends the line of a bridge.
#[tactic(auto, unfolding(crate::specs::Report::bridge_line))]
fn add_bridge(alloc: Global, bytes: &mut Vec<u8>, at: Point) -> Result<(), AllocError>
    ensures { OnOk result (bytes.new.items ≡ bytes.old.items ++ bridge_line at) }
{
    add_length(alloc, bytes, "bridge ", at.x)?;
    add_length(alloc, bytes, " ", at.y)?;
    bytes.push(b'\n')?;
    Ok(())
}

// Appends a line for each bridge.
fn add_bridges(alloc: Global, bytes: &mut Vec<u8>, bridges: &Vec<Point>) -> Result<(), AllocError>
    ensures { OnOk result (bytes.new.items ≡ bytes.old.items ++ flat_map bridge_line bridges.now.items) }
{
    for bridge in bridges {
        add_bridge(alloc, bytes, *bridge)?;
    }
    Ok(())
}

// Appends the counts of walks, levels and bridges.
#[tactic(auto, unfolding(crate::specs::Report::cut_counts))]
fn add_cut_counts(bytes: &mut Vec<u8>, plan: &OutlineCut) -> Result<(), AllocError>
    ensures { OnOk result (bytes.new.items ≡ bytes.old.items ++ cut_counts plan.now) }
{
    add_count(bytes, " chains ", plan.chains)?;
    add_count(bytes, " passes ", plan.passes as u64)?;
    add_count(bytes, " bridges ", plan.bridges.len() as u64)?;
    Ok(())
}

// Appends the line of the frame and the counts, and then one for each bridge.
#[tactic(auto, unfolding(crate::specs::Report::outline_text))]
fn add_outline(alloc: Global, bytes: &mut Vec<u8>, plan: &OutlineCut) -> Result<(), AllocError>
    ensures { OnOk result (bytes.new.items ≡ bytes.old.items ++ outline_text plan.now) }
{
    bytes.extend_from_slice(b"outline")?;
    add_frame(bytes, plan.frame)?;
    add_cut_counts(bytes, plan)?;
    bytes.push(b'\n')?;
    add_bridges(alloc, bytes, &plan.bridges)
}

/// Appends the lines of an outline, where there is one. The only error is want of memory.
pub fn add_outline_if(
    alloc: Global,
    bytes: &mut Vec<u8>,
    plan: &Option<OutlineCut>,
) -> Result<(), AllocError>
    ensures { OnOk result (bytes.new.items ≡ bytes.old.items ++ outline_if plan.now) }
{
    match plan {
        Some(plan) => add_outline(alloc, bytes, plan),
        None => Ok(()),
    }
}
