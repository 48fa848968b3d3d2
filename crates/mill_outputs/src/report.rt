// The bytes of the report.
ghost use Rattle.std.specs.Prelude.{◌≡◌, ◌++◌, IfOk, IfSome, OnOk, decimal};
ghost use Rattle.drill_plan.specs.Limits.{IsWithinLimits};
ghost use Rattle.mill_outputs.specs.Report.{side_of, frame_text, counts_text, counts_line, numbers_text, joined_lines, side_text, side_if, report_text};

use crate::Plans;
use crate::drill_report::add_drill_if;
use crate::outline_report::add_outline_if;
use cell_grid::Frame;
use itoa::Buffer;
use mill_plan::Isolation;
use separation_check::Group;
use std::alloc::{AllocError, Global};

/// Appends a number behind its label. The only error is want of memory.
pub fn add_count(bytes: &mut Vec<u8>, label: &str, n: u64) -> Result<(), AllocError>
    ensures { OnOk result (bytes.new.items ≡ bytes.old.items ++ label.now ++ decimal n) }
{
    let mut buffer = Buffer::new();
    bytes.extend_from_slice(label.as_bytes())?;
    bytes.extend_from_slice(buffer.format(n).as_bytes())?;
    Ok(())
}

/// Appends the sides of a frame. The only error is want of memory.
#[tactic(auto, unfolding(crate::specs::Report::frame_text))]
pub fn add_frame(bytes: &mut Vec<u8>, frame: Frame) -> Result<(), AllocError>
    ensures { OnOk result (bytes.new.items ≡ bytes.old.items ++ frame_text frame) }
{
    add_count(bytes, " frame ", frame.width as u64)?;
    add_count(bytes, " ", frame.height as u64)?;
    Ok(())
}

// Appends the counts of a plan.
#[tactic(auto, unfolding(crate::specs::Report::counts_text))]
fn add_counts(bytes: &mut Vec<u8>, plan: &Isolation) -> Result<(), AllocError>
    ensures { OnOk result (bytes.new.items ≡ bytes.old.items ++ counts_text (side_of plan.now)) }
{
    add_count(bytes, " kept ", plan.kept)?;
    add_count(bytes, " islands ", plan.islands as u64)?;
    add_count(bytes, " centres ", plan.centres)?;
    add_count(bytes, " chains ", plan.chains)?;
    Ok(())
}

// Appends the line of the frame and the counts of a side.
#[tactic(auto, unfolding(crate::specs::Report::counts_line))]
fn add_counts_line(bytes: &mut Vec<u8>, name: &str, plan: &Isolation) -> Result<(), AllocError>
    ensures { OnOk result (bytes.new.items ≡ bytes.old.items ++ counts_line name.now (side_of plan.now)) }
{
    bytes.extend_from_slice(name.as_bytes())?;
    add_frame(bytes, plan.frame)?;
    add_counts(bytes, plan)?;
    bytes.push(b'\n')?;
    Ok(())
}

// Appends the numbers of a group, each behind a space.
#[tactic(auto, unfolding(crate::specs::Report::numbers_text))]
fn add_numbers(bytes: &mut Vec<u8>, group: &Group) -> Result<(), AllocError>
    ensures { OnOk result (bytes.new.items ≡ bytes.old.items ++ numbers_text group.now) }
{
    for k in 0..group.len() {
        let mut buffer = Buffer::new();
        bytes.push(b' ')?;
        bytes.extend_from_slice(buffer.format(*group.at(k)).as_bytes())?;
    }
    Ok(())
}

// Appends a line for each group of a side.
#[tactic(auto, unfolding(crate::specs::Report::joined_lines))]
fn add_groups(bytes: &mut Vec<u8>, name: &str, groups: &Vec<Group>) -> Result<(), AllocError>
    ensures { OnOk result (bytes.new.items ≡ bytes.old.items ++ joined_lines name.now groups.now.items) }
{
    for group in groups {
        bytes.extend_from_slice(name.as_bytes())?;
        bytes.extend_from_slice(b" joined")?;
        add_numbers(bytes, group)?;
        bytes.push(b'\n')?;
    }
    Ok(())
}

// Appends the lines of a side.
#[tactic(auto, unfolding(crate::specs::Report::side_text))]
fn add_side(bytes: &mut Vec<u8>, name: &str, plan: &Isolation) -> Result<(), AllocError>
    ensures { OnOk result (bytes.new.items ≡ bytes.old.items ++ side_text name.now (side_of plan.now)) }
{
    add_counts_line(bytes, name, plan)?;
    add_groups(bytes, name, &plan.groups)?;
    Ok(())
}

// Appends the lines of a side that was milled.
fn add_side_if(bytes: &mut Vec<u8>, name: &str, plan: &Option<Isolation>) -> Result<(), AllocError>
    ensures { OnOk result (bytes.new.items ≡ bytes.old.items ++ side_if name.now plan.now) }
{
    match plan {
        Some(plan) => add_side(bytes, name, plan),
        None => Ok(()),
    }
}

/// The report of what was planned. The only error is want of memory.
#[tactic(auto, unfolding(crate::specs::Report::report_text))]
pub fn report(alloc: Global, plans: &Plans) -> Result<Vec<u8>, AllocError>
    requires { IfSome (plans.now).drill IsWithinLimits }
    ensures { IfOk result (λ bytes. bytes.items ≡ report_text plans.now) }
{
    let mut bytes = Vec::new(alloc);
    bytes.extend_from_slice(b"pcbmill report 1\n")?;
    add_side_if(&mut bytes, "front", &plans.front)?;
    add_side_if(&mut bytes, "back", &plans.back)?;
    add_drill_if(&mut bytes, &plans.drill)?;
    add_outline_if(alloc, &mut bytes, &plans.outline)?;
    bytes.extend_from_slice(b"end\n")?;
    Ok(bytes)
}
