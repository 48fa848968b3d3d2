// The lines of the report about holes.
ghost use Rattle.std.specs.Prelude.{◌≡◌, ◌≤◌, ◌++◌, pos, unsigned_abs, length, IfSome, OnOk};
ghost use Rattle.std.specs.List.{flat_map, enumerate_from};
ghost use Rattle.fixed_num.specs.Rounding.{round_div_of};
ghost use Rattle.drill_plan.specs.Limits.{IsWithinLimits};
ghost use Rattle.mill_outputs.specs.Report.{digit, millimetres, drilled_text, tool_line, drill_text, drill_if};

use crate::report::add_count;
use drill_plan::{DrillPlan, ToolPlan, counts};
use fixed_num::round_div;
use std::alloc::AllocError;

// Appends the last digit of a number.
fn add_digit(bytes: &mut Vec<u8>, n: u64) -> Result<(), AllocError>
    ensures { OnOk result (bytes.new.items ≡ bytes.old.items ++ digit n) }
{
    add_count(bytes, "", n % 10)
}

// A diameter to the nearest micrometre, without a sign.
fn micrometres(diameter: i64) -> u64
    ensures { result ≡ unsigned_abs (round_div_of diameter (pos 1000)) }
{
    round_div(diameter as i128, 1000).unsigned_abs() as u64
}

// Appends a diameter in millimetres, with three decimals.
#[tactic(auto, unfolding(crate::specs::Report::millimetres))]
fn add_millimetres(bytes: &mut Vec<u8>, diameter: i64) -> Result<(), AllocError>
    ensures { OnOk result (bytes.new.items ≡ bytes.old.items ++ millimetres diameter) }
{
    let n = micrometres(diameter);
    add_count(bytes, "", n / 1000)?;
    bytes.push(b'.')?;
    add_digit(bytes, n / 100)?;
    add_digit(bytes, n / 10)?;
    add_digit(bytes, n)
}

// Appends how many holes and slots are drilled.
#[tactic(auto, unfolding(crate::specs::Report::drilled_text))]
fn add_drilled(bytes: &mut Vec<u8>, holes: u64, slots: u64) -> Result<(), AllocError>
    ensures { OnOk result (bytes.new.items ≡ bytes.old.items ++ drilled_text holes slots) }
{
    add_count(bytes, " holes ", holes)?;
    add_count(bytes, " slots ", slots)?;
    bytes.push(b'\n')?;
    Ok(())
}

// Appends the line of a tool.
#[tactic(auto, unfolding(crate::specs::Report::tool_line))]
fn add_tool(bytes: &mut Vec<u8>, number: u64, tool: &ToolPlan) -> Result<(), AllocError>
    ensures { OnOk result (bytes.new.items ≡ bytes.old.items ++ tool_line number tool.now) }
{
    add_count(bytes, "drill T", number)?;
    bytes.push(b' ')?;
    add_millimetres(bytes, tool.diameter)?;
    add_drilled(bytes, tool.holes.len() as u64, tool.slots.len() as u64)
}

// Appends a line for each tool, numbered from 1.
fn add_tools(bytes: &mut Vec<u8>, plan: &DrillPlan) -> Result<(), AllocError>
    requires { length plan.now ≤ 9999 }
    ensures { OnOk result (bytes.new.items ≡ bytes.old.items ++ flat_map (λ t. tool_line t.0 t.1) (enumerate_from 1 plan.now)) }
{
    let mut number = 0;
    'tools: for tool in plan.inner() {
        number += 1;
        add_tool(bytes, number, tool)?;
    }
    Ok(())
}

// Appends the line of all tools, and then one for each.
#[tactic(auto, unfolding(crate::specs::Report::drill_text))]
fn add_drill(bytes: &mut Vec<u8>, plan: &DrillPlan) -> Result<(), AllocError>
    requires { IsWithinLimits plan.now }
    ensures { OnOk result (bytes.new.items ≡ bytes.old.items ++ drill_text plan.now) }
{
    let counts = counts(plan);
    add_count(bytes, "drill tools ", counts.tools)?;
    add_drilled(bytes, counts.holes, counts.slots)?;
    add_tools(bytes, plan)
}

/// Appends the lines of a drill list, where there is one. The only error is want of memory.
pub fn add_drill_if(bytes: &mut Vec<u8>, plan: &Option<DrillPlan>) -> Result<(), AllocError>
    requires { IfSome plan.now IsWithinLimits }
    ensures { OnOk result (bytes.new.items ≡ bytes.old.items ++ drill_if plan.now) }
{
    match plan {
        Some(plan) => add_drill(bytes, plan),
        None => Ok(()),
    }
}
