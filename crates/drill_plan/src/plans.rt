// The drill list.
ghost use Rattle.std.specs.Prelude.{◌≡◌, ◌<◌, length, map, IfOk};
ghost use Rattle.std.specs.List.{All};
ghost use Rattle.std.specs.Ordering.{int_cmp};
ghost use Rattle.path_order.specs.Orders.{point_at, IsOrder};
ghost use Rattle.excellon.specs.Fits.{IsDrilled};
ghost use Rattle.drill_plan.specs.Sets.{IsAscending};
ghost use Rattle.drill_plan.specs.Entries.{tools_of, places_of};
ghost use Rattle.drill_plan.specs.Limits.{counts_of, IsWithinLimits};
ghost use Rattle.drill_plan.specs.Plan.{IsTour, IsToolPlan, IsDrillPlan};

use crate::entries::{places, slots, tools};
use board_base::{Items, Point};
use excellon::DrillFile;
use path_order::improve;
use std::alloc::{AllocError, Global};

/// What one tool drills: its holes in their order, and then its slots in theirs.
#[derive(Drop)]
pub struct ToolPlan {
    /// The diameter of the tool, in nanometres.
    pub diameter: i64,
    /// The places of its holes, in the order in which they are drilled.
    pub holes: Items<Point>,
    /// The ends of its slots, in the order in which they are cut.
    pub slots: Items<(Point, Point)>,
}

/// What all tools drill, by ascending diameter. The tools are numbered from 1 in this order.
pub type DrillPlan = Items<ToolPlan>;

// The points in an order.
fn in_order(
    alloc: Global,
    points: &Vec<Point>,
    order: &Vec<u32>,
) -> Result<Items<Point>, AllocError>
    requires { All (λ k. k < length points.now.items) order.now.items }
    ensures { IfOk result (λ list. list ≡ map (point_at points.now.items) order.now.items) }
{
    let mut list = Items::empty(alloc);
    'order: for k in order {
        list.push(points[*k as usize])?;
    }
    Ok(list)
}

// The holes of a tool in their order.
fn holes(
    alloc: Global,
    file: &DrillFile,
    available: &Vec<i64>,
    tool: i64,
) -> Result<Items<Point>, AllocError>
    requires { IsDrilled file.now }
    ensures { IfOk result (λ holes. IsTour (places_of file.now available.now.items tool) holes) }
{
    let points = places(alloc, file, available, tool)?;
    let (order, _) = improve(alloc, &points)?;
    in_order(alloc, &points, &order)
}

// What one tool drills.
fn tool_plan(
    alloc: Global,
    file: &DrillFile,
    available: &Vec<i64>,
    tool: i64,
) -> Result<ToolPlan, AllocError>
    requires { IsDrilled file.now }
    ensures value { IfOk result (IsToolPlan file.now available.now.items) }
    ensures tool { IfOk result (λ t. t.diameter ≡ tool) }
{
    let holes = holes(alloc, file, available, tool)?;
    let slots = slots(alloc, file, available, tool)?;
    Ok(ToolPlan {
        diameter: tool,
        holes,
        slots,
    })
}

/// The drill list of a file: each hole and each slot once, under the available diameter nearest to its own, the
/// smaller on a tie, or under its own where none is available. A slot whose ends agree is a hole. Each tool
/// drills its holes by the tour that begins with them sorted by y and x, then its slots sorted by their ends,
/// which stand by x and y. Lengths are in nanometres.
///
/// # Errors
///
/// Want of memory.
pub fn plan(alloc: Global, file: &DrillFile, available: &Vec<i64>) -> Result<DrillPlan, AllocError>
    requires { IsDrilled file.now }
    ensures { IfOk result (IsDrillPlan file.now available.now.items) }
{
    let tools = tools(alloc, file, available)?;
    let mut plan = Items::empty(alloc);
    'tools: for tool in &tools {
        let one = tool_plan(alloc, file, available, *tool)?;
        plan.push(one)?;
    }
    Ok(plan)
}

/// How many tools, holes and slots a drill list has.
#[derive(Clone, Copy, Debug, PartialEq, Eq)]
pub struct DrillCounts {
    pub tools: u64,
    pub holes: u64,
    pub slots: u64,
}

/// How many tools, holes and slots a drill list has.
pub fn counts(plan: &DrillPlan) -> DrillCounts
    requires { IsWithinLimits plan.now }
    ensures { result ≡ counts_of plan.now }
{
    let mut holes = 0;
    let mut slots = 0;
    'tools: for tool in plan.inner() {
        holes += tool.holes.len() as u64;
        slots += tool.slots.len() as u64;
    }
    DrillCounts {
        tools: plan.len() as u64,
        holes,
        slots,
    }
}
