// The rectangle round all that is drilled.
ghost use Rattle.std.specs.Prelude.{◌≡◌, Some, IfSome};
ghost use Rattle.std.specs.List.{fold, All};
ghost use Rattle.board_base.specs.Places.{IsPlace};
ghost use Rattle.shape_parts.specs.Boxes.{hull as hull_of};
ghost use Rattle.drill_plan.specs.Limits.{IsOnBoard};
ghost use Rattle.tile_steps.specs.Drilled.{point_box, with_point as with_point_of, with_slot as with_slot_of, with_tool as with_tool_of, drilled_box as drilled_box_of, IsOnBoardBox};

use board_base::{Bounds, Point};
use drill_plan::{DrillPlan, ToolPlan};
use shape_parts::hull;

// The rectangle that is one point.
fn point_bounds(p: Point) -> Bounds
    ensures { result ≡ point_box p }
{
    Bounds {
        x0: p.x,
        y0: p.y,
        x1: p.x,
        y1: p.y,
    }
}

// A rectangle grown by a point.
fn grown(all: Bounds, p: Point) -> Bounds
    requires all { IsOnBoardBox all }
    requires p { IsPlace p }
    ensures value { result ≡ hull_of all (point_box p) }
    ensures placed { IsOnBoardBox result }
{
    hull(all, point_bounds(p))
}

// A rectangle, or none yet, grown by a point.
fn with_point(all: Option<Bounds>, p: Point) -> Option<Bounds>
    requires all { IfSome all IsOnBoardBox }
    requires p { IsPlace p }
    ensures value { result ≡ with_point_of all p }
    ensures placed { IfSome result IsOnBoardBox }
{
    match all {
        None => Some(point_bounds(p)),
        Some(all) => Some(grown(all, p)),
    }
}

// A rectangle grown by the ends of a slot.
fn with_slot(all: Option<Bounds>, ends: (Point, Point)) -> Option<Bounds>
    requires all { IfSome all IsOnBoardBox }
    requires from { IsPlace ends.0 }
    requires to { IsPlace ends.1 }
    ensures value { result ≡ with_slot_of all ends }
    ensures placed { IfSome result IsOnBoardBox }
{
    let (from, to) = ends;
    with_point(with_point(all, from), to)
}

// A rectangle grown by the holes of a tool.
fn with_holes(all: Option<Bounds>, tool: &ToolPlan) -> Option<Bounds>
    requires all { IfSome all IsOnBoardBox }
    requires tool { IsOnBoard tool.now }
    ensures value { result ≡ fold with_point_of all (tool.now).holes }
    ensures placed { IfSome result IsOnBoardBox }
{
    let mut all = all;
    'holes: for p in tool.holes.inner() {
        all = with_point(all, *p);
    }
    all
}

// A rectangle grown by the slots of a tool.
fn with_slots(all: Option<Bounds>, tool: &ToolPlan) -> Option<Bounds>
    requires all { IfSome all IsOnBoardBox }
    requires tool { IsOnBoard tool.now }
    ensures value { result ≡ fold with_slot_of all (tool.now).slots }
    ensures placed { IfSome result IsOnBoardBox }
{
    let mut all = all;
    'slots: for ends in tool.slots.inner() {
        all = with_slot(all, *ends);
    }
    all
}

// A rectangle grown by all that a tool drills.
fn with_tool(all: Option<Bounds>, tool: &ToolPlan) -> Option<Bounds>
    requires all { IfSome all IsOnBoardBox }
    requires tool { IsOnBoard tool.now }
    ensures value { result ≡ with_tool_of all tool.now }
    ensures placed { IfSome result IsOnBoardBox }
{
    with_slots(with_holes(all, tool), tool)
}

/// The least rectangle that holds each hole and both ends of each slot, where there is one.
pub fn drilled_box(plan: &DrillPlan) -> Option<Bounds>
    requires { All IsOnBoard plan.now }
    ensures value { result ≡ drilled_box_of plan.now }
    ensures placed { IfSome result IsOnBoardBox }
{
    let mut all = None;
    'tools: for tool in plan.inner() {
        all = with_tool(all, tool);
    }
    all
}
