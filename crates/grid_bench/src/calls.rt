// The calls that are timed. Each run is over all cells, along the rows.
ghost use Rattle.std.specs.Prelude.{◌≡◌};

use crate::borders::is_border_above;
use cell_grid::{Plane, Workbench, cell_at};
use std::alloc::Global;

// The squared index distance above which a cell is allowed.
const GUARD: u64 = 100;

/// A call that is timed.
#[derive(Clone, Copy, Debug, PartialEq, Eq)]
pub enum Call {
    Set,
    Get,
    SetClearance,
    GetClearance,
    SetLabel,
    GetLabel,
    Label,
    Clearance,
    Allowed,
    Contour,
    Sweep,
    Relabel,
    Groups,
}

/// All of them, in the order in which they run: the later ones go by what the earlier ones wrote.
pub const CALLS: [Call; 13] = [
    Call::Set,
    Call::Get,
    Call::SetClearance,
    Call::GetClearance,
    Call::SetLabel,
    Call::GetLabel,
    Call::Label,
    Call::Clearance,
    Call::Allowed,
    Call::Contour,
    Call::Sweep,
    Call::Relabel,
    Call::Groups,
];

impl Call {
    /// What is printed before its time.
    pub fn name(self) -> &'static str {
        match self {
            Call::Set => "set",
            Call::Get => "get",
            Call::SetClearance => "set_clearance",
            Call::GetClearance => "get_clearance",
            Call::SetLabel => "set_label",
            Call::GetLabel => "get_label",
            Call::Label => "label",
            Call::Clearance => "clearance",
            Call::Allowed => "allowed",
            Call::Contour => "contour",
            Call::Sweep => "sweep",
            Call::Relabel => "relabel",
            Call::Groups => "relabel, groups",
        }
    }

    /// Runs it over the grid. Gives the sum of what it read, the number of islands or of groups or the size of the
    /// contour, and 0 where it tells no number.
    pub fn run(self, alloc: Global, bench: &mut Workbench) -> u64 {
        match self {
            Call::Set => set_all(bench),
            Call::Get => get_all(bench),
            Call::SetClearance => set_all_clearances(bench),
            Call::GetClearance => add_clearances(bench),
            Call::SetLabel => set_all_labels(bench),
            Call::GetLabel => add_labels(bench),
            Call::Label => label(bench),
            Call::Clearance => find_clearances(bench),
            Call::Allowed => allow(bench),
            Call::Contour => trace(bench),
            Call::Sweep => sweep(bench),
            Call::Relabel => relabel(bench),
            Call::Groups => join(alloc, bench),
        }
    }
}

fn set_all(bench: &mut Workbench) -> u64 {
    let frame = bench.frame();
    'rows: for y in 0..frame.height {
        'cells: for x in 0..frame.width {
            bench.set(Plane::Pass, cell_at(frame, x, y), (x ^ y) & 1 == 1);
        }
    }
    0
}

fn get_all(bench: &Workbench) -> u64 {
    let frame = bench.frame();
    let mut count = 0u64;
    'rows: for y in 0..frame.height {
        'cells: for x in 0..frame.width {
            let on = bench.get(Plane::Kept, cell_at(frame, x, y));
            count = count.wrapping_add(on as u64);
        }
    }
    count
}

fn set_all_clearances(bench: &mut Workbench) -> u64 {
    let frame = bench.frame();
    'rows: for y in 0..frame.height {
        'cells: for x in 0..frame.width {
            bench.set_clearance(cell_at(frame, x, y), x ^ y);
        }
    }
    0
}

fn add_clearances(bench: &Workbench) -> u64 {
    let frame = bench.frame();
    let mut sum = 0u64;
    'rows: for y in 0..frame.height {
        'cells: for x in 0..frame.width {
            sum = sum.wrapping_add(bench.clearance(cell_at(frame, x, y)) as u64);
        }
    }
    sum
}

fn set_all_labels(bench: &mut Workbench) -> u64 {
    let frame = bench.frame();
    'rows: for y in 0..frame.height {
        'cells: for x in 0..frame.width {
            bench.set_label(cell_at(frame, x, y), ((x ^ y) & 255) as u16);
        }
    }
    0
}

fn add_labels(bench: &Workbench) -> u64 {
    let frame = bench.frame();
    let mut sum = 0u64;
    'rows: for y in 0..frame.height {
        'cells: for x in 0..frame.width {
            sum = sum.wrapping_add(bench.label(cell_at(frame, x, y)) as u64);
        }
    }
    sum
}

// Numbers the islands, and gives their count, or 0 where there are too many.
fn label(bench: &mut Workbench) -> u64 {
    match islands::label(bench) {
        Ok(count) => count as u64,
        Err(_) => 0,
    }
}

fn find_clearances(bench: &mut Workbench) -> u64 {
    centre_field::clearance(bench);
    0
}

fn allow(bench: &mut Workbench) -> u64 {
    centre_field::allowed(bench, GUARD);
    0
}

// Traces the contour where the border is allowed; looking at the border is timed too.
fn trace(bench: &mut Workbench) -> u64 {
    if is_border_above(bench, GUARD) {
        contours::contour(bench, GUARD)
    } else {
        0
    }
}

// Sweeps the cells of the contour, and no others.
fn sweep(bench: &mut Workbench) -> u64 {
    let frame = bench.frame();
    'rows: for y in 0..frame.height {
        'cells: for x in 0..frame.width {
            let c = cell_at(frame, x, y);
            let on = bench.get(Plane::Pass, c);
            bench.set(Plane::Swept, c, on);
        }
    }
    0
}

fn relabel(bench: &mut Workbench) -> u64 {
    separation_check::relabel(bench);
    0
}

// Numbers the classes again and finds the groups, and gives their count.
fn join(alloc: Global, bench: &mut Workbench) -> u64 {
    separation_check::relabel(bench);
    match separation_check::groups(alloc, bench) {
        Ok(groups) => groups.len() as u64,
        Err(_) => 0,
    }
}
