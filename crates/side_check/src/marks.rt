// The cells that deep moves mark, and the groups that they leave.
ghost use Rattle.std.specs.Prelude.{◌≡◌, ◌∷◌, [], not, true, IfSome, IfOk};
ghost use Rattle.std.specs.List.{All};
ghost use Rattle.board_base.specs.declared.places.Cell.{Cell};
ghost use Rattle.board_base.specs.Lattice.{IsPitch, centre_of};
ghost use Rattle.board_base.specs.Places.{IsNearPlace, IsSpan};
ghost use Rattle.cell_sets.specs.Groups.{AreGroups};
ghost use Rattle.cell_grid.specs.Place.{InFrame};
ghost use Rattle.cell_grid.specs.Cells.{in_plane, number_in};
ghost use Rattle.mill_program.specs.Probes.{surface};
ghost use Rattle.side_check.specs.Ends.{HasNearEnds};
ghost use Rattle.side_check.specs.Struck.{MarksDeep};
ghost use Rattle.side_check.specs.Surfaces.{IsProbed};

use crate::heights::{is_deep, under};
use board_base::Move;
use cell_grid::Workbench;
use mill_program::ProbeGrid;
use separation_check::{Group, groups, mark_swept, relabel};
use std::alloc::{AllocError, Global};

// Marks the cells that a move passes, where it is deep.
fn mark_one(
    bench: &mut Workbench,
    grid: &Option<ProbeGrid>,
    answers: &Vec<i64>,
    work: i64,
    d: i64,
    m: &Move,
)
    requires grid { IfSome grid.now IsProbed }
    requires pitch { IsPitch (bench.old).frame.pitch }
    requires centres { (c : Cell) → InFrame (bench.old).frame c → IsNearPlace (centre_of (bench.old).frame.pitch c) }
    requires d { IsSpan d }
    requires ends { HasNearEnds m.now }
    ensures { MarksDeep (surface grid.now (answers.now).items) work d (m.now ∷ []) bench.old bench.new }
{
    if is_deep(grid, answers, work, m) {
        mark_swept(bench, under(m.from), under(m.to), d);
    }
}

/// Marks the cells that the deep moves pass.
pub(crate) fn mark_deep(
    bench: &mut Workbench,
    grid: &Option<ProbeGrid>,
    answers: &Vec<i64>,
    work: i64,
    d: i64,
    moves: &Vec<Move>,
)
    requires grid { IfSome grid.now IsProbed }
    requires pitch { IsPitch (bench.old).frame.pitch }
    requires centres { (c : Cell) → InFrame (bench.old).frame c → IsNearPlace (centre_of (bench.old).frame.pitch c) }
    requires d { IsSpan d }
    requires ends { All HasNearEnds moves.now.items }
    ensures { MarksDeep (surface grid.now (answers.now).items) work d moves.now.items bench.old bench.new }
{
    for m in moves {
        mark_one(bench, grid, answers, work, d, m);
    }
}

/// The groups of islands that the cells outside Swept join.
pub(crate) fn left_groups(alloc: Global, bench: &mut Workbench) -> Result<Vec<Group>, AllocError>
    ensures { IfOk result (λ v. AreGroups (λ c. not (in_plane (bench.old).frame (bench.old).swept c) ≡ true) (number_in (bench.old).frame 0 (bench.old).labels) v.items) }
{
    relabel(bench);
    let found = groups(alloc, bench)?;
    Ok(found)
}
