// The contour of the first pass.
ghost use Rattle.std.specs.Prelude.{◌≡◌, ◌↔◌, true, ◌||◌, Ok, IfOk, IsErrOf};
ghost use Rattle.board_base.specs.declared.places.Cell.{Cell};
ghost use Rattle.cell_sets.specs.Contour.{IsContour};
ghost use Rattle.cell_grid.specs.Cells.{in_plane};
ghost use Rattle.mill_plan.specs.Cutting.{IsCutting, guard as guard_in, kept_by};
ghost use Rattle.mill_plan.specs.Frame.{IsFrameOf, HitsLimit};
ghost use Rattle.mill_plan.specs.Passes.{IsSpacious, IsMeasured, HasPlaces};
ghost use Rattle.mill_plan.specs.declared.limits.LimitHit.{LimitHit};
ghost use Rattle.mill_plan.specs.declared.limits.LimitHit.TheVariants as limits;
ghost use Rattle.mill_plan.specs.declared.limits.PlanError.TheVariants as PlanError;

use crate::frame::covered;
use crate::measures::guard;
use crate::{Cutting, PlanError};
use cell_grid::Workbench;
use centre_field::clearance;
use contours::contour;
use shape_parts::Painted;
use std::alloc::Global;

/// Measures how far the cells are from the kept ones, and traces the contour of the first pass.
pub(crate) fn traced(bench: &mut Workbench, cutting: Cutting)
    requires cutting { IsCutting cutting }
    requires spacious { IsSpacious cutting bench.old }
    ensures rest { bench.new ≡ record bench.old { clearances = (bench.new).clearances; scratch = (bench.new).scratch; pass = (bench.new).pass; visited = (bench.new).visited } }
    ensures measured { IsMeasured bench.new }
    ensures contour { (c : Cell) → in_plane (bench.old).frame (bench.new).pass c ≡ true ↔ IsContour (in_plane (bench.old).frame (bench.old).kept) (guard_in cutting 0) c }
    ensures visited { (c : Cell)
        → in_plane (bench.old).frame (bench.new).visited c
        ≡ (in_plane (bench.old).frame (bench.old).visited c || in_plane (bench.old).frame (bench.new).pass c) }
{
    clearance(bench);
    contour(bench, guard(cutting, 0));
}

/// A grid over the frame of the image, with its kept cells, in which Pass has the contour of the first pass.
///
/// # Errors
///
/// The image's frame is past a limit, or memory is wanting.
pub fn first_contour(
    alloc: Global,
    painted: &Vec<Painted>,
    cutting: Cutting,
) -> Result<Workbench, PlanError>
    requires { IsCutting cutting }
    ensures framed { IfOk result (λ bench. IsFrameOf cutting painted.now.items (Ok bench.frame)) }
    ensures places { IfOk result (HasPlaces cutting.pitch) }
    ensures contour { IfOk result (λ bench. (c : Cell) → in_plane bench.frame bench.pass c ≡ true ↔ IsContour (kept_by cutting painted.now.items) (guard_in cutting 0) c) }
    ensures limit { (hit : LimitHit) → IsErrOf result (PlanError.Limit hit) → HitsLimit cutting painted.now.items hit }
    ensures frame { IsErrOf result (PlanError.Limit limits.Islands) → ⊥ }
{
    let mut bench = match covered(alloc, painted, cutting) {
        Ok(bench) => bench,
        Err(error) => return Err(error),
    };
    traced(&mut bench, cutting);
    Ok(bench)
}
