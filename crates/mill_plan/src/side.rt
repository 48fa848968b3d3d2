// The grid of a side, with its islands.
ghost use Rattle.std.specs.Prelude.{◌≡◌, ℕ, ◌≤◌, false, IfOk, IsErrOf};
ghost use Rattle.board_base.specs.declared.places.Cell.{Cell};
ghost use Rattle.cell_sets.specs.Islands.{AreIslands, AreMoreIslands};
ghost use Rattle.cell_grid.specs.Cells.{in_plane, number_in};
ghost use Rattle.mill_plan.specs.Cutting.{IsCutting};
ghost use Rattle.mill_plan.specs.Frame.{HitsLimit};
ghost use Rattle.mill_plan.specs.Passes.{IsSpacious, HasPlaces};
ghost use Rattle.mill_plan.specs.Side.{IsNumberedSide};
ghost use Rattle.mill_plan.specs.declared.limits.LimitHit.{LimitHit};
ghost use Rattle.mill_plan.specs.declared.limits.LimitHit.TheVariants as limits;
ghost use Rattle.mill_plan.specs.declared.limits.PlanError.TheVariants as PlanError;

use crate::frame::covered;
use crate::{Cutting, LimitHit, PlanError};
use cell_grid::Workbench;
use cell_sets::one_count_law;
use islands::label;
use shape_parts::Painted;
use std::alloc::Global;

// Numbers the islands.
fn numbered(bench: &mut Workbench) -> Result<u32, PlanError>
    ensures rest { bench.new ≡ record bench.old { labels = (bench.new).labels; works = (bench.new).works; waiting = (bench.new).waiting; put = (bench.new).put } }
    ensures islands { IfOk result (AreIslands (in_plane (bench.old).frame (bench.old).kept) (number_in (bench.old).frame 0 (bench.new).labels)) }
    ensures few { IfOk result (λ count. count ≤ 65535) }
    ensures limit { (hit : LimitHit) → IsErrOf result (PlanError.Limit hit)
        → (hit ≡ limits.Islands) × AreMoreIslands 65535 (in_plane (bench.old).frame (bench.old).kept) }
{
    match label(bench) {
        Ok(count) => Ok(count),
        Err(_) => Err(PlanError::Limit(LimitHit::Islands)),
    }
}

/// A grid over the frame of the image, with its kept cells and the numbers of its islands, and how many they are.
pub(crate) fn numbered_grid(
    alloc: Global,
    painted: &Vec<Painted>,
    cutting: Cutting,
) -> Result<(Workbench, u32), PlanError>
    requires { IsCutting cutting }
    ensures numbered { IfOk result (λ made. IsNumberedSide cutting painted.now.items made.1 made.0) }
    ensures spacious { IfOk result (λ made. IsSpacious cutting made.0) }
    ensures unvisited { IfOk result (λ made. (c : Cell) → in_plane (made.0).frame (made.0).visited c ≡ false) }
    ensures limit { (hit : LimitHit) → IsErrOf result (PlanError.Limit hit) → HitsLimit cutting painted.now.items hit }
{
    let mut bench = covered(alloc, painted, cutting)?;
    let islands = match numbered(&mut bench) {
        Ok(islands) => islands,
        Err(error) => return Err(error),
    };
    Ok((bench, islands))
}

/// The grid of a side: over the frame of the image, with its kept cells, without swept ones, and with the numbers of
/// its islands as labels.
///
/// # Errors
///
/// `Limit` where the frame or the count of islands passes a limit, and `Memory` where memory is wanting.
pub fn numbered_side(
    alloc: Global,
    painted: &Vec<Painted>,
    cutting: Cutting,
) -> Result<Workbench, PlanError>
    requires { IsCutting cutting }
    ensures numbered { IfOk result (λ bench. (count : ℕ) × IsNumberedSide cutting painted.now.items count bench) }
    ensures places { IfOk result (HasPlaces cutting.pitch) }
    ensures limit { (hit : LimitHit) → IsErrOf result (PlanError.Limit hit) → HitsLimit cutting painted.now.items hit }
    ensures within { IfOk result (λ _. (hit : LimitHit) → HitsLimit cutting painted.now.items hit → ⊥) }
    ensures one_limit { (hit other : LimitHit) → IsErrOf result (PlanError.Limit hit) → HitsLimit cutting painted.now.items other → other ≡ hit }
{
    one_count_law();
    let (bench, _islands) = match numbered_grid(alloc, painted, cutting) {
        Ok(made) => made,
        Err(error) => return Err(error),
    };
    Ok(bench)
}
