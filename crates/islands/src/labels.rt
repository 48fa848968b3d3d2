// The numbers of islands as labels.
ghost use Rattle.std.specs.Prelude.{◌≡◌, ◌≤◌, replicate, IfOk, IfErr};
ghost use Rattle.cell_grid.specs.Place.{cells_of};
ghost use Rattle.cell_grid.specs.Cells.{in_plane, number_in};
ghost use Rattle.cell_sets.specs.Islands.{AreIslands, AreMoreIslands};

use crate::classes::number_classes;
use cell_grid::{Plane, Workbench};
use thiserror::Error;

/// There are more than 65,535 islands.
#[derive(Clone, Copy, Debug, PartialEq, Eq, Error)]
#[error("more than 65535 islands")]
pub struct TooManyIslands;

/// Sets the labels to the numbers of the islands of kept cells, from 1 on, in the order of their first
/// cells, and gives their count; all other cells have the label 0. `TooManyIslands` exactly where there
/// are more than 65,535; then all labels are 0. The working labels change.
pub fn label(bench: &mut Workbench) -> Result<u32, TooManyIslands>
    ensures rest { bench.new ≡ record bench.old {
      labels = (bench.new).labels;
      works = (bench.new).works;
      waiting = (bench.new).waiting;
      put = (bench.new).put;
    } }
    ensures islands { IfOk result (λ count. AreIslands (in_plane bench.old.frame bench.old.kept) (number_in bench.old.frame 0 (bench.new).labels) count) }
    ensures few { IfOk result (λ count. count ≤ 65535) }
    ensures many { IfErr result (λ _. AreMoreIslands 65535 (in_plane bench.old.frame bench.old.kept)) }
    ensures none { IfErr result (λ _. (bench.new).labels ≡ replicate (cells_of bench.old.frame) 0) }
{
    let count = number_classes(bench, Plane::Kept);
    if 65_535 < count {
        bench.clear_labels();
        return Err(TooManyIslands);
    }
    bench.labels_from_works();
    Ok(count)
}
