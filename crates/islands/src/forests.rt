// Forests: classes while they are joined. Each cell with a number points to one of its class that stands
// no later, and the first of a class to itself. A cell points by its working label: 1 for the cells outside
// the frame, k + 2 for the cell at place k.
ghost use Rattle.std.specs.Prelude.{◌≡◌, ◌<◌, ◌+◌, ◌⊎◌, ℕ, Bool, slice_index};
ghost use Rattle.board_base.specs.declared.places.Cell.{Cell};
ghost use Rattle.cell_grid.specs.Place.{IsFrame, InFrame, place_of, cells_of};
ghost use Rattle.islands.specs.Ways.{neighbour_of};
ghost use Rattle.islands.specs.Floods.{ChangesNumbers};
ghost use Rattle.islands.specs.Forests.{nodes, node_of, IsForested, IsClimbed, IsUnited, IsJoining};

use crate::ways::neighbour;
use board_base::Cell;
use cell_grid::{Frame, Workbench};

// What a node points to; node 1 to `outer`.
#[inline(always)]
pub(crate) fn pointed(bench: &Workbench, outer: u32, node: u32) -> u32
    requires { 0 < slice_index (nodes outer bench.now.works) node }
    ensures { result ≡ slice_index (nodes outer bench.now.works) node }
{
    let _ = bench.frame();
    if node == 1 {
        outer
    } else {
        bench.work_at(node - 2)
    }
}

// The root that a node leads to; the nodes on the way are brought nearer to it.
pub(crate) fn root_of(bench: &mut Workbench, outer: u32, node: u32) -> u32
    requires forest { IsForested (nodes outer bench.old.works) }
    requires live { 0 < slice_index (nodes outer bench.old.works) node }
    ensures rest { ChangesNumbers bench.old bench.new }
    ensures climbed { IsClimbed (nodes outer bench.old.works) (nodes outer (bench.new).works) node result }
{
    let _ = bench.frame();
    let mut at = node;
    let mut up = pointed(bench, outer, node);
    'climb: while up != at {
        let next = pointed(bench, outer, up);
        bench.set_work_at(at - 2, next);
        at = next;
        up = pointed(bench, outer, at);
    }
    at
}

// Makes the classes of two nodes one.
pub(crate) fn unite(bench: &mut Workbench, outer: u32, a: u32, b: u32)
    requires forest { IsForested (nodes outer bench.old.works) }
    requires live_a { 0 < slice_index (nodes outer bench.old.works) a }
    requires live_b { 0 < slice_index (nodes outer bench.old.works) b }
    ensures rest { ChangesNumbers bench.old bench.new }
    ensures united { IsUnited (nodes outer bench.old.works) (nodes outer (bench.new).works) a b }
{
    let r = root_of(bench, outer, a);
    let s = root_of(bench, outer, b);
    let _ = bench.frame();
    if r < s {
        bench.set_work_at(s - 2, r);
    } else if s < r {
        bench.set_work_at(r - 2, s);
    }
}
