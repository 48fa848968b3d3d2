// The cells that the centre of a tool may visit.
ghost use Rattle.std.specs.Prelude.{◌≡◌, map, nat_lt};

use cell_grid::{Plane, Workbench, place_at};

/// Makes Allowed the cells whose clearance is above `g`, a squared index distance.
pub fn allowed(bench: &mut Workbench, g: u64)
    ensures { bench.new ≡ record bench.old { allowed = map (λ n. nat_lt g n) (bench.old).clearances } }
{
    let frame = bench.frame();
    'rows: for y in 0..frame.height {
        'cells: for x in 0..frame.width {
            let k = place_at(frame, x, y);
            let clearance = bench.clearance_at(k);
            bench.set_at(Plane::Allowed, k, g < clearance as u64);
        }
    }
}
