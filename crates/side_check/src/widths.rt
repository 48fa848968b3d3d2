// How far cutters reach.
ghost use Rattle.std.specs.Prelude.{◌≡◌, pos, ◌+ℤ◌, ◌-ℤ◌, ◌*ℤ◌, ◌≤ℤ◌};
ghost use Rattle.board_base.specs.Lattice.{half_diagonal_of};
ghost use Rattle.board_base.specs.Places.{IsSpan};
ghost use Rattle.mill_plan.specs.Cutting.{IsCutting, bite_of};

use board_base::half_diagonal;
use mill_plan::Cutting;

// Half the diagonal of a cell.
fn half(cutting: Cutting) -> i64
    requires { IsCutting cutting }
    ensures value { result ≡ half_diagonal_of cutting.pitch }
    ensures low { pos 0 ≤ℤ result }
    ensures high { result ≤ℤ pos 200000 }
{
    half_diagonal(cutting.pitch)
}

// How near the cutter's axis may come to the copper.
#[tactic(auto, unfolding(mill_plan::specs::Cutting::bite_of))]
fn bite(cutting: Cutting) -> i64
    requires { IsCutting cutting }
    ensures value { result ≡ bite_of cutting }
    ensures low { pos 0 ≤ℤ result }
    ensures high { result ≤ℤ pos 10000000 }
{
    cutting.radius - cutting.tolerance
}

/// Twice the distance from its centre at which the cutter may bite one of a cell's points.
pub(crate) fn hit_width(cutting: Cutting) -> i64
    requires { IsCutting cutting }
    ensures value { result ≡ pos 2 *ℤ (bite_of cutting +ℤ half_diagonal_of cutting.pitch) }
    ensures span { IsSpan result }
{
    2 * (bite(cutting) + half(cutting))
}

/// Twice the distance from its centre up to which the cutter reaches all of a cell.
pub(crate) fn mark_width(cutting: Cutting) -> i64
    requires { IsCutting cutting }
    ensures value { result ≡ pos 2 *ℤ (cutting.radius -ℤ half_diagonal_of cutting.pitch) }
    ensures span { IsSpan result }
{
    2 * (cutting.radius - half(cutting))
}
