// Squared distances along a row or a column.
ghost use Rattle.std.specs.Prelude.{◌≡◌, ◌<◌, ◌≤◌};
ghost use Rattle.centre_field.specs.Distances.{square_gap as square_of};

// The square of the distance of two columns, or of two rows.
#[tactic(auto, unfolding(crate::specs::Distances::square_gap))]
#[inline(always)]
pub(crate) fn square_gap(a: u32, b: u32) -> u64
    requires a { a < 32768 }
    requires b { b < 32768 }
    ensures value { result ≡ square_of a b }
    ensures small { result ≤ 1073676289 }
{
    let gap = a.abs_diff(b) as u64;
    gap * gap
}
