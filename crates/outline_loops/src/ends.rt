// The ends of segments, by the ways that begin there.
ghost use Rattle.std.specs.Prelude.{◌≡◌, ◌≢◌, ℕ, ◌<◌, ◌≤◌, length, IsNone, IfSome};
ghost use Rattle.outline_loops.specs.Ends.{AreRising, rank_at, IsRun, AreTwos, IsOpenGroup};

use crate::ways::RANKS;

// The rank of the point where way `i` begins.
fn rank(ways: &[u128], i: usize) -> u128
    requires { i < length ways.now }
    ensures { result ≡ rank_at ways.now i }
{
    ways[i] / RANKS
}

// How many ways from way `at` on begin where it does.
fn run(ways: &[u128], at: usize) -> usize
    requires { at < length ways.now }
    ensures { IsRun ways.now at result }
{
    let here = rank(ways, at);
    let mut next = at + 1;
    'ways: while next < ways.len() {
        if rank(ways, next) != here {
            return next - at;
        }
        next += 1;
    }
    next - at
}

/// The first end at which not two ways begin: where they are in the list, and how many; `None` where there is
/// no such end.
pub(crate) fn first_open(ways: &[u128]) -> Option<(usize, usize)>
    requires { AreRising ways.now }
    ensures none { IsNone result → AreTwos ways.now (length ways.now) }
    ensures some { IfSome result (λ r. IsOpenGroup ways.now r.0 r.1) }
{
    let mut at = 0;
    'ends: while at < ways.len() {
        let n = run(ways, at);
        if n != 2 {
            return Some((at, n));
        }
        at += 2;
    }
    None
}
