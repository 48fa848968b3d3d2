// The tool for a diameter.
ghost use Rattle.std.specs.Prelude.{◌≡◌, ◌-ℤ◌, ◌<◌, unsigned_abs};
ghost use Rattle.drill_plan.specs.Tools.{nearer as nearer_of, nearest_from, tool_of, ToolLaw};

// How far two diameters are apart.
fn apart(a: i64, b: i64) -> u64
    ensures { result ≡ unsigned_abs (a -ℤ b) }
{
    a.abs_diff(b)
}

// Of two diameters the one nearer to a third, the smaller on a tie.
fn nearer(own: i64, a: i64, b: i64) -> i64
    ensures { result ≡ nearer_of own a b }
{
    let to_a = apart(a, own);
    let to_b = apart(b, own);
    if to_a < to_b {
        return a;
    }
    if to_b < to_a {
        return b;
    }
    if a <= b { a } else { b }
}

// The nearest of some diameters and a best one so far.
fn nearest(own: i64, best: i64, others: &[i64]) -> i64
    ensures { result ≡ nearest_from own best others.now }
{
    let mut nearest = best;
    'others: for other in others {
        nearest = nearer(own, nearest, *other);
    }
    nearest
}

/// The tool for a diameter: the available one nearest to it, the smaller on a tie, or its own where none is
/// available.
pub fn tool_for(available: &[i64], own: i64) -> i64
    ensures { result ≡ tool_of available.now own }
{
    match available {
        [] => own,
        [first, others @ ..] => nearest(own, *first, others),
    }
}

/// The tool for a diameter is an available one, and nearer than each other one or as near and smaller; it is
/// the own diameter where none is available.
pub fn tool_law()
    ensures { ToolLaw }
{}
