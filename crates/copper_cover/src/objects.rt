// What painted objects make of one cell, and the rectangle round what is dark.
ghost use Rattle.std.specs.Prelude.{◌≡◌, ℤ, pos, ◌≤ℤ◌, ◌<ℤ◌, Bool, not, ◌&&◌, ◌||◌, Option};
ghost use Rattle.board_base.specs.Lattice.{IsCellReach};
ghost use Rattle.board_base.specs.Places.{IsNearPlace};
ghost use Rattle.shape_parts.specs.Boxes.{hull as hull_of, AreBounds};
ghost use Rattle.shape_parts.specs.Cover.{is_kept as is_kept_of};
ghost use Rattle.copper_cover.specs.Kept.{joined as joined_of, object_box, dark_rectangle as dark_rectangle_of, kept_after as kept_after_of};

use board_base::{Bounds, Point};
use shape_parts::{Painted, hull};

// What an object makes of a cell: the centre is `c` and half its diagonal `h`.
pub(crate) fn kept_after(kept: bool, object: &Painted, c: Point, h: i64) -> bool
    requires c { IsNearPlace c }
    requires reach { IsCellReach h }
    ensures { result ≡ kept_after_of c h kept object.now }
{
    if object.dark {
        if kept {
            true
        } else {
            object.shape.touches_at(c, h)
        }
    } else if kept {
        !object.shape.covers_at(c, h)
    } else {
        false
    }
}

/// Whether a dark object touches the cell round `c`, whose half diagonal is `h`, and no later clear
/// object covers it. Lengths are in nanometres.
pub fn is_kept(painted: &Vec<Painted>, c: Point, h: i64) -> bool
    requires c { IsNearPlace c }
    requires reach { IsCellReach h }
    ensures { result ≡ is_kept_of c h painted.now.items }
{
    let mut kept = false;
    'objects: for object in painted {
        kept = kept_after(kept, object, c, h);
    }
    kept
}

// The least rectangle that holds both, where there are two.
fn joined(a: Option<Bounds>, b: Option<Bounds>) -> Option<Bounds>
    requires a { AreBounds a }
    requires b { AreBounds b }
    ensures value { result ≡ joined_of a b }
    ensures bounds { AreBounds result }
{
    match a {
        None => b,
        Some(x) => match b {
            None => Some(x),
            Some(y) => Some(hull(x, y)),
        },
    }
}

// The rectangle grown by a dark object.
fn with_object(to: Option<Bounds>, object: &Painted) -> Option<Bounds>
    requires { AreBounds to }
    ensures value { result ≡ object_box to object.now }
    ensures bounds { AreBounds result }
{
    if object.dark {
        joined(to, object.shape.bounds())
    } else {
        to
    }
}

/// The rectangle round all dark objects, or none where nothing dark has a width.
pub fn dark_rectangle(painted: &Vec<Painted>) -> Option<Bounds>
    ensures value { result ≡ dark_rectangle_of painted.now.items }
    ensures bounds { AreBounds result }
{
    let mut all = None;
    'objects: for object in painted {
        all = with_object(all, object);
    }
    all
}
