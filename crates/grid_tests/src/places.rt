// Places that several files of tests name.
ghost use Rattle.board_base.specs.Places.{IsPlace, IsNearPlace};

use board_base::Point;

// The place (x, y), in nanometres.
pub(crate) fn nano(x: i16, y: i16) -> Point
    ensures place { IsPlace result }
    ensures near { IsNearPlace result }
{
    Point {
        x: x as i64,
        y: y as i64,
    }
}

// The place (x, y), in micrometres.
pub(crate) fn micro(x: i16, y: i16) -> Point
    ensures place { IsPlace result }
    ensures near { IsNearPlace result }
{
    Point {
        x: x as i64 * 1000,
        y: y as i64 * 1000,
    }
}
