//! Shapes of parts that are on or off, and objects painted dark or clear: which points and cells they
//! hold, touch and cover, the rectangle round them and their mirror image. A further kind of part adds
//! a case to each definition of specs/Parts, specs/Boxes and specs/Mirror; the other ones stay.
#![tactic(auto)]

ghost use Rattle.shape_parts.specs.Cover.{CoverLaw};
ghost use Rattle.shape_parts.specs.BoxLaw.{BoxLaw};
ghost use Rattle.shape_parts.specs.Literal.{Literal};

mod boxes;
mod mirror;
mod moves;
mod parts;
mod shape;

pub use boxes::hull;
pub use mirror::mirror_x;
pub use poly_area::{Motion, Poly};
pub use shape::{Painted, Part, Piece, Shape, is_dark};

/// Every dark point lies in a kept cell.
pub fn cover_law()
    ensures { CoverLaw }
{}

/// The definitions in the words that they stand for.
pub fn literal_law()
    ensures { Literal }
{}

/// What a shape touches has its centre in the shape's rectangle, grown by half a cell's diagonal.
pub fn box_law()
    ensures { BoxLaw }
{}
