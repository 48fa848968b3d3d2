//! The apertures of a Gerber file: what the text of a definition stands for, and the shape of an aperture
//! at a place, mirrored and turned. Circles, obrounds, rectangles and regular polygons with round holes are built,
//! and the primitives of macros. The commands of a file and the text of a macro are no matter of this crate; a
//! further template adds cases to specs/Texts and specs/Defined, a further primitive to specs/Primitives.
#![tactic(auto)]

ghost use Rattle.apertures.specs.Origin.{OriginLaw};
ghost use Rattle.apertures.specs.Spelled.{TextLaw};

mod aperture;
mod fields;
mod lines;
mod macros;
mod outlines;
mod parts;
mod place;
mod primitives;
mod templates;
mod texts;
mod turns;

pub use aperture::{Aperture, ApertureError, stroke};
pub use fixed_num::Unit;
pub use macros::{Macros, NamedMacro};
pub use place::{Mirror, shape_at};
pub use templates::define;
pub use texts::length_of;

/// A name, a comma and texts with the letter X between them are read as that name and those values.
pub fn text_law()
    ensures { TextLaw }
{}

/// At the origin, neither mirrored nor turned, an aperture has the pieces that contracts see of it.
pub fn origin_law()
    ensures { OriginLaw }
{}
