//! What an image comes to, in the words of the field: near a segment, the rectangle round what is dark, the objects of
//! a file in their order with each repeat replaced by its copies, and the contours of a region; and that its frame, its
//! islands and their groups are one. Laws alone, over what lower crates define; no file here may define it once more.
#![tactic(auto)]

ghost use Rattle.image_laws.specs.Literal.{NearLaw};
ghost use Rattle.image_laws.specs.One.{OneImage};
ghost use Rattle.image_laws.specs.Rectangles.{RectangleLaw};
ghost use Rattle.image_laws.specs.Painting.{ImageLaw};
ghost use Rattle.image_laws.specs.Tracing.{RegionLaw};

/// Near a segment is: some point of it is within half of `d`.
pub fn near_law()
    ensures { NearLaw }
{}

/// The rectangle of a shape, and the one of what is dark, is the least one round the squares of its parts; there is none
/// exactly where there is no square.
pub fn rectangle_law()
    ensures { RectangleLaw }
{}

/// Commands add their objects in order, and SR the copies of the objects since the repeat was opened.
pub fn image_law()
    ensures { ImageLaw }
{}

/// The contours of a region begin at the current point and at each move, and the draws add their points.
pub fn region_law()
    ensures { RegionLaw }
{}

/// An image has one frame, or one refusal of it, and passes one limit at most; its islands have one numbering, where the
/// kept cells stand in a list, and one list of groups.
pub fn one_image_law()
    ensures { OneImage }
{}
