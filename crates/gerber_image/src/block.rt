// Objects of a block, which may have more vertices than an image.
ghost use Rattle.std.specs.Prelude.{◌≡◌, ◌≤◌, length, map, pos, IfOk, IfErr};
ghost use Rattle.std.specs.List.{list_any, flat_map};
ghost use Rattle.shape_parts.specs.Vertices.{vertices_of};
ghost use Rattle.gerber_image.specs.Regions.{area_of};
ghost use Rattle.gerber_image.specs.Image.{shifted_piece, shifted, vertices_in};
ghost use Rattle.gerber_image.specs.Checks.{piece_leaves, is_outside};
ghost use Rattle.gerber_image.specs.Objects.{capped};

use crate::contour::{Contour, corners_of, region};
use crate::numbers::either;
use crate::objects::{MOST_VERTICES, capped_sum};
use crate::repeat::shape_leaves;
use crate::state::Stop;
use shape_parts::{Painted, Shape};
use std::alloc::Global;
use std::marker::Model;

/// An object of a block: a shape, and behind it the areas of the contours of a region that has more vertices than an image.
#[derive(Drop)]
pub struct BlockObject {
    shape: Shape,
    large: Vec<Contour>,
    dark: bool,
}

impl Model for BlockObject {
    ghost use Rattle.std.specs.Prelude.{◌≡◌, ◌++◌, ◌<◌, ◌⊎◌, []};
    ghost use Rattle.std.specs.List.{flat_map};
    ghost use Rattle.shape_parts.specs.declared.shape.Painted.{Painted};
    ghost use Rattle.shape_parts.specs.Vertices.{vertices_of};
    ghost use Rattle.gerber_image.specs.Regions.{area_of};

    ghost Value = { Painted };

    ghost view = { λ o. record { shape = o.shape ++ flat_map area_of o.large.items; dark = o.dark } };

    ghost invariant = { λ o. (o.large.items ≡ []) ⊎ (4194304 < vertices_of (flat_map area_of o.large.items)) };
}

// Whether a point of the areas of these contours leaves the range when it is shifted.
fn contours_leave(contours: &[Contour], dx: u128, dy: u128) -> bool
    ensures { result ≡ list_any piece_leaves (map (shifted_piece (pos dx) (pos dy)) (flat_map area_of contours.now)) }
{
    let mut found = false;
    'contours: for contour in contours {
        found = either(found, contour.leaves(dx, dy));
    }
    found
}

impl BlockObject {
    /// An object that is painted.
    pub fn painted(alloc: Global, object: Painted) -> BlockObject
        ensures { result ≡ object }
    {
        BlockObject {
            shape: object.shape,
            large: Vec::new(alloc),
            dark: object.dark,
        }
    }

    /// The object of a region. It fails only without memory.
    pub fn region(alloc: Global, contours: Vec<Contour>, dark: bool) -> Result<BlockObject, Stop>
        ensures value { IfOk result (λ o. o ≡ record { shape = flat_map area_of contours.items; dark = dark }) }
        ensures memory { IfErr result (λ stop. stop ≡ Stop.Memory) }
    {
        if MOST_VERTICES < corners_of(&contours) {
            return Ok(BlockObject {
                shape: Shape::empty(alloc),
                large: contours,
                dark,
            });
        }
        let shape = region(alloc, &contours)?;
        Ok(BlockObject {
            shape,
            large: Vec::new(alloc),
            dark,
        })
    }

    /// Whether it is dark.
    pub fn is_dark(&self) -> bool
        ensures { result ≡ self.now.dark }
    {
        self.dark
    }

    /// The shape, where it has no more vertices than an image may have.
    pub fn shape(&self) -> &Shape
        requires { vertices_of self.now.shape ≤ 4194304 }
        ensures { result.now ≡ self.now.shape }
    {
        &self.shape
    }

    /// How many vertices it has, or one more than an image may have.
    pub fn vertices(&self) -> u128
        ensures { result ≡ capped (vertices_of self.now.shape) }
    {
        let shape = capped_sum(0, self.shape.vertices());
        capped_sum(shape, corners_of(&self.large))
    }

    /// Whether a point of it leaves the range when it is shifted.
    pub fn leaves(&self, dx: u128, dy: u128) -> bool
        ensures { result ≡ is_outside (shifted (pos dx) (pos dy) self.now) }
    {
        let shape = shape_leaves(&self.shape, dx, dy);
        let large = contours_leave(&self.large, dx, dy);
        either(shape, large)
    }
}

/// How many vertices the objects of a block have, or one more than an image may have.
pub fn block_vertices(block: &[BlockObject]) -> u128
    ensures { result ≡ capped (vertices_in block.now) }
{
    let mut vertices: u128 = 0;
    'objects: for object in block {
        vertices = capped_sum(vertices, object.vertices());
    }
    vertices
}
