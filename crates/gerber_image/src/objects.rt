// Painted objects, and how many vertices they have.
ghost use Rattle.std.specs.Prelude.{◌≡◌, ◌∷◌, [], ◌++◌, ◌+◌, ◌<◌, ◌≤◌, ◌^◌, length, OnOk, OnErr};
ghost use Rattle.gerber_image.specs.Image.{vertices_in};
ghost use Rattle.gerber_image.specs.Objects.{capped, excess as excess_of};

use crate::refusal::GerberKind;
use shape_parts::Painted;
use std::alloc::{AllocError, Global};
use std::marker::Model;

// The most objects of an image.
const MOST_OBJECTS: u128 = 1_048_576;

/// The most vertices of an image.
pub const MOST_VERTICES: u128 = 4_194_304;

/// Painted objects in their order.
#[derive(Drop)]
pub struct Objects {
    painted: Vec<Painted>,
    // How many vertices they have, or one more than an image may have.
    vertices: u128,
}

impl Model for Objects {
    ghost use Rattle.std.specs.Prelude.{◌≡◌, List};
    ghost use Rattle.shape_parts.specs.declared.shape.Painted.{Painted};
    ghost use Rattle.gerber_image.specs.Image.{vertices_in};
    ghost use Rattle.gerber_image.specs.Objects.{capped};

    ghost Value = { List Painted };

    ghost view = { λ o. o.painted.items };

    ghost invariant = { λ o. o.vertices ≡ capped (vertices_in o.painted.items) };
}

/// The sum, or one more than an image may have vertices.
pub fn capped_sum(a: u128, b: u128) -> u128
    requires { a ≤ 4194305 }
    ensures { result ≡ capped (a + b) }
{
    if MOST_VERTICES < a {
        MOST_VERTICES + 1
    } else if MOST_VERTICES - a < b {
        MOST_VERTICES + 1
    } else {
        a + b
    }
}

impl Objects {
    /// No objects.
    pub fn empty(alloc: Global) -> Objects
        ensures { result ≡ [] }
    {
        Objects {
            painted: Vec::new(alloc),
            vertices: 0,
        }
    }

    /// What there would be too much of with so many more objects that have so many vertices.
    pub fn excess(&self, objects: u128, vertices: u128) -> Option<GerberKind>
        requires { objects < 2 ^ 120 }
        ensures { result ≡ excess_of (length self.now + objects) (vertices_in self.now + vertices) }
    {
        if MOST_OBJECTS < self.painted.len() as u128 + objects {
            return Some(GerberKind::TooManyObjects);
        }
        if MOST_VERTICES < capped_sum(self.vertices, vertices) {
            return Some(GerberKind::TooManyVertices);
        }
        None
    }

    /// Adds an object behind the others. Without memory it fails, and they stay as they were.
    pub fn push(&mut self, object: Painted) -> Result<(), AllocError>
        ensures added { OnOk result (self.new ≡ self.old ++ object ∷ []) }
        ensures stays { OnErr result (self.new ≡ self.old) }
    {
        let vertices = capped_sum(self.vertices, object.shape.vertices());
        self.painted.push(object)?;
        self.vertices = vertices;
        Ok(())
    }

    /// The list of them.
    pub fn into_all(self) -> Vec<Painted>
        ensures { result.items ≡ self }
    {
        self.painted
    }
}
