// Shapes and painted objects.
ghost use Rattle.std.specs.Prelude.{◌≡◌, ℤ, ℕ, pos, ◌≤ℤ◌, ◌<ℤ◌, ◌<◌, ◌+◌, ◌≤◌, ◌^◌, List, [], ◌∷◌, ◌++◌, length, OnOk, OnErr, IfOk, is_none, map, Bool, not, ◌&&◌, ◌||◌};
ghost use Rattle.std.specs.List.{All};
ghost use Rattle.board_base.specs.Places.{IsNearPlace};
ghost use Rattle.board_base.specs.Lattice.{centre_of, half_diagonal_of, IsPitch, IsHalfDiagonal};
ghost use Rattle.shape_parts.specs.Parts.{IsPart, IsPiece, HoldsPiece};
ghost use Rattle.shape_parts.specs.Shapes.{shape_holds, shape_touches, shape_covers};
ghost use Rattle.shape_parts.specs.Mirror.{mirrored_piece};
ghost use Rattle.shape_parts.specs.Moved.{moved_pieces as moved_pieces_of};
ghost use Rattle.shape_parts.specs.Vertices.{vertices_of};
ghost use Rattle.shape_parts.specs.Boxes.{shape_box, AreBounds};
ghost use Rattle.shape_parts.specs.Cover.{is_dark as is_dark_of};

use crate::boxes::box_round;
use crate::mirror::mirrored_pieces;
use crate::moves::{any_leaves, moved_pieces, vertices};
use crate::parts::{covers_last, holds_last, touches_last};
use board_base::{Bounds, Cell, Point, centre, half_diagonal};
use poly_area::{Motion, Poly};
use std::alloc::{AllocError, Global};
use std::marker::Model;

/// A part of a shape, in nanometres. A part of no width holds nothing.
#[derive(Drop)]
pub enum Part {
    /// What is at most half of `d` from `c`.
    Disc { c: Point, d: i64 },
    /// What is at most half of `d` from the segment `ab`.
    Capsule { a: Point, b: Point, d: i64 },
    /// What the closed loops hold.
    Area { poly: Poly },
}

/// A part that is on, or takes away from the parts before it.
#[derive(Drop)]
pub struct Piece {
    pub part: Part,
    pub on: bool,
}

/// Parts in their order, of which a later one overrides the earlier ones.
#[derive(Drop)]
pub struct Shape {
    pieces: Vec<Piece>,
}

impl Model for Shape {
    ghost use Rattle.std.specs.Prelude.{List};
    ghost use Rattle.std.specs.List.{All};
    ghost use Rattle.shape_parts.specs.declared.shape.Piece.{Piece};
    ghost use Rattle.shape_parts.specs.Parts.{IsPiece};

    ghost Value = { List Piece };

    ghost view = { λ s. s.pieces.items };

    ghost invariant = { λ s. All IsPiece s.pieces.items };
}

impl Shape {
    /// No part.
    pub fn empty(alloc: Global) -> Shape
        ensures { result ≡ [] }
    {
        Shape {
            pieces: Vec::new(alloc),
        }
    }

    /// The shape of these parts in their order. Takes no memory.
    pub fn of(pieces: Vec<Piece>) -> Shape
        requires { All IsPiece pieces.items }
        ensures { result ≡ pieces.items }
    {
        Shape { pieces }
    }

    /// Adds a part after the others. Without memory it fails, and the shape stays as it was.
    pub fn push(&mut self, part: Part, on: bool) -> Result<(), AllocError>
        requires { IsPart part }
        ensures added { OnOk result (self.new ≡ self.old ++ record { part = part; on = on } ∷ []) }
        ensures stays { OnErr result (self.new ≡ self.old) }
    {
        self.pieces.push(Piece { part, on })?;
        Ok(())
    }

    /// The parts in their order.
    pub fn pieces(&self) -> &[Piece]
        ensures value { result.now ≡ self.now }
        ensures parts { All IsPiece result.now }
    {
        &self.pieces
    }

    /// The number of parts, on and off.
    pub fn len(&self) -> u32
        requires { length self.now < 2 ^ 32 }
        ensures { result ≡ length self.now }
    {
        self.pieces.len() as u32
    }

    /// Part `k`.
    pub fn part(&self, k: u32) -> &Part
        requires { k < length self.now }
        ensures part { HoldsPiece self.now k (λ p. p.part ≡ result.now) }
        ensures fits { IsPart result.now }
    {
        &self.pieces[k as usize].part
    }

    /// Whether part `k` is on.
    pub fn is_on(&self, k: u32) -> bool
        requires { k < length self.now }
        ensures { HoldsPiece self.now k (λ p. p.on ≡ result) }
    {
        self.pieces[k as usize].on
    }

    /// Whether the last part that holds `q` is on.
    pub fn contains(&self, q: Point) -> bool
        requires { IsNearPlace q }
        ensures { result ≡ shape_holds q self.now }
    {
        holds_last(&self.pieces, q)
    }

    /// Whether an on part touches the cell round `c`, whose half diagonal is `h`, and no later off part
    /// covers it.
    pub fn touches_at(&self, c: Point, h: i64) -> bool
        requires c { IsNearPlace c }
        requires h_low { pos 0 <ℤ h }
        requires h_high { h ≤ℤ pos 200000 }
        ensures { result ≡ shape_touches c h self.now }
    {
        touches_last(&self.pieces, c, h)
    }

    /// Whether an on part covers the cell round `c`, whose half diagonal is `h`, and no later off part
    /// touches it.
    pub fn covers_at(&self, c: Point, h: i64) -> bool
        requires c { IsNearPlace c }
        requires h_low { pos 0 <ℤ h }
        requires h_high { h ≤ℤ pos 200000 }
        ensures { result ≡ shape_covers c h self.now }
    {
        covers_last(&self.pieces, c, h)
    }

    /// Whether an on part touches the cell of a lattice, and no later off part covers it. The pitch is in
    /// nanometres.
    pub fn touches(&self, c: Cell, pitch: i64) -> bool
        requires pitch { IsPitch pitch }
        requires centre { IsNearPlace (centre_of pitch c) }
        ensures value { result ≡ shape_touches (centre_of pitch c) (half_diagonal_of pitch) self.now }
        ensures diagonal { (h : ℤ) → IsHalfDiagonal pitch h → result ≡ shape_touches (centre_of pitch c) h self.now }
    {
        self.touches_at(centre(c, pitch), half_diagonal(pitch))
    }

    /// Whether an on part covers the cell of a lattice, and no later off part touches it. The pitch is in
    /// nanometres.
    pub fn covers(&self, c: Cell, pitch: i64) -> bool
        requires pitch { IsPitch pitch }
        requires centre { IsNearPlace (centre_of pitch c) }
        ensures value { result ≡ shape_covers (centre_of pitch c) (half_diagonal_of pitch) self.now }
        ensures diagonal { (h : ℤ) → IsHalfDiagonal pitch h → result ≡ shape_covers (centre_of pitch c) h self.now }
    {
        self.covers_at(centre(c, pitch), half_diagonal(pitch))
    }

    /// The rectangle round all on parts, or none where no on part has a width.
    pub fn bounds(&self) -> Option<Bounds>
        ensures value { result ≡ shape_box self.now }
        ensures bounds { AreBounds result }
    {
        box_round(&self.pieces)
    }

    /// The shape with every x negated. It fails only without memory.
    pub fn mirrored(&self, alloc: Global) -> Result<Shape, AllocError>
        ensures { IfOk result (λ s. s ≡ map mirrored_piece self.now) }
    {
        let pieces = mirrored_pieces(alloc, &self.pieces)?;
        Ok(Shape { pieces })
    }

    /// The shape with all points moved, or `None` where one of them leaves the range. Widths stay. It fails
    /// only without memory.
    pub fn moved<M: Motion>(&self, alloc: Global, motion: &M) -> Result<Option<Shape>, AllocError>
        ensures { IfOk result (λ o. o ≡ moved_pieces_of (M.moves motion.now) self.now) }
    {
        match moved_pieces(alloc, &self.pieces, motion)? {
            Some(pieces) => Ok(Some(Shape { pieces })),
            None => Ok(None),
        }
    }

    /// Whether a point of the shape leaves the range when it is moved.
    pub fn leaves<M: Motion>(&self, motion: &M) -> bool
        ensures { result ≡ is_none (moved_pieces_of (M.moves motion.now) self.now) }
    {
        any_leaves(&self.pieces, motion)
    }

    /// How many points the areas of the shape have.
    pub fn vertices(&self) -> u128
        ensures { result ≡ vertices_of self.now }
    {
        vertices(&self.pieces)
    }
}

/// A shape that adds copper, or clears it.
#[derive(Drop)]
pub struct Painted {
    pub shape: Shape,
    pub dark: bool,
}

// What an object makes of the point.
fn after_object(dark: bool, object: &Painted, q: Point) -> bool
    requires { IsNearPlace q }
    ensures { result ≡ ((object.now.dark && shape_holds q object.now.shape) || (dark && not (not object.now.dark && shape_holds q object.now.shape))) }
{
    if object.dark == dark {
        dark
    } else if object.shape.contains(q) {
        object.dark
    } else {
        dark
    }
}

/// Whether the last object whose shape holds `q` is dark.
pub fn is_dark(painted: &Vec<Painted>, q: Point) -> bool
    requires { IsNearPlace q }
    ensures { result ≡ is_dark_of q painted.now.items }
{
    let mut dark = false;
    for object in painted {
        dark = after_object(dark, object, q);
    }
    dark
}
