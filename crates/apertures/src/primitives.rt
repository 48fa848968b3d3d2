//! The parts that the primitives of a macro paint (Ucamco Gerber Layer Format Specification, 4.5.1).
ghost use Rattle.std.specs.Prelude.{◌≡◌, ◌+◌, ◌*◌, ◌<◌, ◌≤◌, ◌⊎◌, ◌*ℤ◌, neg_ℤ, ◌++◌, ◌∷◌, [], length, map, pos, unsigned_abs, MatchResult, IfOk, OnOk, Ok, Err, true, false, Some, None};
ghost use Rattle.std.specs.List.{All, range_with_len};
ghost use Rattle.std.specs.Option.{IfSome};
ghost use Rattle.plane_arcs.specs.Vectors.{IsUpTo};
ghost use Rattle.shape_parts.specs.Parts.{IsWidth};
ghost use Rattle.macro_eval.specs.Values.{IsValue as IsMacroValue};
ghost use Rattle.apertures.specs.declared.aperture.ApertureError.TheVariants.{Memory};
ghost use Rattle.apertures.specs.Figures.{IsBounded, IsBoundedPiece};
ghost use Rattle.apertures.specs.Primitives.{HasValues, circle_part, outline_points as outline_points_of, outline_part, polygon_part, box_part, line_part, piece, cross_bars as cross_bars_of, thermal_pieces, one_piece, line_pieces, piece_of_some, pieces_of as pieces_of_primitive, all_pieces as all_pieces_of};

use crate::aperture::ApertureError;
use crate::fields::{count_in, is_on, point_in, size_in, turn_in};
use crate::lines::turned_line;
use crate::outlines::vertices;
use crate::texts::add;
use crate::turns::{points_about, turned_area, turned_box, turned_disc, turned_point};
use board_base::Point;
use fixed_num::Unit;
use macro_eval::Primitive;
use shape_parts::{Part, Piece};
use std::alloc::{AllocError, Global};

// A circle (4.5.1.3).
fn circle(values: &[i128], unit: Unit) -> Result<Part, ApertureError>
    requires { All IsMacroValue values.now }
    ensures value { MatchResult result (λ p. circle_part unit values.now ≡ Ok p) (λ e. circle_part unit values.now ≡ Err e) }
    ensures bounded { IfOk result IsBounded }
{
    let d = size_in(values, 1, unit)?;
    turned_disc(point_in(values, 2, unit), d, turn_in(values, 4))
}

// The first `n` points of an outline.
fn outline_points(
    alloc: Global,
    values: &[i128],
    n: u64,
    unit: Unit,
) -> Result<Vec<Point>, AllocError>
    requires values { All IsMacroValue values.now }
    requires n { n ≤ 5000 }
    ensures { IfOk result (λ v. v.items ≡ outline_points_of unit values.now n) }
{
    let mut points = Vec::new(alloc);
    'points: for k in 0..n {
        points.push(point_in(values, 2 * k as usize + 2, unit))?;
    }
    Ok(points)
}

// An outline (4.5.1.6).
fn outline(alloc: Global, values: &[i128], unit: Unit) -> Result<Part, ApertureError>
    requires { All IsMacroValue values.now }
    ensures value { MatchResult result (λ p. outline_part unit values.now ≡ Ok p)
        (λ e. (e ≡ Memory) ⊎ (outline_part unit values.now ≡ Err e)) }
    ensures bounded { IfOk result IsBounded }
{
    let n = count_in(values, 5_000)?;
    let points = outline_points(alloc, values, n, unit)?;
    turned_area(alloc, &points, turn_in(values, 2 * n as usize + 4))
}

// A polygon (4.5.1.7).
#[tactic(auto, using(crate::proofs::MacroLaws::place_up_to))]
fn polygon(alloc: Global, values: &[i128], unit: Unit) -> Result<Part, ApertureError>
    requires { All IsMacroValue values.now }
    ensures value { MatchResult result (λ p. polygon_part unit values.now ≡ Ok p)
        (λ e. (e ≡ Memory) ⊎ (polygon_part unit values.now ≡ Err e)) }
    ensures bounded { IfOk result IsBounded }
{
    let n = count_in(values, 12)?;
    let d = size_in(values, 4, unit)?;
    let turn = turn_in(values, 5);
    let c = turned_point(point_in(values, 2, unit), turn)?;
    let about_origin = vertices(alloc, d, n, turn)?;
    let points = points_about(alloc, c, &about_origin)?;
    turned_area(alloc, &points, 0)
}

// A centre line (4.5.1.5).
fn centre_line(alloc: Global, values: &[i128], unit: Unit) -> Result<Part, ApertureError>
    requires { All IsMacroValue values.now }
    ensures value { MatchResult result (λ p. box_part unit values.now ≡ Ok p)
        (λ e. (e ≡ Memory) ⊎ (box_part unit values.now ≡ Err e)) }
    ensures bounded { IfOk result IsBounded }
{
    let w = size_in(values, 1, unit)?;
    let h = size_in(values, 2, unit)?;
    turned_box(alloc, point_in(values, 3, unit), w, h, turn_in(values, 5))
}

// A vector line (4.5.1.4); none where its length is 0.
fn vector_line(alloc: Global, values: &[i128], unit: Unit) -> Result<Option<Part>, ApertureError>
    requires { All IsMacroValue values.now }
    ensures value { MatchResult result (λ p. line_part unit values.now ≡ Ok p)
        (λ e. (e ≡ Memory) ⊎ (line_part unit values.now ≡ Err e)) }
    ensures bounded { IfOk result (λ p. IfSome p IsBounded) }
{
    let w = size_in(values, 1, unit)?;
    let from = point_in(values, 2, unit);
    let to = point_in(values, 4, unit);
    turned_line(alloc, from, to, w, turn_in(values, 6))
}

// Adds a part that is on or off.
fn put(pieces: &mut Vec<Piece>, part: Part, on: bool) -> Result<(), AllocError>
    requires part { IsBounded part }
    requires pieces { All IsBoundedPiece pieces.old.items }
    ensures value { OnOk result (pieces.new.items ≡ pieces.old.items ++ piece on part ∷ []) }
    ensures bounded { OnOk result (All IsBoundedPiece pieces.new.items) }
{
    pieces.push(Piece { part, on })?;
    Ok(())
}

// The piece of a part.
fn one(alloc: Global, part: Part, on: bool) -> Result<Vec<Piece>, AllocError>
    requires { IsBounded part }
    ensures value { IfOk result (λ v. v.items ≡ piece on part ∷ []) }
    ensures bounded { IfOk result (λ v. All IsBoundedPiece v.items) }
{
    let mut pieces = Vec::new(alloc);
    put(&mut pieces, part, on)?;
    Ok(pieces)
}

// The piece of a part that may be missing.
fn at_most_one(alloc: Global, part: Option<Part>, on: bool) -> Result<Vec<Piece>, AllocError>
    requires { IfSome part IsBounded }
    ensures value { IfOk result (λ v. v.items ≡ piece_of_some on part) }
    ensures bounded { IfOk result (λ v. All IsBoundedPiece v.items) }
{
    match part {
        Some(part) => one(alloc, part, on),
        None => Ok(Vec::new(alloc)),
    }
}

// The two bars of a cross about a point: as wide as the gap, and as high as it.
fn cross_bars(
    alloc: Global,
    c: Point,
    gap: i64,
    outer: i64,
    turn: u64,
) -> Result<(Part, Part), ApertureError>
    requires c { IsUpTo 30000000000000000 c }
    requires gap { IsWidth gap }
    requires outer { IsWidth outer }
    requires turn { turn < 360000000 }
    ensures value { MatchResult result (λ bars. cross_bars_of turn c gap outer ≡ Ok (piece false bars.0 ∷ piece false bars.1 ∷ []))
        (λ e. (e ≡ Memory) ⊎ (cross_bars_of turn c gap outer ≡ Err e)) }
    ensures bounded { IfOk result (λ bars. IsBounded bars.0 × IsBounded bars.1) }
{
    let upright = turned_box(alloc, c, gap, outer, turn)?;
    let level = turned_box(alloc, c, outer, gap, turn)?;
    Ok((upright, level))
}

// A thermal (4.5.1.8).
fn thermal(alloc: Global, values: &[i128], unit: Unit) -> Result<Vec<Piece>, ApertureError>
    requires { All IsMacroValue values.now }
    ensures value { MatchResult result (λ v. thermal_pieces unit values.now ≡ Ok v.items)
        (λ e. (e ≡ Memory) ⊎ (thermal_pieces unit values.now ≡ Err e)) }
    ensures bounded { IfOk result (λ v. All IsBoundedPiece v.items) }
{
    let outer = size_in(values, 2, unit)?;
    let inner = size_in(values, 3, unit)?;
    let gap = size_in(values, 4, unit)?;
    let turn = turn_in(values, 5);
    let c = point_in(values, 0, unit);
    let ring = turned_disc(c, outer, turn)?;
    let hole = turned_disc(c, inner, turn)?;
    let (upright, level) = cross_bars(alloc, c, gap, outer, turn)?;
    let mut pieces = one(alloc, ring, true)?;
    put(&mut pieces, hole, false)?;
    put(&mut pieces, upright, false)?;
    put(&mut pieces, level, false)?;
    Ok(pieces)
}

// The pieces of a primitive.
#[tactic(auto, unfolding(crate::specs::Primitives::pieces_of))]
fn pieces_of(alloc: Global, p: &Primitive, unit: Unit) -> Result<Vec<Piece>, ApertureError>
    requires { HasValues p.now }
    ensures value { MatchResult result (λ v. pieces_of_primitive unit p.now ≡ Ok v.items)
        (λ e. (e ≡ Memory) ⊎ (pieces_of_primitive unit p.now ≡ Err e)) }
    ensures bounded { IfOk result (λ v. All IsBoundedPiece v.items) }
{
    let values = p.values.inner();
    let on = is_on(values);
    match p.code {
        1 => Ok(one(alloc, circle(values, unit)?, on)?),
        4 => Ok(one(alloc, outline(alloc, values, unit)?, on)?),
        5 => Ok(one(alloc, polygon(alloc, values, unit)?, on)?),
        7 => thermal(alloc, values, unit),
        20 => Ok(at_most_one(alloc, vector_line(alloc, values, unit)?, on)?),
        _ => Ok(one(alloc, centre_line(alloc, values, unit)?, on)?),
    }
}

// Adds pieces at the end.
fn append(all: &mut Vec<Piece>, mut pieces: Vec<Piece>) -> Result<(), AllocError>
    requires all { All IsBoundedPiece all.old.items }
    requires pieces { All IsBoundedPiece pieces.items }
    ensures value { OnOk result (all.new.items ≡ all.old.items ++ pieces.items) }
    ensures bounded { OnOk result (All IsBoundedPiece all.new.items) }
{
    all.append(&mut pieces)?;
    Ok(())
}

// The pieces of all primitives, in order.
pub(crate) fn all_pieces(
    alloc: Global,
    primitives: &[Primitive],
    unit: Unit,
) -> Result<Vec<Piece>, ApertureError>
    requires { All HasValues primitives.now }
    ensures value { MatchResult result (λ v. all_pieces_of unit primitives.now ≡ Ok v.items)
        (λ e. (e ≡ Memory) ⊎ (all_pieces_of unit primitives.now ≡ Err e)) }
    ensures bounded { IfOk result (λ v. All IsBoundedPiece v.items) }
{
    let mut all = Vec::new(alloc);
    'primitives: for p in primitives {
        append(&mut all, pieces_of(alloc, p, unit)?)?;
    }
    Ok(all)
}
