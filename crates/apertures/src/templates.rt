//! What the text of an aperture defines.
ghost use Rattle.std.specs.Prelude.{◌≡◌, ◌<◌, ◌≤◌, ◌⊎◌, ℤ, List, [], ◌∷◌, Some, None, MatchResult, IfOk, IfSome, Ok, Err};
ghost use Rattle.std.specs.List.{All};
ghost use Rattle.shape_parts.specs.Parts.{IsWidth};
ghost use Rattle.apertures.specs.declared.aperture.ApertureError.TheVariants.{Memory};
ghost use Rattle.apertures.specs.Figures.{Figure, IsBounded};
ghost use Rattle.apertures.specs.Texts.{IsSize, IsValue};
ghost use Rattle.apertures.specs.Defined.{solid as solid_of, hole as hole_of, circle_of, obround_of, rectangle_of, pierced_polygon as pierced_polygon_of, polygon_at as polygon_at_of, polygon_of, figure_of, defined};

use crate::aperture::{Aperture, ApertureError};
use crate::macros::{Macros, by_macro};
use crate::parts::{capsule, disc, polygon as polygon_part, rectangle as rectangle_part};
use crate::texts::{
    Template, count_of, size_of, sizes_of, template_of, turn_of, values_behind, width_of,
};
use fixed_num::Unit;
use shape_parts::{Part, Shape};
use std::alloc::{AllocError, Global};

// An aperture of one part.
fn whole(alloc: Global, part: Part, stroke: Option<i64>) -> Result<Aperture, AllocError>
    requires part { IsBounded part }
    requires stroke { IfSome stroke IsWidth }
    ensures { IfOk result (λ a. a ≡ record { pieces = solid_of part ∷ []; stroke = stroke }) }
{
    let mut shape = Shape::empty(alloc);
    shape.push(part, true)?;
    Ok(Aperture { shape, stroke })
}

// An aperture of one part with a hole.
fn pierced(alloc: Global, part: Part, hole: i64) -> Result<Aperture, AllocError>
    requires part { IsBounded part }
    requires hole { IsWidth hole }
    ensures { IfOk result (λ a. a ≡ record { pieces = solid_of part ∷ hole_of hole ∷ []; stroke = None }) }
{
    let mut shape = Shape::empty(alloc);
    shape.push(part, true)?;
    shape.push(disc(hole), false)?;
    Ok(Aperture {
        shape,
        stroke: None,
    })
}

// A circle of these sizes.
fn circle(alloc: Global, sizes: &[u128], unit: Unit) -> Result<Aperture, ApertureError>
    requires { All IsSize sizes.now }
    ensures { MatchResult result (λ a. circle_of unit sizes.now ≡ Ok a)
        (λ e. (e ≡ Memory) ⊎ (circle_of unit sizes.now ≡ Err e)) }
{
    match sizes {
        [size] => {
            let d = width_of(*size, unit)?;
            Ok(whole(alloc, disc(d), Some(d))?)
        }
        [size, inner] => {
            let d = width_of(*size, unit)?;
            let hole = width_of(*inner, unit)?;
            Ok(pierced(alloc, disc(d), hole)?)
        }
        [_, _, _] => Err(ApertureError::Unsupported),
        _ => Err(ApertureError::Syntax),
    }
}

// An obround of these sizes.
fn obround(alloc: Global, sizes: &[u128], unit: Unit) -> Result<Aperture, ApertureError>
    requires { All IsSize sizes.now }
    ensures { MatchResult result (λ a. obround_of unit sizes.now ≡ Ok a)
        (λ e. (e ≡ Memory) ⊎ (obround_of unit sizes.now ≡ Err e)) }
{
    match sizes {
        [width, height] => {
            let w = width_of(*width, unit)?;
            let h = width_of(*height, unit)?;
            Ok(whole(alloc, capsule(w, h), None)?)
        }
        [width, height, inner] => {
            let w = width_of(*width, unit)?;
            let h = width_of(*height, unit)?;
            let hole = width_of(*inner, unit)?;
            Ok(pierced(alloc, capsule(w, h), hole)?)
        }
        [_, _, _, _] => Err(ApertureError::Unsupported),
        _ => Err(ApertureError::Syntax),
    }
}

// A rectangle of these sizes.
fn rectangle(alloc: Global, sizes: &[u128], unit: Unit) -> Result<Aperture, ApertureError>
    requires { All IsSize sizes.now }
    ensures { MatchResult result (λ a. rectangle_of unit sizes.now ≡ Ok a)
        (λ e. (e ≡ Memory) ⊎ (rectangle_of unit sizes.now ≡ Err e)) }
{
    match sizes {
        [width, height] => {
            let w = width_of(*width, unit)?;
            let h = width_of(*height, unit)?;
            Ok(whole(alloc, rectangle_part(alloc, w, h)?, None)?)
        }
        [width, height, inner] => {
            let w = width_of(*width, unit)?;
            let h = width_of(*height, unit)?;
            let hole = width_of(*inner, unit)?;
            Ok(pierced(alloc, rectangle_part(alloc, w, h)?, hole)?)
        }
        [_, _, _, _] => Err(ApertureError::Unsupported),
        _ => Err(ApertureError::Syntax),
    }
}

// A polygon with the sizes of its hole.
fn pierced_polygon(
    alloc: Global,
    size: u128,
    n: u64,
    turn: u64,
    holes: &[u128],
    unit: Unit,
) -> Result<Aperture, ApertureError>
    requires size { IsSize size }
    requires low { 3 ≤ n }
    requires high { n ≤ 12 }
    requires turn { turn < 360000000 }
    requires holes { All IsSize holes.now }
    ensures { MatchResult result (λ a. pierced_polygon_of unit size n turn holes.now ≡ Ok a)
        (λ e. (e ≡ Memory) ⊎ (pierced_polygon_of unit size n turn holes.now ≡ Err e)) }
{
    match holes {
        [] => {
            let d = width_of(size, unit)?;
            Ok(whole(alloc, polygon_part(alloc, d, n, turn)?, None)?)
        }
        [inner] => {
            let d = width_of(size, unit)?;
            let hole = width_of(*inner, unit)?;
            Ok(pierced(alloc, polygon_part(alloc, d, n, turn)?, hole)?)
        }
        [_, _] => Err(ApertureError::Unsupported),
        _ => Err(ApertureError::Syntax),
    }
}

// A polygon by the values before those of its hole.
fn polygon_at(
    alloc: Global,
    across: i128,
    count: i128,
    angle: i128,
    holes: &[i128],
    unit: Unit,
) -> Result<Aperture, ApertureError>
    requires across { IsValue across }
    requires count { IsValue count }
    requires holes { All IsValue holes.now }
    ensures { MatchResult result (λ a. polygon_at_of unit across count angle holes.now ≡ Ok a)
        (λ e. (e ≡ Memory) ⊎ (polygon_at_of unit across count angle holes.now ≡ Err e)) }
{
    let size = size_of(across)?;
    let corners = size_of(count)?;
    let n = count_of(corners, 12)?;
    let inner = sizes_of(alloc, holes)?;
    pierced_polygon(alloc, size, n, turn_of(angle), &inner, unit)
}

// A polygon of these values.
fn polygon(alloc: Global, values: &[i128], unit: Unit) -> Result<Aperture, ApertureError>
    requires { All IsValue values.now }
    ensures { MatchResult result (λ a. polygon_of unit values.now ≡ Ok a)
        (λ e. (e ≡ Memory) ⊎ (polygon_of unit values.now ≡ Err e)) }
{
    match values {
        [across, count] => polygon_at(alloc, *across, *count, 0, &[], unit),
        [across, count, angle, holes @ ..] => {
            polygon_at(alloc, *across, *count, *angle, holes, unit)
        }
        _ => Err(ApertureError::Syntax),
    }
}

// The aperture of a template with these values.
fn figure(
    alloc: Global,
    template: Template,
    values: &[i128],
    unit: Unit,
) -> Result<Aperture, ApertureError>
    requires { All IsValue values.now }
    ensures { MatchResult result (λ a. figure_of template unit values.now ≡ Ok a)
        (λ e. (e ≡ Memory) ⊎ (figure_of template unit values.now ≡ Err e)) }
{
    match template {
        Template::Circle => circle(alloc, &sizes_of(alloc, values)?, unit),
        Template::Obround => obround(alloc, &sizes_of(alloc, values)?, unit),
        Template::Rectangle => rectangle(alloc, &sizes_of(alloc, values)?, unit),
        Template::Polygon => polygon(alloc, values, unit),
    }
}

/// The aperture of the bytes that follow `ADDnn`, without the last star, as `C,0.5X0.2` (Ucamco Gerber Layer Format
/// Specification, 4.3 to 4.5). Its sizes are decimals in the unit, cut to 10^-9 of it and then rounded to whole
/// nanometres, half up; the angle of a polygon is one in degrees, cut to millionths of a degree. A name other than
/// `C`, `O`, `R` and `P` is that of a macro, of which the last one counts; the values behind it are its arguments. Its
/// shape is made here, once.
///
/// # Errors
///
/// In this order: `Syntax` where the bytes are outside the grammar, no macro has the name, a size is below 0, or a
/// polygon's number of vertices, cut to 10^-9, isn't a whole number from 3 to 12; `Unsupported` for a hole of two
/// sizes; `Macro` where the macro has a fault for these arguments; `OutOfRange` for a size above 1,000,000,000 nm, or
/// where a point of a macro's shape is above 500,000,000 nm in size in the end. `Memory`, where the memory doesn't
/// suffice, may come in place of any.
#[tactic(auto, unfolding(crate::specs::Defined::defined))]
pub fn define(
    alloc: Global,
    bytes: &[u8],
    unit: Unit,
    macros: &Macros,
) -> Result<Aperture, ApertureError>
    ensures { MatchResult result (λ a. defined unit macros.now bytes.now ≡ Ok a)
        (λ e. (e ≡ Memory) ⊎ (defined unit macros.now bytes.now ≡ Err e)) }
{
    match template_of(bytes) {
        Some(template) => {
            let values = values_behind(alloc, bytes)?;
            figure(alloc, template, &values, unit)
        }
        None => by_macro(alloc, bytes, unit, macros),
    }
}
