// The board of an outline, as one dark object.
ghost use Rattle.std.specs.Prelude.{◌≡◌, IfOk, IfErr};
ghost use Rattle.outline_plan.specs.CutOut.{board_of};
ghost use Rattle.outline_plan.specs.Made.{IsBoardOf, IsRefusalOf, refusal_of};

use crate::OutlinePlanError;
use mill_plan::LimitHit;
use outline_loops::{OutlineError, loops};
use poly_area::Poly;
use shape_parts::{Painted, Part, Shape};
use std::alloc::{AllocError, Global};

// An area as one dark object.
fn object(alloc: Global, poly: Poly) -> Result<Vec<Painted>, AllocError>
    ensures { IfOk result (λ painted. painted.items ≡ board_of poly) }
{
    let mut shape = Shape::empty(alloc);
    shape.push(Part::Area { poly }, true)?;
    let mut painted = Vec::new(alloc);
    painted.push(Painted { shape, dark: true })?;
    Ok(painted)
}

// What a refusal of an outline is to its plan.
fn refusal(error: OutlineError) -> OutlinePlanError
    ensures { result ≡ refusal_of error }
{
    match error {
        OutlineError::TooManyPoints { .. } => OutlinePlanError::Limit(LimitHit::Vertices),
        OutlineError::Memory => OutlinePlanError::Memory,
        OutlineError::OpenOutline { .. } => OutlinePlanError::Outline(error),
        OutlineError::EmptyOutline => OutlinePlanError::Outline(error),
    }
}

/// The board of an outline, as one dark object.
pub(crate) fn board(alloc: Global, painted: &Vec<Painted>) -> Result<Vec<Painted>, OutlinePlanError>
    ensures board { IfOk result (λ board. IsBoardOf painted.now.items board.items) }
    ensures refused { IfErr result (IsRefusalOf painted.now.items) }
{
    let poly = match loops(alloc, painted) {
        Ok(poly) => poly,
        Err(error) => return Err(refusal(error)),
    };
    let board = object(alloc, poly)?;
    Ok(board)
}
