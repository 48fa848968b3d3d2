//! Aperture macros (Ucamco Gerber Layer Format Specification, 4.5): what the body of a definition says, and the
//! primitives that it gives for arguments. The shapes of primitives and the apertures of a file are no matter of
//! this crate; a further primitive adds cases to specs/Fields.
#![tactic(auto)]

ghost use Rattle.macro_eval.specs.Body.{MacroLaw};
ghost use Rattle.macro_eval.specs.Spelled.{ExpressionLaw};

mod expression;
mod fault;
mod fields;
mod machine;
mod macros;
mod pieces;
mod statements;
mod steps;
mod values;
mod words;

pub use fault::MacroFault;
pub use machine::Primitive;
pub use macros::{Macro, evaluate, read_macro};
pub use steps::{Operand, Operator, Step};

/// Pieces are read as the expression that they are, and as no other one. Where they are none, the fault is
/// `TooDeep` exactly where the first piece that no continuation mends is a bracket too many.
pub fn expression_law()
    ensures { ExpressionLaw }
{}

/// A body is read as the statements that it is, and as no others.
pub fn macro_law()
    ensures { MacroLaw }
{}
