//! Macros: reading a body, and its primitives for arguments.
ghost use Rattle.std.specs.Prelude.{◌≡◌, ◌⊎◌, MatchResult, IfOk, Ok, Err};
ghost use Rattle.macro_eval.specs.declared.fault.MacroFault.TheVariants.{Memory};
ghost use Rattle.macro_eval.specs.Body.{macro_of};
ghost use Rattle.macro_eval.specs.Evaluated.{is_value, evaluated};
ghost use Rattle.std.specs.List.{AllByRecursion, list_all};
ghost use Rattle.macro_eval.specs.Primitives.{IsWhole};

use crate::fault::MacroFault;
use crate::machine::{Primitive, run};
use crate::statements::read_body;
use crate::steps::Step;
use std::alloc::Global;
use std::marker::Model;

/// A macro that was read: its assignments and primitives. Contracts see these as a list of statements.
#[derive(Drop)]
pub struct Macro {
    steps: Vec<Step>,
}

impl Model for Macro {
    ghost use Rattle.std.specs.Prelude.{◌≡◌, List};
    ghost use Rattle.macro_eval.specs.Trees.{Statement, steps_of};
    ghost use Rattle.macro_eval.specs.Heard.{statements_in};
    ghost use Rattle.macro_eval.specs.Again.{statements_again};
    ghost use Rattle.macro_eval.specs.declared.steps.Step.{Step as AStep};
    ghost use Rattle.macro_eval.specs.contracts.steps.Step as step;
    ghost use Rattle.std.specs.Coded.{code_by, coded_list};

    ghost Value = { List Statement };

    ghost coded = { code_by (List AStep) (coded_list step.the_row.coded) steps_of statements_in statements_again };

    ghost view = { λ m. statements_in m.steps.items };

    ghost invariant = { λ m. m.steps.items ≡ steps_of (statements_in m.steps.items) };
}

/// The macro that the body of a definition is (Ucamco Gerber Layer Format Specification, 4.5). The bytes are those
/// between the star behind the name and the star that ends the command; they hold no line breaks.
///
/// # Errors
///
/// `BadExpression` and `TooDeep` at the first place that no continuation mends; `Memory`. What a value or a field
/// has to be is looked at by `evaluate`.
#[tactic(auto, unfolding(crate::specs::Body::macro_of))]
pub fn read_macro(alloc: Global, bytes: &[u8]) -> Result<Macro, MacroFault>
    ensures { MatchResult result (λ m. macro_of bytes.now ≡ Ok m) (λ e. (e ≡ Memory) ⊎ (macro_of bytes.now ≡ Err e)) }
{
    let steps = read_body(alloc, bytes)?;
    Ok(Macro { steps })
}

// Whether all arguments may be values.
fn are_values(arguments: &[i128]) -> bool
    ensures { result ≡ list_all is_value arguments.now }
{
    arguments
        .iter()
        .all(|v| v.unsigned_abs() <= 1_000_000_000_000_000_000)
}

// The primitives that a macro paints.
#[tactic(auto, unfolding(crate::specs::Evaluated::evaluated), using(crate::proofs::RunLaws::all_run))]
fn primitives_of(alloc: Global, m: &Macro, args: &[i128]) -> Result<Vec<Primitive>, MacroFault>
    ensures { MatchResult result (λ ps. evaluated m.now args.now ≡ Ok ps.items)
        (λ e. (e ≡ Memory) ⊎ (evaluated m.now args.now ≡ Err e)) }
{
    if !are_values(args) {
        return Err(MacroFault::Overflow);
    }
    run(alloc, &m.steps, args)
}

/// The primitives that a macro paints with these arguments, in order (Ucamco Gerber Layer Format Specification,
/// 4.5.1 and 4.5.4). Arguments and values are in 10^-9 of the file's unit; products and quotients are cut towards
/// zero.
///
/// # Errors
///
/// `Overflow` of an argument comes before all others, and then the fault of the first statement that has one: of a
/// primitive first `UnknownPrimitive`, then the faults of its values from the left, then `BadExpression` where its
/// fields aren't those of its code. `Memory`.
pub fn evaluate(alloc: Global, m: &Macro, args: &Vec<i128>) -> Result<Vec<Primitive>, MacroFault>
    ensures value { MatchResult result (λ ps. evaluated m.now args.now.items ≡ Ok ps.items)
        (λ e. (e ≡ Memory) ⊎ (evaluated m.now args.now.items ≡ Err e)) }
    ensures whole { IfOk result (λ ps. AllByRecursion IsWhole ps.items) }
{
    let primitives = primitives_of(alloc, m, args)?;
    Ok(primitives)
}
