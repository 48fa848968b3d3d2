//! Evaluating macros.
ghost use Rattle.std.specs.Prelude.{◌≡◌, ◌≤◌, ◌⊎◌, ◌||◌, ◌++◌, [], ◌∷◌, length, reverse, MatchResult, IfOk, OnOk, Ok, Err};
ghost use Rattle.std.specs.List.{AllByRecursion, list_all};
ghost use Rattle.macro_eval.specs.declared.fault.MacroFault.TheVariants.{Memory};
ghost use Rattle.macro_eval.specs.Values.{IsValue};
ghost use Rattle.macro_eval.specs.Evaluated.{is_value, started, with_fields};
ghost use Rattle.macro_eval.specs.Running.{Run, IsSound, stepped, run_of, at_begin, primitives_in};
ghost use Rattle.macro_eval.specs.Machines.{run_shown};

use crate::fault::MacroFault;
use crate::fields::{are_fields, known, paints};
use crate::steps::{Operand, Step};
use crate::values::{Stack, combine, negate, put, take};
use board_base::Items;
use smallvec::SmallVec;
use std::alloc::{AllocError, Global};

/// A primitive of a macro (Ucamco Gerber Layer Format Specification, 4.5.1): its code, and the values of its fields
/// in 10^-9 of the unit.
#[derive(Drop)]
pub struct Primitive {
    /// The code.
    pub code: u32,
    /// The values of its fields.
    pub values: Items<i128>,
}

/// What is there between two steps: the variables, the values that wait, the code of the primitive that is
/// begun, whether something is painted, and the primitives so far.
#[derive(Drop)]
pub(crate) struct Machine {
    pub(crate) variables: Vec<i128>,
    pub(crate) stack: Stack,
    pub(crate) code: u32,
    pub(crate) painted: bool,
    pub(crate) primitives: Vec<Primitive>,
}

// Whether one of the two holds.
fn either(a: bool, b: bool) -> bool
    ensures { result ≡ (a || b) }
{
    a || b
}

// A primitive with these fields.
fn with_these(code: u32, values: Vec<i128>) -> Result<Primitive, MacroFault>
    ensures value { MatchResult result (λ p. with_fields code values.items ≡ Ok p) (λ e. with_fields code values.items ≡ Err e) }
{
    if are_fields(code, &values) {
        Ok(Primitive {
            code,
            values: Items::of(values),
        })
    } else {
        Err(MacroFault::BadExpression)
    }
}

// Adds a primitive at the end.
fn add_primitive(primitives: &mut Vec<Primitive>, primitive: Primitive) -> Result<(), AllocError>
    ensures { OnOk result (primitives.new.items ≡ primitives.old.items ++ primitive ∷ []) }
{
    primitives.push(primitive)?;
    Ok(())
}

// The values that wait, the first one first.
fn waiting(alloc: Global, stack: &Stack) -> Result<Vec<i128>, AllocError>
    ensures { IfOk result (λ values. values.items ≡ stack.now.items) }
{
    stack.as_slice().to_vec(alloc)
}

// The variables at the start.
fn variables_of(alloc: Global, arguments: &[i128]) -> Result<Vec<i128>, AllocError>
    ensures value { IfOk result (λ v. v.items ≡ started arguments.now) }
    ensures room { IfOk result (λ v. 256 ≤ length v.items) }
{
    let mut variables = Vec::new(alloc);
    variables.push(0)?;
    variables.extend_from_slice(arguments)?;
    let n = variables.len() + 255usize.saturating_sub(arguments.len());
    variables.resize(n, 0)?;
    Ok(variables)
}

impl Machine {
    // The value of a variable.
    fn load(&mut self, n: u8) -> Result<(), MacroFault>
        requires { IsSound (run_shown self.old) }
        ensures value { MatchResult result (λ _. stepped (run_shown self.old) (Step.Load (Operand.Variable n)) ≡ Ok (run_shown self.new))
            (λ e. (e ≡ Memory) ⊎ (stepped (run_shown self.old) (Step.Load (Operand.Variable n)) ≡ Err e)) }
        ensures sound { OnOk result (IsSound (run_shown self.new)) }
    {
        let v = self.variables[n as usize];
        put(&mut self.stack, v)
    }

    // Gives the last value to a variable.
    fn assign(&mut self, n: u8)
        requires { IsSound (run_shown self.old) }
        ensures value { stepped (run_shown self.old) (Step.Assign n) ≡ Ok (run_shown self.new) }
        ensures sound { IsSound (run_shown self.new) }
    {
        let v = take(&mut self.stack);
        self.variables[n as usize] = v;
        self.stack.clear();
    }

    // A primitive begins.
    fn begin(&mut self, code: u32) -> Result<(), MacroFault>
        requires { IsSound (run_shown self.old) }
        ensures value { MatchResult result (λ _. stepped (run_shown self.old) (Step.Begin code) ≡ Ok (run_shown self.new))
            (λ e. (e ≡ Memory) ⊎ (stepped (run_shown self.old) (Step.Begin code) ≡ Err e)) }
        ensures sound { OnOk result (IsSound (run_shown self.new)) }
    {
        self.code = known(code, self.painted)?;
        self.stack.clear();
        Ok(())
    }

    // A primitive is painted.
    #[tactic(auto, using(crate::proofs::Turned::twice))]
    fn paint(&mut self, alloc: Global) -> Result<(), MacroFault>
        requires { IsSound (run_shown self.old) }
        ensures value { MatchResult result (λ _. stepped (run_shown self.old) Step.Paint ≡ Ok (run_shown self.new))
            (λ e. (e ≡ Memory) ⊎ (stepped (run_shown self.old) Step.Paint ≡ Err e)) }
        ensures sound { OnOk result (IsSound (run_shown self.new)) }
    {
        let values = waiting(alloc, &self.stack)?;
        let primitive = with_these(self.code, values)?;
        let now = paints(primitive.code, primitive.values.inner());
        add_primitive(&mut self.primitives, primitive)?;
        self.painted = either(self.painted, now);
        self.stack.clear();
        Ok(())
    }

    // One step.
    fn take_step(&mut self, alloc: Global, step: Step) -> Result<(), MacroFault>
        requires { IsSound (run_shown self.old) }
        ensures value { MatchResult result (λ _. stepped (run_shown self.old) step ≡ Ok (run_shown self.new))
            (λ e. (e ≡ Memory) ⊎ (stepped (run_shown self.old) step ≡ Err e)) }
        ensures sound { OnOk result (IsSound (run_shown self.new)) }
    {
        match step {
            Step::Load(Operand::Number(v)) => put(&mut self.stack, v),
            Step::Load(Operand::Variable(n)) => self.load(n),
            Step::Negate => negate(&mut self.stack),
            Step::Join(operator) => combine(&mut self.stack, operator),
            Step::Assign(n) => {
                self.assign(n);
                Ok(())
            }
            Step::Begin(code) => self.begin(code),
            Step::Paint => self.paint(alloc),
        }
    }
}

// The primitives that steps paint.
pub(crate) fn run(
    alloc: Global,
    steps: &[Step],
    arguments: &[i128],
) -> Result<Vec<Primitive>, MacroFault>
    ensures { MatchResult result (λ ps. primitives_in (run_of (at_begin (started arguments.now)) steps.now) ≡ Ok ps.items)
        (λ e. (e ≡ Memory) ⊎ (primitives_in (run_of (at_begin (started arguments.now)) steps.now) ≡ Err e)) }
{
    let variables = variables_of(alloc, arguments)?;
    let mut machine = Machine {
        variables,
        stack: SmallVec::new(alloc),
        code: 0,
        painted: false,
        primitives: Vec::new(alloc),
    };
    'steps: for step in steps {
        machine.take_step(alloc, *step)?;
    }
    Ok(machine.primitives)
}
