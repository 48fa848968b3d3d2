//! The apertures of macros.
ghost use Rattle.std.specs.Prelude.{◌≡◌, ◌⊎◌, [], ◌∷◌, ◌++◌, OnOk, OnErr, MatchResult, Ok, Err};
ghost use Rattle.std.specs.Option.{option_copied};
ghost use Rattle.apertures.specs.declared.aperture.ApertureError.TheVariants.{Memory};
ghost use Rattle.apertures.specs.Defined.{macro_figure, macro_named, by_macro as by_macro_of};

use crate::aperture::{Aperture, ApertureError};
use crate::primitives::all_pieces;
use crate::texts::{arguments_of, name_of};
use board_base::Items;
use fixed_num::Unit;
use macro_eval::{Macro, MacroFault, evaluate};
use shape_parts::Shape;
use std::alloc::{AllocError, Global};
use std::collections::BTreeMap;
use std::marker::Model;

/// A macro under the name by which apertures call it.
#[derive(Drop)]
pub struct NamedMacro {
    /// The bytes of its name.
    pub name: Items<u8>,
    /// What it paints.
    pub body: Macro,
}

/// The macros of a file, in the order of their definitions. The last one of a name counts, and is found by the name
/// without a look at the others.
#[derive(Drop)]
pub struct Macros {
    list: Vec<NamedMacro>,
    // The place in the list of the last macro of each name.
    last: BTreeMap<Vec<u8>, usize>,
}

impl Model for Macros {
    ghost use Rattle.std.specs.Prelude.{List};
    ghost use Rattle.apertures.specs.declared.macros.NamedMacro.{NamedMacro};
    ghost use Rattle.apertures.specs.contracts.macros.NamedMacro as named;
    ghost use Rattle.apertures.specs.Index.{IsIndex};
    ghost use Rattle.std.specs.Coded.{coded_list};

    ghost Value = { List NamedMacro };

    ghost coded = { coded_list named.the_row.coded };

    ghost view = { λ m. m.list.items };

    ghost invariant = { λ m. IsIndex m.list.items m.last };
}

impl Macros {
    /// No macro. Takes no memory.
    pub fn empty(alloc: Global) -> Macros
        ensures { result ≡ [] }
    {
        Macros {
            list: Vec::new(alloc),
            last: BTreeMap::new(alloc),
        }
    }

    /// Adds a macro behind the others.
    pub fn push(&mut self, m: NamedMacro) -> Result<(), AllocError>
        ensures ok { OnOk result (self.new ≡ self.old ++ m ∷ []) }
        ensures err { OnErr result (self.new ≡ self.old) }
    {
        let name = m.name.inner().clone()?;
        let place = self.list.len();
        self.list.push(m)?;
        if self.last.insert(name, place).is_err() {
            self.list.pop();
            return Err(AllocError);
        }
        Ok(())
    }

    // The macro of a name, of which the last one counts.
    fn find(&self, name: &[u8]) -> Option<&Macro>
        ensures { option_copied result ≡ macro_named name.now self.now }
    {
        match self.last.get(name) {
            Some(place) => Some(&self.list[*place].body),
            None => None,
        }
    }
}

// The aperture of a macro with these arguments.
fn figure(
    alloc: Global,
    m: &Macro,
    arguments: &Vec<i128>,
    unit: Unit,
) -> Result<Aperture, ApertureError>
    ensures { MatchResult result (λ a. macro_figure unit m.now arguments.now.items ≡ Ok a)
        (λ e. (e ≡ Memory) ⊎ (macro_figure unit m.now arguments.now.items ≡ Err e)) }
{
    match evaluate(alloc, m, arguments) {
        Ok(primitives) => {
            let pieces = all_pieces(alloc, &primitives, unit)?;
            Ok(Aperture {
                shape: Shape::of(pieces),
                stroke: None,
            })
        }
        Err(MacroFault::Memory) => Err(ApertureError::Memory),
        Err(fault) => Err(ApertureError::Macro(fault)),
    }
}

// The aperture of a text with the macro of its name.
pub(crate) fn by_macro(
    alloc: Global,
    bytes: &[u8],
    unit: Unit,
    macros: &Macros,
) -> Result<Aperture, ApertureError>
    ensures { MatchResult result (λ a. by_macro_of unit macros.now bytes.now ≡ Ok a)
        (λ e. (e ≡ Memory) ⊎ (by_macro_of unit macros.now bytes.now ≡ Err e)) }
{
    match macros.find(name_of(bytes)) {
        Some(m) => {
            let arguments = arguments_of(alloc, bytes)?;
            figure(alloc, m, &arguments, unit)
        }
        None => Err(ApertureError::Syntax),
    }
}
