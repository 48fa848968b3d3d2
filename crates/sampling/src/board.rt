// The board that is milled.
ghost use Rattle.std.specs.Prelude.{◌≡◌, ◌≤◌, ◌++◌, ◌∷◌, [], Some, Ok, IfOk, IfSome, OnOk, MatchResult};
ghost use Rattle.board_base.specs.Memory.{steady_files, steady_state, new_shelf};
ghost use Rattle.drill_plan.specs.Limits.{IsWithinLimits};
ghost use Rattle.endings.specs.Reads.{held_in};
ghost use Rattle.job_file.specs.Reading.{texts};
ghost use Rattle.mill_outputs.specs.Planned.{IsOneRefusal};
ghost use Rattle.mill_outputs.specs.Mill.{AsPlanned};
ghost use Rattle.sampling.specs.Sampled.{sample_files, mill_words as mill_words_of, HasPlans};

use board_base::SteadyShelf;
use board_gen::sample_board;
use drill_plan::{few_diameters_law, limits_law};
use endings::Status;
use mill_inputs::accept;
use mill_outputs::{Plans, make_plans};
use std::alloc::{AllocError, Global};

// Adds a word.
fn add_word(alloc: Global, words: &mut Vec<String>, text: &str) -> Result<(), AllocError>
    ensures { OnOk result (texts words.new ≡ texts words.old ++ text.now ∷ []) }
{
    let word = String::from_str(alloc, text)?;
    words.push(word)?;
    Ok(())
}

// The words by which `mill` takes the three files, and no file for the job.
fn mill_words(alloc: Global) -> Result<Vec<String>, AllocError>
    ensures { IfOk result (λ words. texts words ≡ mill_words_of) }
{
    let mut words = Vec::with_capacity(alloc, 5)?;
    add_word(alloc, &mut words, "mill")?;
    add_word(alloc, &mut words, "-")?;
    add_word(alloc, &mut words, "--front=front.gbr")?;
    add_word(alloc, &mut words, "--drill=drill.drl")?;
    add_word(alloc, &mut words, "--outline=outline.gbr")?;
    Ok(words)
}

// A shelf with the three files.
fn sample_shelf(alloc: Global, pads: u32) -> Result<SteadyShelf, AllocError>
    requires low { 1 ≤ pads }
    requires high { pads ≤ 400 }
    ensures { IfOk result (λ shelf. steady_state shelf ≡ record new_shelf { files = Some (sample_files pads) }) }
{
    let board = sample_board(alloc, pads)?;
    let mut shelf = SteadyShelf::new(alloc);
    shelf.add("front.gbr", &board.front)?;
    shelf.add("drill.drl", &board.drill)?;
    shelf.add("outline.gbr", &board.outline)?;
    Ok(shelf)
}

// What `mill` plans by these words over a shelf that never fails.
fn mill(alloc: Global, words: &Vec<String>, shelf: &mut SteadyShelf) -> Result<Plans, Status>
    ensures answer { MatchResult result
        (HasPlans (texts words.now) (held_in (steady_files shelf.old)))
        (IsOneRefusal (AsPlanned (texts words.now) (held_in (steady_files shelf.old)))) }
    ensures within { IfOk result (λ plans. IfSome plans.drill IsWithinLimits) }
{
    few_diameters_law();
    limits_law();
    let accepted = match accept(alloc, words, shelf) {
        Ok(accepted) => accepted,
        Err(status) => return Err(status),
    };
    match make_plans(alloc, &accepted) {
        Ok(plans) => Ok(plans),
        Err(status) => Err(status),
    }
}

/// What `mill` plans for the board of so many pads.
///
/// # Errors
///
/// Those of `mill` over its three texts.
pub fn plan_sample(alloc: Global, pads: u32) -> Result<Plans, Status>
    requires low { 1 ≤ pads }
    requires high { pads ≤ 400 }
    ensures answer { MatchResult result
        (HasPlans mill_words_of (held_in (sample_files pads)))
        (IsOneRefusal (AsPlanned mill_words_of (held_in (sample_files pads)))) }
    ensures within { IfOk result (λ plans. IfSome plans.drill IsWithinLimits) }
{
    let words = match mill_words(alloc) {
        Ok(words) => words,
        Err(_) => return Err(Status::Memory),
    };
    let mut shelf = match sample_shelf(alloc, pads) {
        Ok(shelf) => shelf,
        Err(_) => return Err(Status::Memory),
    };
    mill(alloc, &words, &mut shelf)
}
