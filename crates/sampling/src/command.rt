// The command.
ghost use Rattle.std.specs.Prelude.{◌≡◌, ◌⊎◌, string_bytes, MatchResult, IsErrOf};
ghost use Rattle.board_base.specs.Shelf.{ShelfState};
ghost use Rattle.endings.specs.declared.status.Status.TheVariants as Statuses;
ghost use Rattle.endings.specs.Ending.{Ending};
ghost use Rattle.endings.specs.Reads.{Reading};
ghost use Rattle.endings.specs.Works.{Works, WorksAlone, status_of};
ghost use Rattle.job_file.specs.Reading.{texts};
ghost use Rattle.endings.specs.Words.{IsExactUsage};
ghost use Rattle.sampling.specs.Words.{words_of};
ghost use Rattle.sampling.specs.Sampled.{SampleEnds};

use crate::board::plan_sample;
use crate::figures::{summarize, summary_line};
use crate::words::read_words;
use endings::Status;
use std::alloc::Global;

/// What is told of a sample board: the command's line, but for the last.
#[derive(Drop)]
pub struct Sampling {
    pub lines: String,
}

/// Mills the sample board of so many pads as the words say, over a shelf of its own, and gives the line that is to be told.
/// Nothing is written and nothing is put.
///
/// # Errors
///
/// In this order: `Usage`; what `mill` refuses the three texts for. `Memory` may come at any step.
pub fn sample(alloc: Global, words: &Vec<String>) -> Result<Sampling, Status>
    ensures usage { IsExactUsage (words_of (texts words.now)) (status_of result) }
    // No refusal is Done.
    ensures refused { IsErrOf result Statuses.Done → ⊥ }
    // What was done before any line is put, whatever stands on the run's own shelf: an ending of the command, with this
    // line, or one that is a refusal.
    ensures works { (shelf : ShelfState) → MatchResult result
        (λ s. WorksAlone (SampleEnds (texts words.now)) (string_bytes s.lines) Statuses.Done shelf shelf)
        (λ status. Works (SampleEnds (texts words.now)) status shelf shelf) }
    // Each ending of the command has this status, unless memory was wanting.
    ensures answers { (given : Reading) (e : Ending) → SampleEnds (texts words.now) given e
        → (status_of result ≡ e.status) ⊎ (status_of result ≡ Statuses.Memory) }
{
    let pads = match read_words(words) {
        Ok(pads) => pads,
        Err(word) => return Err(Status::Usage { word }),
    };
    let plans = match plan_sample(alloc, pads) {
        Ok(plans) => plans,
        Err(status) => return Err(status),
    };
    let summary = summarize(pads, &plans);
    match summary_line(alloc, summary) {
        Ok(lines) => Ok(Sampling { lines }),
        Err(_) => Err(Status::Memory),
    }
}
