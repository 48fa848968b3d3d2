// The command `sample`.
ghost use Rattle.board_base.specs.Shelf.{ShelfState};
ghost use Rattle.endings.specs.Answers.{IfTold};
ghost use Rattle.endings.specs.Run.{Leaves, Answers, HasCause, Tells};
ghost use Rattle.job_file.specs.Reading.{texts};
ghost use Rattle.endings.specs.Words.{IsExactUsage};
ghost use Rattle.sampling.specs.Words.{words_of};
ghost use Rattle.sampling.specs.Sampled.{SampleEnds};

use board_base::Sink;
use endings::{Status, tell, tell_lines};
use sampling::sample;
use std::alloc::Global;

/// Carries out `sample`. No shelf is asked for anything, so each clause holds of any shelf as it stands.
pub fn run_sample<K: Sink>(alloc: Global, words: &Vec<String>, out: &mut K) -> Status
    ensures leaves { (shelf : ShelfState) → Leaves (SampleEnds (texts words.now)) result shelf shelf }
    ensures lines { (shelf : ShelfState) → Tells (SampleEnds (texts words.now)) result shelf shelf (K.state out.old) (K.state out.new) }
    ensures usage { IsExactUsage (words_of (texts words.now)) result }
    ensures cause { (shelf : ShelfState) → HasCause (SampleEnds (texts words.now)) result shelf shelf (K.state out.old) (K.state out.new) }
    ensures answers { (shelf : ShelfState) → IfTold shelf.files (λ files.
        Answers (SampleEnds (texts words.now)) files result shelf shelf (K.state out.old) (K.state out.new)) }
{
    match sample(alloc, words) {
        Ok(sampling) => tell_lines(alloc, sampling.lines.as_bytes(), Status::Done, out),
        Err(status) => tell(alloc, status, out),
    }
}
