// The command `mill`.
ghost use Rattle.endings.specs.Answers.{IfTold};
ghost use Rattle.endings.specs.Ending.{Ending};
ghost use Rattle.endings.specs.Reads.{held_in};
ghost use Rattle.endings.specs.Run.{Leaves, IsAnswer, Answers, HasCause, Tells};
ghost use Rattle.endings.specs.Works.{Works};
ghost use Rattle.job_file.specs.Reading.{texts};
ghost use Rattle.endings.specs.Words.{IsExactUsage};
ghost use Rattle.mill_inputs.specs.Words.{words_of};
ghost use Rattle.mill_outputs.specs.Mill.{Ends};

use board_base::{Shelf, Sink};
use endings::{Status, deliver, tell};
use mill_inputs::accept;
use mill_outputs::{make_files, one_of_each_law};
use std::alloc::Global;

// Carries out `mill`, but for its line.
fn mill<S: Shelf>(alloc: Global, words: &Vec<String>, shelf: &mut S) -> Status
    ensures usage { IsExactUsage (words_of (texts words.now)) result }
    ensures works { Works (Ends (texts words.now)) result (S.state shelf.old) (S.state shelf.new) }
    ensures answers { IfTold (S.state shelf.old).files (λ files. (e : Ending) → Ends (texts words.now) (held_in files) e
        → IsAnswer (Ends (texts words.now)) files e result (S.state shelf.old) (S.state shelf.new)) }
{
    one_of_each_law();
    let accepted = match accept(alloc, words, shelf) {
        Ok(accepted) => accepted,
        Err(status) => return status,
    };
    let files = match make_files(alloc, &accepted) {
        Ok(files) => files,
        Err(status) => return status,
    };
    match deliver(shelf, &files) {
        Ok(()) => Status::Done,
        Err(status) => status,
    }
}

/// Carries out `mill`.
pub fn run_mill<S: Shelf, K: Sink>(
    alloc: Global,
    words: &Vec<String>,
    shelf: &mut S,
    out: &mut K,
) -> Status
    ensures leaves { Leaves (Ends (texts words.now)) result (S.state shelf.old) (S.state shelf.new) }
    ensures lines { Tells (Ends (texts words.now)) result (S.state shelf.old) (S.state shelf.new) (K.state out.old) (K.state out.new) }
    ensures usage { IsExactUsage (words_of (texts words.now)) result }
    ensures cause { HasCause (Ends (texts words.now)) result (S.state shelf.old) (S.state shelf.new) (K.state out.old) (K.state out.new) }
    ensures answers { IfTold (S.state shelf.old).files (λ files. Answers (Ends (texts words.now)) files result
        (S.state shelf.old) (S.state shelf.new) (K.state out.old) (K.state out.new)) }
{
    let status = mill(alloc, words, shelf);
    tell(alloc, status, out)
}
