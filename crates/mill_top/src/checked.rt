// The command `check`.
ghost use Rattle.endings.specs.Answers.{IfTold};
ghost use Rattle.endings.specs.Run.{Leaves, Answers, HasCause, Tells};
ghost use Rattle.job_file.specs.Reading.{texts};
ghost use Rattle.endings.specs.Words.{IsExactUsage};
ghost use Rattle.checking.specs.Words.{words_of};
ghost use Rattle.checking.specs.Checked.{CheckEnds};

use board_base::{Shelf, Sink};
use checking::check;
use endings::{Status, tell, tell_lines};
use std::alloc::Global;

/// Carries out `check`.
pub fn run_check<S: Shelf, K: Sink>(
    alloc: Global,
    words: &Vec<String>,
    shelf: &mut S,
    out: &mut K,
) -> Status
    ensures leaves { Leaves (CheckEnds (texts words.now)) result (S.state shelf.old) (S.state shelf.new) }
    ensures lines { Tells (CheckEnds (texts words.now)) result (S.state shelf.old) (S.state shelf.new) (K.state out.old) (K.state out.new) }
    ensures usage { IsExactUsage (words_of (texts words.now)) result }
    ensures cause { HasCause (CheckEnds (texts words.now)) result (S.state shelf.old) (S.state shelf.new) (K.state out.old) (K.state out.new) }
    ensures answers { IfTold (S.state shelf.old).files (λ files. Answers (CheckEnds (texts words.now)) files result
        (S.state shelf.old) (S.state shelf.new) (K.state out.old) (K.state out.new)) }
{
    match check(alloc, words, shelf) {
        Ok(passed) => tell_lines(alloc, passed.lines.as_bytes(), Status::Done, out),
        Err(status) => tell(alloc, status, out),
    }
}
