// All that `check` reads before it looks at the program's moves.
ghost use Rattle.std.specs.Prelude.{◌≡◌, ◌<◌, ◌^◌, Some, vec_len, IfOk};
ghost use Rattle.std.specs.List.{All};
ghost use Rattle.board_base.specs.Shelf.{OnlyReads};
ghost use Rattle.rs274_sim.specs.Few.{HasFewSettings};
ghost use Rattle.job_file.specs.Reading.{texts};
ghost use Rattle.job_file.specs.Together.{GoTogether};
ghost use Rattle.mill_plan.specs.Job.{IsSideJob};
ghost use Rattle.endings.specs.Answers.{MakesOf};
ghost use Rattle.endings.specs.Words.{IsExactUsage};
ghost use Rattle.endings.specs.Works.{Gives, status_of};
ghost use Rattle.checking.specs.Words.{words_of};
ghost use Rattle.checking.specs.Accepted.{accepts_of, side_job_in, accepted};

use crate::contents::read_contents;
use crate::inputs::read_inputs;
use crate::words::read_words;
use board_base::{Shelf, Side};
use endings::Status;
use job_file::Job;
use mill_inputs::{job_refusal, read_job_text, usage};
use rs274_sim::Line;
use shape_parts::Painted;
use std::alloc::Global;

/// What the words and the files give: the job, the side and its image as it is milled, the bytes of the program and its
/// lines, and the probe's answers in nanometres.
#[derive(Drop)]
pub struct Accepted {
    pub job: Job,
    pub side: Side,
    pub painted: Vec<Painted>,
    pub program: Vec<u8>,
    pub lines: Vec<Line>,
    pub answers: Vec<i64>,
}

// The job that these bytes and the words give for a side.
fn read_job(alloc: Global, side: Side, bytes: &[u8], words: &Vec<String>) -> Result<Job, Status>
    ensures made { MakesOf (λ job. job) (side_job_in side bytes.now (texts words.now)) result }
    ensures job { IfOk result IsSideJob }
    ensures together { IfOk result (GoTogether (Some side)) }
{
    match job_file::read_job(alloc, bytes, words, Some(side)) {
        Ok(job) => Ok(job),
        Err(error) => Err(job_refusal(error)),
    }
}

/// Reads the words, the job, the side's layer, the program and its answers, and refuses by the first of them that is
/// wrong. Nothing is written.
///
/// # Errors
///
/// In this order: `Usage`; `ReadFault` and `TooLong` of the job's file; `Job`; `ReadFault` and `TooLong` of the layer, of the
/// program and of the answers; `Gerber`, or `Limit` where the layer has too many objects or vertices; `Ngc` of a line of the
/// program, and then of the answers. `Memory` may come at any step.
pub fn accept<S: Shelf>(
    alloc: Global,
    words: &Vec<String>,
    shelf: &mut S,
) -> Result<Accepted, Status>
    ensures keeps { OnlyReads (S.state shelf.old) (S.state shelf.new) }
    ensures gives { Gives accepts_of (S.state shelf.old) (S.state shelf.new) (accepted (texts words.now)) result }
    ensures usage { IsExactUsage (words_of (texts words.now)) (status_of result) }
    ensures job { IfOk result (λ x. IsSideJob x.job) }
    ensures settings { IfOk result (λ x. All HasFewSettings x.lines.items) }
    ensures few { IfOk result (λ x. vec_len x.lines < 2 ^ 32) }
{
    let given = match read_words(words) {
        Ok(given) => given,
        Err(number) => return Err(usage(number)),
    };
    let text = read_job_text(alloc, shelf, given.job)?;
    let job = read_job(alloc, given.side, &text, words)?;
    let raw = read_inputs(alloc, shelf, given, &job)?;
    read_contents(alloc, given.side, job, raw)
}
