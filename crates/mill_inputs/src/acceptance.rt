// All that `mill` reads before it makes anything.
ghost use Rattle.std.specs.Prelude.{◌≡◌, ◌⊎◌, IfOk, IfSome, None};
ghost use Rattle.board_base.specs.Shelf.{OnlyReads};
ghost use Rattle.excellon.specs.Fits.{IsDrilled};
ghost use Rattle.job_file.specs.Ranges.{IsInRanges};
ghost use Rattle.job_file.specs.Together.{GoTogether};
ghost use Rattle.endings.specs.Answers.{MakesOf};
ghost use Rattle.endings.specs.Works.{Gives, status_of};
ghost use Rattle.job_file.specs.Reading.{texts};
ghost use Rattle.endings.specs.Words.{IsExactUsage};
ghost use Rattle.mill_inputs.specs.Words.{words_of};
ghost use Rattle.mill_inputs.specs.Accepted.{accepts_of, accepted, job_refused, job_in, IsNamed, IsDrillOf};

use crate::contents::read_contents;
use crate::inputs::{read_inputs, read_job_text};
use crate::words::read_words;
use board_base::Shelf;
use endings::{JobError, JobKind, Status};
use excellon::DrillFile;
use job_file::Job;
use shape_parts::Painted;
use std::alloc::Global;

/// What the words and the files give: the job, the images of the sides that it names, the back's as it is seen from
/// above, what its drill file drills, and the image of its outline.
#[derive(Drop)]
pub struct Accepted {
    pub job: Job,
    pub front: Option<Vec<Painted>>,
    pub back: Option<Vec<Painted>>,
    pub drill: Option<DrillFile>,
    pub outline: Option<Vec<Painted>>,
}

/// What a word outside the grammar is to a command. A number past 4,294,967,295 is told by no status.
pub fn usage(number: usize) -> Status
    ensures { (result ≡ Status.Usage number) ⊎ (result ≡ Status.Memory) }
{
    match u32::try_from(number) {
        Ok(word) => Status::Usage { word },
        Err(_) => Status::Memory,
    }
}

/// What a refusal of a job is to a command.
pub fn job_refusal(error: JobError) -> Status
    ensures { result ≡ job_refused error.kind error }
{
    match error.kind {
        JobKind::Memory => Status::Memory,
        _ => Status::Job(error),
    }
}

// The job that these bytes and the words give.
fn read_job(alloc: Global, bytes: &[u8], words: &Vec<String>) -> Result<Job, Status>
    ensures made { MakesOf (λ job. job) (job_in bytes.now (texts words.now)) result }
    ensures ranges { IfOk result IsInRanges }
    ensures together { IfOk result (GoTogether None) }
{
    match job_file::read_job(alloc, bytes, words, None) {
        Ok(job) => Ok(job),
        Err(error) => Err(job_refusal(error)),
    }
}

/// Reads the words, the job and the files that it names, and refuses by the first of them that is wrong. Nothing is
/// written.
///
/// # Errors
///
/// `Usage`, `Job`, `Gerber`, `Drill`, `Limit` where a file has too many objects, vertices or holes, `TooLong`,
/// `ReadFault`, `Memory`.
pub fn accept<S: Shelf>(
    alloc: Global,
    words: &Vec<String>,
    shelf: &mut S,
) -> Result<Accepted, Status>
    ensures keeps { OnlyReads (S.state shelf.old) (S.state shelf.new) }
    ensures gives { Gives accepts_of (S.state shelf.old) (S.state shelf.new) (accepted (texts words.now)) result }
    ensures usage { IsExactUsage (words_of (texts words.now)) (status_of result) }
    ensures named { IfOk result (λ x. IsNamed (accepts_of x)) }
    ensures ranges { IfOk result (λ x. IsInRanges x.job) }
    ensures together { IfOk result (λ x. GoTogether None x.job) }
    ensures drilled { IfOk result (λ x. IfSome x.drill IsDrilled) }
    ensures stands { IfOk result (λ x. IsDrillOf x.drill) }
{
    let place = match read_words(words) {
        Ok(place) => place,
        Err(number) => return Err(usage(number)),
    };
    let text = read_job_text(alloc, shelf, place)?;
    let job = read_job(alloc, &text, words)?;
    let raw = read_inputs(alloc, shelf, &job)?;
    read_contents(alloc, job, &raw)
}
