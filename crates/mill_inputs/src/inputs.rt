// The files that `mill` reads.
ghost use Rattle.std.specs.Option.{option_map, option_copied};
ghost use Rattle.board_base.specs.Shelf.{OnlyReads};
ghost use Rattle.endings.specs.Works.{Gives};
ghost use Rattle.mill_inputs.specs.Accepted.{job_bytes, input_if, inputs_of, inputs_held};

use board_base::{Name, Role, Shelf};
use endings::{Status, read_input};
use job_file::Job;
use std::alloc::Global;

/// The bytes of the files that a job names.
#[derive(Drop)]
pub struct Inputs {
    pub front: Option<Vec<u8>>,
    pub back: Option<Vec<u8>>,
    pub drill: Option<Vec<u8>>,
    pub outline: Option<Vec<u8>>,
}

/// The bytes of the job's file, or none where there is no file.
pub fn read_job_text<S: Shelf>(
    alloc: Global,
    shelf: &mut S,
    place: Option<&str>,
) -> Result<Vec<u8>, Status>
    ensures keeps { OnlyReads (S.state shelf.old) (S.state shelf.new) }
    ensures gives { Gives (λ v. v.items) (S.state shelf.old) (S.state shelf.new) (job_bytes (option_copied place.entry)) result }
{
    match place {
        Some(name) => read_input(alloc, shelf, Role::Job, name),
        None => Ok(Vec::new(alloc)),
    }
}

// The bytes of the input of this role, where it has a name.
fn read_named<S: Shelf>(
    alloc: Global,
    shelf: &mut S,
    role: Role,
    name: &Option<Name>,
) -> Result<Option<Vec<u8>>, Status>
    ensures keeps { OnlyReads (S.state shelf.old) (S.state shelf.new) }
    ensures gives { Gives (option_map (λ v. v.items)) (S.state shelf.old) (S.state shelf.new) (input_if role name.now) result }
{
    match name {
        Some(name) => Ok(Some(read_input(alloc, shelf, role, name.text())?)),
        None => Ok(None),
    }
}

/// The bytes of the files that the job names: the front's, the back's, the drill file's, and the outline's.
pub fn read_inputs<S: Shelf>(alloc: Global, shelf: &mut S, job: &Job) -> Result<Inputs, Status>
    ensures keeps { OnlyReads (S.state shelf.old) (S.state shelf.new) }
    ensures gives { Gives inputs_held (S.state shelf.old) (S.state shelf.new) (inputs_of job.now) result }
{
    let front = read_named(alloc, shelf, Role::Front, &job.front)?;
    let back = read_named(alloc, shelf, Role::Back, &job.back)?;
    let drill = read_named(alloc, shelf, Role::Drill, &job.drill)?;
    let outline = read_named(alloc, shelf, Role::Outline, &job.outline)?;
    Ok(Inputs {
        front,
        back,
        drill,
        outline,
    })
}
