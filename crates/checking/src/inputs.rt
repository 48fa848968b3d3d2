// The files that `check` reads.
ghost use Rattle.std.specs.Prelude.{◌≡◌, ◌≤◌, [], Some, length, true, is_some, unwrap_or, IfOk};
ghost use Rattle.board_base.specs.Shelf.{OnlyReads};
ghost use Rattle.job_file.specs.Together.{GoTogether};
ghost use Rattle.endings.specs.Limits.{most_bytes};
ghost use Rattle.endings.specs.Reads.{input};
ghost use Rattle.endings.specs.Works.{Gives};
ghost use Rattle.checking.specs.Words.{check_words_of};
ghost use Rattle.checking.specs.Accepted.{layer_role as layer_role_of, layer_of, inputs_of, inputs_held};

use crate::words::CheckWords;
use board_base::{Name, Role, Shelf, Side};
use endings::{Status, read_input};
use job_file::Job;
use simulation::{Sources, read_sources};
use std::alloc::Global;

/// The bytes of the side's layer, and those of the program and of the probe's answers.
#[derive(Drop)]
pub struct Inputs {
    pub layer: Vec<u8>,
    pub sources: Sources,
}

/// The role of a side's layer.
pub fn layer_role(side: Side) -> Role
    ensures { result ≡ layer_role_of side }
{
    match side {
        Side::Front => Role::Front,
        Side::Back => Role::Back,
    }
}

// The bytes of the input of this role, which has a name.
fn read_named<S: Shelf>(
    alloc: Global,
    shelf: &mut S,
    role: Role,
    name: &Option<Name>,
) -> Result<Vec<u8>, Status>
    requires { is_some name.now ≡ true }
    ensures keeps { OnlyReads (S.state shelf.old) (S.state shelf.new) }
    ensures gives { Gives (λ v. v.items) (S.state shelf.old) (S.state shelf.new) (input role (unwrap_or name.now [])) result }
{
    match name {
        Some(name) => read_input(alloc, shelf, role, name.text()),
        None => unreachable!(),
    }
}

// The bytes of the side's layer.
fn read_layer<S: Shelf>(
    alloc: Global,
    shelf: &mut S,
    side: Side,
    job: &Job,
) -> Result<Vec<u8>, Status>
    requires { GoTogether (Some side) job.now }
    ensures keeps { OnlyReads (S.state shelf.old) (S.state shelf.new) }
    ensures gives { Gives (λ v. v.items) (S.state shelf.old) (S.state shelf.new) (input (layer_role_of side) (layer_of side job.now)) result }
{
    match side {
        Side::Front => read_named(alloc, shelf, Role::Front, &job.front),
        Side::Back => read_named(alloc, shelf, Role::Back, &job.back),
    }
}

/// The bytes of the side's layer, then those of the program, then those of the answers.
///
/// # Errors
///
/// `ReadFault` and `TooLong` with the file's role, `Memory`.
pub fn read_inputs<S: Shelf>(
    alloc: Global,
    shelf: &mut S,
    words: CheckWords<'_>,
    job: &Job,
) -> Result<Inputs, Status>
    requires { GoTogether (Some words.side) job.now }
    ensures keeps { OnlyReads (S.state shelf.old) (S.state shelf.new) }
    ensures gives { Gives inputs_held (S.state shelf.old) (S.state shelf.new) (inputs_of (check_words_of words.entry) job.now) result }
    ensures program { IfOk result (λ raw. length raw.sources.program.items ≤ most_bytes) }
    ensures probes { IfOk result (λ raw. length raw.sources.probes.items ≤ most_bytes) }
{
    let layer = match read_layer(alloc, shelf, words.side, job) {
        Ok(layer) => layer,
        Err(status) => return Err(status),
    };
    let sources = match read_sources(alloc, shelf, words.files) {
        Ok(sources) => sources,
        Err(status) => return Err(status),
    };
    Ok(Inputs { layer, sources })
}
