// What the files of `check` stand for.
ghost use Rattle.std.specs.Prelude.{◌≡◌, ◌≤◌, ◌<◌, ◌^◌, length, vec_len, IfOk};
ghost use Rattle.std.specs.List.{All};
ghost use Rattle.rs274_sim.specs.Few.{HasFewSettings};
ghost use Rattle.endings.specs.Answers.{MakesOf};
ghost use Rattle.endings.specs.Limits.{most_bytes};
ghost use Rattle.checking.specs.Accepted.{accepts_of, inputs_held, as_milled as as_milled_of, contents_of};

use crate::acceptance::Accepted;
use crate::inputs::{Inputs, layer_role};
use board_base::Side;
use endings::Status;
use job_file::Job;
use mill_inputs::read_image;
use shape_parts::{Painted, mirror_x};
use simulation::{Sources, read_answers, read_lines};
use std::alloc::{AllocError, Global};

// The image of a side as it is milled.
fn as_milled(alloc: Global, side: Side, painted: Vec<Painted>) -> Result<Vec<Painted>, AllocError>
    ensures { IfOk result (λ v. v.items ≡ as_milled_of side painted.items) }
{
    match side {
        Side::Front => Ok(painted),
        Side::Back => mirror_x(alloc, &painted),
    }
}

/// What the files stand for: the image of the layer, the back's mirrored, then the program's lines, then the answers.
#[tactic(auto, unfolding(crate::specs::Accepted::contents_of))]
pub fn read_contents(alloc: Global, side: Side, job: Job, raw: Inputs) -> Result<Accepted, Status>
    requires program { length raw.sources.program.items ≤ most_bytes }
    requires probes { length raw.sources.probes.items ≤ most_bytes }
    ensures made { MakesOf accepts_of (contents_of side job (inputs_held raw)) result }
    ensures job { IfOk result (λ x. x.job ≡ job) }
    ensures settings { IfOk result (λ x. All HasFewSettings x.lines.items) }
    ensures few { IfOk result (λ x. vec_len x.lines < 2 ^ 32) }
{
    let Inputs { layer, sources } = raw;
    let Sources { program, probes } = sources;
    let painted = read_image(alloc, layer_role(side), &layer)?;
    let lines = read_lines(alloc, &program)?;
    let answers = read_answers(alloc, &probes)?;
    match as_milled(alloc, side, painted) {
        Ok(painted) => Ok(Accepted {
            job,
            side,
            painted,
            program,
            lines,
            answers,
        }),
        Err(_) => Err(Status::Memory),
    }
}
