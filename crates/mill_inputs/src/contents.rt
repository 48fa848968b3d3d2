// What the files that a job names stand for.
ghost use Rattle.std.specs.Prelude.{◌≡◌, IfOk, IfSome};
ghost use Rattle.std.specs.Option.{option_map};
ghost use Rattle.excellon.specs.Fits.{IsDrilled};
ghost use Rattle.endings.specs.Answers.{MakesOf};
ghost use Rattle.mill_inputs.specs.Accepted.{accepts_of, inputs_held, refused_as, image, image_if, mirrored, drill_refused, drilled, drilled_if, contents_of};

use crate::acceptance::Accepted;
use crate::inputs::Inputs;
use endings::{DrillError, DrillKind, GerberError, GerberKind, LimitHit, Role, Status};
use excellon::DrillFile;
use job_file::Job;
use shape_parts::{Painted, mirror_x};
use std::alloc::{AllocError, Global};

// What a refusal of a Gerber file is to the command.
fn image_refusal(role: Role, error: GerberError) -> Status
    ensures { result ≡ refused_as role error.kind error.at }
{
    match error.kind {
        GerberKind::TooManyObjects => Status::Limit(LimitHit::Objects),
        GerberKind::TooManyVertices => Status::Limit(LimitHit::Vertices),
        GerberKind::Memory => Status::Memory,
        _ => Status::Gerber { role, error },
    }
}

/// The image of a file.
pub fn read_image(alloc: Global, role: Role, bytes: &[u8]) -> Result<Vec<Painted>, Status>
    ensures made { MakesOf (λ v. v.items) (image role bytes.now) result }
{
    match gerber_image::read_image(alloc, bytes) {
        Ok(painted) => Ok(painted),
        Err(error) => Err(image_refusal(role, error)),
    }
}

// The same, where there is a file.
fn read_image_if(
    alloc: Global,
    role: Role,
    bytes: &Option<Vec<u8>>,
) -> Result<Option<Vec<Painted>>, Status>
    ensures made { MakesOf (option_map (λ v. v.items)) (image_if role (option_map (λ v. v.items) bytes.now)) result }
{
    match bytes {
        Some(bytes) => Ok(Some(read_image(alloc, role, bytes)?)),
        None => Ok(None),
    }
}

// The image on the other side of the board, where there is one.
fn mirrored_image(
    alloc: Global,
    painted: &Option<Vec<Painted>>,
) -> Result<Option<Vec<Painted>>, AllocError>
    ensures { IfOk result (λ o. option_map (λ v. v.items) o ≡ option_map mirrored (option_map (λ v. v.items) painted.now)) }
{
    match painted {
        Some(painted) => Ok(Some(mirror_x(alloc, painted)?)),
        None => Ok(None),
    }
}

// What a refusal of the drill file is to the command.
fn drill_refusal(error: DrillError) -> Status
    ensures { result ≡ drill_refused error.kind error.at }
{
    match error.kind {
        DrillKind::TooMany => Status::Limit(LimitHit::Holes),
        DrillKind::Memory => Status::Memory,
        _ => Status::Drill(error),
    }
}

// What a drill file drills.
fn read_drill(alloc: Global, bytes: &[u8]) -> Result<DrillFile, Status>
    ensures made { MakesOf (λ file. file) (drilled bytes.now) result }
    ensures fits { IfOk result IsDrilled }
{
    match excellon::read_drill(alloc, bytes) {
        Ok(file) => Ok(file),
        Err(error) => Err(drill_refusal(error)),
    }
}

// The same, where there is one.
fn read_holes(alloc: Global, bytes: &Option<Vec<u8>>) -> Result<Option<DrillFile>, Status>
    ensures made { MakesOf (λ drill. drill) (drilled_if (option_map (λ v. v.items) bytes.now)) result }
    ensures fits { IfOk result (λ drill. IfSome drill IsDrilled) }
{
    match bytes {
        Some(bytes) => Ok(Some(read_drill(alloc, bytes)?)),
        None => Ok(None),
    }
}

/// What the files stand for: the front's image, then the back's, which is mirrored, then what the drill file drills, then
/// the outline's image.
#[tactic(auto, unfolding(crate::specs::Accepted::contents_of))]
pub fn read_contents(alloc: Global, job: Job, raw: &Inputs) -> Result<Accepted, Status>
    ensures made { MakesOf accepts_of (contents_of job (inputs_held raw.now)) result }
    ensures job { IfOk result (λ x. x.job ≡ job) }
    ensures drilled { IfOk result (λ x. IfSome x.drill IsDrilled) }
{
    let front = read_image_if(alloc, Role::Front, &raw.front)?;
    let back = read_image_if(alloc, Role::Back, &raw.back)?;
    let drill = read_holes(alloc, &raw.drill)?;
    let outline = read_image_if(alloc, Role::Outline, &raw.outline)?;
    match mirrored_image(alloc, &back) {
        Ok(back) => Ok(Accepted {
            job,
            front,
            back,
            drill,
            outline,
        }),
        Err(_) => Err(Status::Memory),
    }
}
