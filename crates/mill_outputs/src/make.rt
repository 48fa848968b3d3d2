// The files that `mill` makes, before any of them is written.
ghost use Rattle.std.specs.Prelude.{◌≡◌, ◌⊎◌, ◌++◌, [], ◌∷◌, None, Err, Result, IfOk, IfSome, OnOk, IsErrOf, string_bytes};
ghost use Rattle.grid_writer.specs.Conditions.{IsWritable};
ghost use Rattle.excellon.specs.Fits.{IsDrilled};
ghost use Rattle.drill_plan.specs.Limits.{IsWithinLimits};
ghost use Rattle.job_file.specs.Ranges.{IsInRanges};
ghost use Rattle.job_file.specs.Together.{GoTogether};
ghost use Rattle.endings.specs.Outputs.{outputs_of};
ghost use Rattle.endings.specs.declared.status.Status.{Status};
ghost use Rattle.endings.specs.declared.status.Status.TheVariants as Statuses;
ghost use Rattle.mill_inputs.specs.Accepted.{accepts_of, IsNamed, IsDrillOf};
ghost use Rattle.mill_outputs.specs.Written.{Made, AreMade, AreValid};
ghost use Rattle.mill_outputs.specs.Mill.{named, program_file, files_of, AreFilesOf};

use crate::laws::one_of_each_law;
use crate::planned::make_plans;
use crate::programs::make_programs;
use crate::report::report;
use crate::{Plans, Programs};
use board_base::{Name, Role};
use drill_plan::{few_diameters_law, limits_law};
use endings::{OutFile, Status};
use grid_writer::write_over;
use job_file::Job;
use mill_inputs::Accepted;
use mill_program::Program;
use side_levels::{lattice_law, probed_law};
use side_runs::apart_law;
use side_surfaces::levelled_sides_law;
use std::alloc::{AllocError, Global};
use tiling::{one_tile_law, shifts_law, tile_value_law, tiled_program_law};

// The name of a file: behind the job's base name and an underscore, where there is one.
fn full_name(alloc: Global, base: &Option<Name>, name: &str) -> Result<String, AllocError>
    ensures { IfOk result (λ text. string_bytes text ≡ named base.now name.now) }
{
    match base {
        Some(base) => {
            let base = base.text();
            Ok(format!(in alloc; "{base}_{name}")?)
        }
        None => Ok(String::from_str(alloc, name)?),
    }
}

// Adds a file.
fn add_file(
    alloc: Global,
    files: &mut Vec<OutFile>,
    base: &Option<Name>,
    role: Role,
    name: &str,
    bytes: Vec<u8>,
) -> Result<(), AllocError>
    ensures { OnOk result (outputs_of files.new.items
        ≡ outputs_of files.old.items ++ record { role = role; name = named base.now name.now; bytes = bytes.items } ∷ []) }
{
    let name = full_name(alloc, base, name)?;
    files.push(OutFile { role, name, bytes })?;
    Ok(())
}

// Adds the text of a program, where there is one.
fn add_program(
    alloc: Global,
    files: &mut Vec<OutFile>,
    base: &Option<Name>,
    role: Role,
    name: &str,
    program: &Option<Program>,
) -> Result<(), AllocError>
    requires { IfSome program.now IsWritable }
    ensures { OnOk result (outputs_of files.new.items ≡ outputs_of files.old.items ++ program_file base.now role name.now program.now) }
{
    match program {
        Some(program) => {
            let bytes = write_over(alloc, program)?;
            add_file(alloc, files, base, role, name, bytes)
        }
        None => Ok(()),
    }
}

// The files of what was made: the programs, and then the report.
#[tactic(auto, unfolding(crate::specs::Mill::files_of))]
fn made_files(
    alloc: Global,
    job: &Job,
    plans: &Plans,
    programs: &Programs,
) -> Result<Vec<OutFile>, AllocError>
    requires drill { IfSome (plans.now).drill IsWithinLimits }
    requires valid { AreValid programs.now }
    ensures { IfOk result (λ files. outputs_of files.items ≡ files_of job.now (record { plans = plans.now; programs = programs.now })) }
{
    let base = &job.basename;
    let report = report(alloc, plans)?;
    let mut files = Vec::with_capacity(alloc, 5)?;
    add_program(
        alloc,
        &mut files,
        base,
        Role::Front,
        "front.ngc",
        &programs.front,
    )?;
    add_program(
        alloc,
        &mut files,
        base,
        Role::Back,
        "back.ngc",
        &programs.back,
    )?;
    add_program(
        alloc,
        &mut files,
        base,
        Role::Drill,
        "drill.ngc",
        &programs.drill,
    )?;
    add_program(
        alloc,
        &mut files,
        base,
        Role::Outline,
        "outline.ngc",
        &programs.outline,
    )?;
    add_file(alloc, &mut files, base, Role::Report, "report.txt", report)?;
    Ok(files)
}

/// Plans what was accepted, levels the program of the front where the job asks for it, puts the programs of the sides, of
/// the holes and of the outline into the tiles of the job, and makes their texts and the report.
///
/// # Errors
///
/// `Limit` where a side passes a limit, the front before the back, then `Outline`, then `Limit` where the outline passes
/// one, then `Limit` where there are too many probes, then where a tile is past the range, and `Memory`.
pub fn make_files(alloc: Global, accepted: &Accepted) -> Result<Vec<OutFile>, Status>
    requires named { IsNamed (accepts_of accepted.now) }
    requires ranges { IsInRanges (accepted.now).job }
    requires together { GoTogether None (accepted.now).job }
    requires drilled { IfSome (accepted.now).drill IsDrilled }
    requires stands { IsDrillOf (accepted.now).drill }
    ensures files { IfOk result (λ files. AreFilesOf (accepts_of accepted.now) (outputs_of files.items)) }
    ensures refused { (status : Status) → IsErrOf result status → (status ≡ Statuses.Memory) ⊎ AreMade (accepts_of accepted.now) (Err status) }
    ensures one_answer { (status : Status) (answer : Result Made Status) → IsErrOf result status → AreMade (accepts_of accepted.now) answer
        → (status ≡ Statuses.Memory) ⊎ (answer ≡ Err status) }
{
    few_diameters_law();
    limits_law();
    tile_value_law();
    shifts_law();
    apart_law();
    tiled_program_law();
    one_tile_law();
    levelled_sides_law();
    probed_law();
    lattice_law();
    one_of_each_law();
    let plans = match make_plans(alloc, accepted) {
        Ok(plans) => plans,
        Err(status) => return Err(status),
    };
    let programs = match make_programs(alloc, &accepted.job, &plans) {
        Ok(programs) => programs,
        Err(status) => return Err(status),
    };
    match made_files(alloc, &accepted.job, &plans, &programs) {
        Ok(files) => Ok(files),
        Err(_) => Err(Status::Memory),
    }
}
