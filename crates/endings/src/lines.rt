// The lines that the sink gets.
ghost use Rattle.std.specs.Prelude.{◌≡◌, IfOk, string_bytes, Some};
ghost use Rattle.mill_plan.specs.declared.limits.LimitHit.TheVariants as hits;
ghost use Rattle.endings.specs.Lines.{line_of, role_name, kind_name, macro_name, drill_name, outline_text as outline_text_of, job_name, job_text as job_text_of, ngc_name, sim_name, fault_name, limit_text as limit_text_of};

use crate::{GerberKind, NgcOrSim, Status};
use board_base::{Point, Role};
use excellon::{DrillError, DrillKind};
use job_file::{JobError, JobKind};
use macro_eval::MacroFault;
use mill_plan::LimitHit;
use ngc_reader::NgcKind;
use outline_loops::OutlineError;
use rs274_sim::SimFault;
use std::alloc::{AllocError, Global};

fn name_of(role: Role) -> &'static str
    ensures { result.now ≡ role_name role }
{
    match role {
        Role::Job => "job",
        Role::Front => "front",
        Role::Back => "back",
        Role::Drill => "drill",
        Role::Outline => "outline",
        Role::Ngc => "ngc",
        Role::Probes => "probes",
        Role::Report => "report",
        Role::Lines => "lines",
    }
}

// The name of a macro's fault.
fn name_of_fault(fault: MacroFault) -> &'static str
    ensures { result.now ≡ macro_name fault }
{
    match fault {
        MacroFault::BadExpression => "Macro BadExpression",
        MacroFault::ZeroDivisor => "Macro ZeroDivisor",
        MacroFault::Overflow => "Macro Overflow",
        MacroFault::UnknownPrimitive { .. } => "Macro UnknownPrimitive",
        MacroFault::TooDeep => "Macro TooDeep",
        MacroFault::Memory => "Macro Memory",
    }
}

fn name_of_kind(kind: GerberKind) -> &'static str
    ensures { result.now ≡ kind_name kind }
{
    match kind {
        GerberKind::Syntax => "Syntax",
        GerberKind::Unsupported => "Unsupported",
        GerberKind::NoFormat => "NoFormat",
        GerberKind::NoUnit => "NoUnit",
        GerberKind::NoAperture => "NoAperture",
        GerberKind::OpenRegion => "OpenRegion",
        GerberKind::OpenRepeat => "OpenRepeat",
        GerberKind::OpenArc => "OpenArc",
        GerberKind::Macro(fault) => name_of_fault(fault),
        GerberKind::OutOfRange => "OutOfRange",
        GerberKind::TooManyObjects => "TooManyObjects",
        GerberKind::TooManyVertices => "TooManyVertices",
        GerberKind::NoEnd => "NoEnd",
        GerberKind::Memory => "Memory",
    }
}

// The name of what is wrong with a drill file.
fn name_of_drill(kind: DrillKind) -> &'static str
    ensures { result.now ≡ drill_name kind }
{
    match kind {
        DrillKind::Syntax => "Syntax",
        DrillKind::Unsupported => "Unsupported",
        DrillKind::NoUnit => "NoUnit",
        DrillKind::NoTool => "NoTool",
        DrillKind::NoDiameter => "NoDiameter",
        DrillKind::OutOfRange => "OutOfRange",
        DrillKind::TooMany => "TooMany",
        DrillKind::NoEnd => "NoEnd",
        DrillKind::Memory => "Memory",
    }
}

// An open end of an outline, and how many lines meet there.
fn end_text(alloc: Global, at: Point, degree: u32) -> Result<String, AllocError>
    ensures { IfOk result (λ text. string_bytes text ≡ outline_text_of (OutlineError.OpenOutline at degree)) }
{
    let x = at.x;
    let y = at.y;
    Ok(format!(in alloc; "OpenOutline {x} {y} degree {degree}")?)
}

// What is wrong with an outline.
fn outline_text(alloc: Global, error: OutlineError) -> Result<String, AllocError>
    ensures { IfOk result (λ text. string_bytes text ≡ outline_text_of error) }
{
    match error {
        OutlineError::OpenOutline { at, degree } => end_text(alloc, at, degree),
        OutlineError::EmptyOutline => Ok(String::from_str(alloc, "EmptyOutline")?),
        OutlineError::TooManyPoints { .. } => Ok(String::from_str(alloc, "TooManyPoints")?),
        OutlineError::Memory => Ok(String::from_str(alloc, "Memory")?),
    }
}

// The name of what is wrong with a job.
fn name_of_job(kind: JobKind) -> &'static str
    ensures { result.now ≡ job_name kind }
{
    match kind {
        JobKind::UnknownKey => "UnknownKey",
        JobKind::TwiceGiven => "TwiceGiven",
        JobKind::BadValue => "BadValue",
        JobKind::Missing => "Missing",
        JobKind::OutOfRange => "OutOfRange",
        JobKind::TolerancePastCutter => "TolerancePastCutter",
        JobKind::PitchTooCoarse => "PitchTooCoarse",
        JobKind::Memory => "Memory",
    }
}

// What is wrong with a job, with the number of the key and the place.
#[tactic(auto, unfolding(crate::specs::Lines::job_text))]
fn job_text(alloc: Global, error: JobError) -> Result<String, AllocError>
    ensures { IfOk result (λ text. string_bytes text ≡ job_text_of error) }
{
    let kind = name_of_job(error.kind);
    let key = error.key;
    let place = error.place;
    Ok(format!(in alloc; "{kind} key {key} place {place}")?)
}

// The name of what is wrong with the text of a program.
fn name_of_ngc(kind: NgcKind) -> &'static str
    ensures { result.now ≡ ngc_name kind }
{
    match kind {
        NgcKind::LongLine => "LongLine",
        NgcKind::BadNumber => "BadNumber",
        NgcKind::BadExpression => "BadExpression",
        NgcKind::TooDeep => "TooDeep",
        NgcKind::OpenComment => "OpenComment",
        NgcKind::BadParameter => "BadParameter",
        NgcKind::BadByte => "BadByte",
        NgcKind::TooFine => "TooFine",
        NgcKind::Memory => "Memory",
    }
}

// The name of what stops the machine.
fn name_of_stop(fault: SimFault) -> &'static str
    ensures { result.now ≡ sim_name fault }
{
    match fault {
        SimFault::UnknownWord => "UnknownWord",
        SimFault::TwoWords => "TwoWords",
        SimFault::MissingWord => "MissingWord",
        SimFault::NoMotion => "NoMotion",
        SimFault::NoFeed => "NoFeed",
        SimFault::SpindleRange => "SpindleRange",
        SimFault::FinePosition => "FinePosition",
        SimFault::OutOfRange => "OutOfRange",
        SimFault::ProbeMissed { .. } => "ProbeMissed",
        SimFault::NoProbeAnswer { .. } => "NoProbeAnswer",
        SimFault::NoEnd => "NoEnd",
    }
}

// The name of either.
fn name_of_either(fault: NgcOrSim) -> &'static str
    ensures { result.now ≡ fault_name fault }
{
    match fault {
        NgcOrSim::Reader(kind) => name_of_ngc(kind),
        NgcOrSim::Machine(fault) => name_of_stop(fault),
    }
}

// A corner of a tile that is too far out.
fn tile_text(alloc: Global, x: i64, y: i64) -> Result<String, AllocError>
    ensures { IfOk result (λ text. string_bytes text ≡ limit_text_of (hits.Tile x y)) }
{
    Ok(format!(in alloc; "Tile {x} {y}")?)
}

// A limit and the quantity that passes it.
fn limit_text(alloc: Global, hit: LimitHit) -> Result<String, AllocError>
    ensures { IfOk result (λ text. string_bytes text ≡ limit_text_of hit) }
{
    match hit {
        LimitHit::Cells(cells) => Ok(format!(in alloc; "Cells {cells}")?),
        LimitHit::Side(side) => Ok(format!(in alloc; "Side {side}")?),
        LimitHit::Reach(value) => Ok(format!(in alloc; "Reach {value}")?),
        LimitHit::Islands => Ok(String::from_str(alloc, "Islands")?),
        LimitHit::Objects => Ok(String::from_str(alloc, "Objects")?),
        LimitHit::Vertices => Ok(String::from_str(alloc, "Vertices")?),
        LimitHit::Holes => Ok(String::from_str(alloc, "Holes")?),
        LimitHit::Probes(count) => Ok(format!(in alloc; "Probes {count}")?),
        LimitHit::Tile { x, y } => tile_text(alloc, x, y),
    }
}

// The line of a refusal of the drill file.
fn drill_line(alloc: Global, error: DrillError) -> Result<String, AllocError>
    ensures { IfOk result (λ text. string_bytes text ≡ line_of (Status.Drill error)) }
{
    let kind = name_of_drill(error.kind);
    let at = error.at;
    Ok(format!(in alloc; "pcbmill: drill: {kind} at {at}\n")?)
}

// The line of a refusal of the outline.
fn outline_line(alloc: Global, error: OutlineError) -> Result<String, AllocError>
    ensures { IfOk result (λ text. string_bytes text ≡ line_of (Status.Outline error)) }
{
    let text = outline_text(alloc, error)?;
    Ok(format!(in alloc; "pcbmill: outline: {text}\n")?)
}

// The line of a refusal of a program.
fn ngc_line(alloc: Global, role: Role, fault: NgcOrSim, line: u32) -> Result<String, AllocError>
    ensures { IfOk result (λ text. string_bytes text ≡ line_of (Status.Ngc role fault line)) }
{
    let place = name_of(role);
    let kind = name_of_either(fault);
    Ok(format!(in alloc; "pcbmill: {place}: {kind} line {line}\n")?)
}

// The line of a cell of copper that a program hits.
fn cell_line(alloc: Global, i: i32, j: i32, line: u32) -> Result<String, AllocError>
    ensures { IfOk result (λ text. string_bytes text ≡ line_of (Status.Cell i j line)) }
{
    Ok(format!(in alloc; "pcbmill: refused: cell {i} {j} line {line}\n")?)
}

// The line of an objection.
fn watch_line(alloc: Global, watcher: u32, at: u64) -> Result<String, AllocError>
    ensures { IfOk result (λ text. string_bytes text ≡ line_of (Status.Watch watcher at)) }
{
    Ok(format!(in alloc; "pcbmill: refused: watcher {watcher} move {at}\n")?)
}

/// The line of a status.
pub fn line(alloc: Global, status: Status) -> Result<String, AllocError>
    ensures { IfOk result (λ text. string_bytes text ≡ line_of status) }
{
    match status {
        Status::Done => Ok(String::from_str(alloc, "pcbmill: ok\n")?),
        Status::Usage { word } => Ok(format!(in alloc; "pcbmill: usage: word {word}\n")?),
        Status::Job(error) => {
            let text = job_text(alloc, error)?;
            Ok(format!(in alloc; "pcbmill: job: {text}\n")?)
        }
        Status::Gerber { role, error } => {
            let role = name_of(role);
            let kind = name_of_kind(error.kind);
            let at = error.at;
            Ok(format!(in alloc; "pcbmill: {role}: {kind} at {at}\n")?)
        }
        Status::Drill(error) => drill_line(alloc, error),
        Status::Outline(error) => outline_line(alloc, error),
        Status::TooLong { role } => {
            let role = name_of(role);
            Ok(format!(in alloc; "pcbmill: long {role}\n")?)
        }
        Status::Limit(hit) => {
            let text = limit_text(alloc, hit)?;
            Ok(format!(in alloc; "pcbmill: limit: {text}\n")?)
        }
        Status::ReadFault { role } => {
            let role = name_of(role);
            Ok(format!(in alloc; "pcbmill: read {role}\n")?)
        }
        Status::WriteFault { role } => {
            let role = name_of(role);
            Ok(format!(in alloc; "pcbmill: write {role}\n")?)
        }
        Status::Ngc { role, fault, line } => ngc_line(alloc, role, fault, line),
        Status::Watch { watcher, at } => watch_line(alloc, watcher, at),
        Status::Cell { i, j, line } => cell_line(alloc, i, j, line),
        Status::Memory => Ok(String::from_str(alloc, "pcbmill: memory\n")?),
    }
}
