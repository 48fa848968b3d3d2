// The lines of a command.
ghost use Rattle.std.specs.Prelude.{◌≡◌, ◌⊎◌, ◌≤◌, ◌≢◌, IsErrOf, OnOk, OnErr};
ghost use Rattle.board_base.specs.Counts.{Rose};
ghost use Rattle.board_base.specs.Sink.{appended, AppendsPrefix};
ghost use Rattle.endings.specs.Lines.{line_of};
ghost use Rattle.endings.specs.Works.{Told, ToldBehind, Becomes, BecomesBehind, RefusalTold};

use crate::Status;
use crate::lines::line;
use board_base::{Role, Sink, SinkError};
use std::alloc::Global;

/// Puts the line of a status.
fn put_line<K: Sink>(alloc: Global, status: Status, out: &mut K) -> Result<(), SinkError>
    ensures faults { (K.state out.old).faults ≤ (K.state out.new).faults }
    ensures ok { OnOk result ((K.state out.new).text ≡ appended (line_of status) (K.state out.old).text) }
    ensures failed { IsErrOf result SinkError.Failed → Rose (K.state out.old).faults (K.state out.new).faults }
    ensures prefix { IsErrOf result SinkError.Failed
        → AppendsPrefix (line_of status) (K.state out.old).text (K.state out.new).text }
    ensures memory { IsErrOf result SinkError.Memory → (K.state out.new).text ≡ (K.state out.old).text }
{
    match line(alloc, status) {
        Ok(text) => out.put(text.as_bytes()),
        Err(_) => Err(SinkError::Memory),
    }
}

/// Puts the line of a refusal. Where that finds no memory, the status is Memory.
fn refuse<K: Sink>(alloc: Global, status: Status, out: &mut K) -> Status
    ensures status { (result ≡ status) ⊎ (result ≡ Status.Memory) }
    ensures faults { (K.state out.old).faults ≤ (K.state out.new).faults }
    ensures lines { RefusalTold status result (K.state out.old) (K.state out.new) }
{
    match put_line(alloc, status, out) {
        Ok(()) => status,
        Err(SinkError::Failed) => status,
        Err(SinkError::Memory) => Status::Memory,
    }
}

/// Puts the line of a status, and answers what the status then is.
pub fn tell<K: Sink>(alloc: Global, status: Status, out: &mut K) -> Status
    ensures status { Becomes status result (K.state out.old) (K.state out.new) }
    ensures told { Told status result (K.state out.old) (K.state out.new) }
{
    match status {
        Status::Done => match put_line(alloc, Status::Done, out) {
            Ok(()) => Status::Done,
            Err(SinkError::Failed) => refuse(alloc, Status::WriteFault { role: Role::Lines }, out),
            Err(SinkError::Memory) => refuse(alloc, Status::Memory, out),
        },
        _ => refuse(alloc, status, out),
    }
}

// Puts lines one by one, each with its end.
fn put_lines<K: Sink>(lines: &[u8], out: &mut K) -> Result<(), SinkError>
    ensures faults { (K.state out.old).faults ≤ (K.state out.new).faults }
    ensures ok { OnOk result ((K.state out.new).text ≡ appended lines.now (K.state out.old).text) }
    ensures failed { IsErrOf result SinkError.Failed → Rose (K.state out.old).faults (K.state out.new).faults }
    ensures prefix { OnErr result (AppendsPrefix lines.now (K.state out.old).text (K.state out.new).text) }
{
    let mut start = 0;
    for at in 0..lines.len() {
        if lines[at] == b'\n' {
            out.put(&lines[start..=at])?;
            start = at + 1;
        }
    }
    if start == lines.len() {
        return Ok(());
    }
    out.put(&lines[start..])
}

/// Puts the lines that a command made, one by one, and then that of its status, and answers what the status then is.
pub fn tell_lines<K: Sink>(alloc: Global, lines: &[u8], status: Status, out: &mut K) -> Status
    ensures status { BecomesBehind status result (K.state out.old) (K.state out.new) }
    ensures told { ToldBehind lines.now status result (K.state out.old) (K.state out.new) }
{
    let fault = Status::WriteFault { role: Role::Lines };
    match put_lines(lines, out) {
        Ok(()) => tell(alloc, status, out),
        Err(SinkError::Failed) => refuse(alloc, fault, out),
        Err(SinkError::Memory) => refuse(alloc, Status::Memory, out),
    }
}
