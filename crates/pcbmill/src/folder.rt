// The files of the current folder. What a file holds isn't told.
ghost use Rattle.std.specs.Prelude.{◌≡◌, ◌+◌, ◌-◌, ◌≤◌, ◌^◌, min, IfOk, IsErrOf, None, vec_len};
ghost use Rattle.board_base.specs.Counts.{RoseBy};

use board_base::{Shelf, ShelfError};
use std::alloc::Global;
use std::fs;
use std::io::{Read, Write};
use std::rt::Files;

// Reads to the end, or past the limit, and counts the bytes that it takes. A read of nothing is the end.
fn take_all<R: Read>(
    alloc: Global,
    reader: &mut R,
    limit: usize,
    taken: &mut u64,
) -> Result<Vec<u8>, ShelfError>
    ensures within { IfOk result (λ bytes. vec_len bytes ≤ limit) }
    ensures counts { taken.old ≤ taken.new }
    ensures too_long { IsErrOf result ShelfError.TooLong → RoseBy (limit + 1) taken.old taken.new }
{
    let mut bytes = Vec::new(alloc);
    let mut buffer = [0u8; 4096];
    while bytes.len() <= limit {
        let Ok(count) = reader.read(&mut buffer) else {
            return Err(ShelfError::Failed);
        };
        if count == 0 {
            return Ok(bytes);
        }
        *taken = taken.saturating_add(count as u64);
        if bytes.extend_from_slice(&buffer[..count]).is_err() {
            return Err(ShelfError::Memory);
        }
    }
    Err(ShelfError::TooLong)
}

// Writes all the bytes, and answers whether all were taken. A write that takes nothing is a fault.
fn put_all<W: Write>(writer: &mut W, bytes: &[u8]) -> bool {
    let mut rest = bytes;
    while !rest.is_empty() {
        match writer.write(rest) {
            Ok(0) | Err(_) => return false,
            Ok(count) => rest = &rest[count..],
        }
    }
    true
}

/// The files of the current folder.
#[derive(Drop)]
pub struct FolderShelf<'a, R> {
    rt: &'a R,
    read_faults: u64,
    write_faults: u64,
    taken: u64,
    writes: u64,
}

impl<'a, R: Files> FolderShelf<'a, R> {
    /// A shelf that was never asked.
    pub fn new(rt: &'a R) -> Self
        ensures faults { result.read_faults + result.write_faults ≡ 0 }
        ensures counts { result.taken + result.writes ≡ 0 }
    {
        FolderShelf {
            rt,
            read_faults: 0,
            write_faults: 0,
            taken: 0,
            writes: 0,
        }
    }
}

impl<R: Files> Shelf for FolderShelf<'_, R> {
    ghost state = { λ s. record { files = None; read_faults = s.read_faults; write_faults = s.write_faults; taken = s.taken; writes = s.writes } };

    fn read(&mut self, alloc: Global, name: &str, limit: usize) -> Result<Vec<u8>, ShelfError> {
        let Ok(mut file) = fs::open(self.rt, name) else {
            self.read_faults = self.read_faults.saturating_add(1);
            return Err(ShelfError::Failed);
        };
        match take_all(alloc, &mut file, limit, &mut self.taken) {
            Ok(bytes) => Ok(bytes),
            Err(ShelfError::Failed) => {
                self.read_faults = self.read_faults.saturating_add(1);
                Err(ShelfError::Failed)
            }
            Err(error) => Err(error),
        }
    }

    fn write(&mut self, name: &str, bytes: &[u8]) -> Result<(), ShelfError> {
        self.writes = self.writes.saturating_add(1);
        let written = match fs::create(self.rt, name) {
            Ok(mut file) => put_all(&mut file, bytes),
            Err(_) => false,
        };
        if written {
            return Ok(());
        }
        self.write_faults = self.write_faults.saturating_add(1);
        Err(ShelfError::Failed)
    }
}

#[cfg(test)]
mod tests;
