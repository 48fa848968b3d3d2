// The writing of what a command made.
ghost use Rattle.std.specs.Prelude.{◌≡◌, ◌≤◌, MatchResult};
ghost use Rattle.endings.specs.Outputs.{outputs_of, all_stored, Stops};

use crate::Status;
use crate::out_file::OutFile;
use board_base::{Shelf, ShelfError};

/// Writes the files in their order.
pub fn deliver<S: Shelf>(shelf: &mut S, files: &[OutFile]) -> Result<(), Status>
    ensures outcome { MatchResult result
        (λ _. (S.state shelf.new).files ≡ all_stored (outputs_of files.now) (S.state shelf.old).files)
        (λ status. Stops status (outputs_of files.now) (S.state shelf.old) (S.state shelf.new)) }
    ensures read_faults { (S.state shelf.new).read_faults ≡ (S.state shelf.old).read_faults }
    ensures taken { (S.state shelf.old).taken ≤ (S.state shelf.new).taken }
    ensures write_faults { (S.state shelf.old).write_faults ≤ (S.state shelf.new).write_faults }
    ensures writes { (S.state shelf.old).writes ≤ (S.state shelf.new).writes }
{
    for file in files {
        match shelf.write(file.name.as_str(), &file.bytes) {
            Ok(()) => {}
            Err(ShelfError::Memory) => return Err(Status::Memory),
            Err(ShelfError::Failed) => return Err(Status::WriteFault { role: file.role }),
            Err(ShelfError::TooLong) => unreachable!(),
        }
    }
    Ok(())
}
