// The inputs of a command.
ghost use Rattle.std.specs.Prelude.{◌≡◌, ℕ, IsErrOf};
ghost use Rattle.board_base.specs.Shelf.{OnlyReads};
ghost use Rattle.endings.specs.Answers.{IsInput};

use crate::Status;
use board_base::{Role, Shelf, ShelfError};
use std::alloc::Global;

/// The most bytes of one input.
pub const MOST_BYTES: usize = 16_777_216;

/// The bytes of an input.
pub fn read_input<S: Shelf>(
    alloc: Global,
    shelf: &mut S,
    role: Role,
    name: &str,
) -> Result<Vec<u8>, Status>
    ensures keeps { OnlyReads (S.state shelf.old) (S.state shelf.new) }
    ensures not_usage { (word : ℕ) → IsErrOf result (Status.Usage word) → ⊥ }
    ensures gives { IsInput role name.now (S.state shelf.old) (S.state shelf.new) result }
{
    match shelf.read(alloc, name, MOST_BYTES) {
        Ok(bytes) => Ok(bytes),
        Err(ShelfError::Failed) => Err(Status::ReadFault { role }),
        Err(ShelfError::TooLong) => Err(Status::TooLong { role }),
        Err(ShelfError::Memory) => Err(Status::Memory),
    }
}
