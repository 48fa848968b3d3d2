// A shelf in memory that never fails.
ghost use Rattle.std.specs.Prelude.{◌≡◌, ◌⊎◌, ◌≤◌, Some, OnOk, OnErr, IfOk, IsErrOf, MatchResult, vec_len};
ghost use Rattle.std.specs.Option.{option_copied};
ghost use Rattle.std.specs.FinMap.{get, insert};
ghost use Rattle.board_base.specs.Counts.{Rose, count_with, next_count};
ghost use Rattle.board_base.specs.Files.{IsMissing, Holds, stored};
ghost use Rattle.board_base.specs.Shelf.{OnlyReads, OnlyWrites, IsTooLong};

use crate::memory::Kept;
use crate::{Shelf, ShelfError};
use std::alloc::{AllocError, Global};

/// A shelf in memory that never fails. It tells what it holds.
#[derive(Drop)]
pub struct SteadyShelf {
    kept: Kept,
    taken: u64,
    writes: u64,
}

impl SteadyShelf {
    ghost use Rattle.board_base.specs.Memory.{steady_files, steady_state, new_shelf};

    /// A shelf without files. It keeps the allocator, and takes no memory.
    pub fn new(alloc: Global) -> SteadyShelf
        ensures { steady_state result ≡ new_shelf }
    {
        SteadyShelf {
            kept: Kept::new(alloc),
            taken: 0,
            writes: 0,
        }
    }

    /// Puts bytes under a name, which counts as no write.
    pub fn add(&mut self, name: &str, bytes: &[u8]) -> Result<(), AllocError>
        ensures ok { OnOk result (steady_state self.new
            ≡ record (steady_state self.old) { files = Some (insert (steady_files self.old) name.now bytes.now) }) }
        ensures err { OnErr result (steady_state self.new ≡ steady_state self.old) }
    {
        self.kept.add(name, bytes)
    }

    /// The bytes under a name; `None` exactly where the name isn't held.
    pub fn get(&self, name: &str) -> Option<&[u8]>
        ensures { option_copied result ≡ get (steady_files self.now) name.now }
    {
        self.kept.get(name)
    }
}

impl Shelf for SteadyShelf {
    ghost use Rattle.board_base.specs.Memory.{steady_state};

    ghost state = { λ s. steady_state s };

    fn read(&mut self, alloc: Global, name: &str, limit: usize) -> Result<Vec<u8>, ShelfError>
        ensures keeps { OnlyReads (steady_state self.old) (steady_state self.new) }

        ensures bytes { IfOk result (λ bytes. Holds (steady_state self.old).files name.now bytes.items) }
        ensures within { IfOk result (λ bytes. vec_len bytes ≤ limit) }

        ensures failed { IsErrOf result ShelfError.Failed
            → Rose (steady_state self.old).read_faults (steady_state self.new).read_faults
            ⊎ IsMissing (steady_state self.old).files name.now }
        ensures missing { IsMissing (steady_state self.old).files name.now
            → IsErrOf result ShelfError.Failed ⊎ IsErrOf result ShelfError.Memory }
        ensures too_long { IsErrOf result ShelfError.TooLong
            → IsTooLong (steady_state self.old) (steady_state self.new) name.now limit }

        ensures taken { MatchResult result
            (λ bytes. (steady_state self.new).taken ≡ count_with (vec_len bytes) (steady_state self.old).taken)
            (λ _. (steady_state self.new).taken ≡ (steady_state self.old).taken) }
    {
        let Some(bytes) = self.kept.get(name) else {
            return Err(ShelfError::Failed);
        };
        if bytes.len() > limit {
            return Err(ShelfError::TooLong);
        }
        let Ok(copy) = bytes.to_vec(alloc) else {
            return Err(ShelfError::Memory);
        };
        self.taken = self.taken.saturating_add(copy.len() as u64);
        Ok(copy)
    }

    fn write(&mut self, name: &str, bytes: &[u8]) -> Result<(), ShelfError>
        ensures keeps { OnlyWrites name.now (steady_state self.old) (steady_state self.new) }
        ensures counted { Rose (steady_state self.old).writes (steady_state self.new).writes }
        ensures stored { OnOk result ((steady_state self.new).files ≡ stored name.now bytes.now (steady_state self.old).files) }
        ensures failed { IsErrOf result ShelfError.Failed
            → Rose (steady_state self.old).write_faults (steady_state self.new).write_faults }
        ensures not_too_long { IsErrOf result ShelfError.TooLong → ⊥ }

        ensures one_more { (steady_state self.new).writes ≡ next_count (steady_state self.old).writes }
        ensures taken { (steady_state self.new).taken ≡ (steady_state self.old).taken }
        ensures refused { OnErr result ((steady_state self.new).files ≡ (steady_state self.old).files) }
    {
        self.writes = self.writes.saturating_add(1);
        match self.kept.add(name, bytes) {
            Ok(()) => Ok(()),
            Err(_) => Err(ShelfError::Memory),
        }
    }
}
