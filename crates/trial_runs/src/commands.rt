// Commands that are carried out.
ghost use Rattle.std.specs.List.{All};
ghost use Rattle.move_watch.specs.Watch.{IsFresh};

use crate::boards::TWO_DISCS;
use board_base::{MemoryShelf, MemorySink};
use mill_top::{Status, run};
use move_watch::Watcher;
use std::alloc::{AllocError, Global};

/// The words of two discs: a coarse grid, a wide cutter, and a cut of 0.1 mm.
pub const WORDS: [&str; 7] = [
    "mill",
    "-",
    "--front=a.gbr",
    "--pitch=0.2",
    "--mill-diameters=0.4",
    "--tolerance=0.14",
    "--zwork=-0.1",
];

// The words as a command takes them.
fn texts(alloc: Global, words: &[&str]) -> Result<Vec<String>, AllocError> {
    let mut all = Vec::new(alloc);
    for word in words {
        all.push(String::from_str(alloc, word)?)?;
    }
    Ok(all)
}

/// The status of a command under watchers whose put with this number fails, and what the sink got.
pub fn watched_with_a_put_that_fails(
    alloc: Global,
    words: &[&str],
    shelf: &mut MemoryShelf,
    watchers: Vec<Box<dyn Watcher>>,
    put: u64,
) -> Result<(Status, Vec<u8>), AllocError>
    requires { All (λ w. IsFresh (watch w)) watchers.items }
{
    let words = texts(alloc, words)?;
    let mut sink = MemorySink::new(alloc);
    sink.fail_put(put);
    let status = run(alloc, &words, shelf, &mut sink, watchers);
    Ok((status, sink.bytes().to_vec(alloc)?))
}

/// The same where no put fails.
pub fn watched(
    alloc: Global,
    words: &[&str],
    shelf: &mut MemoryShelf,
    watchers: Vec<Box<dyn Watcher>>,
) -> Result<(Status, Vec<u8>), AllocError>
    requires { All (λ w. IsFresh (watch w)) watchers.items }
{
    watched_with_a_put_that_fails(alloc, words, shelf, watchers, 0)
}

/// The status of a command whose put with this number fails, and what the sink got.
pub fn with_a_put_that_fails(
    alloc: Global,
    words: &[&str],
    shelf: &mut MemoryShelf,
    put: u64,
) -> Result<(Status, Vec<u8>), AllocError> {
    watched_with_a_put_that_fails(alloc, words, shelf, Vec::new(alloc), put)
}

/// The status of a command, and what the sink got.
pub fn carried_out(
    alloc: Global,
    words: &[&str],
    shelf: &mut MemoryShelf,
) -> Result<(Status, Vec<u8>), AllocError> {
    with_a_put_that_fails(alloc, words, shelf, 0)
}

/// A shelf with a layer under the name a.gbr.
pub fn shelf_with(alloc: Global, layer: &[u8]) -> Result<MemoryShelf, AllocError> {
    let mut shelf = MemoryShelf::new(alloc);
    shelf.add("a.gbr", layer)?;
    Ok(shelf)
}

/// A shelf with the layer of two discs.
pub fn two_discs(alloc: Global) -> Result<MemoryShelf, AllocError> {
    shelf_with(alloc, TWO_DISCS)
}
