//! The program: the files of the current folder as the shelf, standard output as the sink, and the
//! words of the command line, and four watchers over programs that are simulated. What a command does stands in
//! `mill_top`; here is only the edge to the system, which tells nothing of what a file holds.
#![tactic(auto)]

mod arguments;
mod exit;
mod folder;
mod terminal;
mod watched;

use arguments::words;
use exit::ending;
use folder::FolderShelf;
use std::process::ExitCode;
use terminal::Terminal;
use watched::run_watched;

fn main(rt: HostRuntime) -> ExitCode {
    let alloc = rt.alloc();
    let mut out = Terminal::new(&rt);
    let words = match words(&rt, alloc) {
        Ok(words) => words,
        Err(error) => return ending(Err(error), &mut out),
    };
    let mut shelf = FolderShelf::new(&rt);
    let answer = run_watched(alloc, &words, &mut shelf, &mut out);
    ending(answer, &mut out)
}
