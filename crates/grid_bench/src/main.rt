//! Times the public calls over the cells of a grid: `grid_bench time` prints for each call the
//! nanoseconds of processor time a cell. With no word it does nothing. A further call is a variant of
//! `Call` in calls.rt, with its name and its body.
#![tactic(auto)]

ghost use Rattle.std.specs.Prelude.{IfOk};
ghost use Rattle.cell_grid.specs.Grid.{HasRows};

mod borders;
mod calls;
mod pattern;
mod pour;

use calls::{CALLS, Call};
use cell_grid::Workbench;
use copper_cover::{cover, plain_cover};
use shape_parts::Painted;
use std::alloc::{AllocError, Global};
use std::io;
use std::rt::Env;
use std::time::CpuClock;

// The least of so many runs counts.
const RUNS: u32 = 5;

// What a grid takes for a cell, in bytes: its planes, its label, its clearance, its working label and its
// place in the queue.
const BYTES: u32 = 1 + 2 + 4 + 4 + 4;

// Whether the one word of the command line asks for times.
fn asks_for_times<R: Env>(rt: &R) -> bool {
    let mut word = [0; 8];
    match rt.arg(1, &mut word) {
        Ok(count) => &word[..count] == b"time".as_slice(),
        Err(_) => false,
    }
}

// The least time of some runs of a call over the whole grid, in nanoseconds, and what the last run gave.
fn least_time<R: CpuClock>(
    rt: &R,
    alloc: Global,
    call: Call,
    bench: &mut Workbench,
) -> io::Result<(u128, u64)> {
    let mut least = u128::MAX;
    let mut sum = 0;
    for _ in 0..RUNS {
        let start = rt.thread_cpu_time()?;
        sum = call.run(alloc, bench);
        let time = rt.thread_cpu_time()?.saturating_sub(start);
        least = least.min(time.as_nanos());
    }
    Ok((least, sum))
}

// A new grid over the frame of the pattern.
fn new_grid(alloc: Global) -> io::Result<Workbench>
    ensures { IfOk result HasRows }
{
    match Workbench::reserve(alloc, pattern::square()) {
        Ok(bench) => Ok(bench),
        Err(_) => Err(io::Error::from(io::ErrorKind::OutOfMemory)),
    }
}

// The least time of some covers of a new grid, in nanoseconds, by rows or cell by cell, and how many cells are kept.
fn cover_time<R: CpuClock>(
    rt: &R,
    alloc: Global,
    painted: &Vec<Painted>,
    by_rows: bool,
) -> io::Result<(u128, u64)> {
    let mut least = u128::MAX;
    let mut count = 0;
    for _ in 0..RUNS {
        let mut bench = new_grid(alloc)?;
        if pattern::is_timed_frame(bench.frame()) {
            let start = rt.thread_cpu_time()?;
            if by_rows {
                cover(&mut bench, painted);
            } else {
                plain_cover(&mut bench, painted);
            }
            let time = rt.thread_cpu_time()?.saturating_sub(start);
            least = least.min(time.as_nanos());
        }
        count = Call::Get.run(alloc, &mut bench);
    }
    Ok((least, count))
}

// Makes the cells of the pour the kept ones.
fn keep_pour(bench: &mut Workbench, pour: &Vec<Painted>)
    requires { HasRows bench.old }
{
    if pattern::is_timed_frame(bench.frame()) {
        cover(bench, pour);
    }
}

// A name and its time a cell.
fn line(alloc: Global, name: &str, (nanoseconds, sum): (u128, u64)) -> Result<String, AllocError> {
    let hundredths = nanoseconds / (pattern::CELLS / 100);
    let (whole, rest) = (hundredths / 100, hundredths % 100);
    Ok(format!(in alloc; "{name:16} {whole}.{rest:02} ns a cell, sum {sum}")?)
}

fn main(rt: HostRuntime) -> io::Result<()> {
    if !asks_for_times(&rt) {
        return Ok(());
    }
    let alloc = rt.alloc();
    println!(rt; "{BYTES} bytes a cell")?;
    let Ok(discs) = pattern::discs(alloc) else {
        return Err(io::Error::from(io::ErrorKind::OutOfMemory));
    };
    let text = line(alloc, "plain cover", cover_time(&rt, alloc, &discs, false)?)?;
    println!(rt; "{text}")?;
    let text = line(alloc, "cover discs", cover_time(&rt, alloc, &discs, true)?)?;
    println!(rt; "{text}")?;
    let Ok(pour) = pour::pour(alloc) else {
        return Err(io::Error::from(io::ErrorKind::OutOfMemory));
    };
    let text = line(alloc, "cover pour", cover_time(&rt, alloc, &pour, true)?)?;
    println!(rt; "{text}")?;
    println!(rt; "over the discs:")?;
    let mut bench = new_grid(alloc)?;
    pattern::keep_discs(&mut bench);
    for call in CALLS {
        let text = line(
            alloc,
            call.name(),
            least_time(&rt, alloc, call, &mut bench)?,
        )?;
        println!(rt; "{text}")?;
    }
    println!(rt; "over the pour:")?;
    let mut bench = new_grid(alloc)?;
    keep_pour(&mut bench, &pour);
    for call in CALLS {
        let text = line(
            alloc,
            call.name(),
            least_time(&rt, alloc, call, &mut bench)?,
        )?;
        println!(rt; "{text}")?;
    }
    Ok(())
}
