//! Threads that take turns under a lock: a kept lock, and std's `Mutex` beside it.
//!
//! The words are TURNS THREADS [RUNS]: so many turns in all, by so many threads.
//! Without RUNS it prints what each lock counted. With RUNS it prints a line for each run: the threads, and the nanoseconds of the kept lock and of the `Mutex`.
#![tactic(auto)]

ghost use Rattle.std.specs.Prelude.{◌<◌};

mod kept;
mod plain;
mod tally;

use std::alloc::Global;
use std::sync::Wait;
use std::thread::Threads;
use std::time::{Clock, Instant};
use std::{env, io};
use wave_base::OutOfMemory;

// A word of the command line, as a number.
fn number(word: Option<String>) -> Option<u32> {
    word?.as_str().parse::<u32>().ok()
}

// How the program ends where memory was refused.
fn no_memory(_refused: OutOfMemory) -> io::Error {
    io::Error::from(io::ErrorKind::OutOfMemory)
}

// Prints what each lock counted.
fn print_counts<R: Threads + Wait + Print + Sync>(
    rt: &R,
    alloc: Global,
    turns: u32,
    threads: u8,
) -> io::Result<()>
    requires { 0 < threads }
{
    let kept = kept::count(rt, alloc, turns, threads).map_err(no_memory)?;
    println!(rt; "kept lock: {threads} threads, {kept} turns")?;
    let plain = plain::count(rt, alloc, turns, threads).map_err(no_memory)?;
    println!(rt; "mutex: {threads} threads, {plain} turns")
}

// Prints how long each lock took, run by run.
fn print_times<R: Threads + Wait + Print + Clock + Sync>(
    rt: &R,
    alloc: Global,
    turns: u32,
    threads: u8,
    runs: u32,
) -> io::Result<()>
    requires { 0 < threads }
{
    for _ in 0..runs {
        let start = Instant::now(rt)?;
        kept::count(rt, alloc, turns, threads).map_err(no_memory)?;
        let kept = start.elapsed(rt)?.as_nanos();
        let start = Instant::now(rt)?;
        plain::count(rt, alloc, turns, threads).map_err(no_memory)?;
        let plain = start.elapsed(rt)?.as_nanos();
        println!(rt; "{threads} {kept} {plain}")?;
    }
    Ok(())
}

fn main(rt: HostRuntime) -> io::Result<()> {
    let mut words = env::args(&rt)?;
    words.next();
    let turns = number(words.next());
    let threads = number(words.next()).and_then(|n| u8::try_from(n).ok());
    let (Some(turns), Some(threads)) = (turns, threads) else {
        return println!(rt; "words: TURNS THREADS [RUNS]");
    };
    if threads == 0 {
        return println!(rt; "at least one thread");
    }
    match number(words.next()) {
        None => print_counts(&rt, rt.alloc(), turns, threads),
        Some(runs) => print_times(&rt, rt.alloc(), turns, threads, runs),
    }
}
