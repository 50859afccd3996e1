// Turns under std's `Mutex`.
ghost use Rattle.std.specs.Prelude.{◌<◌};

use crate::tally::{Tally, share_of};
use std::alloc::Global;
use std::sync::{Mutex, Wait};
use std::thread::{Threads, map_vec};
use wave_base::OutOfMemory;

// What one thread has.
#[derive(Drop)]
struct Job<'l> {
    lock: &'l Mutex<Tally>,
    turns: u32,
}

fn take_turns<R: Wait>(rt: &R, job: Job) {
    for _ in 0..job.turns {
        job.lock.lock(rt).count();
    }
}

fn jobs<'l>(
    alloc: Global,
    lock: &'l Mutex<Tally>,
    turns: u32,
    threads: u8,
) -> Result<Vec<Job<'l>>, OutOfMemory>
    requires { 0 < threads }
{
    let mut jobs = Vec::new(alloc);
    for number in 0..threads {
        jobs.push(Job {
            lock,
            turns: share_of(turns, threads, number),
        })?;
    }
    Ok(jobs)
}

/// Takes the turns in so many threads, and gives what was counted.
pub fn count<R: Threads + Wait + Sync>(
    rt: &R,
    alloc: Global,
    turns: u32,
    threads: u8,
) -> Result<u64, OutOfMemory>
    requires { 0 < threads }
{
    let lock = Mutex::new(Tally::new());
    let jobs = jobs(alloc, &lock, turns, threads)?;
    map_vec(rt, jobs, &|job: Job| take_turns(rt, job))?;
    Ok(lock.into_inner().turns)
}
