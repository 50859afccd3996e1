// Turns under a kept lock.
ghost use Rattle.std.specs.Prelude.{◌≡◌, ◌<◌};
ghost use Rattle.kept_lock.specs.Locks.{knowledge, IsPassOf};

use crate::tally::{Tally, share_of};
use kept_lock::{KeptLock, Pass};
use std::alloc::Global;
use std::sync::Wait;
use std::thread::{Threads, map_vec};
use wave_base::OutOfMemory;

// What one thread has.
#[derive(Drop)]
struct Job<'l> {
    lock: &'l KeptLock<Tally>,
    pass: Pass<Tally>,
    turns: u32,
    ghost own: { IsPassOf lock.now pass },
}

// Takes the turns of a job, and tells how many it took.
fn take_turns<R: Wait>(rt: &R, job: Job) -> u32
    ensures { result ≡ job.entry.turns }
{
    let Job {
        lock,
        mut pass,
        turns,
    } = job;
    for _ in 0..turns {
        let mut guard = lock.enter(rt, &mut pass);
        guard.get_mut().count();
        guard.leave();
    }
    turns
}

// A job for each thread, with a pass that is split from the first one.
fn jobs<'l>(
    alloc: Global,
    lock: &'l KeptLock<Tally>,
    first: &mut Pass<Tally>,
    turns: u32,
    threads: u8,
) -> Result<Vec<Job<'l>>, OutOfMemory>
    requires pass { IsPassOf lock.now first.old × ((knowledge first.old).number ≡ 0) × ((knowledge first.old).passes ≡ 1) }
    requires some { 0 < threads }
    ensures pass { IsPassOf lock.now first.new }
{
    let mut jobs = Vec::new(alloc);
    for number in 0..threads {
        jobs.push(Job {
            lock,
            pass: lock.split(first),
            turns: share_of(turns, threads, number),
        })?;
    }
    Ok(jobs)
}

/// Takes the turns in so many threads, and gives what was counted.
pub fn count<R: Threads + Wait + Sync>(
    rt: &R,
    alloc: Global,
    turns: u32,
    threads: u8,
) -> Result<u64, OutOfMemory>
    requires { 0 < threads }
{
    let (lock, mut first) = match KeptLock::new(alloc, (), Tally::new()) {
        Ok(opened) => opened,
        Err((_, refused)) => return Err(refused),
    };
    let jobs = jobs(alloc, &lock, &mut first, turns, threads)?;
    map_vec(
        rt,
        jobs,
        &|job: Job| -> u32
            ensures { result ≡ job.entry.turns }
        { take_turns(rt, job) },
    )?;
    Ok(lock.close(rt, first).turns)
}
