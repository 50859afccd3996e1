// As many threads as there are jobs.
ghost use Rattle.std.specs.Prelude.{IfOk};
ghost use Rattle.std.specs.List.{AllZip};
ghost use Rattle.lock_counter.specs.Jobs.{IsReady, IsDone};

use crate::thread::{Done, Job, run};
use std::sync::Wait;
use std::thread::{Threads, map_vec};
use wave_base::OutOfMemory;

/// A job that is ready.
#[derive(Drop)]
pub struct Turn<'l, 'p> {
    /// The job.
    pub job: Job<'l, 'p>,
    ghost ready: { IsReady job },
}

/// Each job in a thread of its own.
pub fn run_all<'l, 'p, R: Threads + Wait + Sync>(
    rt: &R,
    turns: Vec<Turn<'l, 'p>>,
) -> Result<Vec<Done<'p>>, OutOfMemory>
    ensures { IfOk result (λ v. AllZip (λ turn done. IsDone turn.job done) turns.entry.items v.items) }
{
    Ok(map_vec(
        rt,
        turns,
        &|turn: Turn| -> Done
            ensures { IsDone turn.entry.job result }
        { run(rt, turn.job) },
    )?)
}
