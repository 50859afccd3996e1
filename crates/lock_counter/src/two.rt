// Two threads and one counter.
ghost use Rattle.std.specs.Prelude.{◌≡◌, IfOk, replicate};
ghost use Rattle.kept_lock.specs.History.{entries_of};
ghost use Rattle.lock_counter.specs.Counters.{StandsFor, addition};
ghost use Rattle.lock_counter.specs.Jobs.{IsReady, IsDone};

use crate::counter::{Counter, Plan};
use crate::thread::{Done, Job, run};
use kept_lock::KeptLock;
use std::alloc::Global;
use std::sync::Wait;
use std::thread::{Threads, join};
use wave_base::OutOfMemory;

/// Each of two jobs in a thread of its own.
pub fn run_two<'l, 'p, R: Threads + Wait + Sync>(
    rt: &R,
    one: Job<'l, 'p>,
    other: Job<'l, 'p>,
) -> (Done<'p>, Done<'p>)
    requires one { IsReady one }
    requires other { IsReady other }
    ensures one { IsDone one.entry result.0 }
    ensures other { IsDone other.entry result.1 }
{
    join(
        rt,
        move ||
            requires { IsReady one }
            ensures { IsDone one.entry result }
        { run(rt, one) },
        move ||
            requires { IsReady other }
            ensures { IsDone other.entry result }
        { run(rt, other) },
    )
}

/// Two threads add, each so often. In the history that they leave each one's own entries, and no others, are of its number.
pub fn add_by_two<'p, R: Threads + Wait + Sync>(
    rt: &R,
    alloc: Global,
    plan: &'p Plan,
    amounts: (u64, u64),
    times: u64,
) -> Result<Counter<'p>, OutOfMemory>
    ensures stands { IfOk result (λ c. StandsFor c plan.entry) }
    ensures first { IfOk result (λ c. entries_of (λ e. e.by) 0 c.log.items ≡ replicate times (addition 0 amounts.0)) }
    ensures second { IfOk result (λ c. entries_of (λ e. e.by) 1 c.log.items ≡ replicate times (addition 1 amounts.1)) }
{
    let (lock, mut first) = match KeptLock::new(alloc, plan, Counter::new(alloc, plan)) {
        Ok(opened) => opened,
        Err((_, refused)) => return Err(refused),
    };
    let second = lock.split(&mut first);
    let one = Job {
        lock: &lock,
        pass: first,
        me: 0,
        amount: amounts.0,
        times,
    };
    let other = Job {
        lock: &lock,
        pass: second,
        me: 1,
        amount: amounts.1,
        times,
    };
    let ((first, one), (second, other)) = run_two(rt, one, other);
    let pass = lock.join(first, second);
    let counter = lock.close(rt, pass);
    one?;
    other?;
    Ok(counter)
}
