// Four threads and one counter.
ghost use Rattle.std.specs.Prelude.{◌≡◌, IfOk, replicate};
ghost use Rattle.kept_lock.specs.History.{entries_of};
ghost use Rattle.lock_counter.specs.Counters.{StandsFor, addition};
ghost use Rattle.lock_counter.specs.Jobs.{IsReady, IsDone};

use crate::counter::{Counter, Plan};
use crate::thread::{Done, Job};
use crate::two::run_two;
use kept_lock::KeptLock;
use std::alloc::Global;
use std::sync::Wait;
use std::thread::{Threads, join};
use wave_base::OutOfMemory;

type Pair<'p> = (Done<'p>, Done<'p>);

/// Each of four jobs in a thread of its own.
pub fn run_four<'l, 'p, R: Threads + Wait + Sync>(
    rt: &R,
    one: Job<'l, 'p>,
    two: Job<'l, 'p>,
    three: Job<'l, 'p>,
    four: Job<'l, 'p>,
) -> (Pair<'p>, Pair<'p>)
    requires one { IsReady one }
    requires two { IsReady two }
    requires three { IsReady three }
    requires four { IsReady four }
    ensures one { IsDone one.entry result.0.0 }
    ensures two { IsDone two.entry result.0.1 }
    ensures three { IsDone three.entry result.1.0 }
    ensures four { IsDone four.entry result.1.1 }
{
    join(
        rt,
        move ||
            requires { IsReady one × IsReady two }
            ensures { IsDone one.entry result.0 × IsDone two.entry result.1 }
        { run_two(rt, one, two) },
        move ||
            requires { IsReady three × IsReady four }
            ensures { IsDone three.entry result.0 × IsDone four.entry result.1 }
        { run_two(rt, three, four) },
    )
}

/// Four threads add, each its own amount as often as `times` says.
/// In the history that they leave each one's own entries, and no others, are of its number.
pub fn add_by_four<'p, R: Threads + Wait + Sync>(
    rt: &R,
    alloc: Global,
    plan: &'p Plan,
    amounts: (u64, u64, u64, u64),
    times: u64,
) -> Result<Counter<'p>, OutOfMemory>
    ensures stands { IfOk result (λ c. StandsFor c plan.entry) }
    ensures first { IfOk result (λ c. entries_of (λ e. e.by) 0 c.log.items ≡ replicate times (addition 0 amounts.0)) }
    ensures second { IfOk result (λ c. entries_of (λ e. e.by) 1 c.log.items ≡ replicate times (addition 1 amounts.1)) }
    ensures third { IfOk result (λ c. entries_of (λ e. e.by) 2 c.log.items ≡ replicate times (addition 2 amounts.2)) }
    ensures fourth { IfOk result (λ c. entries_of (λ e. e.by) 3 c.log.items ≡ replicate times (addition 3 amounts.3)) }
{
    let (lock, mut first) = match KeptLock::new(alloc, plan, Counter::new(alloc, plan)) {
        Ok(opened) => opened,
        Err((_, refused)) => return Err(refused),
    };
    let shared = &lock;
    let second = lock.split(&mut first);
    let third = lock.split(&mut first);
    let fourth = lock.split(&mut first);
    let ((one, two), (three, four)) = run_four(
        rt,
        Job::new(shared, first, 0, amounts.0, times),
        Job::new(shared, second, 1, amounts.1, times),
        Job::new(shared, third, 2, amounts.2, times),
        Job::new(shared, fourth, 3, amounts.3, times),
    );
    let pass = lock.join(one.0, two.0);
    let pass = lock.join(pass, three.0);
    let pass = lock.join(pass, four.0);
    let counter = lock.close(rt, pass);
    one.1?;
    two.1?;
    three.1?;
    four.1?;
    Ok(counter)
}
