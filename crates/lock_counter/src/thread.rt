// One thread's share of the work.
ghost use Rattle.std.specs.Prelude.{◌≡◌};
ghost use Rattle.lock_counter.specs.Jobs.{IsReady, IsDone};

use crate::counter::Counter;
use crate::work::add_times;
use kept_lock::{KeptLock, Pass};
use std::sync::Wait;
use wave_base::OutOfMemory;

/// What a thread has: its pass, that pass's number, and what it is to add how often.
#[derive(Drop)]
pub struct Job<'l, 'p> {
    /// The lock of the counter.
    pub lock: &'l KeptLock<Counter<'p>>,
    /// The thread's pass.
    pub pass: Pass<Counter<'p>>,
    /// The pass's number.
    pub me: u64,
    /// What it adds each time.
    pub amount: u64,
    /// How often it adds.
    pub times: u64,
}

impl<'l, 'p> Job<'l, 'p> {
    /// What the thread of this number is to do with its pass.
    pub fn new(
        lock: &'l KeptLock<Counter<'p>>,
        pass: Pass<Counter<'p>>,
        me: u64,
        amount: u64,
        times: u64,
    ) -> Job<'l, 'p>
        ensures { result ≡ record { lock = lock.entry; pass = pass.entry; me = me; amount = amount; times = times } }
    {
        Job {
            lock,
            pass,
            me,
            amount,
            times,
        }
    }
}

/// What a thread gives back.
pub type Done<'p> = (Pass<Counter<'p>>, Result<(), OutOfMemory>);

/// Does the job.
pub fn run<'l, 'p, R: Wait>(rt: &R, job: Job<'l, 'p>) -> Done<'p>
    requires { IsReady job }
    ensures { IsDone job.entry result }
{
    let Job {
        lock,
        mut pass,
        me,
        amount,
        times,
    } = job;
    let done = add_times(rt, lock, &mut pass, me, amount, times);
    (pass, done)
}
