//! Counters under the lock, over several threads.

ghost use Rattle.std.specs.Prelude.{◌≡◌, IfOk};
ghost use Rattle.kept_lock.specs.Knowing.{first as opening};
ghost use Rattle.kept_lock.specs.Locks.{knowledge, IsPassOf};
ghost use Rattle.lock_counter.specs.Jobs.{IsReady, IsDone};

use kept_lock::{KeptLock, Pass, Wakes};
use lock_counter::{
    Addition, Counter, Done, Job, Order, Plan, Turn, add, add_again, add_below, add_by_four,
    add_by_two, add_one, run, run_all, total, wait_for,
};
use std::hint::spin_loop;
use std::sync::Wait;
use std::test::Fail;
use std::thread::{Threads, join};
use wave_base::OutOfMemory;

// How many additions of this pass the history has, and what they add up to.
fn share(log: &[Addition], by: u64) -> (usize, u64) {
    let mut count = 0usize;
    let mut sum = 0u64;
    for addition in log {
        if addition.by == by {
            count = count.wrapping_add(1);
            sum = sum.wrapping_add(addition.amount);
        }
    }
    (count, sum)
}

#[test]
fn two_threads_add(rt: HostRuntime) -> Result<(), Fail> {
    let plan = Plan { label: 2 };
    let counter = add_by_two(&rt, rt.alloc(), &plan, (5, 7), 1000)?;
    assert_eq!(rt; counter.plan.label, 2);
    assert_eq!(rt; counter.total, 12_000);
    assert_eq!(rt; counter.log.len(), 2000);
    assert_eq!(rt; share(counter.log.as_slice(), 0), (1000, 5000));
    assert_eq!(rt; share(counter.log.as_slice(), 1), (1000, 7000));
    Ok(())
}

#[test]
fn four_threads_add(rt: HostRuntime) -> Result<(), Fail> {
    let plan = Plan { label: 4 };
    let counter = add_by_four(&rt, rt.alloc(), &plan, (1, 2, 3, 4), 1000)?;
    assert_eq!(rt; counter.plan.label, 4);
    assert_eq!(rt; counter.total, 10_000);
    assert_eq!(rt; counter.log.len(), 4000);
    for by in 0..4u64 {
        assert_eq!(rt;
            share(counter.log.as_slice(), by),
            (1000, 1000 + 1000 * by),
            "pass {by}"
        );
    }
    Ok(())
}

fn wait<'l, 'p, R: Wait>(rt: &R, job: Job<'l, 'p>) -> (Pass<Counter<'p>>, u64)
    requires { IsReady job }
    ensures { IsPassOf job.entry.lock.now result.0 }
{
    let Job {
        lock,
        mut pass,
        me: _,
        amount,
        times,
    } = job;
    let least = amount.wrapping_mul(times);
    let visits = wait_for(rt, lock, &mut pass, least);
    (pass, visits)
}

// The first waits until the total is what the other adds.
fn wait_and_add<'l, 'p, R: Threads + Wait + Sync>(
    rt: &R,
    one: Job<'l, 'p>,
    other: Job<'l, 'p>,
) -> ((Pass<Counter<'p>>, u64), Done<'p>)
    requires one { IsReady one }
    requires other { IsReady other }
    ensures one { IsPassOf one.entry.lock.now result.0.0 }
    ensures other { IsDone other.entry result.1 }
{
    join(
        rt,
        move ||
            requires { IsReady one }
            ensures { IsPassOf one.entry.lock.now result.0 }
        { wait(rt, one) },
        move ||
            requires { IsReady other }
            ensures { IsDone other.entry result }
        { run(rt, other) },
    )
}

// The same job for the first pass of a lock and for a second one, which it makes.
fn two_jobs<'l, 'p>(
    lock: &'l KeptLock<Counter<'p>>,
    mut first: Pass<Counter<'p>>,
    amount: u64,
    times: u64,
) -> (Job<'l, 'p>, Job<'l, 'p>)
    requires pass { IsPassOf lock.now first }
    requires first { knowledge first ≡ opening }
    ensures ready { IsReady result.0 × IsReady result.1 }
    ensures lock { (result.0.lock ≡ lock.entry) × (result.1.lock ≡ lock.entry) }
    ensures numbers { (result.0.me ≡ 0) × (result.1.me ≡ 1) }
{
    let second = lock.split(&mut first);
    (
        Job::new(lock, first, 0, amount, times),
        Job::new(lock, second, 1, amount, times),
    )
}

#[test]
fn one_naps_until_the_other_is_done(rt: HostRuntime) -> Result<(), Fail> {
    let plan = Plan { label: 1 };
    let alloc = rt.alloc();
    let Ok((lock, first)) = KeptLock::new(alloc, &plan, Counter::new(alloc, &plan)) else {
        return Err("memory".into());
    };
    let (one, other) = two_jobs(&lock, first, 3, 5000);
    let ((pass, visits), (other, done)) = wait_and_add(&rt, one, other);
    done?;
    assert!(rt; visits >= 1);
    let mut pass = lock.join(pass, other);
    assert_eq!(rt; total(&rt, &lock, &mut pass), 15_000);
    let counter = lock.close(&rt, pass);
    assert_eq!(rt; share(counter.log.as_slice(), 1), (5000, 15_000));
    assert_eq!(rt; counter.log.len(), 5000);
    Ok(())
}

// Adds once, after a while, and wakes the first pass alone.
fn add_for_one<'l, 'p, R: Wait>(rt: &R, job: Job<'l, 'p>) -> bool
    requires { IsReady job }
{
    let Job {
        lock,
        mut pass,
        me,
        amount,
        times: _,
    } = job;
    for _ in 0..2_000_000u32 {
        spin_loop();
    }
    matches!(
        add_below(rt, lock, &mut pass, me, amount, 1, Wakes::One(0)),
        Ok(true)
    )
}

// The first waits for what the other adds once.
fn wait_for_one<'l, 'p, R: Threads + Wait + Sync>(
    rt: &R,
    one: Job<'l, 'p>,
    other: Job<'l, 'p>,
) -> (u64, bool)
    requires one { IsReady one }
    requires other { IsReady other }
{
    join(
        rt,
        move ||
            requires { IsReady one }
        { wait(rt, one).1 },
        move ||
            requires { IsReady other }
        { add_for_one(rt, other) },
    )
}

#[test]
fn one_naps_until_it_is_woken_alone(rt: HostRuntime) -> Result<(), Fail> {
    let plan = Plan { label: 7 };
    let alloc = rt.alloc();
    let Ok((lock, first)) = KeptLock::new(alloc, &plan, Counter::new(alloc, &plan)) else {
        return Err("memory".into());
    };
    let (one, other) = two_jobs(&lock, first, 3, 1);
    let (visits, added) = wait_for_one(&rt, one, other);
    assert!(rt; added);
    assert!(rt; visits <= 3, "{visits} looks");
    Ok(())
}

// Adds one at a time, and takes its time in between.
fn add_slowly<'l, 'p, R: Wait>(rt: &R, job: Job<'l, 'p>) -> Result<Pass<Counter<'p>>, OutOfMemory>
    requires { IsReady job }
    ensures { IfOk result (λ pass. IsPassOf job.entry.lock.now pass × ((knowledge pass).number ≡ job.entry.me)) }
{
    let Job {
        lock,
        mut pass,
        me,
        amount,
        times,
    } = job;
    for _ in 0..times {
        add(rt, lock, &mut pass, me, amount)?;
        for _ in 0..20_000u32 {
            spin_loop();
        }
    }
    Ok(pass)
}

// Two wait until a third has added what each waits for.
fn two_wait<'l, 'p, R: Threads + Wait + Sync>(
    rt: &R,
    one: Job<'l, 'p>,
    two: Job<'l, 'p>,
    other: Job<'l, 'p>,
) -> (u64, u64, bool)
    requires one { IsReady one }
    requires two { IsReady two }
    requires other { IsReady other }
{
    let ((one, two), other) = join(
        rt,
        move ||
            requires { IsReady one × IsReady two }
        {
            join(
                rt,
                move ||
                    requires { IsReady one }
                { wait(rt, one).1 },
                move ||
                    requires { IsReady two }
                { wait(rt, two).1 },
            )
        },
        move ||
            requires { IsReady other }
        { add_slowly(rt, other).is_ok() },
    );
    (one, two, other)
}

// A look wakes nobody. Where each look woke the others, two that wait would wake each other without end.
#[test]
fn whoever_naps_is_woken_by_additions_alone(rt: HostRuntime) -> Result<(), Fail> {
    let plan = Plan { label: 6 };
    let alloc = rt.alloc();
    let Ok((lock, mut first)) = KeptLock::new(alloc, &plan, Counter::new(alloc, &plan)) else {
        return Err("memory".into());
    };
    let (amount, times) = (1, 20);
    let second = lock.split(&mut first);
    let third = lock.split(&mut first);
    let one = Job {
        lock: &lock,
        pass: first,
        me: 0,
        amount,
        times,
    };
    let two = Job {
        lock: &lock,
        pass: second,
        me: 1,
        amount,
        times,
    };
    let other = Job {
        lock: &lock,
        pass: third,
        me: 2,
        amount,
        times,
    };
    let (one, two, done) = two_wait(&rt, one, two, other);
    assert!(rt; done);
    assert!(rt; one <= 3 * (times + 1), "{one} looks of the first");
    assert!(rt; two <= 3 * (times + 1), "{two} looks of the second");
    Ok(())
}

#[test]
fn as_many_threads_as_jobs(rt: HostRuntime) -> Result<(), Fail> {
    let plan = Plan { label: 3 };
    let alloc = rt.alloc();
    let Ok((lock, mut first)) = KeptLock::new(alloc, &plan, Counter::new(alloc, &plan)) else {
        return Err("memory".into());
    };
    let second = lock.split(&mut first);
    let third = lock.split(&mut first);
    let mut turns = Vec::new(alloc);
    turns.push(Turn {
        job: Job {
            lock: &lock,
            pass: second,
            me: 1,
            amount: 1,
            times: 100,
        },
    })?;
    turns.push(Turn {
        job: Job {
            lock: &lock,
            pass: third,
            me: 2,
            amount: 2,
            times: 100,
        },
    })?;
    let done = run_all(&rt, turns)?;
    assert_eq!(rt; done.len(), 2);
    drop(done);
    let counter = lock.close(&rt, first);
    assert_eq!(rt; counter.total, 300);
    Ok(())
}

#[test]
fn one_after_another(rt: HostRuntime) -> Result<(), Fail> {
    let plan = Plan { label: 5 };
    let alloc = rt.alloc();
    let Ok((lock, mut pass)) = KeptLock::new(alloc, &plan, Counter::new(alloc, &plan)) else {
        return Err("memory".into());
    };
    add(&rt, &lock, &mut pass, 0, 4)?;
    let order = Order {
        amount: 6,
        notes: Vec::new(alloc),
    };
    assert!(rt; add_again(&rt, &lock, &mut pass, 0, order).is_ok());
    let below = add_below(&rt, &lock, &mut pass, 0, 9, 12, Wakes::All);
    assert!(rt; matches!(below, Ok(true)));
    let full = add_below(&rt, &lock, &mut pass, 0, 9, 12, Wakes::All);
    assert!(rt; matches!(full, Ok(false)));
    assert_eq!(rt; add_one(&rt, &lock, &mut pass, 0), 4);
    let counter = lock.close(&rt, pass);
    assert_eq!(rt; counter.plan.label, 5);
    assert_eq!(rt; counter.total, 20);
    Ok(())
}
