// What a thread does with the lock.
ghost use Rattle.std.specs.Prelude.{◌≡◌, ◌≤◌, ◌∷◌, ◌%◌, ◌^◌, [], MatchResult, OnOk, length, sum_by, replicate};
ghost use Rattle.kept_lock.specs.Locks.{knowledge, IsPassOf};
ghost use Rattle.lock_counter.specs.Counters.{StandsFor, Added, addition};
ghost use Rattle.lock_counter.specs.Passes.{Made, MadeAsTold, AddedAsTold};

use crate::counter::Counter;
use kept_lock::{KeptLock, Parting, Pass, Wakes};
use std::sync::Wait;
use wave_base::OutOfMemory;

/// Adds under the lock, as the pass's own number.
pub fn add<'p, R: Wait>(
    rt: &R,
    lock: &KeptLock<Counter<'p>>,
    pass: &mut Pass<Counter<'p>>,
    me: u64,
    amount: u64,
) -> Result<(), OutOfMemory>
    requires pass { IsPassOf lock.now pass.old }
    requires number { (knowledge pass.old).number ≡ me }
    ensures pass { IsPassOf lock.now pass.new }
    ensures made { MatchResult result (λ _. Made (knowledge pass.old) (knowledge pass.new) (addition me amount ∷ [])) (λ _. Made (knowledge pass.old) (knowledge pass.new) []) }
{
    lock.visit(
        rt,
        pass,
        |counter: &mut Counter| -> Result<(), OutOfMemory>
            requires { StandsFor counter.now counter.now.plan }
            ensures { Added counter.entry.now me amount result counter.exit.now }
        { counter.add(me, amount) },
    )
}

/// Adds as often as `times` says.
pub fn add_times<'p, R: Wait>(
    rt: &R,
    lock: &KeptLock<Counter<'p>>,
    pass: &mut Pass<Counter<'p>>,
    me: u64,
    amount: u64,
    times: u64,
) -> Result<(), OutOfMemory>
    requires pass { IsPassOf lock.now pass.old }
    requires number { (knowledge pass.old).number ≡ me }
    ensures pass { IsPassOf lock.now pass.new }
    ensures number { (knowledge pass.new).number ≡ me }
    ensures made { OnOk result (Made (knowledge pass.old) (knowledge pass.new) (replicate times (addition me amount))) }
{
    for _ in 0..times {
        add(rt, lock, pass, me, amount)?;
    }
    Ok(())
}

/// The total at the moment of the look.
pub fn total<'p, R: Wait>(rt: &R, lock: &KeptLock<Counter<'p>>, pass: &mut Pass<Counter<'p>>) -> u64
    requires { IsPassOf lock.now pass.old }
    ensures pass { IsPassOf lock.now pass.new }
    ensures made { Made (knowledge pass.old) (knowledge pass.new) [] }
    ensures sum { result ≡ sum_by (λ e. e.amount) (knowledge pass.new).seen % 2 ^ 64 }
{
    lock.look(
        rt,
        pass,
        |counter: &Counter| -> u64
            requires { StandsFor counter.now counter.now.plan }
            ensures { result ≡ counter.now.total }
        { counter.total },
    )
}

/// Adds under the lock where the total is still below `most`, and tells whether it did. Where it did it wakes these of those who nap.
pub fn add_below<'p, R: Wait>(
    rt: &R,
    lock: &KeptLock<Counter<'p>>,
    pass: &mut Pass<Counter<'p>>,
    me: u64,
    amount: u64,
    most: u64,
    wakes: Wakes,
) -> Result<bool, OutOfMemory>
    requires pass { IsPassOf lock.now pass.old }
    requires number { (knowledge pass.old).number ≡ me }
    ensures pass { IsPassOf lock.now pass.new }
    ensures made { MadeAsTold (knowledge pass.old) (knowledge pass.new) (addition me amount) result }
{
    let tried = lock.attempt(
        rt,
        pass,
        |counter: &mut Counter| -> Parting<Result<bool, OutOfMemory>>
            requires { StandsFor counter.now counter.now.plan }
            ensures { StandsFor counter.exit.now counter.entry.now.plan × AddedAsTold counter.entry.now.log.items (addition me amount) result.told counter.exit.now.log.items }
        {
            if counter.total < most {
                match counter.add(me, amount) {
                    Ok(()) => Parting {
                        told: Ok(true),
                        wakes,
                    },
                    Err(refused) => Parting {
                        told: Err(refused),
                        wakes: Wakes::Nobody,
                    },
                }
            } else {
                Parting {
                    told: Ok(false),
                    wakes: Wakes::Nobody,
                }
            }
        },
    );
    tried.told
}

/// Naps until the total is at least `least`, and counts its looks.
pub fn wait_for<'p, R: Wait>(
    rt: &R,
    lock: &KeptLock<Counter<'p>>,
    pass: &mut Pass<Counter<'p>>,
    least: u64,
) -> u64
    requires { IsPassOf lock.now pass.old }
    ensures pass { IsPassOf lock.now pass.new }
    ensures made { Made (knowledge pass.old) (knowledge pass.new) [] }
    ensures reached { least ≤ sum_by (λ e. e.amount) (knowledge pass.new).seen % 2 ^ 64 }
{
    let mut looks = 0u64;
    for _ in rt.forever() {
        looks = looks.wrapping_add(1);
        if total(rt, lock, pass) >= least {
            return looks;
        }
        lock.nap(rt, pass);
    }
    unreachable!()
}
