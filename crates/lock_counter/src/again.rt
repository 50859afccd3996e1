// What a pass made is still known at a later visit, and what the visit's work captured goes into it and comes back.
ghost use Rattle.std.specs.Prelude.{◌≡◌, ◌++◌, ◌∷◌, [], length, OnOk, MatchResult};
ghost use Rattle.kept_lock.specs.History.{entries_of};
ghost use Rattle.kept_lock.specs.Locks.{knowledge, IsPassOf};
ghost use Rattle.lock_counter.specs.Counters.{StandsFor, addition};
ghost use Rattle.lock_counter.specs.Passes.{Made};

use crate::counter::{Addition, Counter};
use kept_lock::{KeptLock, Pass};
use std::sync::Wait;

/// What is lent to a visit, and comes back where it fails.
#[derive(Drop)]
pub struct Order {
    /// What is to be added.
    pub amount: u64,
    /// The additions that were noted so far.
    pub notes: Vec<Addition>,
}

/// A second addition, by a pass that made one.
pub fn add_again<'p, R: Wait>(
    rt: &R,
    lock: &KeptLock<Counter<'p>>,
    pass: &mut Pass<Counter<'p>>,
    me: u64,
    order: Order,
) -> Result<(), Order>
    requires pass { IsPassOf lock.now pass.old }
    requires number { (knowledge pass.old).number ≡ me }
    requires once { length (knowledge pass.old).made ≡ 1 }
    ensures pass { IsPassOf lock.now pass.new }
    ensures made { OnOk result (Made (knowledge pass.old) (knowledge pass.new) (addition me order.amount ∷ [])) }
{
    lock.visit(
        rt,
        pass,
        move |counter: &mut Counter| -> Result<(), Order>
            requires { StandsFor counter.now counter.now.plan × (length (entries_of (λ e. e.by) me counter.now.log.items) ≡ 1) }
            ensures { StandsFor counter.exit.now counter.entry.now.plan × MatchResult result (λ _. counter.exit.now.log.items ≡ counter.entry.now.log.items ++ addition me order.amount ∷ []) (λ _. counter.exit.now.log.items ≡ counter.entry.now.log.items) }
        {
            match counter.add_again(me, order.amount) {
                Ok(()) => Ok(()),
                Err(_refused) => Err(order),
            }
        },
    )
}
