// A counter, with each addition in its history.
ghost use Rattle.std.specs.Prelude.{◌≡◌, ◌++◌, ◌∷◌, [], MatchResult};

use kept_lock::Kept;
use std::alloc::Global;
use wave_base::OutOfMemory;

/// What a counter is for. A counter borrows its plan, so that its type names a lifetime.
#[derive(Drop)]
pub struct Plan {
    /// By which it is told from others.
    pub label: u64,
}

/// One addition, and the number of the pass that made it.
#[derive(Clone, Copy)]
pub struct Addition {
    /// The number of the pass.
    pub by: u64,
    /// What it added.
    pub amount: u64,
}

/// A total that wraps, and the additions that it is the sum of.
#[derive(Drop)]
pub struct Counter<'p> {
    /// What it is for.
    pub plan: &'p Plan,
    /// The sum of all additions, which wraps.
    pub total: u64,
    /// The additions, the first one first.
    pub log: Vec<Addition>,
}

impl<'p> Kept for Counter<'p> {
    ghost use Rattle.lock_counter.specs.Counters.{StandsFor};

    type Name = &'p Plan;

    type Entry = Addition;

    ghost history = { λ c. c.log.items };

    ghost owner = { λ e. e.by };

    ghost stands = { StandsFor };
}

impl<'p> Counter<'p> {
    ghost use Rattle.lock_counter.specs.Counters.{StandsFor, Added, addition};
    ghost use Rattle.kept_lock.specs.History.{entries_of};
    ghost use Rattle.std.specs.Prelude.{length};

    /// A counter at 0.
    pub fn new(alloc: Global, plan: &'p Plan) -> Counter<'p>
        ensures empty { result.log.items ≡ [] }
        ensures stands { StandsFor result plan.entry }
    {
        Counter {
            plan,
            total: 0,
            log: Vec::new(alloc),
        }
    }

    /// Adds an amount in the name of one who adds, and writes it down. After want of memory nothing has changed.
    pub fn add(&mut self, by: u64, amount: u64) -> Result<(), OutOfMemory>
        requires { StandsFor self.old self.old.plan }
        ensures { Added self.old by amount result self.new }
    {
        self.log.push(Addition { by, amount })?;
        self.total = self.total.wrapping_add(amount);
        Ok(())
    }

    /// The same, for whoever has added once before.
    pub fn add_again(&mut self, by: u64, amount: u64) -> Result<(), OutOfMemory>
        requires stands { StandsFor self.old self.old.plan }
        requires once { length (entries_of (λ e. e.by) by self.old.log.items) ≡ 1 }
        ensures { Added self.old by amount result self.new }
    {
        self.add(by, amount)
    }
}
