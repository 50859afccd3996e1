// A visit of the value: an entry, some work and a leave, in one call. It serves callers whose value names a lifetime too.
ghost use Rattle.std.specs.Prelude.{◌≡◌};
ghost use Rattle.std.specs.Fn.{FnOnceTakesAtMut, FnOnceReturnsAtMut};
ghost use Rattle.kept_lock.specs.History.{Adds};
ghost use Rattle.kept_lock.specs.Knowing.{pass_inside, left_at};
ghost use Rattle.kept_lock.specs.Locks.{name_of, knowledge, IsPassOf};
ghost use Rattle.kept_lock.specs.Visits.{Meets};

use crate::kept::Kept;
use crate::lock::{KeptLock, Pass};
use crate::parting::Parting;
use crate::wakes::Wakes;
use std::sync::Wait;

// The work, and that it wakes all who nap.
fn waking_all<V, T, F: FnOnce(&mut V) -> T>(value: &mut V, work: F) -> Parting<T>
    requires { FnOnceTakesAtMut F.FnOnce work value.old }
    ensures { FnOnceReturnsAtMut F.FnOnce work value.old result.told value.new }
{
    Parting {
        told: work(value),
        wakes: Wakes::All,
    }
}

impl<V: Kept> KeptLock<V> {
    /// Waits as `enter` does, does the work on the value, and leaves, which wakes all who nap. In the clauses y is the value that the work met, and z what it made of it.
    pub fn visit<R: Wait, T, F: FnOnce(&mut V) -> T>(
        &self,
        rt: &R,
        pass: &mut Pass<V>,
        work: F,
    ) -> T
        requires pass { IsPassOf self.now pass.old }
        requires may { (y : V) → Meets V.history V.owner V.stands (name_of self.now) (knowledge pass.old) y
            → FnOnceTakesAtMut F.FnOnce work y }
        requires keeps { (y : V) (r : T) (z : V) → Meets V.history V.owner V.stands (name_of self.now) (knowledge pass.old) y
            → FnOnceReturnsAtMut F.FnOnce work y r z
            → V.stands z (name_of self.now) × Adds V.owner (knowledge pass.old).number (V.history y) (V.history z) }
        ensures pass { IsPassOf self.now pass.new }
        ensures done { (y : V) × (z : V) × Meets V.history V.owner V.stands (name_of self.now) (knowledge pass.old) y
            × FnOnceReturnsAtMut F.FnOnce work y result z
            × (knowledge pass.new ≡ left_at (pass_inside (knowledge pass.old) (V.history y)) (V.history z)) }
    {
        let left = self.attempt(
            rt,
            pass,
            move |value: &mut V| -> Parting<T>
                requires { FnOnceTakesAtMut F.FnOnce work value.now }
                ensures { FnOnceReturnsAtMut F.FnOnce work value.entry.now result.told value.exit.now }
            { waking_all(value, work) },
        );
        left.told
    }
}
