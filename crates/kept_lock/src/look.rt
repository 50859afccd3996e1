// A look at the value: an entry and a leave that adds nothing, in one call.
ghost use Rattle.std.specs.Prelude.{◌≡◌};
ghost use Rattle.std.specs.Fn.{FnOnceTakesAt, FnOnceReturnsAt};
ghost use Rattle.kept_lock.specs.Knowing.{pass_inside};
ghost use Rattle.kept_lock.specs.Locks.{name_of, knowledge, IsPassOf};
ghost use Rattle.kept_lock.specs.Visits.{Meets};

use crate::kept::Kept;
use crate::lock::{KeptLock, Pass};
use std::sync::Wait;

impl<V: Kept> KeptLock<V> {
    /// Waits as `enter` does, and lends the value. It wakes nobody who naps. In the clauses y is the value that was met.
    pub fn look<R: Wait, T, F: FnOnce(&V) -> T>(&self, rt: &R, pass: &mut Pass<V>, view: F) -> T
        requires pass { IsPassOf self.now pass.old }
        requires may { (y : V) → Meets V.history V.owner V.stands (name_of self.now) (knowledge pass.old) y
            → FnOnceTakesAt F.FnOnce view y }
        ensures pass { IsPassOf self.now pass.new }
        ensures seen { (y : V) × Meets V.history V.owner V.stands (name_of self.now) (knowledge pass.old) y
            × FnOnceReturnsAt F.FnOnce view y result
            × (knowledge pass.new ≡ pass_inside (knowledge pass.old) (V.history y)) }
    {
        let guard = self.enter(rt, pass);
        let result = view(guard.get());
        guard.leave_unchanged();
        result
    }
}
