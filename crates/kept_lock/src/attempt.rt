// A visit that says whom it wakes.
ghost use Rattle.std.specs.Prelude.{◌≡◌};
ghost use Rattle.std.specs.Fn.{FnOnceTakesAtMut, FnOnceReturnsAtMut};
ghost use Rattle.kept_lock.specs.History.{Adds};
ghost use Rattle.kept_lock.specs.Knowing.{pass_inside, left_at};
ghost use Rattle.kept_lock.specs.Locks.{name_of, knowledge, IsPassOf};
ghost use Rattle.kept_lock.specs.Visits.{Meets};

use crate::kept::Kept;
use crate::lock::{KeptLock, Pass};
use crate::parting::Parting;
use std::sync::Wait;

impl<V: Kept> KeptLock<V> {
    /// As `visit`, but the work says which of those who nap are woken.
    /// In the clauses y is the value that the work met, and z what it made of it.
    pub fn attempt<R: Wait, T, F: FnOnce(&mut V) -> Parting<T>>(
        &self,
        rt: &R,
        pass: &mut Pass<V>,
        work: F,
    ) -> Parting<T>
        requires pass { IsPassOf self.now pass.old }
        requires may { (y : V) → Meets V.history V.owner V.stands (name_of self.now) (knowledge pass.old) y
            → FnOnceTakesAtMut F.FnOnce work y }
        requires keeps { (y : V) (r : Parting T) (z : V) → Meets V.history V.owner V.stands (name_of self.now) (knowledge pass.old) y
            → FnOnceReturnsAtMut F.FnOnce work y r z
            → V.stands z (name_of self.now) × Adds V.owner (knowledge pass.old).number (V.history y) (V.history z) }
        ensures pass { IsPassOf self.now pass.new }
        ensures done { (y : V) × (z : V) × Meets V.history V.owner V.stands (name_of self.now) (knowledge pass.old) y
            × FnOnceReturnsAtMut F.FnOnce work y result z
            × (knowledge pass.new ≡ left_at (pass_inside (knowledge pass.old) (V.history y)) (V.history z)) }
    {
        let mut guard = self.enter(rt, pass);
        let result = work(guard.get_mut());
        let wakes = result.wakes;
        guard.leave_as(wakes);
        result
    }
}
