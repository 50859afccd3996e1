// The value, while it is out of the lock.
ghost use Rattle.std.specs.Prelude.{◌≡◌, Some, IfSome};
ghost use Rattle.kept_lock.specs.History.{Adds};
ghost use Rattle.kept_lock.specs.Knowing.{left_at};
ghost use Rattle.kept_lock.specs.Locks.{name_of, knowledge, IsPassOf, IsInside, value_of};

use crate::kept::Kept;
use crate::lock::{KeptLock, Pass};
use crate::wakes::Wakes;

/// The right to the value, which is out with the pass. It has no `Drop`, so it ends in `leave`.
pub struct Guard<'a, V: Kept> {
    /// The lock that it is of.
    pub(crate) lock: &'a KeptLock<V>,
    /// The pass that is inside.
    pub(crate) pass: &'a mut Pass<V>,
}

impl<'a, V: Kept> Guard<'a, V> {
    ghost use Rattle.kept_lock.specs.Guards.{lock_in, pass_in, value_in};

    /// The value.
    pub fn get(&self) -> &V
        requires { IsInside (lock_in self.now) (pass_in self.now) }
        ensures { value_in self.now ≡ Some result.now }
    {
        match &self.pass.out {
            Some(value) => value.get(),
            None => unreachable!(),
        }
    }

    /// Puts the value back, and wakes all who nap. It stands for the name, and its history grew by entries of this pass alone.
    pub fn leave(self)
        requires inside { IsInside (lock_in self) (pass_in self) }
        requires stands { IfSome (value_in self) (λ y. V.stands y (name_of (lock_in self))) }
        requires adds { IfSome (value_in self) (λ y. Adds V.owner (knowledge (pass_in self)).number (knowledge (pass_in self)).seen (V.history y)) }

        // What the guard leaves behind its borrow of the pass is `self.exit.1.0.now`.
        ensures outside { IsPassOf (lock_in self.entry) self.exit.1.0.now }
        ensures left { IfSome (value_in self.entry) (λ y. knowledge self.exit.1.0.now ≡ left_at (knowledge (pass_in self.entry)) (V.history y)) }
    {
        let Guard { lock, pass } = self;
        lock.put_back(pass, Wakes::All);
    }

    /// Puts the value back with the history that it had, and wakes nobody who naps. It stands for the name.
    pub fn leave_unchanged(self)
        requires inside { IsInside (lock_in self) (pass_in self) }
        requires stands { IfSome (value_in self) (λ y. V.stands y (name_of (lock_in self))) }
        requires unchanged { IfSome (value_in self) (λ y. V.history y ≡ (knowledge (pass_in self)).seen) }

        ensures outside { IsPassOf (lock_in self.entry) self.exit.1.0.now }
        ensures left { IfSome (value_in self.entry) (λ y. knowledge self.exit.1.0.now ≡ left_at (knowledge (pass_in self.entry)) (V.history y)) }
    {
        let Guard { lock, pass } = self;
        lock.put_back(pass, Wakes::Nobody);
    }

    // Puts the value back, and wakes these of those who nap.
    pub(crate) fn leave_as(self, wakes: Wakes)
        requires inside { IsInside (lock_in self) (pass_in self) }
        requires stands { IfSome (value_in self) (λ y. V.stands y (name_of (lock_in self))) }
        requires adds { IfSome (value_in self) (λ y. Adds V.owner (knowledge (pass_in self)).number (knowledge (pass_in self)).seen (V.history y)) }

        ensures outside { IsPassOf (lock_in self.entry) self.exit.1.0.now }
        ensures left { IfSome (value_in self.entry) (λ y. knowledge self.exit.1.0.now ≡ left_at (knowledge (pass_in self.entry)) (V.history y)) }
    {
        let Guard { lock, pass } = self;
        lock.put_back(pass, wakes);
    }
}
