// The same by `enter`, `get`, `get_mut` and `leave`, in code that is generic over the value.
// Where the value's type names a lifetime, what a guard leaves behind is known only there; elsewhere `visit` serves.
ghost use Rattle.std.specs.Prelude.{◌≡◌, length};
ghost use Rattle.kept_lock.specs.History.{StartsWith, Adds};
ghost use Rattle.kept_lock.specs.Locks.{knowledge, IsPassOf};

use crate::counter::Counter;
use kept_lock::{Kept, KeptLock, Pass};
use std::sync::Wait;

/// A value that grows by an entry at a time.
pub trait Grows: Kept {
    /// Adds an entry of this owner, or none where there is no memory.
    fn grow(&mut self, by: u64) -> bool
        requires { (name : Self.Name) × Self.stands self.old name }
        ensures stands { (name : Self.Name) → Self.stands self.old name → Self.stands self.new name }
        ensures adds { Adds Self.owner by (Self.history self.old) (Self.history self.new) };

    /// How many entries the history has.
    fn size(&self) -> usize
        ensures { result ≡ length (Self.history self.now) };
}

impl<'p> Grows for Counter<'p> {
    fn grow(&mut self, by: u64) -> bool {
        self.add(by, 1).is_ok()
    }

    fn size(&self) -> usize {
        self.log.len()
    }
}

/// Lets the value grow, and gives the size of the history that the pass has then seen.
pub fn grow<V: Grows, R: Wait>(rt: &R, lock: &KeptLock<V>, pass: &mut Pass<V>, me: u64) -> usize
    requires pass { IsPassOf lock.now pass.old }
    requires number { (knowledge pass.old).number ≡ me }
    ensures pass { IsPassOf lock.now pass.new }
    ensures number { (knowledge pass.new).number ≡ me }
    ensures seen { StartsWith (knowledge pass.new).seen (knowledge pass.old).seen }
    ensures size { result ≡ length (knowledge pass.new).seen }
{
    let mut guard = lock.enter(rt, pass);
    guard.get_mut().grow(me);
    let size = guard.get().size();
    guard.leave();
    size
}

/// The same at a counter.
pub fn add_one<'p, R: Wait>(
    rt: &R,
    lock: &KeptLock<Counter<'p>>,
    pass: &mut Pass<Counter<'p>>,
    me: u64,
) -> usize
    requires pass { IsPassOf lock.now pass.old }
    requires number { (knowledge pass.old).number ≡ me }
    ensures pass { IsPassOf lock.now pass.new }
    ensures seen { StartsWith (knowledge pass.new).seen (knowledge pass.old).seen }
    ensures size { result ≡ length (knowledge pass.new).seen }
{
    grow(rt, lock, pass, me)
}
