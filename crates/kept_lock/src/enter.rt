// Into the lock and out of it.
ghost use Rattle.std.specs.Prelude.{◌≡◌, Some, None, IfSome};
ghost use Rattle.kept_lock.specs.History.{Adds};
ghost use Rattle.kept_lock.specs.Knowing.{Agrees, Accounts, pass_inside, left_at};
ghost use Rattle.kept_lock.specs.Plays.{Won, placed_at};
ghost use Rattle.kept_lock.specs.Seats.{IsPass, IsIn};
ghost use Rattle.kept_lock.specs.Locks.{name_of, knowledge, value_of, IsPassOf, IsInside};
ghost use Rattle.kept_lock.specs.Guards.{lock_ref, pass_borrow, pass_in, value_in};
ghost use Rattle.kept_lock.specs.declared.view.Place.TheVariants.{Inside};

use crate::guard::Guard;
use crate::held::Held;
use crate::kept::Kept;
use crate::lock::{KeptLock, Pass};
use crate::plays::{Claim, Release};
use crate::view::View;
use crate::wakes::Wakes;
use atomic_table::Seat;
use std::sync::Wait;

impl<V: Kept> KeptLock<V> {
    /// Waits until no other pass is inside. The value is then out with the pass, until the guard leaves.
    pub fn enter<'a, R: Wait>(&'a self, rt: &R, pass: &'a mut Pass<V>) -> Guard<'a, V>
        requires { IsPassOf self.now pass.old }
        ensures same_pass { pass_borrow result ≡ pass.entry.ghost_name }
        ensures same_lock { lock_ref result ≡ self.entry }
        ensures inside { IsInside self.now (pass_in result) }
        ensures stands { IfSome (value_in result) (λ y. V.stands y (name_of self.now)) }
        ensures agrees { IfSome (value_in result) (λ y. Agrees V.owner (knowledge pass.old) (V.history y)) }
        ensures accounts { IfSome (value_in result) (λ y. Accounts V.owner (knowledge pass.old) (V.history y)) }
        ensures entered { IfSome (value_in result) (λ y. knowledge (pass_in result) ≡ pass_inside (knowledge pass.old) (V.history y)) }
    {
        let value = self.take(rt, &mut pass.seat);
        let before = pass.out.replace(value);
        let None = before else { unreachable!() };
        Guard { lock: self, pass }
    }

    // Claims the word, and takes the value out.
    fn take<R: Wait>(
        &self,
        rt: &R,
        seat: &mut Seat<Option<Held<V>>, View<V::Name, V::Entry>>,
    ) -> Held<V>
        requires { IsPass self.now.table.shared.table_id (name_of self.now) seat.old }
        ensures inside { IsIn self.now.table.shared.table_id (name_of self.now) seat.new }
        ensures placed { seat.new.me.0 ≡ placed_at seat.old.me.0 Inside (V.history result) }
        ensures stands { V.stands result (name_of self.now) }
        ensures agrees { Agrees V.owner seat.old.me.0.known (V.history result) }
        ensures accounts { Accounts V.owner seat.old.me.0.known (V.history result) }
    {
        self.claim(rt, seat);
        self.table.shared.exchange(seat, 0, None).unwrap()
    }

    // Claims the word, as often as it takes.
    fn claim<R: Wait>(&self, rt: &R, seat: &mut Seat<Option<Held<V>>, View<V::Name, V::Entry>>)
        requires { IsPass self.now.table.shared.table_id (name_of self.now) seat.old }
        ensures same { seat.new.table_id ≡ seat.old.table_id }
        ensures won { Won V.history V.owner V.stands seat.old.me seat.new.me }
    {
        let shared = &self.table.shared;
        for _ in rt.forever() {
            let found = self.even_word(rt);
            if shared.compare_exchange::<Claim>(seat, 0, found, found + 1) == found {
                return;
            }
        }
        unreachable!()
    }

    // Puts the value back, gives up the word, rings, and wakes these of those who nap.
    pub(crate) fn put_back(&self, pass: &mut Pass<V>, wakes: Wakes)
        requires inside { IsInside self.now pass.old }
        requires stands { IfSome (value_of pass.old) (λ y. V.stands y (name_of self.now)) }
        requires adds { IfSome (value_of pass.old) (λ y. Adds V.owner (knowledge pass.old).number (knowledge pass.old).seen (V.history y)) }
        ensures outside { IsPassOf self.now pass.new }
        ensures left { IfSome (value_of pass.old) (λ y. knowledge pass.new ≡ left_at (knowledge pass.old) (V.history y)) }
    {
        let called = self.beds.call(wakes, pass.bed);
        let value = pass.out.take().unwrap();
        let shared = &self.table.shared;
        let empty = shared.exchange(&mut pass.seat, 0, Some(value));
        let None = empty else { unreachable!() };
        shared.fetch_add::<Release>(&mut pass.seat, 0, 1);
        pass.last = Some(called);
        self.bell.ring();
        self.beds.wake(wakes);
    }
}
