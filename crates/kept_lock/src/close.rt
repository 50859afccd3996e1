// The end of a lock.
ghost use Rattle.std.specs.Prelude.{◌≡◌};
ghost use Rattle.kept_lock.specs.Knowing.{Agrees, Accounts};
ghost use Rattle.kept_lock.specs.Seats.{IsPass};
ghost use Rattle.kept_lock.specs.Plays.{Shut};
ghost use Rattle.kept_lock.specs.Locks.{name_of, knowledge, IsPassOf};

use crate::held::Held;
use crate::kept::Kept;
use crate::lock::{KeptLock, Pass};
use crate::plays::Close;
use crate::view::View;
use atomic_table::Seat;
use std::sync::Wait;

impl<V: Kept> KeptLock<V> {
    /// Waits until no other pass is inside, and gives the value. It takes no memory.
    pub fn close<R: Wait>(self, rt: &R, pass: Pass<V>) -> V
        requires { IsPassOf self pass }
        ensures stands { V.stands result (name_of self) }
        ensures agrees { Agrees V.owner (knowledge pass) (V.history result) }
        ensures accounts { Accounts V.owner (knowledge pass) (V.history result) }
    {
        let (mut seat, _, _) = pass.into_parts();
        self.shut(rt, &mut seat);
        let KeptLock {
            table,
            bell: _,
            beds: _,
        } = self;
        let mut closed = table.close_with(seat);
        let value = closed.take(0).unwrap();
        closed.free();
        value.into_inner()
    }

    // Claims the word for good, and leaves the value in its place.
    fn shut<R: Wait>(&self, rt: &R, seat: &mut Seat<Option<Held<V>>, View<V::Name, V::Entry>>)
        requires { IsPass self.now.table.shared.table_id (name_of self.now) seat.old }
        ensures same { seat.new.table_id ≡ seat.old.table_id }
        ensures shut { Shut V.owner seat.old.me seat.new.me }
    {
        let shared = &self.table.shared;
        for _ in rt.forever() {
            let found = self.even_word(rt);
            if shared.compare_exchange::<Close>(seat, 0, found, found + 1) == found {
                return;
            }
        }
        unreachable!()
    }
}
