// Passes are split and joined.
ghost use Rattle.std.specs.Prelude.{◌≡◌, ◌≢◌, ◌<◌, Some};
ghost use Rattle.kept_lock.specs.History.{StartsWith};
ghost use Rattle.kept_lock.specs.Knowing.{counted_on, next_pass, joined_pass};
ghost use Rattle.kept_lock.specs.Plays.{Hears};
ghost use Rattle.kept_lock.specs.Locks.{name_of, knowledge, IsPassOf};
ghost use Rattle.kept_lock.specs.declared.view.Place.TheVariants.{Outside};

use crate::held::Held;
use crate::kept::Kept;
use crate::lock::{KeptLock, Pass};
use crate::plays::{Cut, Hear, Tell};
use crate::view::View;
use atomic_table::Seat;

impl<V: Kept> KeptLock<V> {
    /// A new pass, which has seen as much and made nothing.
    pub fn split(&self, pass: &mut Pass<V>) -> Pass<V>
        requires pass { IsPassOf self.now pass.old }
        requires first { (knowledge pass.old).number ≡ 0 }
        requires room { (knowledge pass.old).passes < 4294967295 }
        ensures old { IsPassOf self.now pass.new }
        ensures new { IsPassOf self.now result }
        ensures counts { knowledge pass.new ≡ counted_on (knowledge pass.old) }
        ensures next { knowledge result ≡ next_pass (knowledge pass.old) }
    {
        let seat = self.table.shared.split_seat::<Cut>(&mut pass.seat);
        let bed = self.beds.next();
        Pass {
            seat,
            bed,
            last: None,
            out: None,
        }
    }

    /// The pass `into`, which has then seen the longer of the two histories, and accounts for `other`.
    pub fn join(&self, into: Pass<V>, other: Pass<V>) -> Pass<V>
        requires into { IsPassOf self.now into }
        requires other { IsPassOf self.now other }
        requires later { (knowledge other).number ≢ 0 }
        ensures pass { IsPassOf self.now result }
        ensures joined { knowledge result ≡ joined_pass (knowledge into) (knowledge other) }
        ensures this { StartsWith (knowledge result).seen (knowledge into).seen }
        ensures that { StartsWith (knowledge result).seen (knowledge other).seen }
    {
        let (mut seat, bed, last) = into.into_parts();
        let (other, _, _) = other.into_parts();
        self.table.shared.join_seat::<Tell>(&mut seat, other);
        self.hear(&mut seat);
        Pass {
            seat,
            bed,
            last,
            out: None,
        }
    }

    // A look at the word, by which the pass has seen what it was told of.
    fn hear(&self, seat: &mut Seat<Option<Held<V>>, View<V::Name, V::Entry>>)
        requires table { seat.old.table_id ≡ self.now.table.shared.table_id }
        requires live { seat.old.me.0.name ≡ Some (name_of self.now) }
        requires outside { seat.old.me.0.place ≡ Outside }
        ensures same { seat.new.table_id ≡ seat.old.table_id }
        ensures hears { Hears seat.old.me seat.new.me }
    {
        self.table.shared.load::<Hear>(seat, 0);
    }
}
