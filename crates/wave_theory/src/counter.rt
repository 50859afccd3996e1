//! A kind of actors with one context: a counter.

ghost use Rattle.std.specs.Prelude.{ℕ};
ghost use Rattle.wave_states.proofs.Counting.{counter_owes};
ghost use Rattle.wave_states.specs.Counter.{counter_kind};

use crate::acting::Acting;

/// One counter at the root: each event adds one and replies.
pub struct Counter;

impl Acting for Counter {
    ghost Code = { Unit {0} };

    ghost Actor = { ℕ };

    ghost Fields = { ℕ };

    ghost Outcome = { ℕ × ℕ };

    ghost Job = { ℕ };

    ghost kind = { λ c. counter_kind };

    ghost owed = { λ c. counter_owes };
}
