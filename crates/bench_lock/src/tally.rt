// What both locks keep.
ghost use Rattle.std.specs.Prelude.{◌≡◌, ◌+◌, ◌/◌, ◌%◌, ◌<◌, ◌==◌, if◌then◌else◌, []};

use kept_lock::Kept;

/// A count of turns. As a kept value it has no history, so that the locks alone are timed.
#[derive(Drop)]
pub struct Tally {
    /// How many turns were counted.
    pub turns: u64,
}

impl Kept for Tally {
    type Name = ();

    type Entry = ();

    ghost history = { λ _. [] };

    ghost owner = { λ _. 0 };

    ghost stands = { λ _ _. Unit {0} };
}

impl Tally {
    /// A count of no turns.
    pub fn new() -> Tally {
        Tally { turns: 0 }
    }

    /// One turn more; the count wraps.
    pub fn count(&mut self) {
        self.turns = self.turns.wrapping_add(1);
    }
}

/// How many of the turns a thread takes: each as many, and the first what is left over.
pub fn share_of(turns: u32, threads: u8, number: u8) -> u32
    requires { 0 < threads }
    ensures { result ≡ turns / threads + (if number == 0 then turns % threads else 0) }
{
    let threads = u32::from(threads);
    let left_over = if number == 0 { turns % threads } else { 0 };
    turns / threads + left_over
}
