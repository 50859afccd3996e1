//! Who takes labels.

ghost use Rattle.std.specs.Prelude.{◌≡◌, ◌+◌, ◌<◌, ◌≤◌, if◌then◌else◌, length, position, is_none, IfSome, Some, option_map};

use wave_base::Worker;
use wave_effects::Out;

// Who takes labels: the idle worker all but the Stops, and the workers from one on, below another, the Stops of their own.
#[derive(Clone, Copy)]
pub(crate) struct Takers {
    pub(crate) idle: Option<Worker>,
    pub(crate) from: u8,
    pub(crate) to: u8,
}

// The first worker that has no segment out.
pub(crate) fn lowest_idle(hands: &[Option<Out>]) -> Option<Worker>
    requires { length hands.now ≤ 16 }
    ensures { option_map (λ w. w.0) result ≡ position is_none hands.now }
{
    match first_idle(hands) {
        Some(i) => Some(Worker(i as u8)),
        None => None,
    }
}

fn first_idle(hands: &[Option<Out>]) -> Option<usize>
    ensures place { result ≡ position is_none hands.now }
    ensures within { IfSome result (λ i. i < length hands.now) }
{
    hands.iter().position(|hand| hand.is_none())
}

// One worker, which has a segment out or is idle.
pub(crate) fn own_takers(worker: Worker, idle: bool) -> Takers
    requires { worker.0 < 16 }
    ensures idle { option_map (λ w. w.0) result.idle ≡ (if idle then Some worker.0 else None) }
    ensures from { result.from ≡ worker.0 }
    ensures to { result.to ≡ worker.0 + 1 }
{
    Takers {
        idle: if idle { Some(worker) } else { None },
        from: worker.0,
        to: worker.0 + 1,
    }
}
