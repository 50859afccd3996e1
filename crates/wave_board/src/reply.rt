//! A segment that was run, on its way back.

ghost use Rattle.std.specs.Prelude.{◌≡◌, true, is_some};
ghost use Rattle.wave_board.specs.Replies.{ran};

use crate::holder::Holder;
use std::marker::Model;
use wave_base::Pause;
use wave_effects::Lease;

/// A lease with its pause, in the box in which it went to the worker.
#[derive(Drop)]
pub struct Reply {
    pub(crate) holder: Box<Holder>,
    ghost leased: { is_some holder.value.lease ≡ true },
    ghost paused: { is_some holder.value.pause ≡ true },
}

impl Model for Reply {
    ghost use Rattle.wave_board.specs.Replies.{Ran, ran};
    ghost use Rattle.wave_board.specs.inner.Parcels.{what_is_in};

    ghost Value = { Ran };

    ghost view = { λ a. ran (what_is_in a.holder.value.lease a.leased) (what_is_in a.holder.value.pause a.paused) };
}

impl Reply {
    // A lease and its pause in a box that was made for them.
    pub(crate) fn of(holder: Box<Holder>, lease: Lease, pause: Pause) -> Reply
        ensures { result ≡ ran lease pause }
    {
        let mut holder = holder;
        holder.lease = Some(lease);
        holder.pause = Some(pause);
        Reply { holder }
    }

    /// The lease, as its segment left it.
    pub fn lease(&self) -> &Lease
        ensures { result.now ≡ self.now.lease }
    {
        match &self.holder.lease {
            Some(lease) => lease,
            None => unreachable!(),
        }
    }

    // The box, which is empty then, and what lay in it.
    pub(crate) fn open(self) -> (Box<Holder>, Lease, Pause)
        ensures { ran result.1 result.2 ≡ self }
    {
        let mut holder = self.holder;
        match holder.lease.take() {
            Some(lease) => match holder.pause.take() {
                Some(pause) => (holder, lease, pause),
                None => unreachable!(),
            },
            None => unreachable!(),
        }
    }
}
