//! What a cell has while its event is not done.

ghost use Rattle.std.specs.Prelude.{◌≡◌, ◌≤◌, ◌<◌, ◌+◌, ◌^◌, ◌&&◌, length, IfSome, option_copied};
ghost use Rattle.event_cells.specs.Keeps.{is_empty};
ghost use Rattle.event_cells.specs.inner.Releases.{keeps, releases, sent_on};

use crate::held::{Held, Hold};
use crate::outbox::{Envelope, Outbox};
use crate::status::Status;
use migration_core::Letter;
use wave_base::Path;

// What is kept of an event that is not done.
#[derive(Drop)]
pub(crate) struct Live<A> {
    // The code that is still to run, which is away while a worker has it, and is dropped once the event has ended.
    pub(crate) actor: Option<A>,
    // The contexts that it holds.
    pub(crate) held: Held,
    // The mails that it sent.
    pub(crate) outbox: Outbox,
    // How far it has come.
    pub(crate) status: Status,
}

impl<A: Drop> Live<A> {
    ghost use Rattle.event_cells.specs.Cells.{is_over};
    ghost use Rattle.event_cells.specs.inner.Lives.{IsAtRest};

    // Whether it has ended, and no mail of it is under way.
    pub(crate) fn is_done(&self) -> bool
        ensures { result ≡ (is_over self.now.status && is_empty self.now.outbox.mails) }
    {
        match self.status {
            Status::Ended => self.outbox.as_slice().is_empty(),
            _ => false,
        }
    }

    // How many mails it sent, where nothing else of it is left.
    pub(crate) fn rest(&self) -> Option<u32>
        ensures { IfSome result (λ n. IsAtRest self.now n) }
    {
        if self.is_done() && self.actor.is_none() && self.held.as_slice().is_empty() {
            return Some(self.outbox.sent_count());
        }
        None
    }
}

// Sends a Release for each of these contexts that is not in the subtree of `top`.
pub(crate) fn release(held: &[(Path, Hold)], outbox: &mut Outbox, top: Option<&Path>)
    requires room { length held.now ≤ outbox.old.room }
    requires numbers { outbox.old.sent + length held.now < 2 ^ 32 }
    ensures sent { outbox.new.sent ≡ outbox.old.sent + length (releases (keeps (option_copied top.entry)) held.now) }
    ensures mails { outbox.new.mails ≡ sent_on outbox.old.mails outbox.old.sent (releases (keeps (option_copied top.entry)) held.now) }
    ensures few { length outbox.new.mails ≤ length outbox.old.mails + length held.now }
{
    for &(path, hold) in held {
        if !keeps(top, &path) {
            outbox.send(Envelope {
                to: hold.host,
                path,
                letter: Letter::Release,
            });
        }
    }
}

// Whether a context is in the subtree of `top`, where there is one.
fn keeps(top: Option<&Path>, path: &Path) -> bool
    ensures { result ≡ keeps (option_copied top.entry) path.now }
{
    match top {
        Some(top) => top.is_above(path),
        None => false,
    }
}
