//! The code of a move.

ghost use Rattle.std.specs.Prelude.{◌≡◌, ◌<◌, [], length, drop};
ghost use Rattle.migration_core.specs.Movers.{pause_of, start_of};
ghost use Rattle.migration_core.specs.inner.Next.{without_first};
ghost use Rattle.wave_states.specs.Movers.{advance};
ghost use Rattle.wave_states.specs.States.{steps_of};
ghost use Rattle.wave_states.specs.Walkers.{first_of};

use std::alloc::Global;
use std::marker::Model;
use wave_base::{EventResult, Host, Outcome, Path, Pause, Record, Seq, Step, Ticket};

/// The code of a move: it goes down to a context, and sends it to a host.
#[derive(Drop)]
pub struct Mover {
    ticket: Ticket,
    path: Path,
    to: Host,
    // how many steps of the path it has gone
    gone: usize,
}

impl Model for Mover {
    ghost use Rattle.std.specs.Prelude.{◌≤◌, length, drop};
    ghost use Rattle.migration_core.specs.Movers.{Moving};

    ghost Value = { Moving };

    ghost view = { λ a. record { ticket = a.ticket.0; mover = record { move = record { path = a.path; to = a.to.0 }; rest = drop a.gone a.path } } };

    ghost invariant = { λ a. a.gone ≤ length a.path };
}

impl Mover {
    /// The mover of a ticket, at the root.
    pub fn new(ticket: Ticket, path: Path, to: Host) -> Mover
        ensures ticket { result.ticket ≡ ticket.0 }
        ensures mover { result.mover ≡ start_of path to.0 }
    {
        Mover {
            ticket,
            path,
            to,
            gone: 0,
        }
    }

    /// Its ticket.
    pub fn ticket(&self) -> Ticket
        ensures { result.0 ≡ self.now.ticket }
    {
        self.ticket
    }

    // The next step.
    fn next(&self) -> Option<Step>
        ensures { result ≡ first_of self.now.mover.rest }
    {
        self.path.step(self.gone)
    }

    // One step more is gone.
    fn go_on(&mut self)
        requires { 0 < length self.old.mover.rest }
        ensures ticket { self.new.ticket ≡ self.old.ticket }
        ensures way { self.new.mover.move ≡ self.old.mover.move }
        ensures rest { self.new.mover.rest ≡ without_first self.old.mover.rest }
    {
        self.gone += 1;
    }
}

/// One segment of a mover, at the context where its way has brought it.
pub fn advance(alloc: Global, mover: &mut Mover, body: &Record) -> Pause
    ensures ticket { mover.new.ticket ≡ mover.old.ticket }
    ensures mover { mover.new.mover ≡ (advance mover.old.mover body.now.fields (steps_of body.now.children)).actor }
    ensures pause { result ≡ pause_of (advance mover.old.mover body.now.fields (steps_of body.now.children)).pause }
{
    match mover.next() {
        None => over(alloc, Outcome::Moved(mover.path, mover.to)),
        Some(step) if body.children.get(&step).is_some() => {
            mover.go_on();
            Pause::Go(step)
        }
        Some(_) => over(alloc, Outcome::Absent(mover.path)),
    }
}

// The end of a move.
fn over(alloc: Global, outcome: Outcome) -> Pause
    ensures { result ≡ Pause.Over (record { outcome = outcome; messages = []; created = [] }) }
{
    Pause::Over(EventResult {
        outcome,
        messages: Seq::new(alloc),
        created: Seq::new(alloc),
    })
}
