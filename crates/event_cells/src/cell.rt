//! An admitted ticket: what the machine knows of its event until it is committed.

ghost use Rattle.std.specs.Prelude.{◌≡◌, ◌≤◌, ◌<◌, ◌+◌, ◌^◌, ◌&&◌, [], length, List, Some, None, IsSome, IfOk, OnOk, false, option_copied, option_map};
ghost use Rattle.std.specs.BTreeMap.{insert_entry};
ghost use Rattle.std.specs.List.Sorted.{IsStrictlySortedBy};
ghost use Rattle.std.specs.Map.{keys_of};
ghost use Rattle.std.specs.Ordering.{nat_cmp};
ghost use Rattle.event_cells.specs.Keeps.{mail_in, is_empty};
ghost use Rattle.wave_base.specs.Paths.{is_above, path_cmp};
ghost use Rattle.wave_base.specs.declared.value.Value.{Value};
ghost use Rattle.wave_states.specs.States as theory;
ghost use Rattle.wave_states.specs.States.{hold_at};
ghost use Rattle.wave_states.specs.Desks.{Desk, send, give_up, kept_of, not_at};
ghost use Rattle.wave_states.specs.Steps.{after_end};

use crate::held::{Held, Hold};
use crate::live::{Live, release};
use crate::outbox::{Envelope, Outbox};
use crate::status::Status;
use migration_core::Letter;
use std::alloc::Global;
use std::marker::Model;
use wave_base::{Host, OutOfMemory, Path, Ticket};

/// What kind of job a ticket stands for.
#[derive(Clone, Copy, Debug, PartialEq, Eq)]
pub enum JobKind {
    /// An event of the service, by its number.
    Event(u16),
    /// A move.
    Move,
    /// A snapshot.
    Snapshot,
}

/// What the machine keeps of one admitted ticket: its event with its mails under way. Once it is done, so that it has ended and no mail
/// of it is under way, that is no more than how many mails it sent.
#[derive(Drop)]
pub struct Cell<A> {
    life: Life<A>,
}

// A machine keeps a cell for each ticket, for good, so what is large lies in a box, which is dropped once all is done.
#[derive(Drop)]
enum Life<A> {
    // An event that is not done.
    Live(Box<Live<A>>),
    // How many mails it sent.
    Done(u32),
}

const _: () = prove!(size_of::<Cell<u64>>() == 16);

impl<A> Model for Cell<A> {
    ghost use Rattle.event_cells.specs.Cards.{Card, card_code};

    ghost Value = { Card A };

    ghost coded = { card_code A.code };

    ghost use Rattle.event_cells.specs.inner.Lives.{card_of};

    ghost view = { λ c. card_of c.life };
}

impl<A: Drop> Cell<A> {
    ghost use Rattle.event_cells.specs.Cells.{StandsFor, SameButRooms, status_of, is_over, hold_of, with_actor, with_held, with_mail, first_desk, Carries, IsEnvelope};

    /// The cell of an event that was just admitted: an Enter goes to the root, under its ticket as its entry number.
    pub fn new(alloc: Global, ticket: Ticket, actor: A, peek: bool) -> Result<Cell<A>, OutOfMemory>
        ensures desk { IfOk result (λ c. StandsFor c (first_desk actor ticket.0 peek)) }
        ensures actor { IfOk result (λ c. c.actor ≡ Some actor) }
        ensures status { IfOk result (λ c. is_over c.status ≡ false) }
        ensures one_mail { IfOk result (λ c. length c.outbox.mails ≡ 1) }
    {
        let mut outbox = Outbox::new(alloc);
        outbox.reserve(1)?;
        let number = u64::from(ticket.0);
        outbox.send(Envelope {
            to: Host(0),
            path: Path::root(),
            letter: Letter::Enter {
                number,
                followed: 0,
                peek,
            },
        });
        let live = Live {
            actor: Some(actor),
            held: Held::new(alloc),
            outbox,
            status: Status::Travelling,
        };
        Ok(Cell {
            life: Life::Live(Box::new(alloc, live)?),
        })
    }

    /// How far it has come.
    pub fn status(&self) -> Status
        ensures { result ≡ self.now.status }
    {
        match &self.life {
            Life::Live(live) => live.status,
            Life::Done(_) => Status::Ended,
        }
    }

    /// How many mails it sent.
    pub fn sent_count(&self) -> u32
        ensures { result ≡ self.now.outbox.sent }
    {
        match &self.life {
            Life::Live(live) => live.outbox.sent_count(),
            Life::Done(sent) => *sent,
        }
    }

    /// The mails under way by their numbers, in ascending order.
    pub fn mails(&self) -> &[(u32, Envelope)]
        ensures mails { result.now ≡ self.now.outbox.mails }
        ensures ordered { IsStrictlySortedBy nat_cmp (keys_of result.now) }
    {
        match &self.life {
            Life::Live(live) => live.outbox.as_slice(),
            Life::Done(_) => &[],
        }
    }

    /// The mail of a number.
    pub fn mail(&self, number: u32) -> Option<&Envelope>
        ensures { option_copied result ≡ mail_in self.now.outbox.mails number }
    {
        match &self.life {
            Life::Live(live) => live.outbox.get(number),
            Life::Done(_) => None,
        }
    }

    /// What it holds, in the order of the paths.
    pub fn holds(&self) -> &[(Path, Hold)]
        ensures holds { result.now ≡ self.now.held.holds }
        ensures ordered { IsStrictlySortedBy path_cmp (keys_of result.now) }
    {
        match &self.life {
            Life::Live(live) => live.held.as_slice(),
            Life::Done(_) => &[],
        }
    }

    /// Makes room for so many more mails, and for one more context to hold.
    pub fn reserve(&mut self, mails: usize) -> Result<(), OutOfMemory>
        requires { is_over self.old.status ≡ false }
        ensures mails { OnOk result (mails ≤ self.new.outbox.room) }
        ensures held { OnOk result (1 ≤ self.new.held.room) }
        ensures mails_room { self.old.outbox.room ≤ self.new.outbox.room }
        ensures held_room { self.old.held.room ≤ self.new.held.room }
        ensures same { SameButRooms self.old self.new }
    {
        match &mut self.life {
            Life::Live(live) => {
                live.outbox.reserve(mails)?;
                live.held.reserve()
            }
            Life::Done(_) => unreachable!(),
        }
    }

    /// Takes a mail out.
    pub fn take_mail(&mut self, number: u32) -> Option<Envelope>
        ensures mail { (d : Desk A (List Value)) → StandsFor self.old d → Carries result (d.mails number) }
        ensures desk { (d : Desk A (List Value)) → StandsFor self.old d → StandsFor self.new (with_mail d number None) }
        ensures fewer_mails { length self.new.outbox.mails ≤ length self.old.outbox.mails }
        ensures actor { self.new.actor ≡ self.old.actor }
        ensures status { self.new.status ≡ self.old.status }
        ensures held { self.new.held.holds ≡ self.old.held.holds }
    {
        let Life::Live(live) = &mut self.life else {
            return None;
        };
        let envelope = live.outbox.take(number);
        self.rest();
        envelope
    }

    // Once all is done, no more is kept than how many mails it sent.
    fn rest(&mut self)
        ensures same { SameButRooms self.old self.new }
    {
        let rest = match &self.life {
            Life::Live(live) => live.rest(),
            Life::Done(_) => None,
        };
        if let Some(sent) = rest {
            self.life = Life::Done(sent);
        }
    }

    /// A mail that is under way goes to another host, with another letter.
    pub fn redirect(&mut self, number: u32, envelope: Envelope)
        requires { IsSome (mail_in self.old.outbox.mails number) }
        ensures desk { (d : Desk A (List Value)) (m : theory.Mail (List Value)) → StandsFor self.old d → IsEnvelope envelope m → StandsFor self.new (with_mail d number (Some m)) }
        ensures as_many_mails { length self.new.outbox.mails ≡ length self.old.outbox.mails }
        ensures mails_room { self.old.outbox.room ≤ self.new.outbox.room }
        ensures actor { self.new.actor ≡ self.old.actor }
        ensures status { self.new.status ≡ self.old.status }
        ensures held { self.new.held ≡ self.old.held }
    {
        match &mut self.life {
            Life::Live(live) => live.outbox.replace(number, envelope),
            Life::Done(_) => unreachable!(),
        }
    }

    /// An event that has not ended has another status.
    pub fn set_status(&mut self, status: Status)
        requires { is_over self.old.status ≡ false }
        ensures desk { (d : Desk A (List Value)) → is_over self.old.status ≡ false → StandsFor self.old d → StandsFor self.new (with_actor d d.event.actor (status_of status)) }
        ensures actor { self.new.actor ≡ self.old.actor }
        ensures held { self.new.held ≡ self.old.held }
        ensures outbox { self.new.outbox ≡ self.old.outbox }
        ensures status { self.new.status ≡ status }
    {
        match &mut self.life {
            Life::Live(live) => live.status = status,
            Life::Done(_) => unreachable!(),
        }
    }

    /// An event that has not ended holds a context from now on, and is ready there.
    pub fn let_in(&mut self, path: Path, hold: Hold)
        requires { 1 ≤ self.old.held.room }
        ensures desk { (d : Desk A (List Value)) → is_over self.old.status ≡ false → StandsFor self.old d → StandsFor self.new (with_actor (with_held d (insert_entry path_cmp d.event.held path (hold_of hold))) d.event.actor (theory.Ready path)) }
        ensures actor { self.new.actor ≡ self.old.actor }
        ensures outbox { self.new.outbox ≡ self.old.outbox }
        ensures status { self.new.status ≡ Status.Ready path }
    {
        match &mut self.life {
            Life::Live(live) => {
                let live: &mut Live<A> = live;
                live.held.put(path, hold);
                live.status = Status::Ready(path);
            }
            Life::Done(_) => unreachable!(),
        }
    }

    /// How a context is held.
    pub fn hold(&self, path: &Path) -> Option<Hold>
        ensures { (d : Desk A (List Value)) → StandsFor self.now d → option_map hold_of result ≡ hold_at d.event.held path.now }
    {
        match &self.life {
            Life::Live(live) => live.held.get(path),
            Life::Done(_) => None,
        }
    }

    /// A worker takes the actor, and runs it at a context.
    pub fn start(&mut self, path: Path) -> Option<A>
        requires { is_over self.old.status ≡ false }
        ensures actor { (d : Desk A (List Value)) → StandsFor self.old d → result ≡ d.event.actor }
        ensures desk { (d : Desk A (List Value)) → StandsFor self.old d → StandsFor self.new (with_actor d None (theory.Running path)) }
        ensures away { self.new.actor ≡ None }
        ensures taken { result ≡ self.old.actor }
        ensures outbox { self.new.outbox ≡ self.old.outbox }
        ensures held { self.new.held ≡ self.old.held }
        ensures status { self.new.status ≡ Status.Running path }
    {
        match &mut self.life {
            Life::Live(live) => {
                live.status = Status::Running(path);
                live.actor.take()
            }
            Life::Done(_) => unreachable!(),
        }
    }

    /// The actor comes back, and the event travels.
    pub fn put_back(&mut self, actor: A)
        requires { is_over self.old.status ≡ false }
        ensures desk { (d : Desk A (List Value)) → StandsFor self.old d → StandsFor self.new (with_actor d (Some actor) theory.Travelling) }
        ensures actor { self.new.actor ≡ Some actor }
        ensures outbox { self.new.outbox ≡ self.old.outbox }
        ensures held { self.new.held ≡ self.old.held }
        ensures status { self.new.status ≡ Status.Travelling }
    {
        match &mut self.life {
            Life::Live(live) => {
                live.actor = Some(actor);
                live.status = Status::Travelling;
            }
            Life::Done(_) => unreachable!(),
        }
    }

    /// Sends a mail to a host, for a context.
    pub fn send(&mut self, envelope: Envelope)
        requires room { 1 ≤ self.old.outbox.room }
        requires number { self.old.outbox.sent + 1 < 2 ^ 32 }
        ensures desk { (d : Desk A (List Value)) (m : theory.Mail (List Value)) → StandsFor self.old d → IsEnvelope envelope m → StandsFor self.new (send d m) }
        ensures one_mail_more { length self.new.outbox.mails ≡ length self.old.outbox.mails + 1 }
        ensures mails_room { self.old.outbox.room ≤ self.new.outbox.room + 1 }
        ensures sent { self.new.outbox.sent ≡ self.old.outbox.sent + 1 }
        ensures actor { self.new.actor ≡ self.old.actor }
        ensures held { self.new.held ≡ self.old.held }
        ensures status { self.new.status ≡ self.old.status }
    {
        match &mut self.life {
            Life::Live(live) => live.outbox.send(envelope),
            Life::Done(_) => unreachable!(),
        }
    }

    /// No longer holds a context, without a Release.
    pub fn let_go(&mut self, path: &Path)
        ensures desk { (d : Desk A (List Value)) → StandsFor self.old d → StandsFor self.new (with_held d (kept_of (not_at path.now) d.event.held)) }
        ensures actor { self.new.actor ≡ self.old.actor }
        ensures outbox { self.new.outbox ≡ self.old.outbox }
        ensures fewer { length self.new.held.holds ≤ length self.old.held.holds }
        ensures status { self.new.status ≡ self.old.status }
    {
        let Life::Live(live) = &mut self.life else {
            return;
        };
        live.held.remove(path);
    }

    /// Gives up all that it holds outside the subtree of a context: a Release for each, in the order of the paths.
    pub fn release_outside(&mut self, top: &Path)
        requires room { length self.old.held.holds ≤ self.old.outbox.room }
        requires numbers { self.old.outbox.sent + length self.old.held.holds < 2 ^ 32 }
        ensures desk { (d : Desk A (List Value)) → StandsFor self.old d → StandsFor self.new (give_up (is_above top.now) d) }
        ensures few_mails { length self.new.outbox.mails ≤ length self.old.outbox.mails + length self.old.held.holds }
        ensures actor { self.new.actor ≡ self.old.actor }
        ensures status { self.new.status ≡ self.old.status }
        ensures fewer { length self.new.held.holds ≤ length self.old.held.holds }
    {
        let Life::Live(live) = &mut self.life else {
            return;
        };
        let live: &mut Live<A> = live;
        release(live.held.as_slice(), &mut live.outbox, Some(top));
        live.held.keep_below(top);
    }

    /// Has a result: gives up all that it holds, a Release for each in the order of the paths, and drops its actor.
    pub fn end(&mut self)
        requires room { length self.old.held.holds ≤ self.old.outbox.room }
        requires numbers { self.old.outbox.sent + length self.old.held.holds < 2 ^ 32 }
        ensures desk { (d : Desk A (List Value)) → StandsFor self.old d → StandsFor self.new (after_end d) }
        ensures few_mails { length self.new.outbox.mails ≤ length self.old.outbox.mails + length self.old.held.holds }
        ensures actor { self.new.actor ≡ None }
        ensures status { self.new.status ≡ Status.Ended }
        ensures held { self.new.held.holds ≡ [] }
    {
        let Life::Live(live) = &mut self.life else {
            return;
        };
        let live: &mut Live<A> = live;
        release(live.held.as_slice(), &mut live.outbox, None);
        live.held.clear();
        live.actor = None;
        live.status = Status::Ended;
        self.rest();
    }

    /// Whether all of it is done: it has ended, and no mail of it is under way.
    pub fn is_done(&self) -> bool
        ensures { result ≡ (is_over self.now.status && is_empty self.now.outbox.mails) }
    {
        match &self.life {
            Life::Live(live) => live.is_done(),
            Life::Done(_) => true,
        }
    }
}
