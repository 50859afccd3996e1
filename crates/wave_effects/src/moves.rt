//! The labels that move mail and contexts, and let events in: they touch one cell and one store.

ghost use Rattle.std.specs.Prelude.{ℕ, ◌≡◌};
ghost use Rattle.wave_states.specs.Labels.{Free, Grant, Land, Pass, Queue, Visit};
ghost use Rattle.wave_effects.specs.Machines.{IsEnabled, Takes};
ghost use Rattle.wave_effects.specs.Apart.{Moves};

use crate::engine::Engine;
use crate::finds::{asked_in, entry_in, next_peeks, number_in};
use crate::joining::line_up;
use crate::laws::states_are_known;
use context_queue::Entry;
use event_cells::{Envelope, Hold, Status};
use migration_core::{Letter, land};
use wave_base::{Host, Path, Ticket};
use wave_labels::MailId;

impl<'p> Engine<'p> {
    ghost use Rattle.wave_effects.specs.Keeping.{kept_of, RoomToGrant, RoomToLand};
    ghost use Rattle.wave_effects.specs.Rooms.{PartToQueue};

    // Visit: the mail is taken, and the event is ready.
    pub(crate) fn visit(&mut self, mail: MailId, path: &Path)
        requires { (w : ℕ) × (host : ℕ) × IsEnabled (kept_of self.old) (record { worker = w; host = host; act = Visit mail.ticket.0 mail.number path.now }) }
        ensures takes { (w host : ℕ) → Takes (kept_of self.old) (kept_of self.new) (record { worker = w; host = host; act = Visit mail.ticket.0 mail.number path.now }) }
        ensures moves { (w host : ℕ) → Moves (kept_of self.old) (kept_of self.new) (record { worker = w; host = host; act = Visit mail.ticket.0 mail.number path.now }) 0 }
        ensures plan { self.new.plan ≡ self.old.plan }
    {
        states_are_known();
        let cell = &mut self.cells[(mail.ticket.0 - self.first) as usize];
        let _ = cell.take_mail(mail.number);
        cell.set_status(Status::Ready(*path));
    }

    // Free: the mail is taken, and the ticket no longer holds the context.
    pub(crate) fn free(&mut self, host: Host, mail: MailId, path: &Path)
        requires { (w : ℕ) × IsEnabled (kept_of self.old) (record { worker = w; host = host.0; act = Free mail.ticket.0 mail.number path.now }) }
        ensures takes { (w : ℕ) → Takes (kept_of self.old) (kept_of self.new) (record { worker = w; host = host.0; act = Free mail.ticket.0 mail.number path.now }) }
        ensures moves { (w : ℕ) → Moves (kept_of self.old) (kept_of self.new) (record { worker = w; host = host.0; act = Free mail.ticket.0 mail.number path.now }) 0 }
        ensures plan { self.new.plan ≡ self.old.plan }
    {
        states_are_known();
        let cell = &mut self.cells[(mail.ticket.0 - self.first) as usize];
        let _ = cell.take_mail(mail.number);
        let store = &mut self.stores[host.0 as usize];
        store.entry_mut(path).free(mail.ticket);
    }

    // Grant: the next in line gets in, and is ready.
    pub(crate) fn grant(&mut self, host: Host, ticket: Ticket, path: &Path)
        requires enabled { (w : ℕ) × IsEnabled (kept_of self.old) (record { worker = w; host = host.0; act = Grant ticket.0 path.now }) }
        requires room { RoomToGrant (kept_of self.old) host.0 ticket.0 path.now }
        ensures takes { (w : ℕ) → Takes (kept_of self.old) (kept_of self.new) (record { worker = w; host = host.0; act = Grant ticket.0 path.now }) }
        ensures moves { (w : ℕ) → Moves (kept_of self.old) (kept_of self.new) (record { worker = w; host = host.0; act = Grant ticket.0 path.now }) 0 }
        ensures plan { self.new.plan ≡ self.old.plan }
    {
        states_are_known();
        let store = &mut self.stores[host.0 as usize];
        let entry = store.entry_mut(path);
        let peek = next_peeks(entry);
        let _ = entry.grant();
        let cell = &mut self.cells[(ticket.0 - self.first) as usize];
        cell.let_in(*path, Hold { host, peek });
    }

    // Land: the mail is taken, and the context joins the store; nobody holds it.
    pub(crate) fn land(&mut self, host: Host, mail: MailId, path: &Path)
        requires enabled { (w : ℕ) × IsEnabled (kept_of self.old) (record { worker = w; host = host.0; act = Land mail.ticket.0 mail.number path.now }) }
        requires room { RoomToLand (kept_of self.old) host.0 }
        ensures takes { (w : ℕ) → Takes (kept_of self.old) (kept_of self.new) (record { worker = w; host = host.0; act = Land mail.ticket.0 mail.number path.now }) }
        ensures moves { (w : ℕ) → Moves (kept_of self.old) (kept_of self.new) (record { worker = w; host = host.0; act = Land mail.ticket.0 mail.number path.now }) 0 }
        ensures plan { self.new.plan ≡ self.old.plan }
    {
        states_are_known();
        let cell = &mut self.cells[(mail.ticket.0 - self.first) as usize];
        let entry = entry_in(cell.take_mail(mail.number));
        let store = &mut self.stores[host.0 as usize];
        land(store, *path, entry);
    }

    // Pass: the Enter goes on to the mark's host, and has followed the mark's number.
    pub(crate) fn pass(&mut self, host: Host, mail: MailId, path: &Path, to: Host)
        requires { (w : ℕ) × IsEnabled (kept_of self.old) (record { worker = w; host = host.0; act = Pass mail.ticket.0 mail.number path.now to.0 }) }
        ensures takes { (w : ℕ) → Takes (kept_of self.old) (kept_of self.new) (record { worker = w; host = host.0; act = Pass mail.ticket.0 mail.number path.now to.0 }) }
        ensures moves { (w : ℕ) → Moves (kept_of self.old) (kept_of self.new) (record { worker = w; host = host.0; act = Pass mail.ticket.0 mail.number path.now to.0 }) 0 }
        ensures plan { self.new.plan ≡ self.old.plan }
    {
        states_are_known();
        let store = &self.stores[host.0 as usize];
        let followed = number_in(store.find(path));
        let cell = &mut self.cells[(mail.ticket.0 - self.first) as usize];
        let (number, peek) = asked_in(cell.mail(mail.number));
        let letter = Letter::Enter {
            number,
            followed,
            peek,
        };
        cell.redirect(
            mail.number,
            Envelope {
                to,
                path: *path,
                letter,
            },
        );
    }

    // Queue: the mail is taken, and the ticket waits under its entry number in the context, which is here or is born here.
    pub(crate) fn queue(&mut self, host: Host, mail: MailId, path: &Path, born: Option<Entry>)
        requires enabled { (w : ℕ) × IsEnabled (kept_of self.old) (record { worker = w; host = host.0; act = Queue mail.ticket.0 mail.number path.now }) }
        requires part { PartToQueue (kept_of self.old) host.0 path.now born }
        ensures takes { (w : ℕ) → Takes (kept_of self.old) (kept_of self.new) (record { worker = w; host = host.0; act = Queue mail.ticket.0 mail.number path.now }) }
        ensures moves { (w : ℕ) → Moves (kept_of self.old) (kept_of self.new) (record { worker = w; host = host.0; act = Queue mail.ticket.0 mail.number path.now }) 0 }
        ensures plan { self.new.plan ≡ self.old.plan }
    {
        states_are_known();
        let cell = &mut self.cells[(mail.ticket.0 - self.first) as usize];
        let (number, peek) = asked_in(cell.mail(mail.number));
        let _ = cell.take_mail(mail.number);
        cell.set_status(Status::Waiting(*path));
        let store = &mut self.stores[host.0 as usize];
        line_up(store, *path, born, number, mail.ticket, peek);
    }
}
