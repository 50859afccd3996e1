//! The room and the parts that the labels of one context ask for, made before they are taken. What is made changes no state.

ghost use Rattle.std.specs.Prelude.{ℕ, ◌≡◌, IfOk, OnOk};
ghost use Rattle.wave_states.specs.Labels.{Grant, Land, Queue};
ghost use Rattle.wave_effects.specs.Machines.{IsEnabled, Keeps};
ghost use Rattle.wave_effects.specs.Apart.{AsksTheSame};

use crate::engine::Engine;
use crate::first::first_entry;
use crate::laws::states_are_known;
use context_queue::Entry;
use std::alloc::Global;
use wave_base::{Host, OutOfMemory, Path, Ticket};
use wave_labels::MailId;

impl<'p> Engine<'p> {
    ghost use Rattle.wave_effects.specs.Keeping.{kept_of, RoomToGrant, RoomToLand};
    ghost use Rattle.wave_effects.specs.Rooms.{PartToQueue};

    // Room for one more context that the ticket holds, and for one more that only looks.
    pub(crate) fn prepare_grant(
        &mut self,
        host: Host,
        ticket: Ticket,
        path: &Path,
    ) -> Result<(), OutOfMemory>
        requires { (w : ℕ) × IsEnabled (kept_of self.old) (record { worker = w; host = host.0; act = Grant ticket.0 path.now }) }
        ensures room { OnOk result (RoomToGrant (kept_of self.new) host.0 ticket.0 path.now) }
        ensures keeps { Keeps (kept_of self.old) (kept_of self.new) }
        ensures asks { AsksTheSame (kept_of self.old) (kept_of self.new) }
        ensures plan { self.new.plan ≡ self.old.plan }
    {
        states_are_known();
        let cell = &mut self.cells[(ticket.0 - self.first) as usize];
        cell.reserve(0)?;
        let store = &mut self.stores[host.0 as usize];
        store.entry_mut(path).reserve_peek()
    }

    // Room for one more context.
    pub(crate) fn prepare_land(
        &mut self,
        host: Host,
        mail: MailId,
        path: &Path,
    ) -> Result<(), OutOfMemory>
        requires { (w : ℕ) × IsEnabled (kept_of self.old) (record { worker = w; host = host.0; act = Land mail.ticket.0 mail.number path.now }) }
        ensures room { OnOk result (RoomToLand (kept_of self.new) host.0) }
        ensures keeps { Keeps (kept_of self.old) (kept_of self.new) }
        ensures asks { AsksTheSame (kept_of self.old) (kept_of self.new) }
        ensures plan { self.new.plan ≡ self.old.plan }
    {
        states_are_known();
        let store = &mut self.stores[host.0 as usize];
        store.reserve()
    }

    // Room in the line of a context that is here; one that is not is born: its first entry, and room for it.
    pub(crate) fn prepare_queue(
        &mut self,
        alloc: Global,
        host: Host,
        mail: MailId,
        path: &Path,
    ) -> Result<Option<Entry>, OutOfMemory>
        requires { (w : ℕ) × IsEnabled (kept_of self.old) (record { worker = w; host = host.0; act = Queue mail.ticket.0 mail.number path.now }) }
        ensures part { IfOk result (PartToQueue (kept_of self.new) host.0 path.now) }
        ensures keeps { Keeps (kept_of self.old) (kept_of self.new) }
        ensures asks { AsksTheSame (kept_of self.old) (kept_of self.new) }
        ensures plan { self.new.plan ≡ self.old.plan }
    {
        states_are_known();
        let program = self.plan.program.program();
        let store = &mut self.stores[host.0 as usize];
        if store.has(path) {
            store.entry_mut(path).reserve(1)?;
            return Ok(None);
        }
        store.reserve()?;
        Ok(Some(first_entry(alloc, &program.shape, path)?))
    }
}
