//! The labels that begin and end a segment: a Start leases the actor and the record out, and a Stop puts them back.

ghost use Rattle.std.specs.Prelude.{◌≡◌, ◌+◌, ◌-◌, ℕ, Some, true, is_some, length, slice_get, IfOk, IfErr, OnOk, OnErr};
ghost use Rattle.wave_base.specs.declared.pause.Pause.{Pause};
ghost use Rattle.wave_states.specs.Labels.{Start};
ghost use Rattle.code_actor.specs.CodeActors.{Fields};
ghost use Rattle.context_queue.specs.Entries.{record_of};
ghost use Rattle.event_cells.specs.Cells.{StandsFor};
ghost use Rattle.event_cells.specs.declared.cell.Cell as cells;
ghost use Rattle.wave_labels.specs.Labels.{label_of};
ghost use Rattle.wave_states.specs.Desks.{Desk};
ghost use Rattle.wave_effects.specs.Actors.{MayRun, peeks_now};
ghost use Rattle.wave_effects.specs.Machines.{IsEnabled, Keeps, Takes};
ghost use Rattle.wave_effects.specs.Running.{CanStop, IsCopy, IsStopping, Leases, Stops, stop_of};
ghost use Rattle.wave_effects.specs.declared.actor.Actor as actors;
ghost use Rattle.wave_effects.specs.Apart.{Moves};
ghost use Rattle.wave_effects.specs.Keeping.{place_in};
ghost use Rattle.wave_effects.specs.inner.Leaving.{CanGoOn, Tells, onward};
ghost use Rattle.wave_effects.specs.Spare.{HasPlace, IsAsLong, RoomToStop, SameButRooms};

use crate::engine::Engine;
use crate::hands::segments_are_known;
use crate::kept::Out;
use crate::laws::states_are_known;
use crate::lease::Lease;
use crate::leaving::{aim, leave, settle};
use crate::records::{copied, only_looks, take_record};
use crate::refused::Refused;
use event_cells::Envelope;
use host_map::place_of;
use std::alloc::Global;
use wave_base::{Host, OutOfMemory, Path, Pause, Record, Ticket, Worker};
use wave_labels::{Act, Label};

impl<'p> Engine<'p> {
    ghost use Rattle.wave_effects.specs.Keeping.{kept_of};

    // The copy that a Start needs: of the fields, where the ticket only looks.
    pub(crate) fn prepare_start(
        &self,
        alloc: Global,
        host: Host,
        ticket: Ticket,
        path: &Path,
    ) -> Result<Option<Record>, OutOfMemory>
        requires { (w : ℕ) × IsEnabled (kept_of self.now) (record { worker = w; host = host.0; act = Start ticket.0 path.now }) }
        ensures { IfOk result (λ copy. IsCopy (kept_of self.now) host.0 ticket.0 path.now copy) }
    {
        states_are_known();
        let cell = &self.cells[(ticket.0 - self.first) as usize];
        if !only_looks(cell, path) {
            return Ok(None);
        }
        match self.stores[host.0 as usize].entry(path) {
            Some(entry) => copied(alloc, entry),
            None => Ok(None),
        }
    }

    // Start: the actor goes to the worker, and with it the record, or the copy.
    pub(crate) fn start(
        &mut self,
        worker: Worker,
        host: Host,
        ticket: Ticket,
        path: &Path,
        copy: Option<Record>,
    ) -> Lease
        requires enabled { IsEnabled (kept_of self.old) (record { worker = worker.0; host = host.0; act = Start ticket.0 path.now }) }
        requires part { IsCopy (kept_of self.old) host.0 ticket.0 path.now copy }
        ensures takes { Takes (kept_of self.old) (kept_of self.new) (record { worker = worker.0; host = host.0; act = Start ticket.0 path.now }) }
        ensures moves { Moves (kept_of self.old) (kept_of self.new) (record { worker = worker.0; host = host.0; act = Start ticket.0 path.now }) 0 }
        ensures leases { Leases (kept_of self.old) (record { worker = worker.0; host = host.0; act = Start ticket.0 path.now }) result }
        ensures may_run { MayRun self.new.plan.now.program result.actor result.body }
        ensures worker { result.worker ≡ worker }
        ensures plan { self.new.plan ≡ self.old.plan }
    {
        states_are_known();
        segments_are_known();
        let cell = &mut self.cells[(ticket.0 - self.first) as usize];
        let actor = cell.start(*path).unwrap();
        let store = &mut self.stores[host.0 as usize];
        let entry = store.entry_mut(path);
        let body = take_record(entry, copy);
        self.hands[worker.0 as usize] = Some(Out {
            ticket,
            path: *path,
        });
        Lease {
            worker,
            ticket,
            path: *path,
            actor,
            body,
        }
    }

    // Room for what a Stop at a host may leave.
    fn reserve_stop(&mut self, host: Host, ticket: Ticket) -> Result<(), OutOfMemory>
        requires { HasPlace (kept_of self.old) host.0 ticket.0 }
        ensures room { OnOk result (RoomToStop (kept_of self.new) host.0 ticket.0) }
        ensures same { SameButRooms (kept_of self.old) (kept_of self.new) }
        ensures long { IsAsLong self.old self.new }
        ensures plan { self.new.plan ≡ self.old.plan }
    {
        let cell = &mut self.cells[(ticket.0 - self.first) as usize];
        let mails = cell.holds().len() + 1;
        cell.reserve(mails)?;
        self.stores[host.0 as usize].reserve()?;
        self.commits.reserve()
    }

    // All for which a Stop wants memory: room, the mail by which the actor goes on, and in the lease's record a child's number.
    fn prepare_stop(
        &mut self,
        host: Host,
        lease: &mut Lease,
        pause: &Pause,
    ) -> Result<Option<Envelope>, OutOfMemory>
        requires place { HasPlace (kept_of self.old) host.0 lease.old.ticket.0 }
        requires near { CanGoOn lease.old.path lease.old.body.children pause.now }
        ensures room { OnOk result (RoomToStop (kept_of self.new) host.0 lease.old.ticket.0) }
        ensures same { SameButRooms (kept_of self.old) (kept_of self.new) }
        ensures long { IsAsLong self.old self.new }
        ensures plan { self.new.plan ≡ self.old.plan }
        ensures mail { IfOk result (λ mail. (c : cells.Cell actors.Actor) → slice_get self.new.cells.items (lease.old.ticket.0 - self.new.first) ≡ Some c → (d : Desk actors.Actor Fields) → StandsFor c d
            → Tells (onward host.0 lease.old.path (record_of lease.old.body) d.event.held (peeks_now lease.old.actor) pause.now) lease.old.body mail lease.new.body) }
        ensures lease { lease.new ≡ record { worker = lease.old.worker; ticket = lease.old.ticket; path = lease.old.path; actor = lease.old.actor; body = lease.new.body } }
        ensures err { OnErr result (lease.new ≡ lease.old) }
    {
        self.reserve_stop(host, lease.ticket)?;
        let cell = &self.cells[(lease.ticket.0 - self.first) as usize];
        let peek = lease.actor.peeking();
        aim(cell, host, &lease.path, &mut lease.body, peek, pause)
    }

    /// The host that has the context of a segment that is out, where its Stop is taken.
    pub fn host_of(&self, lease: &Lease) -> Host
        requires { (why : Pause) × IsStopping (kept_of self.now) lease.now why }
        ensures { place_in (kept_of self.now).stores lease.now.path ≡ Some result.0 }
    {
        states_are_known();
        segments_are_known();
        place_of(self.stores.as_slice(), &lease.path).unwrap()
    }

    /// Stop, at the host that has the context: what memory is wanted for is made first, and then the actor and the record are put back, and
    /// what follows goes by the pause.
    pub fn stop(&mut self, host: Host, mut lease: Lease, pause: Pause) -> Result<Label, Refused>
        requires stopping { IsStopping (kept_of self.old) lease pause }
        requires place { place_in (kept_of self.old).stores lease.path ≡ Some host.0 }
        ensures label { IfOk result (λ l. label_of l ≡ stop_of lease l.host.0) }
        ensures host { IfOk result (λ l. l.host ≡ host) }
        ensures enabled { IfOk result (λ l. CanStop (kept_of self.old) lease pause l.host.0) }
        ensures stops { IfOk result (λ l. Stops (kept_of self.old) lease pause l.host.0 (kept_of self.new)) }
        ensures moves { IfOk result (λ l. (c : cells.Cell actors.Actor) → slice_get (kept_of self.old).cells (lease.ticket.0 - self.old.first) ≡ Some c → Moves (kept_of self.old) (kept_of self.new) (label_of l) (1 + length c.held.holds)) }
        ensures refused { IfErr result (λ r. (r.lease ≡ lease) × (r.pause ≡ pause)) }
        ensures keeps { OnErr result (Keeps (kept_of self.old) (kept_of self.new)) }
        ensures same { OnErr result (SameButRooms (kept_of self.old) (kept_of self.new)) }
        ensures long { OnErr result (IsAsLong self.old self.new) }
        ensures plan { self.new.plan ≡ self.old.plan }
    {
        states_are_known();
        segments_are_known();
        let (worker, ticket, path) = (lease.worker, lease.ticket, lease.path);
        let mail = match self.prepare_stop(host, &mut lease, &pause) {
            Ok(mail) => mail,
            Err(error) => {
                return Err(Refused {
                    lease,
                    pause,
                    error,
                });
            }
        };
        let cell = &mut self.cells[(ticket.0 - self.first) as usize];
        let store = &mut self.stores[host.0 as usize];
        let result = leave(cell, store, host, lease, pause, mail);
        settle(&mut self.commits, ticket, result);
        self.hands[worker.0 as usize] = None;
        let act = Act::Stop(ticket, path);
        Ok(Label { worker, host, act })
    }
}
