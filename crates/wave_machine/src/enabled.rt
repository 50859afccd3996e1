//! What can be done, in the canonical order: what is listed, with the worker that takes it, and the Stops between Start and Free.

ghost use Rattle.std.specs.Prelude.{◌≡◌, ◌≤◌, ◌<◌, ◌+◌, ◌-◌, ◌++◌, map, length, is_none, IfOk, OnOk, IfSome, Some, None, option_map, slice_get};
ghost use Rattle.wave_base.specs.declared.start.Start.{Start};
ghost use Rattle.wave_base.specs.Fold.{tickets_from};
ghost use Rattle.wave_labels.specs.Labels.{label_of};
ghost use Rattle.wave_states.specs.Canonical.{taken_as};
ghost use Rattle.wave_effects.specs.Keeping.{kept_of};
ghost use Rattle.wave_effects.specs.Machines.{Stands, TheState};
ghost use Rattle.wave_machine.specs.Readies.{choice_of, enabled_by, enabled_in};
ghost use Rattle.wave_machine.specs.inner.Asking.{asked_in, by_taker, in_order, stop_labels, stops_labels};
ghost use Rattle.wave_effects.specs.Sized.{IsListable};
ghost use Rattle.wave_machine.specs.inner.Done.{AreDone};
ghost use Rattle.wave_machine.specs.inner.Index.{IsListed};

use crate::adding::add;
use crate::asking::stop_label;
use crate::index::place;
use crate::listable::states_list;
use crate::listed::Listed;
use crate::order::STOP;
use crate::ready::Ready;
use crate::takers::{Takers, lowest_idle, own_takers};
use event_cells::Status;
use host_map::place_of;
use wave_base::{Host, OutOfMemory, Seq, Ticket, Worker};
use wave_effects::{Engine, Out, heads_are_known, states_are_known};
use wave_labels::Label;

impl<'p> Listed<'p> {
    // What can be done: all but the Stops by the lowest idle worker.
    pub(crate) fn enabled_labels(&self) -> Result<Seq<Label>, OutOfMemory>
        requires stands { (start : Start) × (s : TheState) × Stands (kept_of self.now.engine) start s }
        requires listed { IsListed self.now }
        ensures { IfOk result (λ ls. (start : Start) (s : TheState) → Stands (kept_of self.now.engine) start s → map label_of ls ≡ enabled_in (kept_of self.now.engine).plan s) }
    {
        states_are_known();
        heads_are_known();
        states_list();
        let takers = Takers {
            idle: lowest_idle(&self.engine.hands),
            from: 0,
            to: self.engine.plan.workers,
        };
        self.listing(takers)
    }

    // What a worker can do.
    pub(crate) fn enabled_for(&self, worker: Worker) -> Result<Seq<Label>, OutOfMemory>
        requires stands { (start : Start) × (s : TheState) × Stands (kept_of self.now.engine) start s }
        requires listed { IsListed self.now }
        ensures { IfOk result (λ ls. (start : Start) (s : TheState) → Stands (kept_of self.now.engine) start s → map label_of ls ≡ enabled_by (kept_of self.now.engine).plan s worker.0) }
    {
        states_are_known();
        heads_are_known();
        states_list();
        match is_idle(&self.engine, worker) {
            Some(idle) => self.listing(own_takers(worker, idle)),
            None => Ok(Seq::new(*self.index.allocator())),
        }
    }

    // What the takers can do, in order.
    fn listing(&self, takers: Takers) -> Result<Seq<Label>, OutOfMemory>
        requires listable { IsListable (kept_of self.now.engine) }
        requires listed { IsListed self.now }
        ensures { IfOk result (λ ls. map label_of ls ≡ in_order (asked_in (kept_of self.now.engine) (option_map (λ w. w.0) takers.idle) (tickets_from takers.from (takers.to - takers.from)))) }
    {
        let mut labels = Vec::new(*self.index.allocator());
        let index = self.index.as_slice();
        let (early, late) = index.split_at(place(index, STOP, Ticket(0), 0));
        add_all(&mut labels, takers.idle, early)?;
        ask_all_stops(&self.engine, takers, self.done, &mut labels)?;
        add_all(&mut labels, takers.idle, late)?;
        Ok(Seq::from_vec(labels))
    }
}

// Adds what the idle worker takes, where there is one.
fn add_all(
    labels: &mut Vec<Label>,
    idle: Option<Worker>,
    ready: &[Ready],
) -> Result<(), OutOfMemory>
    ensures { OnOk result (map label_of labels.new.items ≡ map label_of labels.old.items ++ by_taker (option_map (λ w. w.0) idle) (λ w. map (λ r. taken_as w (choice_of r)) ready.now)) }
{
    match idle {
        Some(worker) => add_by(labels, worker, ready),
        None => Ok(()),
    }
}

fn add_by(labels: &mut Vec<Label>, worker: Worker, ready: &[Ready]) -> Result<(), OutOfMemory>
    ensures { OnOk result (map label_of labels.new.items ≡ map label_of labels.old.items ++ map (λ r. taken_as worker.0 (choice_of r)) ready.now) }
{
    for one in ready {
        add(labels, Some(one.by(worker)))?;
    }
    Ok(())
}

// Whether a worker has no segment out; none where there is no such worker.
fn is_idle(engine: &Engine, worker: Worker) -> Option<bool>
    ensures idle { result ≡ option_map is_none (slice_get engine.now.hands.items worker.0) }
    ensures within { IfSome result (λ _. worker.0 < length engine.now.hands.items) }
{
    match engine.hands.get(worker.0 as usize) {
        Some(hand) => Some(hand.is_none()),
        None => None,
    }
}

// The Stops of all tickets. The first ones, so many, are done.
fn ask_all_stops(
    engine: &Engine,
    takers: Takers,
    done: usize,
    labels: &mut Vec<Label>,
) -> Result<(), OutOfMemory>
    requires listable { IsListable (kept_of engine.now) }
    requires done { AreDone (kept_of engine.now) done }
    ensures { OnOk result (map label_of labels.new.items ≡ map label_of labels.old.items ++ asked_in (kept_of engine.now) None (tickets_from takers.from (takers.to - takers.from))) }
{
    for i in done..engine.cells.len() {
        let ticket = Ticket(engine.first + i as u32);
        ask_stops(engine, takers, ticket, engine.cells[i].status(), labels)?;
    }
    Ok(())
}

// A Stop of one that runs, by the worker that has its segment.
fn ask_stops(
    engine: &Engine,
    takers: Takers,
    ticket: Ticket,
    status: Status,
    labels: &mut Vec<Label>,
) -> Result<(), OutOfMemory>
    requires { length engine.now.stores.items ≤ 8 }
    ensures { OnOk result (map label_of labels.new.items ≡ map label_of labels.old.items ++ stops_labels engine.now.stores.items engine.now.hands.items (tickets_from takers.from (takers.to - takers.from)) ticket.0 status) }
{
    match status {
        Status::Running(path) => match place_of(&engine.stores, &path) {
            Some(host) => {
                let Takers { idle: _, from, to } = takers;
                ask_running(engine, from, to, host, &Out { ticket, path }, labels)
            }
            None => Ok(()),
        },
        Status::Travelling | Status::Waiting(_) | Status::Ready(_) | Status::Ended => Ok(()),
    }
}

fn ask_running(
    engine: &Engine,
    from: u8,
    to: u8,
    host: Host,
    out: &Out,
    labels: &mut Vec<Label>,
) -> Result<(), OutOfMemory>
    ensures { OnOk result (map label_of labels.new.items ≡ map label_of labels.old.items ++ stop_labels engine.now.stores.items engine.now.hands.items (tickets_from from (to - from)) out.now.ticket.0 out.now.path (Some host.0)) }
{
    for worker in from..to {
        add(labels, stop_label(engine, Worker(worker), host, out))?;
    }
    Ok(())
}
