//! An engine with the list of what can be done, which is kept from label to label.

ghost use Rattle.std.specs.Prelude.{◌≡◌, ◌↔◌, ◌≤◌, ◌+◌, ℕ, Some, true, length, slice_get, IsTrue, IfOk, IfErr, OnOk, OnErr};
ghost use Rattle.wave_base.specs.declared.start.Start as start;
ghost use Rattle.wave_labels.specs.Labels.{act_of, label_of};
ghost use Rattle.script_fold.specs.Runs.{finished_of};
ghost use Rattle.wave_states.specs.Begins.{start_state};
ghost use Rattle.wave_states.specs.Labels.{path_of, ticket_of};
ghost use Rattle.wave_states.specs.Runs as runs;
ghost use Rattle.plan_actors.specs.Calls.{code_ran};
ghost use Rattle.plan_actors.specs.PlanActors.{plan_actors};
ghost use Rattle.plan_actors.specs.Plans.{Fits, FitsStart, begin_in};
ghost use Rattle.wave_effects.specs.Actors.{MayRun};
ghost use Rattle.wave_effects.specs.Keeping.{kept_of};
ghost use Rattle.wave_effects.specs.Machines.{IsEnabled, Keeps, Kept, Stands, Takes, TheState};
ghost use Rattle.wave_effects.specs.Plans.{plan_of};
ghost use Rattle.wave_effects.specs.Acts.{is_start, is_step};
ghost use Rattle.wave_effects.specs.Running.{CanStop, IsStopping, Leases, Stops, stop_of};
ghost use Rattle.wave_machine.specs.inner.Index.{HasRoom, IsListed};
ghost use Rattle.wave_machine.specs.inner.Updating.{SameList, Sees, Updating};
ghost use Rattle.wave_effects.specs.Made.{IsPart};
ghost use Rattle.wave_effects.specs.Spare.{IsAsLong, SameButRooms};

use crate::done::{count_done, done_stays};
use crate::index::{is_on_head, ticket_of};
use crate::listable::states_list;
use crate::looks::{asks_at, line_at, may_leave, path_in, sent_at, share_at};
use crate::ready::Ready;
use crate::renewing::{relist_after, relist_head, renew_head};
use std::alloc::Global;
use wave_base::{Finished, Host, OutOfMemory, Path, Pause, Start, Ticket};
use wave_effects::{
    Engine, Lease, Plan, Prepared, Refused, heads_are_known, segments_are_known, states_are_known,
};
use wave_labels::Label;

/// An engine, and in canonical order what can be done by an idle worker. A label changes what the status of its ticket asks for, its own
/// mail and those that it sends, and what whoever is next in the line of its context asks for; where the context lands or leaves, also
/// what the Enters to it ask for. One that is born was nowhere, so that each Enter to it asks for the same as before.
#[derive(Drop)]
pub(crate) struct Listed<'p> {
    pub(crate) engine: Engine<'p>,
    pub(crate) index: Vec<Ready>,
    // so many of the first tickets are done
    pub(crate) done: usize,
    // the index is never longer, but for the head's two entries
    weight: usize,
}

// What is looked at before a label is taken: who is next in the line of its context, whether the context is there, the share of its
// ticket, how many mails that has sent, and whether its status may ask for something.
#[derive(Clone, Copy)]
pub(crate) struct Seen {
    pub(crate) next: Option<Ticket>,
    pub(crate) here: bool,
    pub(crate) share: usize,
    pub(crate) sent: u32,
    pub(crate) asked: bool,
}

impl<'p> Listed<'p> {
    // Where a run begins.
    pub(crate) fn new_at(
        alloc: Global,
        plan: &'p Plan,
        start: &Start,
    ) -> Result<Listed<'p>, OutOfMemory>
        requires fits { Fits (plan_of plan.now) }
        requires begins { FitsStart (plan_of plan.now) start.now }
        ensures stands { IfOk result (λ x. Stands (kept_of x.engine) start.now (start_state (begin_in (plan_of plan.now) start.now) plan.now.script.batches)) }
        ensures plan { IfOk result (λ x. (kept_of x.engine).plan ≡ plan_of plan.now) }
        ensures listed { IfOk result (λ x. IsListed x) }
    {
        states_are_known();
        heads_are_known();
        let engine = Engine::new_at(alloc, plan, start)?;
        let mut index = Vec::new(alloc);
        index.reserve(2)?;
        relist_head(&engine, &mut index);
        Ok(Listed {
            engine,
            index,
            done: 0,
            weight: 0,
        })
    }

    // What a finished run gives. After want of memory all comes back as it was.
    pub(crate) fn into_finished(self, alloc: Global) -> Result<Finished, (Listed<'p>, OutOfMemory)>
        requires { (start : start.Start) × (s : TheState) × Stands (kept_of self.engine) start s × runs.Finished (plan_actors (kept_of self.engine).plan.program) (kept_of self.engine).plan.workers s }
        ensures told { IfOk result (λ f. (start : start.Start) (s : TheState) → Stands (kept_of self.entry.engine) start s → f ≡ finished_of (code_ran (kept_of self.entry.engine).plan.program) (kept_of self.entry.engine).plan.program.shape start (kept_of self.entry.engine).plan.script) }
        ensures back { IfErr result (λ e. e.0 ≡ self.entry) }
    {
        let Listed {
            engine,
            index,
            done,
            weight,
        } = self;
        match engine.into_finished(alloc) {
            Ok(finished) => Ok(finished),
            Err((engine, error)) => {
                let listed = Listed {
                    engine,
                    index,
                    done,
                    weight,
                };
                Err((listed, error))
            }
        }
    }

    // Whether nothing can be done any more, and no segment is out.
    pub(crate) fn is_finished(&self) -> bool
        requires { IsListed self.now }
        ensures { (start : start.Start) (s : TheState) → Stands (kept_of self.now.engine) start s → IsTrue result ↔ runs.Finished (plan_actors (kept_of self.now.engine).plan.program) (kept_of self.now.engine).plan.workers s }
    {
        self.engine.is_finished_past(self.done)
    }

    // Makes what a label needs.
    pub(crate) fn prepare(&mut self, alloc: Global, label: &Label) -> Result<Prepared, OutOfMemory>
        requires enabled { IsEnabled (kept_of self.old.engine) (label_of label.now) }
        requires listed { IsListed self.old }
        ensures part { IfOk result (IsPart self.new.engine label.now.host label.now.act) }
        ensures keeps { Keeps (kept_of self.old.engine) (kept_of self.new.engine) }
        ensures plan { self.new.engine.plan ≡ self.old.engine.plan }
        ensures listed { IsListed self.new }
        ensures room { OnOk result (HasRoom self.new 0) }
    {
        self.reserve(0)?;
        self.engine.prepare(alloc, label)
    }

    // Makes room for what a label lists anew: a few entries, those of the mails that came and of the Enters to its context, and the head's.
    fn reserve(&mut self, more: usize) -> Result<(), OutOfMemory>
        ensures room { OnOk result (HasRoom self.new more) }
        ensures same { SameList self.old self.new }
    {
        // a sum that does not fit is more than any memory holds, so that its request is refused
        let most = self.weight.saturating_add(more);
        let room = most.saturating_add(most).saturating_add(10);
        self.index.reserve(room)?;
        Ok(())
    }

    // Takes a label that is neither a Start nor a Stop.
    pub(crate) fn act(&mut self, label: &Label, part: Prepared)
        requires enabled { IsEnabled (kept_of self.old.engine) (label_of label.now) }
        requires part { IsPart self.old.engine label.now.host label.now.act part }
        requires kind { is_step label.now.act ≡ true }
        requires listed { IsListed self.old }
        requires room { HasRoom self.old 0 }
        ensures takes { Takes (kept_of self.old.engine) (kept_of self.new.engine) (label_of label.now) }
        ensures plan { self.new.engine.plan ≡ self.old.engine.plan }
        ensures listed { IsListed self.new }
    {
        states_are_known();
        states_list();
        done_stays();
        let seen = self.look_at(label);
        self.engine.act(label, part);
        self.update(label, seen);
    }

    // Takes a Start.
    pub(crate) fn act_start(&mut self, label: &Label, part: Prepared) -> Lease
        requires enabled { IsEnabled (kept_of self.old.engine) (label_of label.now) }
        requires part { IsPart self.old.engine label.now.host label.now.act part }
        requires kind { is_start label.now.act ≡ true }
        requires listed { IsListed self.old }
        requires room { HasRoom self.old 0 }
        ensures takes { Takes (kept_of self.old.engine) (kept_of self.new.engine) (label_of label.now) }
        ensures leases { Leases (kept_of self.old.engine) (label_of label.now) result }
        ensures may_run { MayRun self.new.engine.plan.now.program result.actor result.body }
        ensures worker { result.worker ≡ label.now.worker }
        ensures plan { self.new.engine.plan ≡ self.old.engine.plan }
        ensures listed { IsListed self.new }
    {
        states_are_known();
        states_list();
        done_stays();
        let seen = self.look_at(label);
        let lease = self.engine.act_start(label, part);
        self.update(label, seen);
        lease
    }

    // Takes the Stop of a lease with its pause. After want of memory they come back.
    pub(crate) fn stop(&mut self, lease: Lease, pause: Pause) -> Result<Label, Refused>
        requires stopping { IsStopping (kept_of self.old.engine) lease pause }
        requires listed { IsListed self.old }
        ensures label { IfOk result (λ l. label_of l ≡ stop_of lease l.host.0) }
        ensures enabled { IfOk result (λ l. CanStop (kept_of self.old.engine) lease pause l.host.0) }
        ensures stops { IfOk result (λ l. Stops (kept_of self.old.engine) lease pause l.host.0 (kept_of self.new.engine)) }
        ensures refused { IfErr result (λ r. (r.lease ≡ lease) × (r.pause ≡ pause)) }
        ensures keeps { OnErr result (Keeps (kept_of self.old.engine) (kept_of self.new.engine)) }
        ensures same { OnErr result (SameButRooms (kept_of self.old.engine) (kept_of self.new.engine)) }
        ensures long { OnErr result (IsAsLong self.old.engine self.new.engine) }
        ensures plan { self.new.engine.plan ≡ self.old.engine.plan }
        ensures listed { IsListed self.new }
        ensures room { OnErr result ((more : ℕ) → HasRoom self.old more → HasRoom self.new more) }
    {
        states_are_known();
        heads_are_known();
        segments_are_known();
        states_list();
        done_stays();
        let (ticket, path) = (lease.ticket, lease.path);
        let more = may_leave(&self.engine, ticket);
        if let Err(error) = self.reserve(more) {
            return Err(Refused {
                lease,
                pause,
                error,
            });
        }
        let host = self.engine.host_of(&lease);
        let seen = self.look(host, ticket, &path);
        match self.engine.stop(host, lease, pause) {
            Ok(label) => {
                self.update(&label, seen);
                Ok(label)
            }
            Err(refused) => Err(refused),
        }
    }

    // What is looked at before a label that is no Stop.
    fn look_at(&self, label: &Label) -> Seen
        ensures { Sees (kept_of self.now.engine) label.now.host.0 (ticket_of (act_of label.now.act)) (path_of (act_of label.now.act)) result }
    {
        let root = Path::root();
        let path = path_in(&label.act, &root);
        self.look(label.host, ticket_of(&label.act), path)
    }

    // The same of a ticket, and of a context at a host.
    fn look(&self, host: Host, ticket: Ticket, path: &Path) -> Seen
        ensures { Sees (kept_of self.now.engine) host.0 ticket.0 path.now result }
    {
        let (here, next) = line_at(&self.engine, host, path);
        Seen {
            next,
            here,
            share: share_at(&self.engine, ticket),
            sent: sent_at(&self.engine, ticket),
            asked: asks_at(&self.engine, ticket),
        }
    }

    // Lists anew what a label that was taken has changed.
    fn update(&mut self, label: &Label, seen: Seen)
        requires { (m : Kept) × (more : ℕ) × Updating m self.old (label_of label.now) seen more }
        ensures listed { IsListed self.new }
        ensures engine { self.new.engine ≡ self.old.engine }
    {
        states_are_known();
        heads_are_known();
        let share = share_at(&self.engine, ticket_of(&label.act));
        self.weight = self.weight - seen.share + share;
        relist_after(&self.engine, label, seen, self.done, &mut self.index);
        renew_head(&self.engine, is_on_head(&label.act), &mut self.index);
        self.done = count_done(&self.engine, self.done);
    }
}
