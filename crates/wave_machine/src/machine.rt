//! The machine, and what can be asked of it.

ghost use Rattle.std.specs.Prelude.{◌≡◌, ◌↔◌, ◌≤◌, ◌+◌, ◌-◌, ℕ, true, length, map, min, slice_get, Some, None, is_some, IsTrue, IfErr, IfOk, OnErr, OnOk};
ghost use Rattle.script_fold.specs.Runs.{finished_of};
ghost use Rattle.wave_base.specs.declared.start.Start.{Start};
ghost use Rattle.wave_base.specs.Starts.{first_start};
ghost use Rattle.wave_labels.specs.Labels.{label_of};
ghost use Rattle.wave_states.specs.Begins.{start_state};
ghost use Rattle.wave_states.specs.Canonical.{taken_as};
ghost use Rattle.wave_states.specs.Runs as runs;
ghost use Rattle.wave_states.specs.Steps.{step};
ghost use Rattle.plan_actors.specs.Calls.{code_ran};
ghost use Rattle.plan_actors.specs.PlanActors.{plan_actors};
ghost use Rattle.plan_actors.specs.Plans.{Fits, FitsStart, begin_in};
ghost use Rattle.wave_effects.specs.Glances.{IsGlance};
ghost use Rattle.wave_effects.specs.Machines.{IsEnabled, Keeps, Stands, Takes, TheState, IsStood};
ghost use Rattle.wave_effects.specs.Plans.{plan_of};
ghost use Rattle.wave_effects.specs.Acts.{is_start, is_step};
ghost use Rattle.wave_effects.specs.Running.{CanStop, IsStopping, Leases, Stops, stop_of};
ghost use Rattle.wave_effects.specs.Actors.{MayRun};
ghost use Rattle.wave_machine.specs.Movers.{moves_in};
ghost use Rattle.wave_machine.specs.Picks.{IsOneOf};
ghost use Rattle.wave_machine.specs.Readies.{choice_of, enabled_by, enabled_in, ready_in};
ghost use Rattle.wave_effects.specs.Showing.{IsLineOf};

use crate::listed::Listed;
use crate::movers::is_mover;
use crate::ready::Ready;
use context_tree::trees_that_fit;
use std::alloc::Global;
use std::marker::Model;
use wave_base::{Finished, OutOfMemory, Pause, Seq, Shown, Start, Ticket, Worker};
use wave_effects::{Glance, Lease, Plan, Prepared, Refused};
use wave_labels::Label;

/// A machine that runs a plan. It stands for a state of the theory that labels lead to from a start state of its plan, and keeps all of
/// that state but the actors and the records that are in the workers' hands. What is said of its calls holds for every state for which
/// it stands, and there is one at least (`machine_stands`).
#[derive(Drop)]
pub struct Machine<'p> {
    alloc: Global,
    listed: Listed<'p>,
    prepared: Option<(Label, Prepared)>,
}

impl<'p> Model for Machine<'p> {
    ghost use Rattle.std.specs.Coded.{codes};
    ghost use Rattle.commit_order.specs.contracts.commits.Commits as commits;
    ghost use Rattle.context_queue.specs.contracts.entry.Entry as entry;
    ghost use Rattle.host_map.specs.contracts.store.HostStore as store;
    ghost use Rattle.wave_effects.specs.Keeping.{kept_of};
    ghost use Rattle.wave_machine.specs.Prepared.{Shown, shown_of};
    ghost use Rattle.wave_effects.specs.Machines.{IsStood};
    ghost use Rattle.wave_machine.specs.inner.Index.{IsListed};
    ghost use Rattle.wave_machine.specs.inner.Updating.{RoomFor};
    ghost use Rattle.wave_effects.specs.Made.{IsPrepared};

    ghost Value = { Shown };

    ghost coded = { Prim.hlevel (codes, commits.the_row.coded, entry.the_row.coded, store.the_row.coded) };

    ghost view = { λ a. shown_of a.listed.engine a.prepared };

    ghost invariant = { λ a. IsStood (kept_of a.listed.engine) × IsPrepared a.listed.engine a.prepared × IsListed a.listed × RoomFor a.listed a.prepared };
}

impl<'p> Machine<'p> {
    /// A machine that begins with the root alone, on host 0, and ticket 1.
    pub fn new(alloc: Global, plan: &'p Plan) -> Result<Machine<'p>, OutOfMemory>
        requires { Fits (plan_of plan.now) }
        ensures stands { IfOk result (λ m. Stands m.kept (first_start plan.now.program.shape) (start_state (begin_in (plan_of plan.now) (first_start plan.now.program.shape)) plan.now.script.batches)) }
        ensures plan { IfOk result (λ m. m.kept.plan ≡ plan_of plan.now) }
        ensures reserved { IfOk result (λ m. m.reserved ≡ None) }
    {
        trees_that_fit();
        let start = Start::first(alloc, &plan.program.program().shape)?;
        Machine::new_at(alloc, plan, &start)
    }

    /// A machine that begins as a Start says.
    pub fn new_at(alloc: Global, plan: &'p Plan, start: &Start) -> Result<Machine<'p>, OutOfMemory>
        requires fits { Fits (plan_of plan.now) }
        requires begins { FitsStart (plan_of plan.now) start.now }
        ensures stands { IfOk result (λ m. Stands m.kept start.now (start_state (begin_in (plan_of plan.now) start.now) plan.now.script.batches)) }
        ensures plan { IfOk result (λ m. m.kept.plan ≡ plan_of plan.now) }
        ensures reserved { IfOk result (λ m. m.reserved ≡ None) }
    {
        let listed = Listed::new_at(alloc, plan, start)?;
        Ok(Machine {
            alloc,
            listed,
            prepared: None,
        })
    }

    /// What an idle worker can do, or could if there were one, in the canonical order, without who does it. It is kept from label to
    /// label, and takes no memory.
    pub fn index(&self) -> &[Ready]
        ensures ready { (start : Start) (s : TheState) → Stands self.now.kept start s → map choice_of result.now ≡ ready_in self.now.kept.plan s }
        ensures taken { (w : ℕ) (start : Start) (s : TheState) → slice_get self.now.kept.hands w ≡ Some None → Stands self.now.kept start s → map (λ r. taken_as w (choice_of r)) result.now ≡ enabled_by self.now.kept.plan s w }
    {
        self.listed.ready()
    }

    /// What can be done, in the canonical order: all but the Stops by the lowest idle worker.
    pub fn enabled_labels(&self) -> Result<Seq<Label>, OutOfMemory>
        ensures { IfOk result (λ ls. (start : Start) (s : TheState) → Stands self.now.kept start s → map label_of ls ≡ enabled_in self.now.kept.plan s) }
    {
        self.listed.enabled_labels()
    }

    /// What a worker can do, in the same order. For a worker past the plan's number there is nothing.
    pub fn enabled_for(&self, worker: Worker) -> Result<Seq<Label>, OutOfMemory>
        ensures { IfOk result (λ ls. (start : Start) (s : TheState) → Stands self.now.kept start s → map label_of ls ≡ enabled_by self.now.kept.plan s worker.0) }
    {
        self.listed.enabled_for(worker)
    }

    /// One of what a worker can do that has no segment out, read off the index, without memory; none where there is nothing.
    pub fn some_for(&self, worker: Worker) -> Option<Label>
        requires { slice_get self.now.kept.hands worker.0 ≡ Some None }
        ensures { (start : Start) (s : TheState) → Stands self.now.kept start s → IsOneOf (enabled_by self.now.kept.plan s worker.0) result }
    {
        self.listed.some_for(worker)
    }

    /// Makes all that a label needs which is enabled, so that it can be taken without memory: the machine is reserved for it then. The
    /// state stays as it is. After want of memory it is reserved for none.
    pub fn reserve(&mut self, label: &Label) -> Result<(), OutOfMemory>
        requires { IsEnabled self.old.kept (label_of label.now) }
        ensures keeps { Keeps self.old.kept self.new.kept }
        ensures plan { self.new.kept.plan ≡ self.old.kept.plan }
        ensures ok { OnOk result (self.new.reserved ≡ Some label.now) }
        ensures err { OnErr result (self.new.reserved ≡ None) }
    {
        forget(&mut self.prepared);
        let part = self.listed.prepare(self.alloc, label)?;
        keep(&mut self.prepared, *label, part);
        Ok(())
    }

    /// Takes a label for which it is reserved, and which is neither a Start nor a Stop.
    pub fn step(&mut self, label: &Label)
        requires enabled { IsEnabled self.old.kept (label_of label.now) }
        requires reserved { self.old.reserved ≡ Some label.now }
        requires kind { is_step label.now.act ≡ true }
        ensures takes { Takes self.old.kept self.new.kept (label_of label.now) }
        ensures plan { self.new.kept.plan ≡ self.old.kept.plan }
        ensures reserved { self.new.reserved ≡ None }
    {
        match self.prepared.take() {
            Some((_, part)) => self.listed.act(label, part),
            None => unreachable!(),
        }
    }

    /// Makes all that a label needs, and takes it: one that is enabled, and neither a Start nor a Stop. The machine is reserved for none then.
    /// After want of memory the state stays as it is.
    pub fn take(&mut self, label: &Label) -> Result<(), OutOfMemory>
        requires enabled { IsEnabled self.old.kept (label_of label.now) }
        requires kind { is_step label.now.act ≡ true }
        ensures takes { OnOk result (Takes self.old.kept self.new.kept (label_of label.now)) }
        ensures keeps { OnErr result (Keeps self.old.kept self.new.kept) }
        ensures plan { self.new.kept.plan ≡ self.old.kept.plan }
        ensures reserved { self.new.reserved ≡ None }
    {
        forget(&mut self.prepared);
        let part = self.listed.prepare(self.alloc, label)?;
        self.listed.act(label, part);
        Ok(())
    }

    /// The same for a Start. The lease has the actor and the record that the worker has in its hand then, and a segment of it may run.
    pub fn take_start(&mut self, label: &Label) -> Result<Lease, OutOfMemory>
        requires enabled { IsEnabled self.old.kept (label_of label.now) }
        requires kind { is_start label.now.act ≡ true }
        ensures takes { OnOk result (Takes self.old.kept self.new.kept (label_of label.now)) }
        ensures leases { IfOk result (λ lease. Leases self.old.kept (label_of label.now) lease) }
        ensures may_run { IfOk result (λ lease. MayRun self.new.kept.plan.program lease.actor lease.body) }
        ensures worker { IfOk result (λ lease. lease.worker ≡ label.now.worker) }
        ensures keeps { OnErr result (Keeps self.old.kept self.new.kept) }
        ensures plan { self.new.kept.plan ≡ self.old.kept.plan }
        ensures reserved { self.new.reserved ≡ None }
    {
        forget(&mut self.prepared);
        let part = self.listed.prepare(self.alloc, label)?;
        Ok(self.listed.act_start(label, part))
    }

    /// Takes a Start for which it is reserved. The lease has the actor and the record that the worker has in its hand then, and a
    /// segment of it may run.
    pub fn start(&mut self, label: &Label) -> Lease
        requires enabled { IsEnabled self.old.kept (label_of label.now) }
        requires reserved { self.old.reserved ≡ Some label.now }
        requires kind { is_start label.now.act ≡ true }
        ensures takes { Takes self.old.kept self.new.kept (label_of label.now) }
        ensures leases { Leases self.old.kept (label_of label.now) result }
        ensures may_run { MayRun self.new.kept.plan.program result.actor result.body }
        ensures worker { result.worker ≡ label.now.worker }
        ensures plan { self.new.kept.plan ≡ self.old.kept.plan }
        ensures reserved { self.new.reserved ≡ None }
    {
        match self.prepared.take() {
            Some((_, part)) => self.listed.act_start(label, part),
            None => unreachable!(),
        }
    }

    /// Takes the Stop of a segment that is out: lease and pause are what one segment gave on what the worker has in its hand. After want
    /// of memory they come back as they were, and the machine is as before.
    pub fn stop(&mut self, lease: Lease, pause: Pause) -> Result<Label, Refused>
        requires { IsStopping self.old.kept lease pause }
        ensures label { IfOk result (λ l. label_of l ≡ stop_of lease l.host.0) }
        ensures enabled { IfOk result (λ l. CanStop self.old.kept lease pause l.host.0) }
        ensures stops { IfOk result (λ l. Stops self.old.kept lease pause l.host.0 self.new.kept) }
        ensures refused { IfErr result (λ r. (r.lease ≡ lease) × (r.pause ≡ pause)) }
        ensures keeps { OnErr result (Keeps self.old.kept self.new.kept) }
        ensures plan { self.new.kept.plan ≡ self.old.kept.plan }
        ensures reserved { OnErr result (self.new.reserved ≡ self.old.reserved) }
        ensures taken { OnOk result (self.new.reserved ≡ None) }
    {
        match self.listed.stop(lease, pause) {
            Ok(label) => {
                forget(&mut self.prepared);
                Ok(label)
            }
            Err(refused) => Err(refused),
        }
    }

    /// Whether nothing can be done any more, and no segment is out.
    pub fn is_finished(&self) -> bool
        ensures { (start : Start) (s : TheState) → Stands self.now.kept start s → IsTrue result ↔ runs.Finished (plan_actors self.now.kept.plan.program) self.now.kept.plan.workers s }
    {
        self.listed.is_finished()
    }

    /// What a finished run gives. After want of memory the machine comes back as it was.
    pub fn into_finished(self) -> Result<Finished, (Machine<'p>, OutOfMemory)>
        requires { (start : Start) × (s : TheState) × Stands self.kept start s × runs.Finished (plan_actors self.kept.plan.program) self.kept.plan.workers s }
        ensures told { IfOk result (λ f. (start : Start) (s : TheState) → Stands self.entry.kept start s → f ≡ finished_of (code_ran self.entry.kept.plan.program) self.entry.kept.plan.program.shape start self.entry.kept.plan.script) }
        ensures back { IfErr result (λ e. e.0 ≡ self.entry) }
    {
        let Machine {
            alloc,
            listed,
            prepared,
        } = self;
        match listed.into_finished(alloc) {
            Ok(finished) => Ok(finished),
            Err((listed, error)) => {
                let machine = Machine {
                    alloc,
                    listed,
                    prepared,
                };
                Err((machine, error))
            }
        }
    }

    /// Whether a label can be taken now, by its worker and at its host. It is searched for by halves, and takes no memory.
    pub fn can_take(&self, label: &Label) -> bool
        ensures { (start : Start) (s : TheState) → Stands self.now.kept start s → IsTrue result ↔ (is_some (step (plan_actors self.now.kept.plan.program) self.now.kept.plan.workers s (label_of label.now)) ≡ true) }
    {
        self.listed.can_take(label)
    }

    /// Whether the job of a ticket is a move: one that was admitted, or the one that is admitted next.
    pub fn is_move(&self, ticket: Ticket) -> bool
        ensures { result ≡ moves_in self.now.kept ticket.0 }
    {
        is_mover(&self.listed.engine, ticket)
    }

    /// How far the run has come, and where its contexts are.
    pub fn glance(&self) -> Result<Glance, OutOfMemory>
        ensures { IfOk result (λ g. (start : Start) (s : TheState) → Stands self.now.kept start s → IsGlance s g) }
    {
        self.listed.engine.glance(self.alloc)
    }

    /// How many tickets of this run are committed.
    pub fn committed_count(&self) -> usize
        ensures settled { result ≡ length self.now.kept.settled.results }
        ensures done { (start : Start) (s : TheState) → Stands self.now.kept start s → s.head.done ≡ result }
    {
        self.listed.engine.settled.len()
    }

    /// The committed tickets without the first `from`, at most so many: what the whole run gives of each of them, whatever comes yet.
    pub fn shown_lines(&self, from: u32, most: usize) -> Result<Seq<Shown>, OutOfMemory>
        requires { from ≤ length self.now.kept.settled.results }
        ensures count { IfOk result (λ xs. length xs ≡ min most (length self.now.kept.settled.results - from)) }
        ensures lines { IfOk result (λ xs. (start : Start) (s : TheState) → Stands self.now.kept start s → (i : ℕ) (x : Shown) → slice_get xs i ≡ Some x → IsLineOf (finished_of (code_ran self.now.kept.plan.program) self.now.kept.plan.program.shape start self.now.kept.plan.script) (from + i) x) }
    {
        self.listed.engine.shown_lines(self.alloc, from, most)
    }
}

/// There is a state for which a machine stands.
pub fn machine_stands(machine: &Machine)
    ensures { IsStood machine.now.kept }
{
    let _ = &machine.listed.engine;
}

// Nothing is made any more. Where nothing was it writes nothing: the whole is large.
fn forget(prepared: &mut Option<(Label, Prepared)>)
    ensures { prepared.new ≡ None }
{
    if prepared.is_some() {
        *prepared = None;
    }
}

// This is made for a label.
fn keep(prepared: &mut Option<(Label, Prepared)>, label: Label, part: Prepared)
    ensures { prepared.new ≡ Some (label, part) }
{
    *prepared = Some((label, part));
}
