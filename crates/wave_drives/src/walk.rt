//! A machine, and how the segments ended that are out.

ghost use Rattle.std.specs.Prelude.{◌≡◌, None, length, replicate, true, IfOk, OnOk};
ghost use Rattle.wave_labels.specs.Labels.{label_of};
ghost use Rattle.wave_states.specs.Labels.{Stop};
ghost use Rattle.wave_effects.specs.Acts.{is_start, is_step};
ghost use Rattle.wave_effects.specs.Plans.{plan_of};
ghost use Rattle.wave_drives.specs.Walks.{IsTaking, Leads};

use crate::ends::End;
use std::alloc::Global;
use wave_base::{Host, OutOfMemory, Path, Ticket, Worker};
use wave_effects::{Plan, contexts_have_owners, run_lease};
use wave_labels::{Act, Label};
use wave_machine::Machine;

/// A machine, and by worker how the segment ended that it has out: each is run as it begins.
#[derive(Drop)]
pub struct Walk<'p> {
    /// The machine.
    pub machine: Machine<'p>,
    /// How the segment of each worker ended that is out.
    pub ends: Vec<Option<End>>,
}

impl<'p> Walk<'p> {
    /// A machine none of whose segments is out.
    pub fn new(alloc: Global, machine: Machine<'p>, workers: u8) -> Result<Walk<'p>, OutOfMemory>
        ensures machine { IfOk result (λ w. w.machine ≡ machine.entry) }
        ensures ends { IfOk result (λ w. w.ends.items ≡ replicate workers None) }
    {
        let ends = no_ends(alloc, workers)?;
        Ok(Walk { machine, ends })
    }

    /// Takes a label that can be taken. A segment that it begins is run at once, and its end is kept.
    pub fn take(&mut self, alloc: Global, plan: &Plan, label: &Label) -> Result<(), OutOfMemory>
        requires taking { IsTaking self.old.machine.kept self.old.ends.items (label_of label.now) }
        requires plan { self.old.machine.kept.plan ≡ plan_of plan.now }
        ensures leads { OnOk result (Leads self.old.machine.kept self.old.ends.items (label_of label.now) self.new.machine.kept self.new.ends.items) }
        ensures plan { self.new.machine.kept.plan ≡ self.old.machine.kept.plan }
    {
        match label.act {
            Act::Start(_, _) => self.begin(alloc, plan, label),
            Act::Stop(ticket, path) => self.stop(label.worker, label.host, ticket, path),
            _ => self.step(label),
        }
    }

    // What is neither a Start nor a Stop.
    fn step(&mut self, label: &Label) -> Result<(), OutOfMemory>
        requires taking { IsTaking self.old.machine.kept self.old.ends.items (label_of label.now) }
        requires kind { is_step label.now.act ≡ true }
        ensures leads { OnOk result (Leads self.old.machine.kept self.old.ends.items (label_of label.now) self.new.machine.kept self.new.ends.items) }
        ensures plan { self.new.machine.kept.plan ≡ self.old.machine.kept.plan }
    {
        self.machine.reserve(label)?;
        self.machine.step(label);
        Ok(())
    }

    // A Start, and the segment.
    fn begin(&mut self, alloc: Global, plan: &Plan, label: &Label) -> Result<(), OutOfMemory>
        requires taking { IsTaking self.old.machine.kept self.old.ends.items (label_of label.now) }
        requires plan { self.old.machine.kept.plan ≡ plan_of plan.now }
        requires kind { is_start label.now.act ≡ true }
        ensures leads { OnOk result (Leads self.old.machine.kept self.old.ends.items (label_of label.now) self.new.machine.kept self.new.ends.items) }
        ensures plan { self.new.machine.kept.plan ≡ self.old.machine.kept.plan }
    {
        self.machine.reserve(label)?;
        let mut lease = self.machine.start(label);
        let pause = run_lease(alloc, &plan.program, &mut lease)?;
        self.ends[label.worker.0 as usize] = Some(End { lease, pause });
        Ok(())
    }

    // A Stop, with what the segment left.
    fn stop(
        &mut self,
        worker: Worker,
        host: Host,
        ticket: Ticket,
        path: Path,
    ) -> Result<(), OutOfMemory>
        requires { IsTaking self.old.machine.kept self.old.ends.items (record { worker = worker.0; host = host.0; act = Stop ticket.0 path }) }
        ensures leads { OnOk result (Leads self.old.machine.kept self.old.ends.items (record { worker = worker.0; host = host.0; act = Stop ticket.0 path }) self.new.machine.kept self.new.ends.items) }
        ensures plan { self.new.machine.kept.plan ≡ self.old.machine.kept.plan }
    {
        contexts_have_owners();
        let end = std::mem::replace(&mut self.ends[worker.0 as usize], None);
        let End { lease, pause } = end.unwrap();
        match self.machine.stop(lease, pause) {
            Ok(_) => Ok(()),
            Err(refused) => Err(refused.error),
        }
    }
}

// No segment is out.
#[tactic(auto, using(std::proofs::lemmas::List::replicate_more))]
fn no_ends(alloc: Global, workers: u8) -> Result<Vec<Option<End>>, OutOfMemory>
    ensures { IfOk result (λ ends. ends.items ≡ replicate workers None) }
{
    let mut ends = Vec::new(alloc);
    for worker in 0..workers {
        ends.push(None)?;
    }
    Ok(ends)
}
