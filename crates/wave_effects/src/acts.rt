//! The labels as one call each: what a label needs is made, and then it is taken.

ghost use Rattle.std.specs.Prelude.{◌≡◌, true, IfOk};
ghost use Rattle.wave_labels.specs.Labels.{label_of};
ghost use Rattle.wave_effects.specs.Actors.{MayRun};
ghost use Rattle.wave_effects.specs.Machines.{IsEnabled, Keeps, Takes};
ghost use Rattle.wave_effects.specs.Acts.{is_start, is_step};
ghost use Rattle.wave_effects.specs.Running.{Leases};
ghost use Rattle.wave_effects.specs.Apart.{AsksTheSame, Moves};
ghost use Rattle.wave_effects.specs.Made.{IsPart};

use crate::engine::Engine;
use crate::lease::Lease;
use crate::prepared::{Prepared, box_part};
use std::alloc::Global;
use wave_base::OutOfMemory;
use wave_labels::{Act, Label};

impl<'p> Engine<'p> {
    ghost use Rattle.wave_effects.specs.Keeping.{kept_of};

    /// Makes what a label needs.
    pub fn prepare(&mut self, alloc: Global, label: &Label) -> Result<Prepared, OutOfMemory>
        requires { IsEnabled (kept_of self.old) (label_of label.now) }
        ensures part { IfOk result (IsPart self.new label.now.host label.now.act) }
        ensures keeps { Keeps (kept_of self.old) (kept_of self.new) }
        ensures asks { AsksTheSame (kept_of self.old) (kept_of self.new) }
        ensures plan { self.new.plan ≡ self.old.plan }
    {
        let host = label.host;
        match &label.act {
            Act::Admit(_) => Ok(Prepared::Event(self.prepare_admit(alloc)?)),
            Act::Queue(mail, path) => {
                let entry = self.prepare_queue(alloc, host, *mail, path)?;
                Ok(Prepared::Entry(box_part(alloc, entry)?))
            }
            Act::Grant(ticket, path) => {
                self.prepare_grant(host, *ticket, path)?;
                Ok(Prepared::Room)
            }
            Act::Land(mail, path) => {
                self.prepare_land(host, *mail, path)?;
                Ok(Prepared::Room)
            }
            Act::Start(ticket, path) => {
                let copy = self.prepare_start(alloc, host, *ticket, path)?;
                Ok(Prepared::Copy(box_part(alloc, copy)?))
            }
            Act::Commit(_) => Ok(Prepared::Created(self.prepare_commit(alloc)?)),
            _ => Ok(Prepared::Room),
        }
    }

    /// Takes a label that is neither a Start nor a Stop.
    pub fn act(&mut self, label: &Label, part: Prepared)
        requires enabled { IsEnabled (kept_of self.old) (label_of label.now) }
        requires part { IsPart self.old label.now.host label.now.act part }
        requires kind { is_step label.now.act ≡ true }
        ensures takes { Takes (kept_of self.old) (kept_of self.new) (label_of label.now) }
        ensures moves { Moves (kept_of self.old) (kept_of self.new) (label_of label.now) 0 }
        ensures plan { self.new.plan ≡ self.old.plan }
    {
        let host = label.host;
        match &label.act {
            Act::Admit(_) => self.admit(part.cell()),
            Act::Queue(mail, path) => self.queue(host, *mail, path, part.entry()),
            Act::Grant(ticket, path) => {
                part.room();
                self.grant(host, *ticket, path)
            }
            Act::Visit(mail, path) => {
                part.room();
                self.visit(*mail, path)
            }
            Act::Free(mail, path) => {
                part.room();
                self.free(host, *mail, path)
            }
            Act::Pass(mail, path, to) => {
                part.room();
                self.pass(host, *mail, path, *to)
            }
            Act::Land(mail, path) => {
                part.room();
                self.land(host, *mail, path)
            }
            Act::Commit(_) => self.commit(part.calls()),
            _ => unreachable!(),
        }
    }

    /// Takes a Start.
    pub fn act_start(&mut self, label: &Label, part: Prepared) -> Lease
        requires enabled { IsEnabled (kept_of self.old) (label_of label.now) }
        requires part { IsPart self.old label.now.host label.now.act part }
        requires kind { is_start label.now.act ≡ true }
        ensures takes { Takes (kept_of self.old) (kept_of self.new) (label_of label.now) }
        ensures moves { Moves (kept_of self.old) (kept_of self.new) (label_of label.now) 0 }
        ensures leases { Leases (kept_of self.old) (label_of label.now) result }
        ensures may_run { MayRun self.new.plan.now.program result.actor result.body }
        ensures worker { result.worker ≡ label.now.worker }
        ensures plan { self.new.plan ≡ self.old.plan }
    {
        match &label.act {
            Act::Start(ticket, path) => {
                self.start(label.worker, label.host, *ticket, path, part.copy())
            }
            _ => unreachable!(),
        }
    }
}
