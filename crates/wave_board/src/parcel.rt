//! A lease on its way to a worker.

ghost use Rattle.std.specs.Prelude.{◌≡◌, true, is_some, IfOk};
ghost use Rattle.service_verify.specs.Fit.{IsFit};
ghost use Rattle.wave_states.specs.States.{Hand};
ghost use Rattle.code_actor.specs.CodeActors.{Fields};
ghost use Rattle.plan_actors.specs.PlanActors as theory;
ghost use Rattle.wave_effects.specs.Actors.{MayRun};
ghost use Rattle.wave_effects.specs.Leases.{StandsFor, HasRun};

use crate::holder::Holder;
use crate::reply::Reply;
use service_verify::Verified;
use std::alloc::Global;
use std::marker::Model;
use wave_base::{OutOfMemory, Pause};
use wave_effects::{Lease, run_lease};

/// A lease in a box, so that it goes to a worker and back as a pointer. The box is made before the Start whose lease lies in it.
#[derive(Drop)]
pub struct Parcel {
    holder: Box<Holder>,
    ghost full: { is_some holder.value.lease ≡ true },
}

impl Model for Parcel {
    ghost use Rattle.wave_effects.specs.declared.lease.Lease as lease;
    ghost use Rattle.wave_board.specs.inner.Parcels.{what_is_in};

    ghost Value = { lease.Lease };

    ghost view = { λ a. what_is_in a.holder.value.lease a.full };
}

impl Parcel {
    // A lease in a box that was made for it.
    pub(crate) fn of(holder: Box<Holder>, lease: Lease) -> Parcel
        ensures { result ≡ lease }
    {
        let mut holder = holder;
        holder.lease = Some(lease);
        Parcel { holder }
    }

    /// The lease.
    pub fn lease(&self) -> &Lease
        ensures { result.now ≡ self.now }
    {
        match &self.holder.lease {
            Some(lease) => lease,
            None => unreachable!(),
        }
    }

    /// Runs one segment of what is out, and gives it in the same box, to be given back.
    pub fn run(self, alloc: Global, program: &Verified) -> Result<Reply, OutOfMemory>
        requires fit { IsFit program.now }
        requires may_run { MayRun program.now self.actor self.body }
        ensures segment { IfOk result (λ r. (hand : Hand theory.Actor Fields) → StandsFor program.now self hand → HasRun program.now hand r.lease r.pause) }
        ensures worker { IfOk result (λ r. r.lease.worker ≡ self.worker) }
    {
        let mut parcel = self;
        let pause = parcel.run_segment(alloc, program)?;
        Ok(parcel.paused(pause))
    }

    // The same where the lease lies. After want of memory the parcel is only to be dropped.
    fn run_segment(&mut self, alloc: Global, program: &Verified) -> Result<Pause, OutOfMemory>
        requires fit { IsFit program.now }
        requires may_run { MayRun program.now self.old.actor self.old.body }
        ensures segment { IfOk result (λ why. (hand : Hand theory.Actor Fields) → StandsFor program.now self.old hand → HasRun program.now hand self.new why) }
        ensures worker { self.new.worker ≡ self.old.worker }
    {
        match &mut self.holder.lease {
            Some(lease) => run_lease(alloc, program, lease),
            None => unreachable!(),
        }
    }

    // The lease with a pause beside it.
    fn paused(self, pause: Pause) -> Reply
        ensures lease { result.lease ≡ self }
        ensures pause { result.pause ≡ pause }
    {
        let mut holder = self.holder;
        holder.pause = Some(pause);
        Reply { holder }
    }
}
