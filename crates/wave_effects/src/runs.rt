//! A segment, run apart from the machine.

ghost use Rattle.std.specs.Prelude.{◌≡◌, IfOk};
ghost use Rattle.service_verify.specs.Fit.{IsFit};
ghost use Rattle.wave_states.specs.States.{Hand};
ghost use Rattle.code_actor.specs.CodeActors.{Fields};
ghost use Rattle.plan_actors.specs.PlanActors as theory;
ghost use Rattle.wave_effects.specs.Actors.{IsActor, HasActed, MayRun};
ghost use Rattle.wave_effects.specs.Leases.{StandsFor, HasRun};

use crate::actor::Actor;
use crate::lease::Lease;
use migration_core::advance;
use service_verify::Verified;
use service_vm::segment;
use snapshot_events::walk;
use std::alloc::Global;
use wave_base::{OutOfMemory, Pause, Record};

/// Runs one segment of what is out. After want of memory the lease is only to be dropped.
pub fn run_lease(alloc: Global, program: &Verified, lease: &mut Lease) -> Result<Pause, OutOfMemory>
    requires fit { IsFit program.now }
    requires may_run { MayRun program.now lease.old.actor lease.old.body }
    ensures segment { IfOk result (λ why. (hand : Hand theory.Actor Fields) → StandsFor program.now lease.old hand → HasRun program.now hand lease.new why) }
    ensures worker { lease.new.worker ≡ lease.old.worker }
{
    run_actor(alloc, program, &mut lease.actor, &mut lease.body)
}

// One segment of an actor.
fn run_actor(
    alloc: Global,
    program: &Verified,
    actor: &mut Actor,
    body: &mut Record,
) -> Result<Pause, OutOfMemory>
    requires fit { IsFit program.now }
    requires may_run { MayRun program.now actor.old body.old }
    ensures { IfOk result (λ why. (b : theory.Actor) → IsActor program.now actor.old b → HasActed program.now b body.old.fields body.old.children actor.new body.new why) }
{
    match actor {
        Actor::Service(event) => segment(program, event, body),
        Actor::Mover(mover) => Ok(advance(alloc, mover, body)),
        Actor::Walker(walker) => walk(alloc, walker, body),
    }
}
