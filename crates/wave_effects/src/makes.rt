//! The actors of jobs, as they are made.

ghost use Rattle.std.specs.Prelude.{◌≡◌, IfOk};
ghost use Rattle.script_fold.specs.Lines.{FitsJob};
ghost use Rattle.service_verify.specs.Fit.{IsFit};
ghost use Rattle.code_actor.specs.CodeActors as code;
ghost use Rattle.head_tickets.specs.Heads.{line_of};
ghost use Rattle.plan_actors.specs.PlanActors as theory;
ghost use Rattle.wave_effects.specs.Actors.{IsActor};
ghost use Rattle.wave_effects.specs.Kinds.{job_kind, name_in};

use crate::actor::Actor;
use event_cells::JobKind;
use head_tickets::Job;
use migration_core::Mover;
use service_verify::Verified;
use service_vm::EventBox;
use snapshot_events::Walker;
use std::alloc::Global;
use wave_base::{Call, Line, OutOfMemory, Ticket};

// The actor of a line's job under a ticket.
pub(crate) fn make(
    alloc: Global,
    program: &Verified,
    line: &Line,
    ticket: Ticket,
) -> Result<Actor, OutOfMemory>
    requires fit { IsFit program.now }
    requires job { FitsJob (code.IsJob program.now) line.now }
    ensures { IfOk result (λ a. IsActor program.now a (theory.actor_of program.now line.now ticket.0)) }
{
    match line {
        Line::Request(call) => serve(alloc, program, call, ticket),
        Line::Move(path, host) => {
            let mover = Mover::new(ticket, *path, *host);
            Ok(Actor::Mover(Box::new(alloc, mover)?))
        }
        Line::Snapshot => {
            let walker = Walker::new(alloc, ticket);
            Ok(Actor::Walker(Box::new(alloc, walker)?))
        }
    }
}

// The event of a call, of which it takes a copy.
fn serve(
    alloc: Global,
    program: &Verified,
    call: &Call,
    ticket: Ticket,
) -> Result<Actor, OutOfMemory>
    requires fit { IsFit program.now }
    requires job { code.IsJob program.now call.now }
    ensures { IfOk result (λ a. IsActor program.now a (theory.Serves (code.first_event program.now call.now))) }
{
    let copy = call.copy(alloc)?;
    match EventBox::new(alloc, program, ticket, copy) {
        Ok(event) => Ok(Actor::Service(Box::new(alloc, event)?)),
        Err((_, error)) => Err(error),
    }
}

// What is kept of the kind of a job.
pub(crate) fn kind_of_job(job: &Job) -> JobKind
    ensures { result ≡ job_kind (line_of job.now) }
{
    match job {
        Job::Event(call) => JobKind::Event(call.event),
        Job::Move(_, _) => JobKind::Move,
        Job::Snapshot => JobKind::Snapshot,
    }
}

// The number of an event.
pub(crate) fn name_in(kind: JobKind) -> Option<u16>
    ensures { result ≡ name_in kind }
{
    match kind {
        JobKind::Event(name) => Some(name),
        JobKind::Move | JobKind::Snapshot => None,
    }
}
