//! Which way a piece of a script is run: on this thread, or by workers. A script without policies is one piece.

ghost use Rattle.std.specs.Prelude.{◌≡◌, ◌≤◌, false, true, IfOk, IsErrOf, OnErr, OnOk};
ghost use Rattle.std.specs.Io.KnownBytes.{Appends};
ghost use Rattle.wave_io.specs.Causes.{Rose};
ghost use Rattle.wave_io.specs.Streams.{AppendsFront};
ghost use Rattle.wave_effects.specs.Plans.{plan_of};
ghost use Rattle.host_workers.specs.Lines.{event_lines};
ghost use Rattle.elastic_policy.specs.Progress.{come_to};
ghost use Rattle.due_parts.specs.Runs.{nearest_workers};
ghost use Rattle.due_answer.specs.Tasks.{workers_of};
ghost use Rattle.eventwave.specs.inner.Engines.{is_alone};
ghost use Rattle.eventwave.specs.inner.Light.{has_begun};
ghost use Rattle.eventwave.specs.inner.Stages.{CanRunPiece, IsBehind};

use crate::light::is_light;
use crate::pieces::{Behind, code_piece, drive_piece, evaluate_piece, share_piece};
use crate::team::Team;
use due_answer::Engine;
use elastic_policy::Progress;
use listing_out::ListError;
use resolved_service::Resolved;
use std::alloc::Global;
use std::sync::Wait;
use std::thread::Threads;
use wave_effects::Plan;
use wave_io::{Gate, Sink};

/// Runs a piece on this thread, by the evaluator or by a drive, and writes the lines of its events.
pub fn run_piece_alone<K: Sink>(
    alloc: Global,
    engine: Engine,
    service: &Resolved,
    plan: Plan,
    stages: Progress,
    out: &mut K,
) -> Result<Behind, ListError>
    requires can { CanRunPiece service.now (plan_of plan) (come_to stages) }
    requires alone { is_alone engine ≡ true }
    requires workers { plan.workers ≡ nearest_workers (workers_of engine) }
    ensures behind { IfOk result (IsBehind (plan_of plan) (come_to stages)) }
    ensures lines { OnOk result (Appends (K.written out.old) (K.written out.new) (event_lines plan (come_to stages).start)) }
    ensures front { OnErr result (AppendsFront (K.written out.old) (K.written out.new) (event_lines plan (come_to stages).start)) }
    ensures fault { IsErrOf result ListError.WriteFault → Rose (K.faults out.old) (K.faults out.new) }
    ensures later { K.faults out.old ≤ K.faults out.new }
{
    match engine {
        Engine::Evaluator => evaluate_piece(alloc, service, plan, stages, out),
        _ => drive_piece(alloc, engine, service, plan, stages, out),
    }
}

/// The same by workers; but a light piece by its code on this thread.
pub fn run_piece_together<R: Threads + Wait + Sync, K: Sink + Send, G: Gate + Sync>(
    team: &Team<R, G>,
    engine: Engine,
    service: &Resolved,
    plan: Plan,
    stages: Progress,
    out: &mut K,
) -> Result<Behind, ListError>
    requires can { CanRunPiece service.now (plan_of plan) (come_to stages) }
    requires crewed { is_alone engine ≡ false }
    requires workers { plan.workers ≡ nearest_workers (workers_of engine) }
    ensures behind { IfOk result (IsBehind (plan_of plan) (come_to stages)) }
    ensures lines { OnOk result (Appends (K.written out.old) (K.written out.new) (event_lines plan (come_to stages).start)) }
    ensures front { OnErr result (AppendsFront (K.written out.old) (K.written out.new) (event_lines plan (come_to stages).start)) }
    ensures fault { IsErrOf result ListError.WriteFault → Rose (K.faults out.old) (K.faults out.new) }
    ensures later { K.faults out.old ≤ K.faults out.new }
{
    if is_light(&plan, team.gate.may_hold(), has_begun(&stages)) {
        code_piece(team.alloc, service, plan, stages, out)
    } else {
        share_piece(team, engine, plan, stages, out)
    }
}

// Whether a piece was run before that gave a ticket.
fn has_begun(stages: &Progress) -> bool
    ensures { result ≡ has_begun (come_to stages.now) }
{
    match stages {
        Progress::Kept(stages) => stages.start().next.0 > 1,
        Progress::Live(stages) => stages.first_ticket().0 > 1,
    }
}
