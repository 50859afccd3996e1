//! A piece of a script with policies, run and listed: on one tree of contexts, by a drive of the machine, or by workers.

ghost use Rattle.std.specs.Prelude.{◌≡◌, ◌≤◌, ◌-◌, ◌^◌, ℕ, length, false, true, IfOk, IsErrOf, OnErr, OnOk};
ghost use Rattle.std.specs.Io.KnownBytes.{Appends};
ghost use Rattle.wave_base.specs.declared.finished.Finished.{Finished};
ghost use Rattle.wave_io.specs.Causes.{Rose};
ghost use Rattle.wave_io.specs.Streams.{AppendsFront};
ghost use Rattle.script_fold.specs.Lives.{IsTold};
ghost use Rattle.resolved_service.specs.declared.service.Resolved.{Resolved};
ghost use Rattle.wave_meaning.specs.Meaning.{call_ran};
ghost use Rattle.wave_effects.specs.Plans.{plan_of};
ghost use Rattle.host_workers.specs.Lines.{event_lines};
ghost use Rattle.elastic_policy.specs.Progress.{come_to};
ghost use Rattle.elastic_policy.specs.Stages.{IsStaged, MayFollow, staged_after};
ghost use Rattle.due_parts.specs.Runs.{nearest_workers};
ghost use Rattle.due_parts.specs.Told.{any_trap};
ghost use Rattle.due_stages.specs.Listed.{events_from, ran_by};
ghost use Rattle.due_answer.specs.Tasks.{workers_of};
ghost use Rattle.eventwave.specs.inner.Engines.{is_alone};
ghost use Rattle.eventwave.specs.inner.Stages.{CanRunPiece, IsBehind, IsPieceMade, piece_plan};

use crate::engines::{run_alone, run_together};
use crate::made::Made;
use crate::team::Team;
use code_meaning::CodeRunner;
use due_answer::Engine;
use due_parts::status_of;
use elastic_policy::{LiveStages, Progress, Stages};
use listing_out::{ListError, write_results};
use resolved_service::Resolved;
use script_fold::{Runner, Told};
use service_verify::Verified;
use std::alloc::Global;
use std::sync::Wait;
use std::thread::Threads;
use wave_base::{Finished, Script, Seq, Shape, Ticket, WORKERS};
use wave_effects::Plan;
use wave_io::{Gate, Sink};
use wave_meaning::Evaluator;

/// What is behind a piece.
#[derive(Drop)]
pub struct Behind {
    /// The code of the service.
    pub program: Verified,
    /// How far the script has come.
    pub stages: Progress,
    /// Whether an event of the piece trapped.
    pub trapped: bool,
}

/// The plan of a piece, for as many workers as the engine has.
pub fn piece_plan(program: Verified, script: Script, engine: Engine) -> Plan
    ensures { plan_of result ≡ piece_plan program script engine }
{
    Plan {
        program,
        script,
        workers: engine.workers().clamp(1, WORKERS),
    }
}

/// By the evaluator, on one tree of contexts that is changed in place.
pub fn evaluate_piece<K: Sink>(
    alloc: Global,
    service: &Resolved,
    plan: Plan,
    stages: Progress,
    out: &mut K,
) -> Result<Behind, ListError>
    requires { CanRunPiece service.now (plan_of plan) (come_to stages) }
    ensures behind { IfOk result (IsBehind (plan_of plan) (come_to stages)) }
    ensures lines { OnOk result (Appends (K.written out.old) (K.written out.new) (event_lines plan (come_to stages).start)) }
    ensures front { OnErr result (AppendsFront (K.written out.old) (K.written out.new) (event_lines plan (come_to stages).start)) }
    ensures fault { IsErrOf result ListError.WriteFault → Rose (K.faults out.old) (K.faults out.new) }
    ensures later { K.faults out.old ≤ K.faults out.new }
{
    let Plan {
        program: code,
        script,
        workers: _,
    } = plan;
    let runner = Evaluator {
        shape: &code.program().shape,
        service,
    };
    let (stages, trapped) = live_piece(alloc, &runner, &code, script, stages, out)?;
    Ok(Behind {
        program: code,
        stages: Progress::Live(stages),
        trapped,
    })
}

/// By its code, each event whole, on one tree of contexts that is changed in place.
pub fn code_piece<K: Sink>(
    alloc: Global,
    service: &Resolved,
    plan: Plan,
    stages: Progress,
    out: &mut K,
) -> Result<Behind, ListError>
    requires { CanRunPiece service.now (plan_of plan) (come_to stages) }
    ensures behind { IfOk result (IsBehind (plan_of plan) (come_to stages)) }
    ensures lines { OnOk result (Appends (K.written out.old) (K.written out.new) (event_lines plan (come_to stages).start)) }
    ensures front { OnErr result (AppendsFront (K.written out.old) (K.written out.new) (event_lines plan (come_to stages).start)) }
    ensures fault { IsErrOf result ListError.WriteFault → Rose (K.faults out.old) (K.faults out.new) }
    ensures later { K.faults out.old ≤ K.faults out.new }
{
    let Plan {
        program: code,
        script,
        workers: _,
    } = plan;
    let runner = CodeRunner {
        program: &code,
        service,
    };
    let (stages, trapped) = live_piece(alloc, &runner, &code, script, stages, out)?;
    Ok(Behind {
        program: code,
        stages: Progress::Live(stages),
        trapped,
    })
}

// By one who runs its calls, on one tree. It gives where the next piece begins, and whether an event of this one trapped.
fn live_piece<R: Runner, K: Sink>(
    alloc: Global,
    runner: &R,
    program: &Verified,
    script: Script,
    stages: Progress,
    out: &mut K,
) -> Result<(LiveStages, bool), ListError>
    requires sound { R.sound runner.now }
    requires shape { R.shape runner.now ≡ program.now.shape }
    requires can { (service : Resolved) × (workers : ℕ) × (R.meaning runner.now ≡ call_ran service) × CanRunPiece service (record { program = program.now; script = script; workers = workers }) (come_to stages) }
    ensures after { IfOk result (λ r. r.0 ≡ staged_after (come_to stages) (ran_by program.now (come_to stages).start script)) }
    ensures staged { IfOk result (λ r. IsStaged r.0) }
    ensures trapped { IfOk result (λ r. r.1 ≡ any_trap (ran_by program.now (come_to stages).start script).results) }
    ensures lines { OnOk result (Appends (K.written out.old) (K.written out.new) (events_from program.now.shape (come_to stages).start.next.0 (ran_by program.now (come_to stages).start script))) }
    ensures front { OnErr result (AppendsFront (K.written out.old) (K.written out.new) (events_from program.now.shape (come_to stages).start.next.0 (ran_by program.now (come_to stages).start script))) }
    ensures fault { IsErrOf result ListError.WriteFault → Rose (K.faults out.old) (K.faults out.new) }
    ensures later { K.faults out.old ≤ K.faults out.new }
{
    let stages = stages.live(alloc)?;
    let first = stages.first_ticket();
    let (behind, told) = stages.run(alloc, runner, script)?;
    let trapped = write_piece(alloc, &program.program().shape, first, told, out)?;
    Ok((behind, trapped))
}

// Writes the lines of a piece. It tells whether an event of it trapped.
fn write_piece<K: Sink>(
    alloc: Global,
    shape: &Shape,
    first: Ticket,
    told: Told,
    out: &mut K,
) -> Result<bool, ListError>
    requires first { 1 ≤ first.0 }
    requires few { length told.results ≤ 2 ^ 32 - 1 }
    ensures trapped { IfOk result (λ trapped. trapped ≡ any_trap told.results) }
    ensures lines { (done : Finished) → IsTold told done → OnOk result (Appends (K.written out.old) (K.written out.new) (events_from shape.now first.0 done)) }
    ensures front { (done : Finished) → IsTold told done → OnErr result (AppendsFront (K.written out.old) (K.written out.new) (events_from shape.now first.0 done)) }
    ensures fault { IsErrOf result ListError.WriteFault → Rose (K.faults out.old) (K.faults out.new) }
    ensures later { K.faults out.old ≤ K.faults out.new }
{
    let done = Finished {
        results: told.results,
        made: told.made,
        names: told.names,
        places: Seq::new(alloc),
        shots: Seq::new(alloc),
        loads: Seq::new(alloc),
    };
    write_results(alloc, out, shape, first, &done)?;
    Ok(status_of(done.results.as_slice()) == 1)
}

/// By a drive of the machine, which begins where the piece before ended.
pub fn drive_piece<K: Sink>(
    alloc: Global,
    engine: Engine,
    service: &Resolved,
    plan: Plan,
    stages: Progress,
    out: &mut K,
) -> Result<Behind, ListError>
    requires can { CanRunPiece service.now (plan_of plan) (come_to stages) }
    requires alone { is_alone engine ≡ true }
    requires workers { plan.workers ≡ nearest_workers (workers_of engine) }
    ensures behind { IfOk result (IsBehind (plan_of plan) (come_to stages)) }
    ensures lines { OnOk result (Appends (K.written out.old) (K.written out.new) (event_lines plan (come_to stages).start)) }
    ensures front { OnErr result (AppendsFront (K.written out.old) (K.written out.new) (event_lines plan (come_to stages).start)) }
    ensures fault { IsErrOf result ListError.WriteFault → Rose (K.faults out.old) (K.faults out.new) }
    ensures later { K.faults out.old ≤ K.faults out.new }
{
    let mut stages = stages.into_stages(alloc)?;
    let made = run_alone(alloc, engine, service, &plan, stages.start(), out)?;
    let trapped = go_on(engine, &plan, made, &mut stages);
    Ok(Behind {
        program: plan.program,
        stages: Progress::Kept(stages),
        trapped,
    })
}

/// By workers, who begin where the piece before ended. The lines are written while it is run.
pub fn share_piece<R: Threads + Wait + Sync, K: Sink + Send, G: Gate + Sync>(
    team: &Team<R, G>,
    engine: Engine,
    plan: Plan,
    stages: Progress,
    out: &mut K,
) -> Result<Behind, ListError>
    requires can { (service : Resolved) × CanRunPiece service (plan_of plan) (come_to stages) }
    requires crewed { is_alone engine ≡ false }
    requires workers { plan.workers ≡ nearest_workers (workers_of engine) }
    ensures behind { IfOk result (IsBehind (plan_of plan) (come_to stages)) }
    ensures lines { OnOk result (Appends (K.written out.old) (K.written out.new) (event_lines plan (come_to stages).start)) }
    ensures front { OnErr result (AppendsFront (K.written out.old) (K.written out.new) (event_lines plan (come_to stages).start)) }
    ensures fault { IsErrOf result ListError.WriteFault → Rose (K.faults out.old) (K.faults out.new) }
    ensures later { K.faults out.old ≤ K.faults out.new }
{
    let mut stages = stages.into_stages(team.alloc)?;
    let made = run_together(team, &plan, stages.start(), out)?;
    let trapped = go_on(engine, &plan, made, &mut stages);
    Ok(Behind {
        program: plan.program,
        stages: Progress::Kept(stages),
        trapped,
    })
}

// Goes on behind a piece: the next one begins where what the engine made of this one ended. It tells whether an event of it trapped.
fn go_on(engine: Engine, plan: &Plan, made: Made, stages: &mut Stages) -> bool
    requires made { IsPieceMade engine (plan_of plan.now) stages.old.start made }
    requires staged { IsStaged stages.old }
    requires follows { MayFollow stages.old (ran_by plan.now.program stages.old.start plan.now.script) }
    ensures trapped { result ≡ any_trap (ran_by plan.now.program stages.old.start plan.now.script).results }
    ensures after { stages.new ≡ staged_after stages.old (ran_by plan.now.program stages.old.start plan.now.script) }
    ensures staged { IsStaged stages.new }
{
    let trapped = status_of(made.done.results.as_slice()) == 1;
    stages.after(made.done);
    trapped
}
