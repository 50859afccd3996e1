//! A plan that is run on this thread, by the evaluator or by a drive, or by workers. The lines of its events are written; what stands behind them is
//! left to the caller.

ghost use Rattle.std.specs.Prelude.{◌≡◌, ◌≤◌, ℕ, true, IfOk, IsErrOf, OnErr, OnOk};
ghost use Rattle.std.specs.Io.KnownBytes.{Appends};
ghost use Rattle.host_workers.specs.Lines.{event_lines};
ghost use Rattle.plan_actors.specs.Plans.{Fits, FitsStart};
ghost use Rattle.eventwave.specs.inner.Engines.{CanMake, IsMade, is_alone};
ghost use Rattle.wave_io.specs.Causes.{Rose};
ghost use Rattle.wave_io.specs.Streams.{AppendsFront};
ghost use Rattle.wave_effects.specs.Plans.{plan_of};

use crate::made::Made;
use crate::team::Team;
use due_answer::Engine;
use host_workers::{RunError, run_plan_at};
use label_log::LabelLog;
use listing_out::{ListError, write_results};
use plan_actors::{PlanActors, plans_drive};
use resolved_service::Resolved;
use std::alloc::Global;
use std::sync::Wait;
use std::thread::Threads;
use wave_base::{OutOfMemory, Start};
use wave_drives::{PickRule, drive_with};
use wave_effects::Plan;
use wave_io::{Gate, Sink};
use wave_labels::Label;
use wave_meaning::run_script_at;
use wave_theory::rules_pick;

/// Runs a plan on this thread.
pub fn run_alone<K: Sink>(
    alloc: Global,
    engine: Engine,
    service: &Resolved,
    plan: &Plan,
    start: &Start,
    out: &mut K,
) -> Result<Made, ListError>
    requires can { CanMake service.now (plan_of plan.now) start.now }
    requires alone { is_alone engine ≡ true }
    ensures made { IfOk result (IsMade engine (plan_of plan.now) start.now) }
    ensures lines { OnOk result (Appends (K.written out.old) (K.written out.new) (event_lines plan.now start.now)) }
    ensures front { OnErr result (AppendsFront (K.written out.old) (K.written out.new) (event_lines plan.now start.now)) }
    ensures fault { IsErrOf result ListError.WriteFault → Rose (K.faults out.old) (K.faults out.new) }
    ensures later { K.faults out.old ≤ K.faults out.new }
{
    let made = make_alone(alloc, engine, service, plan, start)?;
    let shape = &plan.program.program().shape;
    write_results(alloc, out, shape, start.next, &made.done)?;
    Ok(made)
}

// By the evaluator, or by a drive.
fn make_alone(
    alloc: Global,
    engine: Engine,
    service: &Resolved,
    plan: &Plan,
    start: &Start,
) -> Result<Made, OutOfMemory>
    requires can { CanMake service.now (plan_of plan.now) start.now }
    requires alone { is_alone engine ≡ true }
    ensures { IfOk result (IsMade engine (plan_of plan.now) start.now) }
{
    match engine {
        Engine::Evaluator => evaluate(alloc, service, plan, start),
        Engine::Drive(_, rule) => drive(alloc, plan, start, rule),
        Engine::Workers(_) => unreachable!(),
    }
}

// By the plain evaluator.
fn evaluate(
    alloc: Global,
    service: &Resolved,
    plan: &Plan,
    start: &Start,
) -> Result<Made, OutOfMemory>
    requires { CanMake service.now (plan_of plan.now) start.now }
    ensures { IfOk result (IsMade Engine.Evaluator (plan_of plan.now) start.now) }
{
    let shape = &plan.program.program().shape;
    let done = run_script_at(alloc, shape, service, start, &plan.script)?;
    Ok(Made {
        done,
        journal: None,
    })
}

// By the machine: the labels that a rule picks, until none is left.
fn drive(alloc: Global, plan: &Plan, start: &Start, rule: PickRule) -> Result<Made, OutOfMemory>
    requires fits { Fits (plan_of plan.now) }
    requires begins { FitsStart (plan_of plan.now) start.now }
    ensures { (workers : ℕ) → IfOk result (IsMade (Engine.Drive workers rule) (plan_of plan.now) start.now) }
{
    plans_drive();
    rules_pick::<PlanActors>();
    let (done, labels) = drive_with(alloc, plan, start, rule)?;
    let journal = log_of(alloc, labels.as_slice())?;
    Ok(Made {
        done,
        journal: Some(journal),
    })
}

// These labels as a log.
fn log_of(alloc: Global, labels: &[Label]) -> Result<LabelLog, OutOfMemory>
    ensures { IfOk result (λ log. log ≡ labels.now) }
{
    let mut log = LabelLog::new(alloc);
    for label in labels {
        log.push(label)?;
    }
    Ok(log)
}

/// Runs a plan by its workers, each in a thread of its own where one can be made. The lines are written while they run.
pub fn run_together<R: Threads + Wait + Sync, K: Sink + Send, G: Gate + Sync>(
    team: &Team<R, G>,
    plan: &Plan,
    start: &Start,
    out: &mut K,
) -> Result<Made, ListError>
    requires fits { Fits (plan_of plan.now) }
    requires begins { FitsStart (plan_of plan.now) start.now }
    ensures made { (workers : ℕ) → IfOk result (IsMade (Engine.Workers workers) (plan_of plan.now) start.now) }
    ensures lines { OnOk result (Appends (K.written out.old) (K.written out.new) (event_lines plan.now start.now)) }
    ensures front { OnErr result (AppendsFront (K.written out.old) (K.written out.new) (event_lines plan.now start.now)) }
    ensures fault { IsErrOf result ListError.WriteFault → Rose (K.faults out.old) (K.faults out.new) }
    ensures later { K.faults out.old ≤ K.faults out.new }
{
    match run_plan_at(team.rt, team.alloc, plan, start, team.gate, out) {
        Ok((done, journal)) => Ok(Made {
            done,
            journal: Some(journal),
        }),
        Err(RunError::WriteFault) => Err(ListError::WriteFault),
        Err(RunError::OutOfMemory(refused)) => Err(ListError::OutOfMemory(refused)),
    }
}
