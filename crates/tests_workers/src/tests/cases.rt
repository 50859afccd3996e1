//! What the tests run.

ghost use Rattle.plan_actors.specs.Plans.{Fits};
ghost use Rattle.wave_effects.specs.Plans.{plan_of};

use host_workers::{RunError, run_plan};
use label_log::LabelLog;
use std::alloc::Global;
use std::process::Abort;
use std::sync::Wait;
use std::thread::Threads;
use tests_machine::Case;
use wave_base::Finished;
use wave_effects::Plan;
use wave_io::{Gate, Sink};

// The plan of a case, which is right.
pub(super) fn plan_for(rt: &impl Abort, alloc: Global, case: &Case) -> Plan
    ensures { Fits (plan_of result) }
{
    match case.plan(alloc) {
        Some(plan) => plan,
        None => panic!(rt; "no plan"),
    }
}

// A run of it, and what it gives.
pub(super) fn ran<R: Threads + Wait + Sync, G: Gate + Sync, K: Sink + Send>(
    rt: &R,
    alloc: Global,
    plan: &Plan,
    gate: &G,
    sink: &mut K,
) -> Result<Finished, RunError>
    requires { Fits (plan_of plan.now) }
{
    match told_lines(rt, alloc, plan, gate, sink) {
        Ok((finished, _)) => Ok(finished),
        Err(error) => Err(error),
    }
}

// A run with its journal. What the contract of a run says stands in this function alone, not in each test.
pub(super) fn told_lines<R: Threads + Wait + Sync, G: Gate + Sync, K: Sink + Send>(
    rt: &R,
    alloc: Global,
    plan: &Plan,
    gate: &G,
    sink: &mut K,
) -> Result<(Finished, LabelLog), RunError>
    requires { Fits (plan_of plan.now) }
{
    run_plan(rt, alloc, plan, gate, sink)
}
