//! What the tests run.

ghost use Rattle.std.specs.Prelude.{IfOk};
ghost use Rattle.plan_actors.specs.Plans.{Fits, FitsStart};
ghost use Rattle.wave_effects.specs.Plans.{plan_of};

use crate::{Case, start_on};
use std::alloc::Global;
use std::process::Abort;
use wave_base::{Finished, Host, OutOfMemory, START_TICKET, Seq, Start, Ticket};
use wave_drives::{PickRule, drive, drive_at, drive_with};
use wave_effects::Plan;
use wave_labels::Label;

// The plan of a case, which is right.
pub(super) fn plan_for(rt: &impl Abort, alloc: Global, case: &Case) -> Plan
    ensures { Fits (plan_of result) }
{
    match case.plan(alloc) {
        Some(plan) => plan,
        None => panic!(rt; "no plan"),
    }
}

// A Start of a plan, with the root on a host, and a next ticket.
pub(super) fn start_for(
    rt: &impl Abort,
    alloc: Global,
    plan: &Plan,
    host: Host,
    next: Ticket,
) -> Result<Start, OutOfMemory>
    requires { Fits (plan_of plan.now) }
    ensures { IfOk result (FitsStart (plan_of plan.now)) }
{
    if host.0 >= plan.script.hosts {
        panic!(rt; "no host");
    }
    if next.0 < 1 || next.0 > START_TICKET {
        panic!(rt; "no ticket");
    }
    start_on(alloc, plan, host, next)
}

// What a run gives, and its labels.
type Run = (Finished, Seq<Label>);

// A case from its first Start, by draws.
pub(super) fn draw_run(
    rt: &impl Abort,
    alloc: Global,
    case: &Case,
    seed: u64,
) -> Result<Run, OutOfMemory> {
    let plan = plan_for(rt, alloc, case);
    drive(alloc, &plan, seed)
}

// From another Start, by draws.
pub(super) fn drawn_at(
    rt: &impl Abort,
    alloc: Global,
    case: &Case,
    host: Host,
    next: Ticket,
    seed: u64,
) -> Result<Run, OutOfMemory> {
    let plan = plan_for(rt, alloc, case);
    let start = start_for(rt, alloc, &plan, host, next)?;
    drive_at(alloc, &plan, &start, seed)
}

// By a rule, with the root on host 0, and ticket 1.
pub(super) fn drive_case(
    rt: &impl Abort,
    alloc: Global,
    case: &Case,
    rule: PickRule,
) -> Result<Run, OutOfMemory> {
    let plan = plan_for(rt, alloc, case);
    let start = start_for(rt, alloc, &plan, Host(0), Ticket(1))?;
    drive_with(alloc, &plan, &start, rule)
}
