//! Starts of plans.

ghost use Rattle.std.specs.Prelude.{◌≤◌, ◌<◌, IfOk};
ghost use Rattle.wave_base.specs.declared.limits.TheConstants.{START_TICKET};
ghost use Rattle.plan_actors.specs.Plans.{Fits, FitsStart};
ghost use Rattle.wave_effects.specs.Plans.{plan_of};

use context_tree::trees_that_fit;
use std::alloc::Global;
use wave_base::{Host, OutOfMemory, Path, Place, Seq, Start, Ticket};
use wave_effects::Plan;

/// A Start of a plan with the root alone, as it begins, on a host, and a next ticket.
pub fn start_on(alloc: Global, plan: &Plan, host: Host, next: Ticket) -> Result<Start, OutOfMemory>
    requires fits { Fits (plan_of plan.now) }
    requires host { host.0 < plan.now.script.hosts }
    requires first { 1 ≤ next.0 }
    requires last { next.0 ≤ START_TICKET }
    ensures { IfOk result (FitsStart (plan_of plan.now)) }
{
    trees_that_fit();
    let first = Start::first(alloc, &plan.program.program().shape)?;
    let path = Path::root();
    Ok(Start {
        shots: first.shots,
        places: Seq::from_vec(vec![in alloc; Place { path, host }]?),
        next,
    })
}
