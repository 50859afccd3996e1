//! What is accepted of an input.

ghost use Rattle.std.specs.Prelude.{◌≡◌};
ghost use Rattle.wave_effects.specs.Plans.{plan_of};
ghost use Rattle.due_parts.specs.Accepted.{CanRun, plan_with};
ghost use Rattle.due_parts.specs.Runs.{nearest_workers};

use resolved_service::Resolved;
use service_verify::Verified;
use wave_base::{Script, Start, WORKERS};
use wave_effects::Plan;

/// What is to be run: a service with each name resolved, its code, a script for it, and where its run begins.
#[derive(Debug, Drop)]
pub struct Runnable {
    /// The service, with each name resolved.
    pub service: Resolved,
    /// Its code, verified.
    pub program: Verified,
    /// What is to be run on it.
    pub script: Script,
    /// What its run begins with.
    pub start: Start,
}

impl Runnable {
    /// Its service, a plan of it for 1 to 16 workers, and where it begins; another number is taken for the nearest of these.
    pub fn into_plan(self, workers: u8) -> (Resolved, Plan, Start)
        requires { CanRun self }
        ensures service { result.0 ≡ self.service }
        ensures plan { plan_of result.1 ≡ plan_with self (nearest_workers workers) }
        ensures start { result.2 ≡ self.start }
    {
        let plan = Plan {
            program: self.program,
            script: self.script,
            workers: workers.clamp(1, WORKERS),
        };
        (self.service, plan, self.start)
    }
}
