//! What a test of the machine, of a board or of its workers runs.

ghost use Rattle.std.specs.Prelude.{◌≡◌, IfSome};
ghost use Rattle.plan_actors.specs.Plans.{Fits};
ghost use Rattle.wave_effects.specs.Plans.{plan_of};

use std::alloc::Global;
use tests_code::coded_texts;
use tests_services::LOOK;
use wave_base::WORKERS;
use wave_effects::Plan;

/// A service, a script for it, and how many workers there are.
#[derive(Clone, Copy)]
pub struct Case<'a> {
    /// The service's text.
    pub service: &'a [u8],
    /// The script's.
    pub script: &'a [u8],
    /// How many workers run it.
    pub workers: u8,
}

impl<'a> Case<'a> {
    /// Its plan. None where there are no workers or too many of them, where a text is refused, or memory is wanting.
    pub fn plan(&self, alloc: Global) -> Option<Plan>
        ensures fits { IfSome result (λ p. Fits (plan_of p)) }
        ensures workers { IfSome result (λ p. p.workers ≡ self.now.workers) }
    {
        if self.workers < 1 || self.workers > WORKERS {
            return None;
        }
        let coded = coded_texts(alloc, self.service, self.script)?;
        Some(Plan {
            program: coded.program,
            script: coded.script,
            workers: self.workers,
        })
    }
}

/// Two events that only look at one hall, by two workers.
pub const TWO_LOOKS: Case = Case {
    service: LOOK,
    script: b"request see(1)
request see(1)
",
    workers: 2,
};
