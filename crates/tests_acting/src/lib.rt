//! The events of fit verified programs as a kind of actors of the machine's theory: all its laws hold of them.
#![tactic(auto)]

ghost use Rattle.std.specs.Prelude.{ℕ, List};
ghost use Rattle.wave_base.specs.declared.call.Call.{Call};
ghost use Rattle.wave_states.specs.Begins.{Begin};
ghost use Rattle.wave_theory.specs.Always.{Always};
ghost use Rattle.code_actor.specs.CodeActors.{Fields, code_kind};
ghost use Rattle.tests_acting.specs.Codes.{FitCode, MayRunSegment};

use wave_theory::{Acting, may_run};

/// Events of code.
pub struct CodeEvents;

impl Acting for CodeEvents {
    ghost use Rattle.wave_base.specs.declared.call.Call.{Call};
    ghost use Rattle.wave_base.specs.declared.outcome.EventResult.{EventResult};
    ghost use Rattle.service_verify.specs.Segments.{Event};
    ghost use Rattle.code_actor.specs.CodeActors.{Fields as TheFields, code_kind};
    ghost use Rattle.tests_acting.specs.Codes.{FitCode, events_owe};

    ghost Code = { FitCode };

    ghost Actor = { Event };

    ghost Fields = { TheFields };

    ghost Outcome = { EventResult };

    ghost Job = { Call };

    ghost kind = { λ c. code_kind c.program c.hosts };

    ghost owed = { events_owe };
}

/// What is in a worker's hand may run a segment: the event stands where it runs, and the record fits there.
pub fn hands_may_run()
    ensures { (c : FitCode) → Always (code_kind c.program c.hosts) (λ kind b batches s. MayRunSegment c.program s) }
{
    may_run::<CodeEvents>();
}
