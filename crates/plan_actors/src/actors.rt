//! The kind of actors that plans have, with what they owe the machine.

ghost use Rattle.wave_base.specs.declared.outcome.EventResult.{EventResult};
ghost use Rattle.wave_base.specs.declared.script.Line.{Line};
ghost use Rattle.code_actor.specs.CodeActors.{Fields};
ghost use Rattle.plan_actors.specs.PlanActors.{Actor, plan_kind};
ghost use Rattle.plan_actors.specs.Plans.{Setting};

use wave_theory::Acting;

/// The events, moves and snapshots of plans, over each program with which they owe what the machine asks: each that is fit and
/// verified, as `actors_owe` says.
pub struct PlanActors;

impl Acting for PlanActors {
    ghost Code = { Setting };

    ghost Actor = { Actor };

    ghost Fields = { Fields };

    ghost Outcome = { EventResult };

    ghost Job = { Line };

    ghost kind = { λ c. plan_kind c.program c.hosts };

    ghost owed = { λ c. c.owed };
}
