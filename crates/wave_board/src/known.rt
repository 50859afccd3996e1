//! What is known of what a worker can take: the contracts of functions that do nothing.

ghost use Rattle.std.specs.Prelude.{List};
ghost use Rattle.wave_base.specs.declared.start.Start.{Start};
ghost use Rattle.plan_actors.specs.PlanActors.{plan_kind};
ghost use Rattle.plan_actors.specs.Plans.{Plan, Fits, FitsStart, begin_in};
ghost use Rattle.wave_states.specs.Labels.{Label};
ghost use Rattle.wave_theory.specs.Listed.{ListedFor};
ghost use Rattle.wave_effects.specs.Machines.{IsReached, TheState};
ghost use Rattle.wave_board.specs.inner.Idle.{IdleHandsAreEmpty};

use plan_actors::PlanActors;
use wave_theory::{hands_stay, listed_for};

// A worker that has given back each segment that it got has nothing in its hand.
pub(crate) fn idle_hands_are_empty()
    ensures { IdleHandsAreEmpty }
{
    hands_stay::<PlanActors>();
}

// The list of a worker has exactly what it can take.
pub(crate) fn lists_are_known()
    ensures { (plan : Plan) (start : Start) (labels : List Label) (s : TheState) → Fits plan → FitsStart plan start → IsReached plan start labels s → ListedFor (plan_kind plan.program plan.script.hosts) plan.workers (begin_in plan start) plan.script.batches s }
{
    listed_for::<PlanActors>();
}
