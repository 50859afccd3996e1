//! What is known of the states that a machine stands for: the contract of a function that does nothing.

ghost use Rattle.std.specs.Prelude.{List};
ghost use Rattle.wave_base.specs.declared.start.Start.{Start};
ghost use Rattle.plan_actors.specs.Plans.{Plan, Fits, FitsStart};
ghost use Rattle.wave_states.specs.Labels.{Label};
ghost use Rattle.wave_effects.specs.Machines.{IsReached, Known, TheState};

use plan_actors::PlanActors;
use wave_theory::{agree, bounds};

/// A state that labels lead to keeps within its bounds, and its parts agree.
pub fn states_are_known()
    ensures { (plan : Plan) (start : Start) (labels : List Label) (s : TheState) → Fits plan → FitsStart plan start → IsReached plan start labels s → Known plan start s }
{
    agree::<PlanActors>();
    bounds::<PlanActors>();
}
