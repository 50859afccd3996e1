//! What is known of the states that are listed: the contract of a function that does nothing.

ghost use Rattle.std.specs.Prelude.{List};
ghost use Rattle.wave_base.specs.declared.start.Start.{Start};
ghost use Rattle.plan_actors.specs.Plans.{Plan, Fits, FitsStart};
ghost use Rattle.wave_states.specs.Labels.{Label};
ghost use Rattle.wave_effects.specs.Machines.{IsReached, TheState};
ghost use Rattle.wave_machine.specs.inner.Listable.{CanList, one_more};

use plan_actors::PlanActors;
use wave_theory::{agree, bounds, doable, one_owner, stoppable, trails};

// A state that labels lead to has what its listing needs, and would have it with one worker more, who is idle whatever the others do.
pub(crate) fn states_list()
    ensures can { (plan : Plan) (start : Start) (labels : List Label) (s : TheState) → Fits plan → FitsStart plan start → IsReached plan start labels s → CanList plan start s }
    ensures more { (plan : Plan) (start : Start) (labels : List Label) (s : TheState) → Fits plan → FitsStart plan start → IsReached plan start labels s → CanList (one_more plan) start s }
{
    agree::<PlanActors>();
    bounds::<PlanActors>();
    doable::<PlanActors>();
    one_owner::<PlanActors>();
    stoppable::<PlanActors>();
    trails::<PlanActors>();
}
