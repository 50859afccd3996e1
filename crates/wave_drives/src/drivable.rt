//! What is known of the states of drives: the contract of a function that does nothing.

ghost use Rattle.std.specs.Prelude.{List};
ghost use Rattle.wave_base.specs.declared.start.Start.{Start};
ghost use Rattle.plan_actors.specs.Plans.{Plan, Fits, FitsStart};
ghost use Rattle.wave_states.specs.Labels.{Label};
ghost use Rattle.wave_effects.specs.Machines.{IsReached, TheState};
ghost use Rattle.wave_drives.specs.inner.Drivable.{CanDrive};

use plan_actors::PlanActors;
use wave_theory::lists_are_exact;

// A state that labels lead to has what a drive needs.
pub(crate) fn states_drive()
    ensures { (plan : Plan) (start : Start) (labels : List Label) (s : TheState) → Fits plan → FitsStart plan start → IsReached plan start labels s → CanDrive plan start s }
{
    lists_are_exact::<PlanActors>();
}
