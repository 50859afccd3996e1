//! What is known of the heads of states that a machine stands for: the contract of a function that does nothing.

ghost use Rattle.std.specs.Prelude.{List};
ghost use Rattle.wave_base.specs.declared.start.Start.{Start};
ghost use Rattle.plan_actors.specs.Plans.{Plan, Fits, FitsStart};
ghost use Rattle.wave_states.specs.Labels.{Label};
ghost use Rattle.wave_effects.specs.Heading.{KnownHead};
ghost use Rattle.wave_effects.specs.Machines.{IsReached, TheState};

use plan_actors::{PlanActors, tickets_fit};
use wave_theory::tickets;

/// The head of a state that labels lead to is that of the fold after the committed jobs: they are jobs, and their tickets fit.
pub fn heads_are_known()
    ensures { (plan : Plan) (start : Start) (labels : List Label) (s : TheState) → Fits plan → FitsStart plan start → IsReached plan start labels s → KnownHead plan start s }
{
    tickets::<PlanActors>();
    tickets_fit();
}
