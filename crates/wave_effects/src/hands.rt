//! What is known of segments that are out: the contract of a function that does nothing.

ghost use Rattle.std.specs.Prelude.{List};
ghost use Rattle.wave_base.specs.declared.start.Start.{Start};
ghost use Rattle.plan_actors.specs.Plans.{Plan, Fits, FitsStart};
ghost use Rattle.wave_states.specs.Labels.{Label};
ghost use Rattle.wave_effects.specs.Machines.{IsReached, TheState};
ghost use Rattle.wave_effects.specs.Running.{SegmentsKnown};

use fold_laws::events_send_few;
use plan_actors::{PlanActors, folds_end};
use wave_theory::{may_run, stoppable, trails, within};

/// In a state that labels lead to, each segment that is out may run and can be stopped; numbers are small, since the fold ends; each
/// context has its trail; and each event has numbers for the mails that its next segment may send.
pub fn segments_are_known()
    ensures { (plan : Plan) (start : Start) (labels : List Label) (s : TheState) → Fits plan → FitsStart plan start → IsReached plan start labels s → SegmentsKnown plan start s }
{
    stoppable::<PlanActors>();
    may_run::<PlanActors>();
    within::<PlanActors>();
    folds_end();
    trails::<PlanActors>();
    events_send_few();
}
