//! The law of the contexts that a finished run names.

ghost use Rattle.std.specs.Prelude.{List, map, All};
ghost use Rattle.journal_text.specs.Fits.{HasPath};
ghost use Rattle.wave_base.specs.declared.start.Start.{Start};
ghost use Rattle.plan_actors.specs.Plans as plans;
ghost use Rattle.wave_labels.specs.declared.label.Label.{Label};
ghost use Rattle.wave_labels.specs.Labels.{label_of};
ghost use Rattle.due_parts.specs.Accepted.{HasCode};
ghost use Rattle.wave_effects.specs.Machines.{IsFinishedRun};

use plan_actors::PlanActors;
use wave_theory::{by_owners, complete, one_owner, trails};

/// Each context that a finished run names is one of the shape.
pub fn runs_have_paths()
    ensures { (plan : plans.Plan) (start : Start) (journal : List Label) → HasCode plan → plans.FitsStart plan start → IsFinishedRun plan start (map label_of journal) → All (λ (l : Label). HasPath plan.program.shape l.act) journal }
{
    by_owners::<PlanActors>();
    complete::<PlanActors>();
    one_owner::<PlanActors>();
    trails::<PlanActors>();
}
