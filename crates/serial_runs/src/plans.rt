//! The laws of whole runs at plans: each is the contract of a function that does nothing.

ghost use Rattle.std.specs.Prelude.{◌≡◌, ◌<◌, ℕ, List, Some};
ghost use Rattle.wave_base.specs.declared.start.Start.{Start};
ghost use Rattle.wave_states.specs.Begins.{start_state};
ghost use Rattle.wave_states.specs.Labels.{Label};
ghost use Rattle.wave_states.specs.Runs.{run, Finished, IsDrive, oldest};
ghost use Rattle.wave_theory.specs.Came.{Came};
ghost use Rattle.wave_theory.specs.Trails.{Traced};
ghost use Rattle.plan_actors.specs.PlanActors.{plan_actors, plan_kind};
ghost use Rattle.plan_actors.specs.Plans.{Plan, Fits, FitsStart, begin_in};
ghost use Rattle.plan_actors.specs.Runs.{AtPlans, OfWholeRuns, PlanState};
ghost use Rattle.serial_runs.specs.Journals.{OwnersTake};
ghost use Rattle.serial_runs.specs.Orders.{EitherOrder, NeighboursChange};
ghost use Rattle.serial_runs.specs.Origins.{Origins};
ghost use Rattle.serial_runs.specs.Recorded.{Recorded};
ghost use Rattle.serial_runs.specs.Serial.{IsSerial, HasSerial};

use crate::laws::{
    either_order, neighbours_change, oldest_is_serial, one_end, origins, owners_take,
    records_agree, serial,
};
use plan_actors::PlanActors;
use wave_theory::{arrivals_are_in_order, trails_are_told};

/// Each finished run of a plan ends in the very state to which a serial run of the same plan leads, by worker 0 alone.
pub fn plans_are_serial()
    ensures { OfWholeRuns (λ plan start labels s. HasSerial (plan_kind plan.program plan.script.hosts) plan.workers (begin_in plan start) plan.script.batches s) }
{
    serial::<PlanActors>();
}

/// All finished runs of a plan end in one state, however many workers take the labels.
pub fn plans_end_in_one_state()
    ensures { OfWholeRuns (λ plan start labels s. (others : ℕ) (labels' : List Label) (s' : PlanState) → 0 < others
        → run (plan_actors plan.program) others (start_state (begin_in plan start) plan.script.batches) labels' ≡ Some s' → Finished (plan_actors plan.program) others s' → s' ≡ s) }
{
    one_end::<PlanActors>();
}

/// What the oldest rule picks of a plan is a serial run.
pub fn plans_drive_serially()
    ensures { (plan : Plan) (start : Start) → Fits plan → FitsStart plan start → (x : ℕ) (labels : List Label) → IsDrive (plan_actors plan.program) plan.workers plan.script.hosts oldest x (start_state (begin_in plan start) plan.script.batches) labels → IsSerial labels }
{
    oldest_is_serial::<PlanActors>();
}

/// Who was let in to a context, and whose Enter to it was sent, in the order of the labels: the tickets that enter it, in ascending order.
pub fn plans_come_in_order()
    ensures { AtPlans Came }
{
    arrivals_are_in_order::<PlanActors>();
}

/// The labels tell the trail of each context.
pub fn plans_leave_trails()
    ensures { AtPlans Traced }
{
    trails_are_told::<PlanActors>();
}

/// Each label of a plan's journal, wherever it stands, is taken by a host that owns its context just before it or just after it.
pub fn plans_have_owners()
    ensures { AtPlans OwnersTake }
{
    owners_take::<PlanActors>();
}

/// The record of a context, also while a worker has it in hand, says how many Enters were sent to each child, and where it was born.
pub fn plans_keep_records()
    ensures { AtPlans Recorded }
{
    records_agree::<PlanActors>();
}

/// Each ticket of a plan has one origin: a line of the script, or a call that an earlier ticket created.
pub fn tickets_have_origins()
    ensures { AtPlans (λ kind workers b batches labels s. Origins kind b batches s) }
{
    origins::<PlanActors>();
}

/// In each state of a plan's run two enabled labels that stand apart can be taken in either order, which leads to one state.
pub fn plans_take_either_order()
    ensures { AtPlans (λ kind workers b batches labels s. EitherOrder kind.system workers s) }
{
    either_order::<PlanActors>();
}

/// Neighbours of a plan's journal that are strangers may change places: it leads to the same state.
pub fn plans_change_neighbours()
    ensures { AtPlans (λ kind workers b batches labels s. NeighboursChange kind.system workers (start_state b batches) labels s) }
{
    neighbours_change::<PlanActors>();
}
