//! Whether a label can be taken, without a list of all that can be.

ghost use Rattle.std.specs.Prelude.{◌≡◌, ◌↔◌, true, List, IsTrue, is_some, map, slice_get};
ghost use Rattle.wave_base.specs.declared.start.Start.{Start};
ghost use Rattle.wave_labels.specs.Labels.{act_of, label_of};
ghost use Rattle.wave_states.specs.Labels as theory;
ghost use Rattle.wave_states.specs.Steps.{step};
ghost use Rattle.wave_theory.specs.Listed.{Before, IsIn, Rising};
ghost use Rattle.plan_actors.specs.PlanActors.{plan_actors};
ghost use Rattle.plan_actors.specs.Plans.{Plan, Fits, FitsStart};
ghost use Rattle.wave_effects.specs.Keeping.{kept_of};
ghost use Rattle.wave_effects.specs.Machines.{IsReached, Stands, TheState};
ghost use Rattle.wave_machine.specs.inner.Index.{IsListed, by_none};
ghost use Rattle.wave_machine.specs.inner.Takeable.{CanTake, is_stop_of};

use crate::index::{act_number, place, ticket_of};
use crate::listable::states_list;
use crate::listed::Listed;
use crate::looks::has_at;
use crate::order::kind_rank;
use crate::ready::Ready;
use plan_actors::PlanActors;
use wave_base::{Host, Worker};
use wave_effects::{Engine, Out};
use wave_labels::{Act, Label, labels_tell};
use wave_theory::{by_owners, listed_for};

impl<'p> Listed<'p> {
    // Whether a label can be taken: by an idle worker where it is in the list, by another one where it is the Stop of what that has out.
    pub(crate) fn can_take(&self, label: &Label) -> bool
        requires { IsListed self.now }
        ensures { (start : Start) (s : TheState) → Stands (kept_of self.now.engine) start s → IsTrue result ↔ (is_some (step (plan_actors (kept_of self.now.engine).plan.program) (kept_of self.now.engine).plan.workers s (label_of label.now)) ≡ true) }
    {
        states_list();
        states_take();
        labels_tell();
        match hand_of(&self.engine, label.worker) {
            Some(Some(out)) => is_stop_of(&self.engine, &out, label.host, &label.act),
            Some(None) => {
                let ready = Ready {
                    host: label.host,
                    act: label.act,
                };
                has(&self.index, &ready)
            }
            None => false,
        }
    }
}

// What a worker has out, if there is such a worker.
fn hand_of(engine: &Engine, worker: Worker) -> Option<Option<Out>>
    ensures { result ≡ slice_get engine.now.hands.items worker.0 }
{
    engine.hands.get(worker.0 as usize).copied()
}

// Whether the act is the Stop of what is out, at a host whose store has the context.
fn is_stop_of(engine: &Engine, out: &Out, host: Host, act: &Act) -> bool
    ensures { result ≡ is_stop_of engine.now.stores.items out.now host.0 (act_of act.now) }
{
    match act {
        Act::Stop(ticket, path) => {
            out.ticket == *ticket && out.path == *path && has_at(engine, host, path)
        }
        _ => false,
    }
}

// Whether it is in the list. Its slot has one entry at most, which is found by halves.
fn has(index: &[Ready], ready: &Ready) -> bool
    ensures { Rising (λ (l m : theory.Label). Before l.act m.act) (map by_none index.now) → IsTrue result ↔ IsIn index.now ready.now }
{
    let act = &ready.act;
    let at = place(index, kind_rank(act), ticket_of(act), act_number(act));
    match ready_at(index, at) {
        Some(found) => found == *ready,
        None => false,
    }
}

fn ready_at(index: &[Ready], at: usize) -> Option<Ready>
    ensures { result ≡ slice_get index.now at }
{
    index.get(at).copied()
}

// A state that labels lead to has what is to be known to say what can be taken.
fn states_take()
    ensures { (plan : Plan) (start : Start) (labels : List theory.Label) (s : TheState) → Fits plan → FitsStart plan start → IsReached plan start labels s → CanTake plan start s }
{
    by_owners::<PlanActors>();
    listed_for::<PlanActors>();
}
