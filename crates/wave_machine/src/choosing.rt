//! What an idle worker can do, and one of it, read off the index.

ghost use Rattle.std.specs.Prelude.{◌≡◌, ℕ, Some, None, map, slice_get, option_copied};
ghost use Rattle.wave_base.specs.declared.start.Start.{Start};
ghost use Rattle.wave_states.specs.Canonical.{taken_as};
ghost use Rattle.wave_effects.specs.Machines.{Stands, TheState};
ghost use Rattle.wave_machine.specs.Picks.{IsOneOf};
ghost use Rattle.wave_machine.specs.Readies.{choice_of, enabled_by, ready_in};
ghost use Rattle.wave_machine.specs.inner.Index.{IsListed};
ghost use Rattle.wave_machine.specs.inner.Updating.{IsPickOf};

use crate::index::place;
use crate::listable::states_list;
use crate::listed::Listed;
use crate::order::{is_late, kind_rank};
use crate::ready::Ready;
use wave_base::{Ticket, Worker};
use wave_labels::Label;

impl<'p> Listed<'p> {
    ghost use Rattle.wave_effects.specs.Keeping.{kept_of};

    // What an idle worker can do, in the canonical order, without who does it.
    pub(crate) fn ready(&self) -> &[Ready]
        requires { IsListed self.now }
        ensures ready { (start : Start) (s : TheState) → Stands (kept_of self.now.engine) start s → map choice_of result.now ≡ ready_in (kept_of self.now.engine).plan s }
        ensures taken { (w : ℕ) (start : Start) (s : TheState) → slice_get self.now.engine.hands.items w ≡ Some None → Stands (kept_of self.now.engine) start s → map (λ r. taken_as w (choice_of r)) result.now ≡ enabled_by (kept_of self.now.engine).plan s w }
    {
        states_list();
        self.index.as_slice()
    }

    // One of what an idle worker can do, of the last kind of which there is something. So the next result comes first and the next job
    // last, and little is under way.
    pub(crate) fn some_for(&self, worker: Worker) -> Option<Label>
        requires listed { IsListed self.now }
        requires idle { slice_get self.now.engine.hands.items worker.0 ≡ Some None }
        ensures { (start : Start) (s : TheState) → Stands (kept_of self.now.engine) start s → IsOneOf (enabled_by (kept_of self.now.engine).plan s worker.0) result }
    {
        states_list();
        match one_of_last(&self.index) {
            Some(ready) => Some(ready.by(worker)),
            None => None,
        }
    }
}

// One of the last kind: the last one of a late kind, behind which nothing moves when it is taken out, and else the first one.
fn one_of_last(index: &[Ready]) -> Option<&Ready>
    ensures { IsPickOf index.now (option_copied result) }
{
    match index.last() {
        Some(last) => {
            if is_late(&last.act) {
                return Some(last);
            }
            match index.get(place(index, kind_rank(&last.act), Ticket(0), 0)) {
                Some(first) => Some(first),
                None => Some(last),
            }
        }
        None => None,
    }
}
