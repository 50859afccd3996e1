//! Records on their way to a worker.

ghost use Rattle.std.specs.Prelude.{◌≡◌, Bool, true, is_some, Some, IfOk};
ghost use Rattle.context_queue.specs.Entries.{StandsFor, record_of};
ghost use Rattle.code_actor.specs.CodeActors.{Fields};
ghost use Rattle.wave_states.specs.States as theory;
ghost use Rattle.wave_states.specs.Steps.{left_by, seen_by, with_body};
ghost use Rattle.wave_effects.specs.Running.{copy_of, only_looks};

use crate::actor::Actor;
use context_queue::Entry;
use event_cells::{Cell, cells_stand};
use std::alloc::Global;
use wave_base::{Children, OutOfMemory, Path, Record};

// Whether the event of a cell holds a context and only looks there.
pub(crate) fn only_looks(cell: &Cell<Actor>, path: &Path) -> bool
    ensures { result ≡ only_looks cell.now path.now }
{
    cells_stand::<Actor>();
    match cell.hold(path) {
        Some(hold) => hold.peek,
        None => false,
    }
}

// A copy of the fields of a context whose record is here, without its children.
pub(crate) fn copied(alloc: Global, entry: &Entry) -> Result<Option<Record>, OutOfMemory>
    ensures { IfOk result (λ copy. copy ≡ copy_of true entry.now.body) }
{
    match &entry.body {
        Some(body) => {
            let fields = body.fields.copy(alloc)?;
            let children = Children::new(alloc);
            Ok(Some(Record { fields, children }))
        }
        None => Ok(None),
    }
}

// What a worker gets: the copy, where there is one, else the record itself, which is away then.
pub(crate) fn take_record(entry: &mut Entry, copy: Option<Record>) -> Record
    requires { is_some entry.old.body ≡ true }
    ensures { (looks : Bool) (en : theory.Entry Fields) (body : theory.Record Fields) → copy ≡ copy_of looks entry.old.body → StandsFor entry.old en → en.body ≡ Some body
        → (record_of result ≡ seen_by looks body) × StandsFor entry.new (with_body en (left_by looks body)) }
{
    match copy {
        Some(copy) => copy,
        None => entry.body.take().unwrap(),
    }
}
