//! How a context begins.

ghost use Rattle.std.specs.Prelude.{◌≡◌, ◌≤◌, [], IfOk};
ghost use Rattle.wave_base.specs.Shapes.{initial_fields};
ghost use Rattle.wave_states.specs.Steps.{new_entry};
ghost use Rattle.context_queue.specs.Entries.{StandsFor};
ghost use Rattle.plan_actors.specs.PlanActors.{plan_actors};
ghost use Rattle.service_code.specs.declared.program.Program.{Program};

use context_queue::Entry;
use std::alloc::Global;
use wave_base::{Children, OutOfMemory, Path, Record, Seq, Shape};

// The entry of a context that is born, with room in its line for one.
pub(crate) fn first_entry(alloc: Global, shape: &Shape, path: &Path) -> Result<Entry, OutOfMemory>
    ensures entry { (program : Program) → program.shape ≡ shape.now → IfOk result (λ e. StandsFor e (new_entry (plan_actors program) path.now)) }
    ensures room { IfOk result (λ e. 1 ≤ e.waiting.room) }
{
    let mut entry = Entry::new(alloc, first_record(alloc, shape, path)?);
    entry.reserve(1)?;
    Ok(entry)
}

// The record of a context that is born: the initial values of its class, where the shape has that class, and no children.
fn first_record(alloc: Global, shape: &Shape, path: &Path) -> Result<Record, OutOfMemory>
    ensures fields { IfOk result (λ r. r.fields ≡ initial_fields shape.now path.now) }
    ensures children { IfOk result (λ r. r.children ≡ []) }
{
    let class = path.class();
    if (class.0 as usize) < shape.classes.len() {
        return Record::initial(alloc, shape, class);
    }
    Ok(Record {
        fields: Seq::new(alloc),
        children: Children::new(alloc),
    })
}
