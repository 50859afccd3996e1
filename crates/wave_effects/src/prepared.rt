//! All memory that a label takes, taken before anything changes.

ghost use Rattle.std.specs.Prelude.{◌≡◌, Some, IsSome, IfOk};
ghost use Rattle.wave_effects.specs.Taken.{calls_in, cell_in, copy_in, entry_in, unboxed_value};

use crate::actor::Actor;
use context_queue::Entry;
use event_cells::Cell;
use std::alloc::Global;
use wave_base::{Call, OutOfMemory, Record, Seq};

/// What is made for a label before it is taken. What is large lies in a box, so that it is handed on as a pointer.
#[derive(Drop)]
pub enum Prepared {
    /// Room alone.
    Room,
    /// The cell of the job that is admitted.
    Event(Cell<Actor>),
    /// The entry of a context that is born, where it is.
    Entry(Option<Box<Entry>>),
    /// The copy of a record, where the event only looks.
    Copy(Option<Box<Record>>),
    /// The calls that a result creates.
    Created(Seq<Call>),
}

impl Prepared {
    // Only room was made, and there is no part.
    pub(crate) fn room(self) {}

    pub(crate) fn cell(self) -> Cell<Actor>
        requires { IsSome (cell_in self) }
        ensures { cell_in self ≡ Some result }
    {
        match self {
            Prepared::Event(cell) => cell,
            _ => unreachable!(),
        }
    }

    pub(crate) fn entry(self) -> Option<Entry>
        requires { IsSome (entry_in self) }
        ensures { entry_in self ≡ Some result }
    {
        match self {
            Prepared::Entry(entry) => open_box(entry),
            _ => unreachable!(),
        }
    }

    pub(crate) fn copy(self) -> Option<Record>
        requires { IsSome (copy_in self) }
        ensures { copy_in self ≡ Some result }
    {
        match self {
            Prepared::Copy(copy) => open_box(copy),
            _ => unreachable!(),
        }
    }

    pub(crate) fn calls(self) -> Seq<Call>
        requires { IsSome (calls_in self) }
        ensures { calls_in self ≡ Some result }
    {
        match self {
            Prepared::Created(calls) => calls,
            _ => unreachable!(),
        }
    }
}

// What a box has, where there is one.
fn open_box<T>(part: Option<Box<T>>) -> Option<T>
    ensures { result ≡ unboxed_value part }
{
    match part {
        Some(part) => Some(Box::into_inner(part)),
        None => None,
    }
}

// A part in a box, where there is one.
pub(crate) fn box_part<T: Drop>(
    alloc: Global,
    part: Option<T>,
) -> Result<Option<Box<T>>, OutOfMemory>
    ensures { IfOk result (λ b. unboxed_value b ≡ part) }
{
    match part {
        Some(part) => Ok(Some(Box::new(alloc, part)?)),
        None => Ok(None),
    }
}
