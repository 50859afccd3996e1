//! What an event asks for: calls of events, and messages.

ghost use Rattle.std.specs.Prelude.{◌≡◌, IfOk};

use crate::copied::Copied;
use crate::memory::OutOfMemory;
use crate::seq::Seq;
use crate::text::Txt;
use crate::value::Value;
use std::alloc::Global;

/// A call of an event: its number in the shape, its arguments, and its generation.
#[derive(PartialEq, Eq, Debug, Drop)]
pub struct Call {
    /// The event's place in the shape.
    pub event: u16,
    /// Its arguments, in order.
    pub args: Seq<Value>,
    /// 0 for a request, and one more for each event that led to it; at most `GENERATION`.
    pub generation: u8,
}

/// What an event sends out.
#[derive(PartialEq, Eq, Debug, Drop)]
pub struct Message {
    /// What it is called.
    pub label: Txt,
    /// What it says.
    pub value: Value,
}

impl Call {
    /// A call equal to this one.
    pub fn copy(&self, alloc: Global) -> Result<Call, OutOfMemory>
        ensures { IfOk result (λ c. c ≡ self.now) }
    {
        Ok(Call {
            event: self.event,
            args: self.args.copy(alloc)?,
            generation: self.generation,
        })
    }
}

impl Message {
    /// A message equal to this one.
    pub fn copy(&self, alloc: Global) -> Result<Message, OutOfMemory>
        ensures { IfOk result (λ m. m ≡ self.now) }
    {
        Ok(Message {
            label: self.label.copy(alloc)?,
            value: self.value.copy(alloc)?,
        })
    }
}

impl Copied for Call {
    fn copied(&self, alloc: Global) -> Result<Call, OutOfMemory> {
        self.copy(alloc)
    }
}

impl Copied for Message {
    fn copied(&self, alloc: Global) -> Result<Message, OutOfMemory> {
        self.copy(alloc)
    }
}
