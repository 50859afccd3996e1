//! A context as a snapshot shows it.

ghost use Rattle.std.specs.Prelude.{◌≡◌, IfOk};

use crate::copied::Copied;
use crate::memory::OutOfMemory;
use crate::path::Path;
use crate::seq::Seq;
use crate::value::Value;
use std::alloc::Global;

/// A context with its fields.
#[derive(PartialEq, Eq, Debug, Drop)]
pub struct Shot {
    /// The context.
    pub path: Path,
    /// The values of its fields, in the order of its class.
    pub fields: Seq<Value>,
}

impl Shot {
    /// A shot equal to this one.
    pub fn copy(&self, alloc: Global) -> Result<Shot, OutOfMemory>
        ensures { IfOk result (λ s. s ≡ self.now) }
    {
        Ok(Shot {
            path: self.path,
            fields: self.fields.copy(alloc)?,
        })
    }
}

impl Copied for Shot {
    fn copied(&self, alloc: Global) -> Result<Shot, OutOfMemory> {
        self.copy(alloc)
    }
}
