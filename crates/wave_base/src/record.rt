//! A context as its host keeps it.

ghost use Rattle.std.specs.Prelude.{◌≡◌, ◌<◌, [], length, IfOk, map};
ghost use Rattle.wave_base.specs.Shapes.{fields_of_class};

use crate::children::Children;
use crate::copied::Copied;
use crate::memory::OutOfMemory;
use crate::path::Class;
use crate::seq::Seq;
use crate::shape::Shape;
use crate::value::Value;
use std::alloc::Global;

/// What a context keeps: its fields and its children.
#[derive(PartialEq, Eq, Debug, Drop)]
pub struct Record {
    /// The values of its fields, in the order of its class.
    pub fields: Seq<Value>,
    /// What it keeps of its children.
    pub children: Children,
}

impl Record {
    /// The record of a new context of this class: the initial values, and no children.
    pub fn initial(alloc: Global, shape: &Shape, class: Class) -> Result<Record, OutOfMemory>
        requires { class.0 < length shape.now.classes }
        ensures fields { IfOk result (λ r. r.fields ≡ fields_of_class shape.now class.0) }
        ensures children { IfOk result (λ r. r.children ≡ []) }
    {
        let class = &shape.classes.as_slice()[class.0 as usize];
        let mut fields = Vec::new(alloc);
        for field in class.fields.as_slice() {
            fields.push(field.initial.copy(alloc)?)?;
        }
        Ok(Record {
            fields: Seq::from_vec(fields),
            children: Children::new(alloc),
        })
    }

    /// A record with the same fields and children.
    pub fn copy(&self, alloc: Global) -> Result<Record, OutOfMemory>
        ensures { IfOk result (λ r. r ≡ self.now) }
    {
        Ok(Record {
            fields: self.fields.copy(alloc)?,
            children: self.children.copy()?,
        })
    }
}

impl Copied for Record {
    fn copied(&self, alloc: Global) -> Result<Record, OutOfMemory> {
        self.copy(alloc)
    }
}
