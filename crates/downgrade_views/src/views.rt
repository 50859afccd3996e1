//! Copies of all the contexts that an event came down through.

ghost use Rattle.std.specs.Prelude.{◌≡◌, ◌<◌, ◌++◌, ◌∷◌, [], length, true, false, Some, IsSome, IfOk, OnOk, OnErr};
ghost use Rattle.wave_base.specs.declared.value.Kind.{Kind};
ghost use Rattle.wave_base.specs.declared.value.Kind.TheVariants as k;
ghost use Rattle.wave_base.specs.declared.value.Value.TheVariants as v;
ghost use Rattle.wave_base.specs.Values.{TakesMemory};
ghost use Rattle.downgrade_views.specs.Levels.{field_at, HasField, kept_level};

use crate::level::{Level, kept_copies, value_of};
use std::alloc::Global;
use std::marker::Model;
use wave_base::{OutOfMemory, Record, Seq, Value};

/// Copies of fields of the contexts above an event, from the root.
#[derive(Debug, Drop)]
pub struct Views {
    levels: Vec<Level>,
    alloc: Global,
}

impl Model for Views {
    ghost use Rattle.std.specs.Prelude.{List};
    ghost use Rattle.downgrade_views.specs.Levels.{Level as TheLevel};

    ghost Value = { List TheLevel };

    ghost view = { λ v. v.levels.items };
}

impl Views {
    /// No levels.
    pub fn new(alloc: Global) -> Views
        ensures { result ≡ [] }
    {
        Views {
            levels: Vec::new(alloc),
            alloc,
        }
    }

    /// Adds a level below the others: copies of the kept fields of a context, and of no others.
    pub fn leave(&mut self, body: &Record, kept: &Seq<bool>) -> Result<(), OutOfMemory>
        requires { length kept.now ≡ length body.now.fields }
        ensures ok { OnOk result (self.new ≡ self.old ++ kept_level kept.now body.now.fields ∷ []) }
        ensures err { OnErr result (self.new ≡ self.old) }
    {
        let level = kept_copies(self.alloc, body, kept)?;
        self.levels.push(level)?;
        Ok(())
    }

    /// Drops the last level.
    pub fn back(&mut self)
        requires { 0 < length self.old }
        ensures { (last : _) × (self.old ≡ self.new ++ last ∷ []) }
    {
        let _ = self.levels.pop();
    }

    /// A copy of a field of a level, the root's being 0. Memory is asked for by texts and maps alone.
    pub fn read(&self, level: usize, field: usize) -> Result<Value, OutOfMemory>
        requires { IsSome (field_at self.now level field) }
        ensures value { IfOk result (λ v. field_at self.now level field ≡ Some v) }
        ensures memory { OnErr result ((kind : Kind) → HasField self.now level field kind → TakesMemory kind) }
    {
        self.at(level, field).copy(self.alloc)
    }

    /// A whole number of a level.
    pub fn read_int(&self, level: usize, field: usize) -> i64
        requires { HasField self.now level field k.Int }
        ensures { field_at self.now level field ≡ Some (v.Int result) }
    {
        match self.at(level, field) {
            Value::Int(n) => *n,
            _ => unreachable!(),
        }
    }

    /// A truth value of a level.
    pub fn read_bool(&self, level: usize, field: usize) -> bool
        requires { HasField self.now level field k.Bool }
        ensures { field_at self.now level field ≡ Some (v.Bool result) }
    {
        match self.at(level, field) {
            Value::Bool(b) => *b,
            _ => unreachable!(),
        }
    }

    // The field itself.
    fn at(&self, level: usize, field: usize) -> &Value
        requires { IsSome (field_at self.now level field) }
        ensures { field_at self.now level field ≡ Some result.now }
    {
        value_of(&self.levels[level], field)
    }
}
