//! Values of expressions, kept elsewhere or new.

ghost use Rattle.std.specs.Prelude.{◌≡◌, IfOk, OnErr};
ghost use Rattle.resolved_service.specs.World.{is_true};
ghost use Rattle.service_eval.specs.inner.Answers.{value_in};
ghost use Rattle.wave_base.specs.Values.{kind_of, TakesMemory};

use std::alloc::Global;
use wave_base::{OutOfMemory, Value};

/// A value of an expression: one that is kept elsewhere, or a new one.
#[derive(Drop)]
pub enum Operand<'v> {
    /// One that is kept elsewhere.
    Held(&'v Value),
    /// A new one.
    Made(Value),
}

impl<'v> Operand<'v> {
    /// The value, where it is kept.
    #[inline(always)]
    pub fn value(&self) -> &Value
        ensures { result.now ≡ value_in self.now }
    {
        match self {
            Operand::Held(value) => *value,
            Operand::Made(value) => value,
        }
    }

    /// The value as the caller's own: one that is kept elsewhere is copied. Memory is asked for by texts and maps alone.
    #[inline(always)]
    pub fn into_value(self, alloc: Global) -> Result<Value, OutOfMemory>
        ensures equal { IfOk result (λ v. v ≡ value_in self.entry) }
        ensures memory { OnErr result (TakesMemory (kind_of (value_in self.entry))) }
    {
        match self {
            Operand::Held(value) => value.copy(alloc),
            Operand::Made(value) => Ok(value),
        }
    }
}

/// Whether a value is true.
#[inline(always)]
pub fn is_true(value: &Value) -> bool
    ensures { result ≡ is_true value.now }
{
    match value {
        Value::Bool(b) => *b,
        _ => false,
    }
}
