//! Copies of a context's fields that are read from below, after the event has left it.

ghost use Rattle.std.specs.Prelude.{◌≡◌, length, Some, IsSome, IfOk};
ghost use Rattle.downgrade_views.specs.Levels.{value_in, kept_level};

use std::alloc::Global;
use wave_base::{OutOfMemory, Record, Seq, Value};

/// Copies of fields of one context, each with its number.
pub type Level = Seq<(usize, Value)>;

/// Copies the kept fields of a context, and no others.
pub fn kept_copies(alloc: Global, body: &Record, kept: &Seq<bool>) -> Result<Level, OutOfMemory>
    requires { length kept.now ≡ length body.now.fields }
    ensures { IfOk result (λ l. l ≡ kept_level kept.now body.now.fields) }
{
    let fields = body.fields.as_slice();
    let marks = kept.as_slice();
    let mut copies = Vec::new(alloc);
    for i in 0..fields.len() {
        if marks[i] {
            copies.push((i, fields[i].copy(alloc)?))?;
        }
    }
    Ok(Seq::from_vec(copies))
}

/// The value of a field that the level has.
pub fn value_of(level: &Level, field: usize) -> &Value
    requires { IsSome (value_in level.now field) }
    ensures { value_in level.now field ≡ Some result.now }
{
    for copy in level.as_slice() {
        if copy.0 == field {
            return &copy.1;
        }
    }
    unreachable!()
}
