//! Contexts with one field.

ghost use Rattle.std.specs.Prelude.{◌≡◌, ◌∷◌, [], IfOk};
ghost use Rattle.wave_base.specs.declared.value.Value.TheVariants.{Int};

use std::alloc::Global;
use wave_base::{OutOfMemory, Path, Seq, Shot, Value};

/// A context with one whole number.
pub fn shot(alloc: Global, path: Path, number: i64) -> Result<Shot, OutOfMemory>
    ensures { IfOk result (λ s. s ≡ record { path = path; fields = Int number ∷ [] }) }
{
    let fields = Seq::from_vec(vec![in alloc; Value::Int(number)]?);
    Ok(Shot { path, fields })
}
