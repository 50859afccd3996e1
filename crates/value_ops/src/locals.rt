//! What locals begin with.

ghost use Rattle.std.specs.Prelude.{◌≡◌, IfOk};
ghost use Rattle.wave_base.specs.Values.{blank_of};

use std::alloc::Global;
use wave_base::{Kind, OutOfMemory, Table, Txt, Value};

/// What a local of a kind begins with: nought, false, the empty text or the empty map.
pub fn blank(alloc: Global, kind: Kind) -> Result<Value, OutOfMemory>
    ensures { IfOk result (λ value. value ≡ blank_of kind) }
{
    match kind {
        Kind::Int => Ok(Value::Int(0)),
        Kind::Bool => Ok(Value::Bool(false)),
        Kind::Text => Ok(Value::Str(Txt::from_bytes(alloc, b"")?)),
        Kind::Map => Ok(Value::Map(Table::new(alloc))),
    }
}
