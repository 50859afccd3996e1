//! The kinds of parameters.

ghost use Rattle.std.specs.Prelude.{◌≡◌, IfOk};
ghost use Rattle.type_rules.specs.Known as known;

use mace_ast::Param;
use std::alloc::Global;
use wave_base::{Kind, OutOfMemory, Seq};

/// The kinds of parameters.
pub fn kinds_of(alloc: Global, params: &Seq<Param>) -> Result<Seq<Kind>, OutOfMemory>
    ensures { IfOk result (λ kinds. kinds ≡ known.kinds_of params.now) }
{
    let mut kinds = Vec::new(alloc);
    for param in params.as_slice() {
        kinds.push(param.kind)?;
    }
    Ok(Seq::from_vec(kinds))
}
