//! Maps, as they are read.

ghost use Rattle.std.specs.Prelude.{IfOk, IfSome};
ghost use Rattle.wave_base.specs.declared.value.Value.TheVariants as value;
ghost use Rattle.snapshot_text.specs.Shots.{IsValue};
ghost use Rattle.snapshot_text.specs.inner.Guesses.{AreNumbers, IsPairAtOf, IsTableOf};

use crate::value::{behind_first, number_of};
use std::alloc::Global;
use wave_base::{OutOfMemory, PutError, Table};
use wave_text::parts_at;

// The pair that a text is written for.
fn pair_of(text: &[u8]) -> Option<(i64, i64)>
    ensures only { IsPairAtOf text.now result }
    ensures fits { IfSome result (λ p. AreNumbers p) }
{
    let (key, value) = parts_at(text, b':');
    let key = number_of(key)?;
    let value = number_of(behind_first(value))?;
    Some((key, value))
}

/// The map that pairs are written for.
pub(crate) fn table_of(alloc: Global, text: &[u8]) -> Result<Option<Table>, OutOfMemory>
    ensures only { IfOk result (IsTableOf text.now) }
    ensures good { IfOk result (λ o. IfSome o (λ t. IsValue (value.Map t))) }
{
    let mut table = Table::new(alloc);
    let mut rest = text;
    while !rest.is_empty() {
        let (pair, after) = parts_at(rest, b',');
        let Some((key, value)) = pair_of(pair) else {
            return Ok(None);
        };
        match table.put(key, value) {
            Ok(()) => rest = behind_first(after),
            Err(PutError::Full) => return Ok(None),
            Err(PutError::OutOfMemory(refused)) => return Err(refused),
        }
    }
    Ok(Some(table))
}
