//! Sums over maps.

ghost use Rattle.std.specs.Prelude.{◌≡◌, FitsSigned};
ghost use Rattle.std.specs.Int.{w64};
ghost use Rattle.value_ops.specs.Kinds.{answer_of};
ghost use Rattle.value_ops.specs.Meanings as meaning;
ghost use Rattle.value_ops.specs.Meanings.{in_int};
ghost use Rattle.wave_base.specs.declared.value.Kind.{Kind};

use crate::ints::number;
use wave_base::{Table, TrapKind, Value};

/// The sum of all values of a map.
pub fn sum(map: &Table) -> Result<Value, TrapKind>
    ensures { result ≡ answer_of Kind.Int (in_int (meaning.total map.now)) }
{
    number(i64::try_from(total(map)).ok())
}

// A thousand ints have room in 128 bits.
fn total(map: &Table) -> i128
    ensures { result ≡ meaning.total map.now }
{
    let mut total = 0i128;
    let pairs = map.pairs();
    for pair in pairs {
        total += wide(pair);
    }
    total
}

// The value of a pair.
fn wide(pair: &(i64, i64)) -> i128
    ensures same { result ≡ pair.now.1 }
    ensures within { FitsSigned w64 result }
{
    i128::from(pair.1)
}
