//! Operators on maps and keys.

ghost use Rattle.std.specs.Prelude.{◌≡◌, ◌≢◌, ◌↔◌, ◌∷◌, [], Ok, Err, None, OnOk, OnErr};
ghost use Rattle.value_ops.specs.Answers.{Answers};
ghost use Rattle.value_ops.specs.Kinds.{answer_of};
ghost use Rattle.value_ops.specs.Meanings as meaning;
ghost use Rattle.value_ops.specs.Meanings.{or_trap};
ghost use Rattle.value_ops.specs.Operators.{takes_of, gives_of, apply_row};
ghost use Rattle.wave_base.specs.declared.trap.TrapKind.{TrapKind};
ghost use Rattle.wave_base.specs.Tables.{value_at, is_full};
ghost use Rattle.wave_base.specs.declared.value.Kind.{Kind};
ghost use Rattle.wave_base.specs.declared.value.Value.{Value};
ghost use Rattle.wave_base.specs.Memory.{the_refusal};

use crate::error::OpError;
use crate::rows::{AT, CUT, HAS, PUT};
use wave_base::{PutError, TABLE_PAIRS, Table, TrapKind, Value};

/// What a row reads from a map at an int: the value of a key, whether a key is there, or the key at a place.
pub fn read_map(row: usize, map: &Table, key: i64) -> Result<Value, TrapKind>
    requires takes { takes_of row ≡ Kind.Map ∷ Kind.Int ∷ [] }
    requires reads { gives_of row ≢ Kind.Map }
    ensures { result ≡ apply_row row (Value.Map map.now ∷ Value.Int key ∷ []) }
{
    match row {
        AT => number_at(map.get(key)),
        HAS => Ok(Value::Bool(map.get(key).is_some())),
        _ => number_at(key_at(map, key)),
    }
}

// The int, or that it is not there.
fn number_at(value: Option<i64>) -> Result<Value, TrapKind>
    ensures { result ≡ answer_of Kind.Int (or_trap TrapKind.Absent value) }
{
    match value {
        Some(n) => Ok(Value::Int(n)),
        None => Err(TrapKind::Absent),
    }
}

// The key at a place, if there is such a place.
fn key_at(map: &Table, at: i64) -> Option<i64>
    ensures { result ≡ meaning.key_at map.now at }
{
    if at < 0 {
        None
    } else {
        map.key_at(at as usize)
    }
}

/// What a row gives of a map and an int.
pub fn apply_map(row: usize, map: &Table, key: i64) -> Result<Value, OpError>
    requires { takes_of row ≡ Kind.Map ∷ Kind.Int ∷ [] }
    ensures { Answers (apply_row row (Value.Map map.now ∷ Value.Int key ∷ [])) result }
{
    if row == CUT {
        cut(map, key)
    } else {
        Ok(read_map(row, map, key)?)
    }
}

fn cut(map: &Table, key: i64) -> Result<Value, OpError>
    ensures { Answers (apply_row CUT (Value.Map map.now ∷ Value.Int key ∷ [])) result }
{
    let mut copy = map.copy()?;
    copy.cut(key);
    Ok(Value::Map(copy))
}

/// A map with the pair.
pub fn put(map: &Table, key: i64, value: i64) -> Result<Value, OpError>
    ensures { Answers (apply_row PUT (Value.Map map.now ∷ Value.Int key ∷ Value.Int value ∷ [])) result }
{
    if is_full(map, key) {
        return Err(OpError::Trap(TrapKind::Full));
    }
    let mut copy = map.copy()?;
    match copy.put(key, value) {
        Ok(()) => Ok(Value::Map(copy)),
        Err(PutError::OutOfMemory(refused)) => Err(OpError::OutOfMemory(refused)),
        Err(PutError::Full) => unreachable!(),
    }
}

// Whether there is no room for the key.
fn is_full(map: &Table, key: i64) -> bool
    ensures { result ≡ is_full map.now key }
{
    map.len() >= TABLE_PAIRS && map.get(key).is_none()
}

/// Puts a pair into a map, which stays as it is where that traps or memory is wanting. A key that is there wants none.
pub fn put_pair(map: &mut Table, key: i64, value: i64) -> Result<(), OpError>
    ensures ok { OnOk result (apply_row PUT (Value.Map map.old ∷ Value.Int key ∷ Value.Int value ∷ []) ≡ Ok (Value.Map map.new)) }
    ensures trap { (trap : TrapKind) → (result ≡ Err (OpError.Trap trap)) ↔ (apply_row PUT (Value.Map map.old ∷ Value.Int key ∷ Value.Int value ∷ []) ≡ Err trap) }
    ensures err { OnErr result (map.new ≡ map.old) }
    ensures memory { result ≡ Err (OpError.OutOfMemory the_refusal) → value_at map.old key ≡ None }
{
    match map.put(key, value) {
        Ok(()) => Ok(()),
        Err(PutError::Full) => Err(OpError::Trap(TrapKind::Full)),
        Err(PutError::OutOfMemory(refused)) => Err(OpError::OutOfMemory(refused)),
    }
}
