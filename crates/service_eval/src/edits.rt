//! Values changed where they stand.

ghost use Rattle.std.specs.Prelude.{◌≡◌, ◌∷◌, [], Err, get_or};
ghost use Rattle.resolved_service.specs.Meaning.{row_put, row_cut};
ghost use Rattle.service_eval.specs.declared.stop.Stop.{Stop};
ghost use Rattle.service_eval.specs.inner.Turns.{Alters};
ghost use Rattle.service_eval.specs.inner.Changes.{edited_value, Revises};
ghost use Rattle.service_eval.specs.inner.Wants.{WhereWanting, IsNewKey, PutsNewKey};
ghost use Rattle.resolved_service.specs.World.{nothing};
ghost use Rattle.value_ops.specs.Operators.{apply_row};
ghost use Rattle.wave_base.specs.declared.trap.TrapKind.{TrapKind};

use crate::stop::Stop;
use value_ops::{OpError, put_pair};
use wave_base::{Span, Trap, TrapKind, Value};

/// What becomes of a value.
#[derive(Drop)]
pub enum Edit {
    /// Another value stands in its place.
    Set(Value),
    /// It is a map, and gets a pair: the key, and then what the key has.
    Put(Value, Value),
    /// It is a map, and loses a key.
    Cut(Value),
}

impl Edit {
    /// Changes one of some values; nothing changes where it is not there. A value that is set is taken from the edit. Memory is
    /// asked for by a new key alone.
    #[inline(always)]
    pub fn apply_at(&mut self, values: &mut Vec<Value>, i: usize, at: Span) -> Result<(), Stop>
        ensures revises { Revises self.old at values.old.items i result values.new.items }
        ensures memory { WhereWanting result (PutsNewKey self.old (get_or values.old.items i nothing)) }
    {
        if i < values.len() {
            self.apply(&mut values[i], at)
        } else {
            let mut nothing = Value::Int(0);
            self.apply(&mut nothing, at)
        }
    }

    // Changes a value.
    #[inline(always)]
    fn apply(&mut self, value: &mut Value, at: Span) -> Result<(), Stop>
        ensures alters { Alters (edited_value self.old value.old) at value.old result value.new }
        ensures memory { WhereWanting result (PutsNewKey self.old value.old) }
    {
        match self {
            Edit::Set(new) => {
                std::mem::swap(value, new);
                Ok(())
            }
            Edit::Put(key, new) => put(value, key, new, at),
            Edit::Cut(key) => cut(value, key, at),
        }
    }
}

// The map has the pair.
#[inline(never)]
fn put(map: &mut Value, key: &Value, new: &Value, at: Span) -> Result<(), Stop>
    ensures alters { Alters (apply_row row_put (map.old ∷ key.now ∷ new.now ∷ [])) at map.old result map.new }
    ensures memory { WhereWanting result (IsNewKey map.old key.now) }
{
    let Value::Map(table) = map else {
        return absent(at);
    };
    let Value::Int(key) = key else {
        return absent(at);
    };
    let Value::Int(new) = new else {
        return absent(at);
    };
    match put_pair(table, *key, *new) {
        Ok(()) => Ok(()),
        Err(OpError::Trap(kind)) => Err(Stop::Trapped(Trap { kind, at })),
        Err(OpError::OutOfMemory(refused)) => Err(Stop::OutOfMemory(refused)),
    }
}

// The map has the key no more.
#[inline(never)]
fn cut(map: &mut Value, key: &Value, at: Span) -> Result<(), Stop>
    ensures alters { Alters (apply_row row_cut (map.old ∷ key.now ∷ [])) at map.old result map.new }
    ensures memory { WhereWanting result ⊥ }
{
    let Value::Map(table) = map else {
        return absent(at);
    };
    let Value::Int(key) = key else {
        return absent(at);
    };
    table.cut(*key);
    Ok(())
}

// That there is nothing to be given, at a place.
fn absent(at: Span) -> Result<(), Stop>
    ensures { result ≡ Err (Stop.Trapped (record { kind = TrapKind.Absent; at = at })) }
{
    Err(Stop::Trapped(Trap {
        kind: TrapKind::Absent,
        at,
    }))
}
