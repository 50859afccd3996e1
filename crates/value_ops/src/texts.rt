//! Operators on texts.

ghost use Rattle.std.specs.Prelude.{◌≡◌, ◌≤◌, ◌+◌, ◌∷◌, ◌++◌, [], length, Ok, IfOk};
ghost use Rattle.value_ops.specs.Answers.{Answers};
ghost use Rattle.std.specs.Option.{option_copied};
ghost use Rattle.value_ops.specs.Meanings as meaning;
ghost use Rattle.value_ops.specs.Operators.{takes_of, gives_of, apply_row};
ghost use Rattle.wave_base.specs.declared.value.Kind.{Kind};
ghost use Rattle.wave_base.specs.declared.value.Value.{Value};

use crate::error::OpError;
use crate::rows::{CAT, PART, STR, TEQ, TLT, TNE};
use itoa::Buffer;
use std::alloc::Global;
use wave_base::{OutOfMemory, TEXT_BYTES, TrapKind, Txt, Value};

/// What a row says of two texts.
pub fn compare_texts(row: usize, s: &Txt, t: &Txt) -> bool
    requires takes { takes_of row ≡ Kind.Text ∷ Kind.Text ∷ [] }
    requires says { gives_of row ≡ Kind.Bool }
    ensures { apply_row row (Value.Str s.now ∷ Value.Str t.now ∷ []) ≡ Ok (Value.Bool result) }
{
    match row {
        TEQ => s.bytes() == t.bytes(),
        TNE => s.bytes() != t.bytes(),
        TLT => s.bytes().cmp(t.bytes()).is_lt(),
        _ => s.bytes().starts_with(t.bytes()),
    }
}

/// What a row gives of two texts.
pub fn apply_texts(alloc: Global, row: usize, s: &Txt, t: &Txt) -> Result<Value, OpError>
    requires { takes_of row ≡ Kind.Text ∷ Kind.Text ∷ [] }
    ensures { Answers (apply_row row (Value.Str s.now ∷ Value.Str t.now ∷ [])) result }
{
    if row == CAT {
        cat(alloc, s, t)
    } else {
        Ok(Value::Bool(compare_texts(row, s, t)))
    }
}

// One text after the other, in one block of memory.
fn cat(alloc: Global, s: &Txt, t: &Txt) -> Result<Value, OpError>
    ensures { Answers (apply_row CAT (Value.Str s.now ∷ Value.Str t.now ∷ [])) result }
{
    if s.bytes().len() + t.bytes().len() > TEXT_BYTES {
        return Err(OpError::Trap(TrapKind::TooLong));
    }
    Ok(Value::Str(joined_text(alloc, s, t)?))
}

fn joined_text(alloc: Global, s: &Txt, t: &Txt) -> Result<Txt, OutOfMemory>
    requires { length s.now + length t.now ≤ TEXT_BYTES }
    ensures { IfOk result (λ joined. joined ≡ s.now ++ t.now) }
{
    let mut bytes = Vec::with_capacity(alloc, s.bytes().len() + t.bytes().len())?;
    bytes.extend_from_slice(s.bytes())?;
    bytes.extend_from_slice(t.bytes())?;
    Ok(Txt::from_vec(bytes))
}

/// Bytes `from` up to, not including, `to`.
pub fn part(alloc: Global, t: &Txt, from: i64, to: i64) -> Result<Value, OpError>
    ensures { Answers (apply_row PART (Value.Str t.now ∷ Value.Int from ∷ Value.Int to ∷ [])) result }
{
    match part_of(t.bytes(), from, to) {
        Some(bytes) => Ok(Value::Str(Txt::from_bytes(alloc, bytes)?)),
        None => Err(OpError::Trap(TrapKind::Absent)),
    }
}

// The bytes in between, if there are such.
fn part_of(bytes: &[u8], from: i64, to: i64) -> Option<&[u8]>
    ensures { option_copied result ≡ meaning.part bytes.now from to }
{
    if from < 0 {
        return None;
    }
    if to < 0 {
        return None;
    }
    bytes.get(from as usize..to as usize)
}

/// An int as a decimal number.
pub fn text_of_int(alloc: Global, n: i64) -> Result<Value, OpError>
    ensures { Answers (apply_row STR (Value.Int n ∷ [])) result }
{
    let mut buffer = Buffer::new();
    Ok(Value::Str(Txt::from_bytes(alloc, buffer.format(n).as_bytes())?))
}
