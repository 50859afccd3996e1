//! Operators, by their rows.

ghost use Rattle.std.specs.Prelude.{◌≡◌, ◌<◌, ◌∷◌, [], map, false, Err, IsTrue};
ghost use Rattle.service_eval.specs.inner.Answers.{Gives, is_kind, are_kinds};
ghost use Rattle.value_ops.specs.Answers.{Answers};
ghost use Rattle.value_ops.specs.Kinds.{Answer};
ghost use Rattle.value_ops.specs.Operators.{takes_of, gives_of, apply_row};
ghost use Rattle.wave_base.specs.declared.operators.TheConstants.{OPERATORS};
ghost use Rattle.wave_base.specs.declared.trap.TrapKind.{TrapKind};
ghost use Rattle.wave_base.specs.declared.value.Kind.{Kind};
ghost use Rattle.wave_base.specs.declared.value.Value.{Value};
ghost use Rattle.wave_base.specs.Tables.{is_full};
ghost use Rattle.wave_base.specs.Values.{kind_of};

use crate::stop::Stop;
use std::alloc::Global;
use std::slice;
use value_ops::rows::{CUT, PUT, STR};
use value_ops::{
    OpError, Takes, apply, apply_int, apply_ints, apply_texts, compare_flags, part, put_pair,
    read_map, read_text, sum_up, takes_ints, takes_of,
};
use wave_base::{Kind, OPERATORS, Span, TABLE_PAIRS, Table, Trap, TrapKind, Value};

/// What a row gives of any values; of others than it takes, it gives nothing.
pub fn apply_any(alloc: Global, row: usize, args: &[Value], at: Span) -> Result<Value, Stop>
    ensures { Gives (apply_row row args.now) at result }
{
    if takes(row, args) {
        with_place(apply(alloc, row, args), at)
    } else {
        with_place(Err(OpError::Trap(TrapKind::Absent)), at)
    }
}

// Whether a row takes these values.
fn takes(row: usize, args: &[Value]) -> bool
    ensures row { IsTrue result → row < OPERATORS }
    ensures kinds { IsTrue result → map kind_of args.now ≡ takes_of row }
    ensures none { result ≡ false → apply_row row args.now ≡ Err TrapKind.Absent }
{
    row < OPERATORS && are_kinds(&takes_of(row).kinds(), args)
}

// Whether the values have the kinds, of which there are three at most.
fn are_kinds(kinds: &[Option<Kind>; 3], args: &[Value]) -> bool
    ensures { result ≡ are_kinds kinds.now args.now }
{
    match args {
        [] => kinds[0].is_none(),
        [x] => is_kind(kinds[0], x) && kinds[1].is_none(),
        [x, y] => is_kind(kinds[0], x) && is_kind(kinds[1], y) && kinds[2].is_none(),
        [x, y, z] => is_kind(kinds[0], x) && is_kind(kinds[1], y) && is_kind(kinds[2], z),
        _ => false,
    }
}

fn is_kind(kind: Option<Kind>, value: &Value) -> bool
    ensures { result ≡ is_kind kind value.now }
{
    match (kind, value) {
        (Some(Kind::Int), Value::Int(_)) => true,
        (Some(Kind::Bool), Value::Bool(_)) => true,
        (Some(Kind::Text), Value::Str(_)) => true,
        (Some(Kind::Map), Value::Map(_)) => true,
        _ => false,
    }
}

/// What a row gives of one value, which is looked at where it is.
pub fn apply_one(alloc: Global, row: usize, a: &Value, at: Span) -> Result<Value, Stop>
    ensures { Gives (apply_row row (a.now ∷ [])) at result }
{
    if row >= OPERATORS {
        return trapping(Err(TrapKind::Absent), at);
    }
    match (takes_of(row), a) {
        (Takes::Bool, Value::Bool(p)) => Ok(Value::Bool(!*p)),
        (Takes::Int, Value::Int(n)) if row != STR => trapping(apply_int(row, *n), at),
        (Takes::Map, Value::Map(m)) => trapping(sum_up(row, m), at),
        (Takes::Text, Value::Str(t)) => trapping(read_text(row, t), at),
        _ => apply_any(alloc, row, slice::from_ref(a), at),
    }
}

/// What a row gives of two values, which are looked at where they are.
#[inline(always)]
pub fn apply_two(alloc: Global, row: usize, a: &Value, b: &Value, at: Span) -> Result<Value, Stop>
    ensures { Gives (apply_row row (a.now ∷ b.now ∷ [])) at result }
{
    match (a, b) {
        (Value::Int(x), Value::Int(y)) if takes_ints(row) => trapping(apply_ints(row, *x, *y), at),
        _ => apply_others(alloc, row, a, b, at),
    }
}

// The same, where they are mostly no ints.
#[inline(never)]
fn apply_others(alloc: Global, row: usize, a: &Value, b: &Value, at: Span) -> Result<Value, Stop>
    ensures { Gives (apply_row row (a.now ∷ b.now ∷ [])) at result }
{
    if row >= OPERATORS {
        return trapping(Err(TrapKind::Absent), at);
    }
    match (takes_of(row), a, b) {
        (Takes::MapInt, Value::Map(m), Value::Int(k)) => at_key(row, m, *k, at),
        (Takes::Texts, Value::Str(s), Value::Str(t)) => with_place(
            apply_texts(alloc, row, s, t),
            at,
        ),
        (Takes::Bools, Value::Bool(x), Value::Bool(y)) => {
            Ok(Value::Bool(compare_flags(row, *x, *y)))
        }
        (Takes::Ints, Value::Int(x), Value::Int(y)) => trapping(apply_ints(row, *x, *y), at),
        _ => trapping(Err(TrapKind::Absent), at),
    }
}

// What a row gives of a map and an int. Only a map that is to be given takes memory.
fn at_key(row: usize, map: &Table, key: i64, at: Span) -> Result<Value, Stop>
    requires { takes_of row ≡ Kind.Map ∷ Kind.Int ∷ [] }
    ensures { Gives (apply_row row (Value.Map map.now ∷ Value.Int key ∷ [])) at result }
{
    if row != CUT {
        return trapping(read_map(row, map, key), at);
    }
    match map.copy() {
        Ok(mut less) => {
            less.cut(key);
            Ok(Value::Map(less))
        }
        Err(refused) => Err(Stop::OutOfMemory(refused)),
    }
}

/// What a row gives of three values, which are looked at where they are.
pub fn apply_three(
    alloc: Global,
    row: usize,
    a: &Value,
    b: &Value,
    c: &Value,
    at: Span,
) -> Result<Value, Stop>
    ensures { Gives (apply_row row (a.now ∷ b.now ∷ c.now ∷ [])) at result }
{
    if row >= OPERATORS {
        return trapping(Err(TrapKind::Absent), at);
    }
    match (takes_of(row), a, b, c) {
        (Takes::TextIntInt, Value::Str(t), Value::Int(x), Value::Int(y)) => {
            with_place(part(alloc, t, *x, *y), at)
        }
        (Takes::MapIntInt, Value::Map(m), Value::Int(k), Value::Int(v)) => {
            with_pair(m, *k, *v, at)
        }
        _ => trapping(Err(TrapKind::Absent), at),
    }
}

// A map with the pair, where there is room for it.
fn with_pair(map: &Table, key: i64, value: i64, at: Span) -> Result<Value, Stop>
    ensures { Gives (apply_row PUT (Value.Map map.now ∷ Value.Int key ∷ Value.Int value ∷ [])) at result }
{
    if is_full(map, key) {
        return trapping(Err(TrapKind::Full), at);
    }
    match map.copy() {
        Ok(mut more) => match put_pair(&mut more, key, value) {
            Ok(()) => Ok(Value::Map(more)),
            Err(e) => with_place(Err(e), at),
        },
        Err(refused) => Err(Stop::OutOfMemory(refused)),
    }
}

// Whether there is no room for the key.
fn is_full(map: &Table, key: i64) -> bool
    ensures { result ≡ is_full map.now key }
{
    map.len() >= TABLE_PAIRS && map.get(key).is_none()
}

// The answer of an operator at a place.
fn with_place(answer: Result<Value, OpError>, at: Span) -> Result<Value, Stop>
    ensures { (given : Answer Value) → Answers given answer → Gives given at result }
{
    match answer {
        Ok(value) => Ok(value),
        Err(OpError::Trap(kind)) => Err(Stop::Trapped(Trap { kind, at })),
        Err(OpError::OutOfMemory(refused)) => Err(Stop::OutOfMemory(refused)),
    }
}

/// The answer of an operator that takes no memory, at a place.
#[inline(always)]
pub fn trapping(answer: Result<Value, TrapKind>, at: Span) -> Result<Value, Stop>
    ensures { Gives answer at result }
{
    match answer {
        Ok(value) => Ok(value),
        Err(kind) => Err(Stop::Trapped(Trap { kind, at })),
    }
}
