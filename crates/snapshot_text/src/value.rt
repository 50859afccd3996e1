//! The values of fields, as they are read.

ghost use Rattle.std.specs.Prelude.{◌≡◌, ◌≤◌, length, IfOk, IfSome, IfNone, FitsSigned};
ghost use Rattle.std.specs.Int.{w64};
ghost use Rattle.wave_base.specs.declared.value.Kind.TheVariants as kinds;
ghost use Rattle.snapshot_text.specs.inner.Guesses.{behind_first, truth_of, IsNumberOf, IsSeen, IsUnseen};

use crate::map::table_of;
use std::alloc::Global;
use wave_base::{Kind, OutOfMemory, TEXT_BYTES, Txt, Value};
use wave_text::{is_whole, parts_at, read_quoted, whole_of};

/// The number that a text is written for.
pub(crate) fn number_of(text: &[u8]) -> Option<i64>
    ensures only { IsNumberOf text.now result }
    ensures fits { IfSome result (λ z. FitsSigned w64 z) }
{
    if is_whole(text) { whole_of(text) } else { None }
}

/// All but the first byte.
pub(crate) fn behind_first(text: &[u8]) -> &[u8]
    ensures rest { result.now ≡ behind_first text.now }
    ensures shorter { length result.now ≤ length text.now }
{
    match text {
        [_, rest @ ..] => rest,
        [] => &[],
    }
}

fn truth_of(text: &[u8]) -> Option<bool>
    ensures { result ≡ truth_of text.now }
{
    if text == b"true".as_slice() {
        Some(true)
    } else if text == b"false".as_slice() {
        Some(false)
    } else {
        None
    }
}

fn int_of(text: &[u8]) -> Option<(Value, &[u8])>
    ensures some { IfSome result (λ x. IsSeen kinds.Int text.now x.0 x.1.now) }
    ensures none { IfNone result (IsUnseen kinds.Int text.now) }
{
    let (digits, rest) = parts_at(text, b' ');
    match number_of(digits) {
        Some(number) => Some((Value::Int(number), rest)),
        None => None,
    }
}

fn bool_of(text: &[u8]) -> Option<(Value, &[u8])>
    ensures some { IfSome result (λ x. IsSeen kinds.Bool text.now x.0 x.1.now) }
    ensures none { IfNone result (IsUnseen kinds.Bool text.now) }
{
    let (word, rest) = parts_at(text, b' ');
    match truth_of(word) {
        Some(truth) => Some((Value::Bool(truth), rest)),
        None => None,
    }
}

fn text_of(alloc: Global, text: &[u8]) -> Result<Option<(Value, &[u8])>, OutOfMemory>
    ensures some { IfOk result (λ o. IfSome o (λ x. IsSeen kinds.Text text.now x.0 x.1.now)) }
    ensures none { IfOk result (λ o. IfNone o (IsUnseen kinds.Text text.now)) }
{
    let Some((bytes, rest)) = read_quoted(alloc, behind_first(text))? else {
        return Ok(None);
    };
    if bytes.len() > TEXT_BYTES {
        return Ok(None);
    }
    Ok(Some((Value::Str(Txt::from_vec(bytes)), behind_first(rest))))
}

fn map_of(alloc: Global, text: &[u8]) -> Result<Option<(Value, &[u8])>, OutOfMemory>
    ensures some { IfOk result (λ o. IfSome o (λ x. IsSeen kinds.Map text.now x.0 x.1.now)) }
    ensures none { IfOk result (λ o. IfNone o (IsUnseen kinds.Map text.now)) }
{
    let (pairs, rest) = parts_at(behind_first(text), b'}');
    match table_of(alloc, pairs)? {
        Some(table) => Ok(Some((Value::Map(table), behind_first(rest)))),
        None => Ok(None),
    }
}

/// The value of this kind that stands at the front of a text, and what stands behind the space that follows it.
pub(crate) fn value_of(
    alloc: Global,
    kind: Kind,
    text: &[u8],
) -> Result<Option<(Value, &[u8])>, OutOfMemory>
    ensures some { IfOk result (λ o. IfSome o (λ x. IsSeen kind text.now x.0 x.1.now)) }
    ensures none { IfOk result (λ o. IfNone o (IsUnseen kind text.now)) }
{
    match kind {
        Kind::Int => Ok(int_of(text)),
        Kind::Bool => Ok(bool_of(text)),
        Kind::Text => text_of(alloc, text),
        Kind::Map => map_of(alloc, text),
    }
}
