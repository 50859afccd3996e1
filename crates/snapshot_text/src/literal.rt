//! The values in a line, as they look.

ghost use Rattle.std.specs.Prelude.{◌≡◌, ◌∷◌, IfOk, IfSome, IfNone};
ghost use Rattle.snapshot_text.specs.inner.Fronts.{BeginsNot, IsRun, is_bare, HasLiteral, OnlyBehindLiteral, HasNoLiteral};

use crate::number::is_plain;
use crate::pairs::{are_pairs, behind_byte};
use std::alloc::Global;
use wave_base::OutOfMemory;
use wave_text::{read_quoted, split_at};

/// The bytes before the first space, and the rest from that space on.
pub(crate) fn run_of(text: &[u8]) -> (&[u8], &[u8])
    ensures { IsRun text.now result.0.now result.1.now }
{
    match split_at(text, b' ') {
        Some((run, _)) => (run, &text[run.len()..]),
        None => (text, &[]),
    }
}

fn is_bare(text: &[u8]) -> bool
    ensures { result ≡ is_bare text.now }
{
    is_plain(text) || text == b"true".as_slice() || text == b"false".as_slice()
}

// What stands behind a number or a truth value.
fn behind_bare(text: &[u8]) -> Option<&[u8]>
    requires quote { BeginsNot 34 text.now }
    requires brace { BeginsNot 123 text.now }
    ensures some { IfSome result (λ rest. HasLiteral text.now rest.now) }
    ensures only { IfSome result (λ rest. OnlyBehindLiteral text.now rest.now) }
    ensures none { IfNone result (HasNoLiteral text.now) }
{
    let (run, rest) = run_of(text);
    if is_bare(run) { Some(rest) } else { None }
}

// What stands behind a map whose opening brace stands before the text.
fn behind_map(text: &[u8]) -> Option<&[u8]>
    ensures some { IfSome result (λ rest. HasLiteral (123 ∷ text.now) rest.now) }
    ensures only { IfSome result (λ rest. OnlyBehindLiteral (123 ∷ text.now) rest.now) }
    ensures none { IfNone result (HasNoLiteral (123 ∷ text.now)) }
{
    let (pairs, rest) = split_at(text, b'}')?;
    if are_pairs(pairs) { Some(rest) } else { None }
}

// What stands behind a text value whose opening quote stands before the text.
fn behind_quoted(alloc: Global, text: &[u8]) -> Result<Option<&[u8]>, OutOfMemory>
    ensures some { IfOk result (λ o. IfSome o (λ rest. HasLiteral (34 ∷ text.now) rest.now)) }
    ensures only { IfOk result (λ o. IfSome o (λ rest. OnlyBehindLiteral (34 ∷ text.now) rest.now)) }
    ensures none { IfOk result (λ o. IfNone o (HasNoLiteral (34 ∷ text.now))) }
{
    let Some((_, rest)) = read_quoted(alloc, text)? else {
        return Ok(None);
    };
    Ok(Some(rest))
}

/// What stands behind the value at the front of a text.
pub(crate) fn behind_literal(alloc: Global, text: &[u8]) -> Result<Option<&[u8]>, OutOfMemory>
    ensures some { IfOk result (λ o. IfSome o (λ rest. HasLiteral text.now rest.now)) }
    ensures only { IfOk result (λ o. IfSome o (λ rest. OnlyBehindLiteral text.now rest.now)) }
    ensures none { IfOk result (λ o. IfNone o (HasNoLiteral text.now)) }
{
    if let Some(rest) = behind_byte(text, b'"') {
        return behind_quoted(alloc, rest);
    }
    if let Some(rest) = behind_byte(text, b'{') {
        return Ok(behind_map(rest));
    }
    Ok(behind_bare(text))
}
