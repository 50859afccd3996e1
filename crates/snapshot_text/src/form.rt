//! What a line of a snapshot looks like, whatever it tells.

ghost use Rattle.std.specs.Prelude.{◌≡◌, ◌∷◌, ◌↔◌, true, IsTrue, IfOk, IfSome, IfNone};
ghost use Rattle.std.specs.List.{list_all};
ghost use Rattle.snapshot_text.specs.Forms.{is_plain_key, HasNoForm};
ghost use Rattle.snapshot_text.specs.inner.Fronts.{BeginsNotAt, HasField, OnlyBehindField, HasNoField, IsFieldsText, HasOnlyForm};

use crate::literal::{behind_literal, run_of};
use crate::number::is_plain;
use crate::pairs::behind_byte;
use path_text::{Written, written_steps};
use std::alloc::Global;
use wave_base::{OutOfMemory, Seq};
use wave_text::{is_word, split_at};

// What stands behind the field at the front of a text.
fn behind_field(alloc: Global, text: &[u8]) -> Result<Option<&[u8]>, OutOfMemory>
    ensures some { IfOk result (λ o. IfSome o (λ rest. HasField text.now rest.now)) }
    ensures only { IfOk result (λ o. IfSome o (λ rest. OnlyBehindField text.now rest.now)) }
    ensures none { IfOk result (λ o. IfNone o (HasNoField text.now)) }
{
    let Some(rest) = behind_byte(text, b' ') else {
        return Ok(None);
    };
    let Some((name, value)) = split_at(rest, b'=') else {
        return Ok(None);
    };
    if is_word(name) {
        behind_literal(alloc, value)
    } else {
        Ok(None)
    }
}

// Whether a text is fields with their values.
fn are_fields(alloc: Global, text: &[u8]) -> Result<bool, OutOfMemory>
    ensures { IfOk result (λ b. IsTrue b ↔ IsFieldsText text.now) }
{
    let mut rest = text;
    while !rest.is_empty() {
        let Some(after) = behind_field(alloc, rest)? else {
            return Ok(false);
        };
        rest = after;
    }
    Ok(true)
}

/// Whether the keys of these steps are whole numbers without zeros in front.
pub fn are_plain(steps: &[Written]) -> bool
    ensures { result ≡ list_all is_plain_key steps.now }
{
    steps.iter().all(|step| is_plain(step.key.as_slice()))
}

// What stands behind the word `at` and a space.
fn behind_at(line: &[u8]) -> Option<&[u8]>
    ensures some { IfSome result (λ rest. line.now ≡ 97 ∷ 116 ∷ 32 ∷ rest.now) }
    ensures none { IfNone result (BeginsNotAt line.now) }
{
    let rest = behind_byte(line, b'a')?;
    let rest = behind_byte(rest, b't')?;
    behind_byte(rest, b' ')
}

/// The steps of the path of a line that has the form.
pub(crate) fn form_of(alloc: Global, line: &[u8]) -> Result<Option<Seq<Written>>, OutOfMemory>
    ensures some { IfOk result (λ o. IfSome o (HasOnlyForm line.now)) }
    ensures none { IfOk result (λ o. IfNone o (HasNoForm line.now)) }
{
    let Some(rest) = behind_at(line) else {
        return Ok(None);
    };
    let (path, fields) = run_of(rest);
    let Some(steps) = written_steps(alloc, path)? else {
        return Ok(None);
    };
    if !are_plain(steps.as_slice()) {
        return Ok(None);
    }
    let has_fields = are_fields(alloc, fields)?;
    if has_fields {
        Ok(Some(steps))
    } else {
        Ok(None)
    }
}
