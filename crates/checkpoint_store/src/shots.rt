//! The snapshot within a checkpoint, as it is read.

ghost use Rattle.std.specs.Prelude.{◌≡◌, ◌≤◌, ◌<◌, ◌+◌, ◌^◌, length, Ok, Err, IfOk, IfErr};
ghost use Rattle.wave_base.specs.declared.limits.TheConstants.{PLACED_BYTES};
ghost use Rattle.wave_base.specs.Names.{HasNames};
ghost use Rattle.wave_base.specs.Shapes.{IsShape};
ghost use Rattle.snapshot_text.specs.Verdicts.{IsOnlyVerdict as IsOnlySnapshot};
ghost use Rattle.checkpoint_store.specs.Verdicts.{begins_at, snapshot_part, behind_part};
ghost use Rattle.checkpoint_store.specs.inner.Steps.{line_in, refusal_behind, IsShotRefusal};

use crate::error::CheckError;
use snapshot_text::{ShotError, read_snapshot};
use std::alloc::Global;
use wave_base::{Seq, Shape, Shot};
use wave_text::split_at;

fn begins_at(text: &[u8]) -> bool
    ensures { result ≡ begins_at text.now }
{
    match text {
        [a, t, space, ..] => *a == b'a' && *t == b't' && *space == b' ',
        _ => false,
    }
}

/// The snapshot at the front of a text, and what stands behind it.
pub(crate) fn snapshot_parts(text: &[u8]) -> (&[u8], &[u8])
    ensures part { result.0.now ≡ snapshot_part text.now }
    ensures behind { result.1.now ≡ behind_part text.now }
{
    let mut rest = text;
    while let Some((_, after)) = split_at(rest, b'\n') {
        if !begins_at(after) {
            return text.split_at(text.len() - after.len());
        }
        rest = after;
    }
    (text, &[])
}

// What a refusal of a snapshot is here, where so many lines stand before it.
fn refusal_behind(error: ShotError, before: u32) -> CheckError
    requires { line_in error + before < 2 ^ 32 }
    ensures { result ≡ refusal_behind error before }
{
    match error {
        ShotError::Syntax { line } => CheckError::Syntax {
            line: before + line,
        },
        ShotError::Class { line } | ShotError::Field { line } | ShotError::Order { line } => {
            CheckError::Tree {
                line: before + line,
            }
        }
        ShotError::OutOfMemory(wanting) => CheckError::OutOfMemory(wanting),
    }
}

/// The shots of a snapshot, before which so many lines stand.
pub(crate) fn read_shots(
    alloc: Global,
    shape: &Shape,
    text: &[u8],
    before: u32,
) -> Result<Seq<Shot>, CheckError>
    requires shape { IsShape shape.now }
    requires names { HasNames shape.now }
    requires short { length text.now ≤ PLACED_BYTES }
    requires few { before ≤ 2 ^ 17 }
    ensures ok { IfOk result (λ shots. IsOnlySnapshot shape.now text.now (Ok shots)) }
    ensures err { IfErr result (IsShotRefusal shape.now text.now before) }
    ensures shorter { IfOk result (λ shots. length shots ≤ length text.now) }
{
    match read_snapshot(alloc, shape, text) {
        Ok(shots) => Ok(shots),
        Err(error) => Err(refusal_behind(error, before)),
    }
}
