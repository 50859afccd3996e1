//! A context with its fields, as it is read.

ghost use Rattle.std.specs.Prelude.{◌≡◌, true, map, All, IfOk, IfSome, IfNone};
ghost use Rattle.std.specs.List.{list_all};
ghost use Rattle.wave_base.specs.Names.{HasNames, is_word};
ghost use Rattle.wave_base.specs.Shapes.{IsShape};
ghost use Rattle.wave_base.specs.Values.{kind_of};
ghost use Rattle.snapshot_text.specs.Shots.{IsValue};
ghost use Rattle.snapshot_text.specs.Verdicts.{IsLineOfNone};
ghost use Rattle.snapshot_text.specs.inner.Guesses.{AreGoodFor, AreValuesOf, IsShotOf, IsOnlyLineOf};
ghost use Rattle.snapshot_text.specs.Shots.{IsShot};

use crate::value::value_of;
use path_text::{ClassNames, fields_at, path_for, put_shot};
use std::alloc::Global;
use wave_base::{FieldInfo, OutOfMemory, Seq, Shot, Value};
use wave_text::parts_at;

// The values that fields are written with.
fn values_of(
    alloc: Global,
    fields: &[FieldInfo],
    text: &[u8],
) -> Result<Option<Seq<Value>>, OutOfMemory>
    requires { list_all is_word (map (λ f. f.name) fields.now) ≡ true }
    ensures only { IfOk result (AreValuesOf fields.now text.now) }
    ensures good { IfOk result (λ o. IfSome o (AreGoodFor fields.now)) }
{
    let mut values = Seq::new(alloc);
    let mut rest = text;
    for field in fields {
        let (_, value) = parts_at(rest, b'=');
        let Some((value, after)) = value_of(alloc, field.kind, value)? else {
            return Ok(None);
        };
        values.add(value)?;
        rest = after;
    }
    Ok(Some(values))
}

// The one shot that a line can be written for.
fn shot_in(
    alloc: Global,
    classes: &ClassNames<'_>,
    line: &[u8],
) -> Result<Option<Shot>, OutOfMemory>
    requires shape { IsShape classes.now }
    requires names { HasNames classes.now }
    ensures only { IfOk result (IsShotOf classes.now line.now) }
    ensures fits { IfOk result (λ o. IfSome o (IsShot classes.now)) }
{
    let (_, rest) = parts_at(line, b' ');
    let (path, rest) = parts_at(rest, b' ');
    let Some(path) = path_for(alloc, classes, path)? else {
        return Ok(None);
    };
    let fields = fields_at(classes.shape(), &path);
    match values_of(alloc, fields, rest)? {
        Some(fields) => Ok(Some(Shot { path, fields })),
        None => Ok(None),
    }
}

/// The shot of a line, where the line is written just so.
pub(crate) fn shot_of(
    alloc: Global,
    classes: &ClassNames<'_>,
    line: &[u8],
) -> Result<Option<Shot>, OutOfMemory>
    requires shape { IsShape classes.now }
    requires names { HasNames classes.now }
    ensures some { IfOk result (λ o. IfSome o (IsOnlyLineOf classes.now line.now)) }
    ensures none { IfOk result (λ o. IfNone o (IsLineOfNone classes.now line.now)) }
{
    let Some(shot) = shot_in(alloc, classes, line)? else {
        return Ok(None);
    };
    let mut written = Vec::new(alloc);
    put_shot(alloc, &mut written, classes.shape(), &shot)?;
    if written.as_slice() == line {
        Ok(Some(shot))
    } else {
        Ok(None)
    }
}
