//! A whole script with policies, as it is read.

ghost use Rattle.std.specs.Prelude.{◌≡◌, ◌+◌, ◌≤◌, ◌<◌, ◌^◌, length, IfOk, IfErr, OnOk};
ghost use Rattle.wave_base.specs.declared.limits.TheConstants.{PLACED_BYTES};
ghost use Rattle.wave_base.specs.Shapes.{IsShape};
ghost use Rattle.script_reader.specs.Elastics.{IsElasticAnswer, IsElastic};
ghost use Rattle.script_reader.specs.inner.ElasticSteps.{IsElasticStep, IsElasticStop};

use crate::elastic::Elastic;
use crate::elastic_progress::ElasticProgress;
use crate::error::ScriptError;
use crate::named::NamedShape;
use crate::policies::judged_worded;
use crate::refusal::error_of_refusal;
use crate::worded::worded_by;
use std::alloc::Global;
use wave_base::Shape;
use wave_text::first_line;

// Takes one line, which has this number.
fn take_worded(
    alloc: Global,
    shape: &NamedShape<'_>,
    progress: &mut ElasticProgress,
    line: &[u8],
    number: u32,
) -> Result<(), ScriptError>
    requires shape { IsShape shape.now }
    requires few { progress.old.plain.events + 1 < 2 ^ 64 }
    ensures ok { OnOk result (IsElasticStep shape.now line.now progress.old progress.new) }
    ensures err { IfErr result (IsElasticStop shape.now line.now progress.old number) }
{
    let worded = worded_by(alloc, line)?;
    match judged_worded(alloc, shape, progress, &worded) {
        Ok(told) => {
            progress.take(alloc, told)?;
            Ok(())
        }
        Err(refusal) => Err(error_of_refusal(refusal, number)),
    }
}

// Reads a text line by line.
fn read_parts(alloc: Global, shape: &NamedShape<'_>, text: &[u8]) -> Result<Elastic, ScriptError>
    requires shape { IsShape shape.now }
    requires short { length text.now ≤ PLACED_BYTES }
    ensures answer { IsElasticAnswer shape.now text.now result }
    ensures fits { IfOk result (IsElastic shape.now) }
{
    let mut progress = ElasticProgress::new(alloc);
    let mut number = 0u32;
    let mut rest = text;
    loop {
        let (line, after) = first_line(rest);
        number += 1;
        take_worded(alloc, shape, &mut progress, line, number)?;
        let Some(after) = after else {
            break;
        };
        rest = after;
    }
    Ok(progress.into_elastic()?)
}

/// The script with policies that a text stands for, or the first line that is refused with its fault.
pub fn read_elastic(alloc: Global, shape: &Shape, text: &[u8]) -> Result<Elastic, ScriptError>
    requires shape { IsShape shape.now }
    requires short { length text.now ≤ PLACED_BYTES }
    ensures answer { IsElasticAnswer shape.now text.now result }
    ensures fits { IfOk result (IsElastic shape.now) }
{
    let named = NamedShape::of(alloc, shape)?;
    read_parts(alloc, &named, text)
}
