//! A line's label, as it is read: worker, host and act.

ghost use Rattle.std.specs.Prelude.{IfOk, IfSome};
ghost use Rattle.wave_base.specs.Names.{HasNames};
ghost use Rattle.wave_base.specs.Shapes.{IsShape};
ghost use Rattle.journal_text.specs.Fits.{HasPath};
ghost use Rattle.journal_text.specs.inner.Parts.{IsActOf, IsLabelOf};

use crate::number::marked_byte;
use crate::operands::act_with;
use crate::verb::verb_of;
use crate::word::word_of;
use path_text::ClassNames;
use std::alloc::Global;
use wave_base::{Host, OutOfMemory, Worker};
use wave_labels::{Act, Label};

// The act that a text is written for.
fn act_of(alloc: Global, classes: &ClassNames<'_>, text: &[u8]) -> Result<Option<Act>, OutOfMemory>
    requires shape { IsShape classes.now }
    requires names { HasNames classes.now }
    ensures only { IfOk result (IsActOf classes.now text.now) }
    ensures of_shape { IfOk result (λ o. IfSome o (HasPath classes.now)) }
{
    let (word, rest) = word_of(text);
    match verb_of(word) {
        Some(verb) => act_with(alloc, classes, verb, rest),
        None => Ok(None),
    }
}

/// The one label that a line can be written for, whatever number it has.
pub(crate) fn label_of(
    alloc: Global,
    classes: &ClassNames<'_>,
    line: &[u8],
) -> Result<Option<Label>, OutOfMemory>
    requires shape { IsShape classes.now }
    requires names { HasNames classes.now }
    ensures only { IfOk result (IsLabelOf classes.now line.now) }
    ensures of_shape { IfOk result (λ o. IfSome o (λ l. HasPath classes.now l.act)) }
{
    let (_, rest) = word_of(line);
    let (worker, rest) = word_of(rest);
    let (host, rest) = word_of(rest);
    let Some(worker) = marked_byte(worker) else {
        return Ok(None);
    };
    let Some(host) = marked_byte(host) else {
        return Ok(None);
    };
    match act_of(alloc, classes, rest)? {
        Some(act) => Ok(Some(Label {
            worker: Worker(worker),
            host: Host(host),
            act,
        })),
        None => Ok(None),
    }
}
