//! A line of a journal with its number, as it is read.

ghost use Rattle.std.specs.Prelude.{◌<◌, ◌^◌, IfOk, IfSome, IfNone};
ghost use Rattle.wave_base.specs.Names.{HasNames};
ghost use Rattle.wave_base.specs.Shapes.{IsShape};
ghost use Rattle.journal_text.specs.inner.Lines.{IsOnlyLine, IsNoLine};

use crate::label::label_of;
use crate::put::put_line;
use path_text::ClassNames;
use std::alloc::Global;
use wave_base::OutOfMemory;
use wave_labels::Label;

/// The label of a line with this number, where the line is written just so.
pub(crate) fn read_line(
    alloc: Global,
    classes: &ClassNames<'_>,
    number: u64,
    line: &[u8],
) -> Result<Option<Label>, OutOfMemory>
    requires shape { IsShape classes.now }
    requires names { HasNames classes.now }
    ensures some { IfOk result (λ o. IfSome o (IsOnlyLine classes.now number line.now)) }
    ensures none { IfOk result (λ o. IfNone o (IsNoLine classes.now number line.now)) }
{
    let Some(label) = label_of(alloc, classes, line)? else {
        return Ok(None);
    };
    let mut written = Vec::new(alloc);
    put_line(alloc, &mut written, classes.shape(), number, &label)?;
    if written.as_slice() == line {
        Ok(Some(label))
    } else {
        Ok(None)
    }
}
