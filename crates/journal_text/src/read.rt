//! A whole journal, as it is read.

ghost use Rattle.std.specs.Prelude.{◌≡◌, ◌≤◌, length};
ghost use Rattle.wave_base.specs.declared.limits.TheConstants.{PLACED_BYTES};
ghost use Rattle.wave_base.specs.Names.{HasNames};
ghost use Rattle.wave_base.specs.Shapes.{IsShape};
ghost use Rattle.journal_text.specs.Verdicts.{IsOnlyVerdict};
ghost use Rattle.journal_text.specs.inner.Tails.{AreRead};

use crate::error::JournalError;
use crate::line::read_line;
use path_text::ClassNames;
use std::alloc::Global;
use wave_base::{Seq, Shape};
use wave_labels::Label;
use wave_text::{behind_head, split_at};

// The labels of the lines behind a head, or the first of these lines that is none.
fn read_labels(
    alloc: Global,
    classes: &ClassNames<'_>,
    tail: &[u8],
) -> Result<Seq<Label>, JournalError>
    requires shape { IsShape classes.now }
    requires names { HasNames classes.now }
    requires short { length tail.now ≤ PLACED_BYTES }
    ensures { AreRead classes.now tail.now result }
{
    let mut labels = Seq::new(alloc);
    let mut number = 1u32;
    let mut rest = tail;
    while !rest.is_empty() {
        let Some((line, after)) = split_at(rest, b'\n') else {
            return Err(JournalError::Syntax { line: number + 1 });
        };
        let Some(Label { worker, host, act }) = read_line(alloc, classes, u64::from(number), line)?
        else {
            return Err(JournalError::Syntax { line: number + 1 });
        };
        labels.add(Label { worker, host, act })?;
        rest = after;
        number += 1;
    }
    Ok(labels)
}

/// The labels of a journal's text, or its first line that is not as it has to be.
pub fn read_journal(alloc: Global, shape: &Shape, text: &[u8]) -> Result<Seq<Label>, JournalError>
    requires shape { IsShape shape.now }
    requires names { HasNames shape.now }
    requires short { length text.now ≤ PLACED_BYTES }
    ensures { IsOnlyVerdict shape.now text.now result }
{
    let Some(tail) = behind_head(alloc, b"journal ", text)? else {
        return Err(JournalError::Syntax { line: 1 });
    };
    let classes = ClassNames::of(alloc, shape)?;
    read_labels(alloc, &classes, tail)
}
