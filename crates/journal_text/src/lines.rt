//! A journal as lines, one after the other.

ghost use Rattle.std.specs.Prelude.{◌≡◌, ◌++◌, ◌∷◌, [], IfOk, OnOk};
ghost use Rattle.journal_text.specs.Fits.{HasPath, IsLabel};
ghost use Rattle.journal_text.specs.JournalTexts.{head_text};
ghost use Rattle.journal_text.specs.LabelTexts.{line_text};

use crate::put::put_line;
use std::alloc::Global;
use wave_base::{OutOfMemory, Seq, Shape};
use wave_labels::Label;
use wave_text::put_head;

/// The first line of a journal, which tells how many labels it has, with its line feed.
pub fn head_line(alloc: Global, labels: usize) -> Result<Seq<u8>, OutOfMemory>
    ensures { IfOk result (λ line. line ≡ head_text labels ++ 10 ∷ []) }
{
    let mut line = Vec::new(alloc);
    put_head(alloc, &mut line, b"journal ", labels as u64)?;
    line.push(b'\n')?;
    Ok(Seq::from_vec(line))
}

/// The line of a label, of which it is told which it is from 1 on, with its line feed.
pub fn label_line(
    alloc: Global,
    shape: &Shape,
    number: u64,
    label: &Label,
) -> Result<Seq<u8>, OutOfMemory>
    requires { HasPath shape.now label.now.act }
    ensures line { IfOk result (λ line. line ≡ line_text shape.now number label.now ++ 10 ∷ []) }
    ensures fits { OnOk result (IsLabel shape.now label.now) }
{
    let mut line = Vec::new(alloc);
    put_line(alloc, &mut line, shape, number, label)?;
    line.push(b'\n')?;
    Ok(Seq::from_vec(line))
}
