//! A whole journal, as it is written.

ghost use Rattle.std.specs.Prelude.{All, IfOk};
ghost use Rattle.wave_labels.specs.declared.label.Label.{Label};
ghost use Rattle.journal_text.specs.Fits.{HasPath};
ghost use Rattle.journal_text.specs.JournalTexts.{IsJournalText};

use crate::put::put_line;
use std::alloc::Global;
use wave_base::{OutOfMemory, Seq, Shape};
use wave_labels::Label;
use wave_text::put_head;

/// The text of a journal, which `read_journal` reads back.
pub fn write_journal(
    alloc: Global,
    shape: &Shape,
    journal: &Seq<Label>,
) -> Result<Seq<u8>, OutOfMemory>
    requires { All (λ (l : Label). HasPath shape.now l.act) journal.now }
    ensures { IfOk result (λ text. IsJournalText shape.now text journal.now) }
{
    let labels = journal.as_slice();
    let mut out = Vec::new(alloc);
    put_head(alloc, &mut out, b"journal ", labels.len() as u64)?;
    out.push(b'\n')?;
    for (i, label) in labels.iter().enumerate() {
        put_line(alloc, &mut out, shape, i as u64 + 1, label)?;
        out.push(b'\n')?;
    }
    Ok(Seq::from_vec(out))
}
