//! Words within a line.

ghost use Rattle.journal_text.specs.inner.Parts.{IsWordOf};

use wave_text::parts_at;

/// The first word of a line, and the words behind it.
pub(crate) fn word_of(text: &[u8]) -> (&[u8], &[u8])
    ensures { IsWordOf text.now result.0.now result.1.now }
{
    parts_at(text, b' ')
}
