//! What is written of an answer, on `out` and as a note, and its status.

ghost use Rattle.std.specs.Prelude.{◌≡◌};
ghost use Rattle.wave_io.specs.Causes.{Rose};
ghost use Rattle.eventwave.specs.Ends.{Told};
ghost use Rattle.eventwave.specs.inner.Parts.{Gave, note_of, status_of};

use crate::ending::Ending;
use due_parts::Answer;
use wave_io::{Failed, Sink, write_all};

/// Writes the text of an answer.
pub fn give<K: Sink>(out: &mut K, answer: Answer) -> Ending
    ensures gave { Gave answer (K.written out.old) (K.written out.new) result }
    ensures fault { result ≡ Ending.WriteFault → Rose (K.faults out.old) (K.faults out.new) }
{
    let Answer { status, note, text } = answer;
    match write_all(out, text.as_slice()) {
        Ok(()) => Ending::Answered(status, note),
        Err(Failed) => Ending::WriteFault,
    }
}

// The status of an ending.
fn status_of(ending: &Ending) -> u8
    ensures { result ≡ status_of ending.now }
{
    match ending {
        Ending::WordsRefused => 2,
        Ending::ReadFault => 5,
        Ending::WriteFault => 6,
        Ending::NoMemory(_) => 7,
        Ending::Answered(status, _) => *status,
    }
}

// The note of an ending, without its line feed.
fn note_of(ending: &Ending) -> &[u8]
    ensures { result.now ≡ note_of ending.now }
{
    match ending {
        Ending::WordsRefused => b"words",
        Ending::ReadFault => b"ReadFault",
        Ending::WriteFault => b"WriteFault",
        Ending::NoMemory(_) => b"OutOfMemory",
        Ending::Answered(_, note) => note.as_slice(),
    }
}

/// Writes a note as a line.
fn tell<N: Sink>(notes: &mut N, note: &[u8])
    ensures { Told (N.faults notes.old) (N.faults notes.new) (N.written notes.old) (N.written notes.new) note.now }
{
    if note.is_empty() {
        return;
    }
    if write_all(notes, note).is_ok() {
        let _ = write_all(notes, b"\n");
    }
}

/// Tells the note of an ending, and answers its status.
pub fn finish<N: Sink>(notes: &mut N, ending: &Ending) -> u8
    ensures told { Told (N.faults notes.old) (N.faults notes.new) (N.written notes.old) (N.written notes.new) (note_of ending.now) }
    ensures status { result ≡ status_of ending.now }
{
    tell(notes, note_of(ending));
    status_of(ending)
}
