//! An answer that needs no run.

ghost use Rattle.std.specs.Prelude.{◌≡◌, IfOk};
ghost use Rattle.due_parts.specs.Answers.{refusal, too_large_input, text_answer};

use std::alloc::Global;
use wave_base::{OutOfMemory, Seq};

/// What is due for an input: the status, the bytes for `out`, and the note, which is empty where there is none.
#[derive(Debug, Drop)]
pub struct Answer {
    /// The exit status.
    pub status: u8,
    /// The one line for the error output, without its line end; empty where there is none.
    pub note: Seq<u8>,
    /// The bytes for the output.
    pub text: Seq<u8>,
}

/// A refusal with this status and note.
pub fn refusal_answer(alloc: Global, status: u8, note: &[u8]) -> Result<Answer, OutOfMemory>
    ensures { IfOk result (λ a. a ≡ refusal status note.now) }
{
    let note = Vec::from_slice(alloc, note)?;
    Ok(Answer {
        status,
        note: Seq::from_vec(note),
        text: Seq::new(alloc),
    })
}

/// The refusal of an input that has more bytes than it may have.
pub fn too_large(alloc: Global) -> Result<Answer, OutOfMemory>
    ensures { IfOk result (λ a. a ≡ too_large_input) }
{
    refusal_answer(alloc, 3, b"TooLarge input")
}

/// A text that is written, with nothing to tell.
pub fn text_answer(alloc: Global, text: Seq<u8>) -> Answer
    ensures { result ≡ text_answer text }
{
    Answer {
        status: 0,
        note: Seq::new(alloc),
        text,
    }
}
