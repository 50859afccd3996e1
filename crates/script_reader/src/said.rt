//! What a line says: nothing, a form, or a fault.

ghost use Rattle.std.specs.Prelude.{◌≡◌, IfOk};
ghost use Rattle.script_reader.specs.Forms.{is_skipped};
ghost use Rattle.script_reader.specs.Scripts.{IsOnlySaid};
ghost use Rattle.script_reader.specs.inner.Begins.{is_form_word};

use crate::form::Form;
use crate::pieces::{first_run, pieces_of, without_blanks};
use crate::spelling::form_of;
use std::alloc::Global;
use wave_base::OutOfMemory;

/// What a script line says.
#[derive(Debug, Drop)]
pub enum Said<'t> {
    /// It is blank or a comment.
    Nothing,
    /// It has none of the forms.
    Unknown,
    /// It has this form.
    Says(Form<'t>),
}

fn is_skipped(line: &[u8]) -> bool
    ensures { result ≡ is_skipped line.now }
{
    match without_blanks(line) {
        [] => true,
        [b, ..] => *b == b'#',
    }
}

// Whether a word is one that a line of some form begins with.
fn is_form_word(word: &[u8]) -> bool
    ensures { result ≡ is_form_word word.now }
{
    word == b"hosts".as_slice()
        || word == b"request".as_slice()
        || word == b"move".as_slice()
        || word == b"snapshot".as_slice()
        || word == b"settle".as_slice()
}

/// What a line says. A line that begins with another word is told without memory.
pub(crate) fn said_by(alloc: Global, line: &[u8]) -> Result<Said<'_>, OutOfMemory>
    ensures { IfOk result (IsOnlySaid line.now) }
{
    if is_skipped(line) {
        return Ok(Said::Nothing);
    }
    if !is_form_word(first_run(line)) {
        return Ok(Said::Unknown);
    }
    let Some(pieces) = pieces_of(alloc, line)? else {
        return Ok(Said::Unknown);
    };
    match form_of(alloc, pieces.as_slice())? {
        Some(form) => Ok(Said::Says(form)),
        None => Ok(Said::Unknown),
    }
}
