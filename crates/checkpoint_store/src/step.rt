//! A line of a checkpoint that has to be this one, and what is said of another in its place.

ghost use Rattle.std.specs.Prelude.{◌≡◌, IfOk, IfErr};
ghost use Rattle.wave_text.specs.Splits.{IsSplit};
ghost use Rattle.checkpoint_store.specs.inner.Steps.{other_of, BeginsWrongBy, IsRefusalBy, IsRefusalFor};

use crate::error::{CheckError, Fault, error_at};
use crate::form::{Form, looks_like};
use std::alloc::Global;
use wave_base::OutOfMemory;
use wave_text::split_at;

// What is wrong with a line that has the form and tells something else.
fn other(form: Form) -> Fault
    ensures { result ≡ other_of form }
{
    match form {
        Form::Word => Fault::Syntax,
        Form::Count | Form::Class => Fault::Service,
        Form::Numbers | Form::Place => Fault::Tree,
    }
}

// What is wrong with the line at the front of a text.
fn fault_of(alloc: Global, form: Form, text: &[u8]) -> Result<Fault, OutOfMemory>
    ensures { IfOk result (BeginsWrongBy form text.now) }
{
    let Some((line, _)) = split_at(text, b'\n') else {
        return Ok(Fault::Syntax);
    };
    let looks = looks_like(alloc, form, line)?;
    if looks {
        Ok(other(form))
    } else {
        Ok(Fault::Syntax)
    }
}

/// The refusal of the line at the front of a text, which has this number and is not as it is to be.
pub(crate) fn refusal(alloc: Global, form: Form, text: &[u8], number: u32) -> CheckError
    ensures { IsRefusalBy form text.now number result }
{
    match fault_of(alloc, form, text) {
        Ok(fault) => error_at(fault, number),
        Err(wanting) => CheckError::OutOfMemory(wanting),
    }
}

/// What stands behind the line at the front of a text, where it is this one.
pub(crate) fn read_line<'t>(
    alloc: Global,
    form: Form,
    wanted: &[u8],
    text: &'t [u8],
    number: u32,
) -> Result<&'t [u8], CheckError>
    ensures ok { IfOk result (λ rest. IsSplit 10 text.now wanted.now rest.now) }
    ensures err { IfErr result (IsRefusalFor form wanted.now text.now number) }
{
    let Some((line, rest)) = split_at(text, b'\n') else {
        return Err(refusal(alloc, form, text, number));
    };
    if line == wanted {
        Ok(rest)
    } else {
        Err(refusal(alloc, form, text, number))
    }
}
