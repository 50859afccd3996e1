//! What a line of a script with policies says.

ghost use Rattle.std.specs.Prelude.{IfOk};
ghost use Rattle.script_reader.specs.Elastics.{IsOnlyWorded};

use crate::pieces::{first_run, pieces_of};
use crate::policy_form::PolicyForm;
use crate::policy_spelling::{is_policy_word, policy_form_of};
use crate::said::{Said, said_by};
use std::alloc::Global;
use wave_base::OutOfMemory;

/// What a line of a script with policies says.
#[derive(Debug, Drop)]
pub enum Worded<'t> {
    /// What it would say in a script without policies.
    Plain(Said<'t>),
    /// It has this form of a policy.
    Policy(PolicyForm),
}

/// What a line says. A line that begins with another word than a policy is read once.
pub(crate) fn worded_by(alloc: Global, line: &[u8]) -> Result<Worded<'_>, OutOfMemory>
    ensures { IfOk result (IsOnlyWorded line.now) }
{
    if !is_policy_word(first_run(line)) {
        return Ok(Worded::Plain(said_by(alloc, line)?));
    }
    let Some(pieces) = pieces_of(alloc, line)? else {
        return Ok(Worded::Plain(Said::Unknown));
    };
    match policy_form_of(alloc, pieces.as_slice())? {
        Some(form) => Ok(Worded::Policy(form)),
        None => Ok(Worded::Plain(Said::Unknown)),
    }
}
