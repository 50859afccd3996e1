//! The code of a typed service.

ghost use Rattle.std.specs.Prelude.{◌≡◌, ◌<◌, ◌+◌, ◌^◌, ◌++◌, length, IfOk, OnOk};
ghost use Rattle.resolved_service.specs.Fits.{FitsService};
ghost use Rattle.code_scheme.specs.Typed.{IsTyped};
ghost use Rattle.due_parts.specs.Coded.{IsCompiled, IsLongNamed, name_at};

use crate::answer::{Answer, refusal_answer};
use crate::refusal::Refusal;
use context_types::Typed;
use service_compiler::{CompileError, compile_verified};
use service_verify::Verified;
use std::alloc::Global;
use wave_base::OutOfMemory;

// Writes a function's name: `Class.method` or `event`.
fn put_name(note: &mut Vec<u8>, typed: &Typed, number: u16) -> Result<(), OutOfMemory>
    ensures { OnOk result (note.new.items ≡ note.old.items ++ name_at typed.now.shape typed.now.resolved number) }
{
    let methods = typed.resolved.methods.as_slice();
    let number = number as usize;
    match methods.get(number) {
        Some(method) => {
            note.extend_from_slice(typed.shape.class_name(method.class))?;
            note.push(b'.')?;
            Ok(note.extend_from_slice(method.name.bytes())?)
        }
        None => match typed.shape.events.get(number - methods.len()) {
            Some(event) => Ok(note.extend_from_slice(event.name.bytes())?),
            None => Ok(()),
        },
    }
}

// The refusal of a service whose function of this number is too long.
fn refused_code(alloc: Global, typed: &Typed, number: u16) -> Result<Answer, OutOfMemory>
    ensures { IfOk result (IsLongNamed typed.now.shape typed.now.resolved number) }
{
    let mut note = Vec::from_slice(alloc, b"C1 CodeTooLong ")?;
    put_name(&mut note, typed, number)?;
    refusal_answer(alloc, 3, note.as_slice())
}

/// Compiles a typed service. It is refused where a function is too long.
pub fn code_of(alloc: Global, typed: &Typed) -> Result<Verified, Refusal>
    requires typed { IsTyped typed.now.shape typed.now.resolved }
    requires fits { FitsService typed.now.shape typed.now.resolved }
    requires few { length typed.now.resolved.methods + length typed.now.resolved.events < 2 ^ 16 }
    ensures { IsCompiled typed.now.shape typed.now.resolved result }
{
    match compile_verified(alloc, typed.shape.copy(alloc)?, &typed.resolved) {
        Ok(program) => Ok(program),
        Err(CompileError::CodeTooLong { function, .. }) => {
            Err(Refusal::Due(refused_code(alloc, typed, function)?))
        }
        Err(CompileError::OutOfMemory(refused)) => Err(Refusal::OutOfMemory(refused)),
    }
}
