//! A service, read, typed and compiled.

ghost use Rattle.std.specs.Prelude.{◌≡◌, ◌≢◌, ◌<◌, ◌+◌, ◌^◌, length, IfOk};
ghost use Rattle.mace_ast.specs.Counts.{IsFew};
ghost use Rattle.mace_ast.specs.Decls.{ServiceTree, service_tree};
ghost use Rattle.service_reader.specs.declared.fault.TextFault.{TextFault};
ghost use Rattle.mace_printer.specs.Written.{IsParsed};
ghost use Rattle.fault_notes.specs.Notes.{text_note, type_note};
ghost use Rattle.type_rules.specs.declared.error.TypeError.{TypeError};
ghost use Rattle.due_parts.specs.Answers.{refusal};
ghost use Rattle.due_parts.specs.Served.{IsChecked, IsServed, IsTypedTree};
ghost use Rattle.wave_base.specs.Memory.{the_refusal};

use crate::answer::{Answer, refusal_answer};
use crate::code::code_of;
use crate::refusal::Refusal;
use context_types::{Typed, check};
use fault_notes::{text_note, type_note};
use mace_ast::Service;
use service_reader::{TextFault, parse_text};
use service_verify::Verified;
use std::alloc::Global;
use type_rules::TypeError;
use typed_names::typed_services_have_names;
use wave_base::OutOfMemory;

// The refusal of a text that is no service.
fn refused_text(alloc: Global, fault: &TextFault) -> Result<Answer, OutOfMemory>
    ensures refused { IfOk result (λ a. a ≡ refusal 3 (text_note fault.now)) }
    ensures told { IfOk result (λ _. fault.now ≢ TextFault.OutOfMemory the_refusal) }
{
    let note = text_note(alloc, fault)?;
    refusal_answer(alloc, 3, note.as_slice())
}

// The refusal of a service that isn't typed.
fn refused_types(alloc: Global, error: &TypeError) -> Result<Answer, OutOfMemory>
    ensures refused { IfOk result (λ a. a ≡ refusal 3 (type_note error.now)) }
    ensures told { IfOk result (λ _. error.now ≢ TypeError.OutOfMemory the_refusal) }
{
    let note = type_note(alloc, error)?;
    refusal_answer(alloc, 3, note.as_slice())
}

// A typed service with its code.
fn compile_typed(alloc: Global, typed: Typed) -> Result<(Typed, Verified), Refusal>
    requires typed { (tree : ServiceTree) × IsTypedTree tree typed }
    requires few { length typed.resolved.methods + length typed.resolved.events < 2 ^ 16 }
    ensures { (tree : ServiceTree) → IsTypedTree tree typed → IsChecked tree result }
{
    match code_of(alloc, &typed) {
        Ok(program) => Ok((typed, program)),
        Err(refusal) => Err(refusal),
    }
}

// A service, checked.
fn check_service(alloc: Global, service: Service) -> Result<(Typed, Verified), Refusal>
    requires few { IsFew (service_tree service) }
    requires parsed { IsParsed (service_tree service) }
    ensures { IsChecked (service_tree service) result }
{
    typed_services_have_names();
    match check(alloc, service) {
        Ok(typed) => compile_typed(alloc, typed),
        Err(error) => Err(Refusal::Due(refused_types(alloc, &error)?)),
    }
}

/// A text as a typed service with its code. A refusal is that of its first fault.
pub fn service_of_text(alloc: Global, text: &[u8]) -> Result<(Typed, Verified), Refusal>
    ensures { IsServed text.now result }
{
    match parse_text(alloc, text) {
        Ok(service) => check_service(alloc, service),
        Err(fault) => Err(Refusal::Due(refused_text(alloc, &fault)?)),
    }
}
