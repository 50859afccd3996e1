//! A script, with the code of its service.

ghost use Rattle.std.specs.Prelude.{◌<◌, ◌+◌, ◌^◌, length, IfSome};
ghost use Rattle.wave_base.specs.Scripts.{IsScript};
ghost use Rattle.wave_base.specs.Shapes.{IsShape};
ghost use Rattle.resolved_service.specs.Fits.{FitsService};
ghost use Rattle.code_scheme.specs.Typed.{IsTyped};
ghost use Rattle.service_verify.specs.Fit.{IsFit};
ghost use Rattle.service_verify.specs.Points.{IsVerified};
ghost use Rattle.code_runner.specs.Coded.{IsCode};

use context_types::{Typed, check};
use input_parts::parts_of;
use script_reader::read_script;
use service_compiler::compile_verified;
use service_reader::parse_text;
use service_verify::Verified;
use std::alloc::Global;
use typed_code::typed_services_have_code;
use wave_base::{SCRIPT_BYTES, Script};

/// A script, with the code of its service.
#[derive(Drop)]
pub struct Coded {
    /// The service, judged and resolved.
    pub typed: Typed,
    /// Its code, verified.
    pub program: Verified,
    /// What is run on it.
    pub script: Script,
}

// A text as a typed service, if it is one.
fn typed_service(alloc: Global, text: &[u8]) -> Option<Typed>
    ensures shape { IfSome result (λ t. IsShape t.shape) }
    ensures typed { IfSome result (λ t. IsTyped t.shape t.resolved) }
    ensures fits { IfSome result (λ t. FitsService t.shape t.resolved) }
    ensures few { IfSome result (λ t. length t.resolved.methods + length t.resolved.events < 2 ^ 16) }
{
    typed_services_have_code();
    let Ok(service) = parse_text(alloc, text) else {
        return None;
    };
    let Ok(typed) = check(alloc, service) else {
        return None;
    };
    Some(typed)
}

// The code of a typed service.
fn code_of(alloc: Global, typed: &Typed) -> Option<Verified>
    requires shape { IsShape typed.now.shape }
    requires typed { IsTyped typed.now.shape typed.now.resolved }
    requires fits { FitsService typed.now.shape typed.now.resolved }
    requires few { length typed.now.resolved.methods + length typed.now.resolved.events < 2 ^ 16 }
    ensures shape { IfSome result (λ p. IsShape p.shape) }
    ensures code { IfSome result (IsCode typed.now.resolved) }
    ensures fit { IfSome result IsFit }
{
    let Ok(shape) = typed.shape.copy(alloc) else {
        return None;
    };
    let Ok(program) = compile_verified(alloc, shape, &typed.resolved) else {
        return None;
    };
    Some(program)
}

// The script that a text stands for, if it is one of the program's service.
fn script_of(alloc: Global, program: &Verified, text: &[u8]) -> Option<Script>
    requires { IsShape program.now.shape }
    ensures script { IfSome result (IsScript program.now.shape) }
    ensures verified { IsVerified program.now }
{
    let shape = &program.program().shape;
    if text.len() > SCRIPT_BYTES {
        return None;
    }
    match read_script(alloc, shape, text) {
        Ok(script) => Some(script),
        Err(_) => None,
    }
}

/// A script's text for a service's, with the service's code. None where one of them is refused, or memory is wanting.
pub fn coded_texts(alloc: Global, service: &[u8], script: &[u8]) -> Option<Coded>
    ensures shape { IfSome result (λ c. IsShape c.program.shape) }
    ensures code { IfSome result (λ c. IsCode c.typed.resolved c.program) }
    ensures fit { IfSome result (λ c. IsFit c.program) }
    ensures verified { IfSome result (λ c. IsVerified c.program) }
    ensures script { IfSome result (λ c. IsScript c.program.shape c.script) }
{
    let typed = typed_service(alloc, service)?;
    let program = code_of(alloc, &typed)?;
    let script = script_of(alloc, &program, script)?;
    Some(Coded {
        typed,
        program,
        script,
    })
}

/// The script of an input with the code of its service, if the input has both.
pub fn coded_input(alloc: Global, input: &[u8]) -> Option<Coded>
    ensures shape { IfSome result (λ c. IsShape c.program.shape) }
    ensures code { IfSome result (λ c. IsCode c.typed.resolved c.program) }
    ensures script { IfSome result (λ c. IsScript c.program.shape c.script) }
{
    let (service, script) = parts_of(input);
    coded_texts(alloc, service, script?)
}
