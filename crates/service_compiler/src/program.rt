//! The program of a service.

ghost use Rattle.std.specs.Prelude.{◌≡◌, ◌<◌, ◌+◌, ◌^◌, length, map, All, IfOk, IfErr, OnOk};
ghost use Rattle.service_verify.specs.Fit.{IsSmall};
ghost use Rattle.code_scheme.specs.Programs.{method_function, event_functions, numbers_from, scheme_program};
ghost use Rattle.code_scheme.specs.Texts.{methods_uses, events_uses};
ghost use Rattle.service_compiler.specs.Faults.{Refuses};
ghost use Rattle.service_compiler.specs.Slots.{HasMethodSlots, HasEventSlots, HasServiceSlots};
ghost use Rattle.service_compiler.specs.inner.Functions.{IsReady, Adds, IsRefused};

use crate::code::Code;
use crate::error::CompileError;
use crate::whole::{add_event, add_method};
use resolved_service::{Event, Method, Resolved};
use service_code::Program;
use std::alloc::Global;
use wave_base::{EventInfo, OutOfMemory, Seq, Shape};

/// The program of a service, by the scheme. Functions and slots have numbers of 16 bits.
pub fn compile(alloc: Global, shape: Shape, service: &Resolved) -> Result<Program, CompileError>
    requires few { length service.now.methods + length service.now.events < 2 ^ 16 }
    requires events { length service.now.events ≡ length shape.events }
    requires slots { HasServiceSlots service.now }
    ensures program { IfOk result (λ p. p ≡ scheme_program shape service.now) }
    ensures small { IfOk result IsSmall }
    ensures refused { IfErr result (Refuses shape service.now) }
{
    let mut code = Code::new(alloc);
    let methods = service.methods.as_slice();
    let events = service.events.as_slice();
    add_methods(alloc, &mut code, methods)?;
    add_events(alloc, &mut code, methods, shape.events.as_slice(), events)?;
    let numbers = numbers(alloc, methods.len() as u16, events.len() as u16)?;
    let (functions, texts) = code.into_parts()?;
    Ok(Program {
        shape,
        functions,
        texts,
        events: numbers,
    })
}

// The functions of the methods.
fn add_methods(alloc: Global, code: &mut Code, methods: &[Method]) -> Result<(), CompileError>
    requires few { length code.old.functions + length methods.now < 2 ^ 16 }
    requires ready { IsReady code.old }
    requires slots { All HasMethodSlots methods.now }
    ensures made { OnOk result (Adds code.old code.new (methods_uses methods.now) (λ texts. map (method_function methods.now texts) methods.now)) }
    ensures refused { IfErr result (IsRefused code.old (methods_uses methods.now) (λ texts. map (method_function methods.now texts) methods.now)) }
{
    for method in methods {
        add_method(alloc, code, methods, method)?;
    }
    Ok(())
}

// The functions of the events.
fn add_events(
    alloc: Global,
    code: &mut Code,
    methods: &[Method],
    infos: &[EventInfo],
    events: &[Event],
) -> Result<(), CompileError>
    requires few { length code.old.functions + length events.now < 2 ^ 16 }
    requires ready { IsReady code.old }
    requires count { length events.now ≡ length infos.now }
    requires slots { All HasEventSlots events.now }
    ensures made { OnOk result (Adds code.old code.new (events_uses events.now) (λ texts. event_functions methods.now texts infos.now events.now)) }
    ensures refused { IfErr result (IsRefused code.old (events_uses events.now) (λ texts. event_functions methods.now texts infos.now events.now)) }
{
    for (info, event) in infos.iter().zip(events) {
        add_event(alloc, code, methods, info, event)?;
    }
    Ok(())
}

// So many numbers from `first` on.
fn numbers(alloc: Global, first: u16, count: u16) -> Result<Seq<u16>, OutOfMemory>
    requires { first + count < 2 ^ 16 }
    ensures { IfOk result (λ s. s ≡ numbers_from first count) }
{
    let mut numbers = Vec::new(alloc);
    for place in 0..count {
        numbers.push(first + place)?;
    }
    Ok(Seq::from_vec(numbers))
}
