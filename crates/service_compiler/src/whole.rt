//! Functions with all that they have: what they are called with, the height of their stack, their code and its places.

ghost use Rattle.std.specs.Prelude.{◌≡◌, ◌<◌, ◌≤◌, ◌+◌, ◌^◌, [], ◌∷◌, length, map, IfOk, IfErr, OnOk};
ghost use Rattle.wave_base.specs.declared.limits.TheConstants.{INSTRUCTIONS};
ghost use Rattle.code_scheme.specs.Programs.{method_function, event_function};
ghost use Rattle.code_scheme.specs.declared.line.Line.{Line};
ghost use Rattle.code_scheme.specs.Texts.{method_uses, event_uses};
ghost use Rattle.service_compiler.specs.Slots.{HasMethodSlots, HasEventSlots};
ghost use Rattle.service_compiler.specs.inner.Functions.{IsReady, Adds, IsRefused, IsLong};

use crate::code::Code;
use crate::error::CompileError;
use crate::functions::{emit_event, emit_method};
use crate::heights::{height_of_event, height_of_method};
use code_scheme::Line;
use resolved_service::{Event, Method};
use service_code::{Function, Instr};
use std::alloc::Global;
use wave_base::{Class, EventInfo, INSTRUCTIONS, OutOfMemory, Seq, Span};

/// Adds the function of a method.
pub fn add_method(
    alloc: Global,
    code: &mut Code,
    methods: &[Method],
    method: &Method,
) -> Result<(), CompileError>
    requires few { length code.old.functions + 1 < 2 ^ 16 }
    requires ready { IsReady code.old }
    requires slots { HasMethodSlots method.now }
    ensures made { OnOk result (Adds code.old code.new (method_uses method.now) (λ texts. method_function methods.now texts method.now ∷ [])) }
    ensures refused { IfErr result (IsRefused code.old (method_uses method.now) (λ texts. method_function methods.now texts method.now ∷ [])) }
{
    emit_method(code, methods, method)?;
    check_length(code)?;
    let function = Function {
        name: method.name.copy(alloc)?,
        class: method.class,
        is_event: false,
        args: method.params.copy(alloc)?,
        result: method.result,
        locals: method.locals.copy(alloc)?,
        stack: height_of_method(methods, method),
        code: instrs_of(alloc, code.lines())?,
        places: places_of(alloc, code.lines())?,
    };
    code.finish(function)?;
    Ok(())
}

/// Adds the function of an event. It runs from the root.
pub fn add_event(
    alloc: Global,
    code: &mut Code,
    methods: &[Method],
    info: &EventInfo,
    event: &Event,
) -> Result<(), CompileError>
    requires few { length code.old.functions + 1 < 2 ^ 16 }
    requires ready { IsReady code.old }
    requires slots { HasEventSlots event.now }
    ensures made { OnOk result (Adds code.old code.new (event_uses event.now) (λ texts. event_function methods.now texts info.now event.now ∷ [])) }
    ensures refused { IfErr result (IsRefused code.old (event_uses event.now) (λ texts. event_function methods.now texts info.now event.now ∷ [])) }
{
    emit_event(code, methods, event)?;
    check_length(code)?;
    let function = Function {
        name: info.name.copy(alloc)?,
        class: Class(0),
        is_event: true,
        args: info.params.copy(alloc)?,
        result: info.reply,
        locals: event.locals.copy(alloc)?,
        stack: height_of_event(methods, event),
        code: instrs_of(alloc, code.lines())?,
        places: places_of(alloc, code.lines())?,
    };
    code.finish(function)?;
    Ok(())
}

// Refuses what is too long for a function.
fn check_length(code: &Code) -> Result<(), CompileError>
    ensures short { OnOk result (code.now.count ≤ INSTRUCTIONS) }
    ensures long { IfErr result (IsLong (length code.now.functions) code.now.count) }
{
    let length = code.line_count();
    if length as usize > INSTRUCTIONS {
        let function = code.function();
        return Err(CompileError::CodeTooLong { function, length });
    }
    Ok(())
}

fn instrs_of(alloc: Global, lines: &[Line]) -> Result<Seq<Instr>, OutOfMemory>
    ensures { IfOk result (λ s. s ≡ map (λ (l : Line). l.instr) lines.now) }
{
    let instrs: Vec<Instr> = lines.iter().map(|line| line.instr).collect(alloc)?;
    Ok(Seq::from_vec(instrs))
}

fn places_of(alloc: Global, lines: &[Line]) -> Result<Seq<Span>, OutOfMemory>
    ensures { IfOk result (λ s. s ≡ map (λ (l : Line). l.place) lines.now) }
{
    let places: Vec<Span> = lines.iter().map(|line| line.place).collect(alloc)?;
    Ok(Seq::from_vec(places))
}
