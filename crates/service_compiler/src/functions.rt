//! The instructions of methods and events, by the scheme.

ghost use Rattle.std.specs.Prelude.{◌≡◌, ◌++◌, All, OnOk};
ghost use Rattle.resolved_service.specs.declared.service.Phase.{Phase};
ghost use Rattle.resolved_service.specs.Steps as steps;
ghost use Rattle.resolved_service.specs.Steps.{steps_in};
ghost use Rattle.resolved_service.specs.View.{tree_of};
ghost use Rattle.code_scheme.specs.Scheme.{method_code, event_code};
ghost use Rattle.code_scheme.specs.Texts.{tree_uses, steps_uses, last_uses, phases_uses, method_uses, event_uses};
ghost use Rattle.service_compiler.specs.Slots.{HaveSlots, HasMethodSlots, HasEventSlots};
ghost use Rattle.service_compiler.specs.inner.Drafts.{Emits};
ghost use Rattle.service_compiler.specs.inner.Fronts.{last_code, phase_code, phases_front, ended_behind};
ghost use Rattle.service_compiler.specs.inner.Functions.{IsReady, Writes};

use crate::code::Code;
use crate::emit::emit_expr;
use crate::statements::emit_stmts;
use code_scheme::Line;
use resolved_service::{Event, Last, Method, Phase, surely_ends};
use service_code::Instr;
use wave_base::OutOfMemory;

/// The code of a method.
pub fn emit_method(code: &mut Code, methods: &[Method], method: &Method) -> Result<(), OutOfMemory>
    requires ready { IsReady code.old }
    requires slots { HasMethodSlots method.now }
    ensures { OnOk result (Writes code.old code.new (method_uses method.now) (λ texts. method_code methods.now texts method.now)) }
{
    emit_stmts(code, methods, method.body.as_slice())?;
    let ended = surely_ends(method.body.as_slice());
    let bare = Line {
        instr: Instr::Return,
        place: method.at,
    };
    emit_last(code, methods, &method.last, Instr::Return, bare, ended)
}

/// The code of an event.
pub fn emit_event(code: &mut Code, methods: &[Method], event: &Event) -> Result<(), OutOfMemory>
    requires ready { IsReady code.old }
    requires slots { HasEventSlots event.now }
    ensures { OnOk result (Writes code.old code.new (event_uses event.now) (λ texts. event_code methods.now texts event.now)) }
{
    emit_stmts(code, methods, event.here.as_slice())?;
    emit_phases(code, methods, event.phases.as_slice())?;
    let bare = Line {
        instr: Instr::End,
        place: event.at,
    };
    emit_last(
        code,
        methods,
        &event.last,
        Instr::Reply,
        bare,
        is_past(event),
    )
}

/// Whether the last phase of an event surely ends.
pub fn is_past(event: &Event) -> bool
    ensures { result ≡ ended_behind (steps.surely_ends (steps_in event.now.here)) event.now.phases }
{
    match event.phases.as_slice() {
        [.., last] => surely_ends(last.body.as_slice()),
        _ => surely_ends(event.here.as_slice()),
    }
}

// The end of a function: its value and the instruction that takes it. Where it has no value, and the statements before go on, it is one line.
fn emit_last(
    code: &mut Code,
    methods: &[Method],
    last: &Option<Last>,
    taken: Instr,
    bare: Line,
    ended: bool,
) -> Result<(), OutOfMemory>
    ensures { OnOk result (Emits code.old code.new (last_uses last.now) (λ texts n. last_code methods.now texts taken bare n ended last.now)) }
{
    match last {
        Some(last) => {
            emit_expr(code, methods, &last.value)?;
            code.put(taken, last.at)
        }
        None => {
            if ended {
                return Ok(());
            }
            code.put(bare.instr, bare.place)
        }
    }
}

// The phases of an event.
fn emit_phases(code: &mut Code, methods: &[Method], phases: &[Phase]) -> Result<(), OutOfMemory>
    requires { All (λ (f : Phase). HaveSlots (steps_in f.body)) phases.now }
    ensures { OnOk result (Emits code.old code.new (phases_uses phases.now) (λ texts n. phases_front methods.now texts n phases.now)) }
{
    for phase in phases {
        emit_phase(code, methods, phase)?;
    }
    Ok(())
}

// A downgrade, and what is done there.
fn emit_phase(code: &mut Code, methods: &[Method], phase: &Phase) -> Result<(), OutOfMemory>
    requires { HaveSlots (steps_in phase.now.body) }
    ensures { OnOk result (Emits code.old code.new (tree_uses (tree_of phase.now.key) ++ steps_uses (steps_in phase.now.body)) (λ texts n. phase_code methods.now texts n phase.now)) }
{
    emit_expr(code, methods, &phase.key)?;
    code.put(Instr::Go(phase.class), phase.at)?;
    emit_stmts(code, methods, phase.body.as_slice())
}
