//! What statements work on, and what takes it.

ghost use Rattle.std.specs.Prelude.{◌≡◌, ◌<◌, ◌+◌, ◌^◌, ◌++◌, OnOk};
ghost use Rattle.std.specs.Option.{option_map};
ghost use Rattle.resolved_service.specs.Steps.{step_of};
ghost use Rattle.resolved_service.specs.View.{tree_of};
ghost use Rattle.code_scheme.specs.Scheme.{leaves_value, finish_instr, pop_code, maybe_code};
ghost use Rattle.code_scheme.specs.Texts.{tree_uses, maybe_uses};
ghost use Rattle.service_compiler.specs.Slots.{HasSlots};
ghost use Rattle.service_compiler.specs.inner.Drafts.{Emits, Puts};
ghost use Rattle.service_compiler.specs.inner.Operands.{bounds_code, operands_code, operands_uses};

use crate::code::Code;
use crate::emit::{emit_expr, emit_exprs};
use resolved_service::{Action, Expr, Method, Node, Stmt};
use service_code::Instr;
use wave_base::{OutOfMemory, Span};

/// Whether an expression leaves a value: a call of a method without a result does not.
pub fn leaves(methods: &[Method], expr: &Expr) -> bool
    ensures { result ≡ leaves_value methods.now (tree_of expr.now) }
{
    match &expr.node {
        Node::Call(method, _) | Node::Child(_, method, _, _) => match methods.get(
            *method as usize,
        ) {
            Some(method) => method.result.is_some(),
            None => false,
        },
        _ => true,
    }
}

/// The values that a statement works on. One with a test has it among its jumps.
pub fn emit_operands(code: &mut Code, methods: &[Method], stmt: &Stmt) -> Result<(), OutOfMemory>
    requires { HasSlots (step_of stmt.now) }
    ensures { OnOk result (Emits code.old code.new (operands_uses (step_of stmt.now)) (λ texts n. operands_code methods.now texts n (step_of stmt.now))) }
{
    match &stmt.action {
        Action::SetLocal(_, value)
        | Action::SetField(_, value)
        | Action::CutLocal(_, value)
        | Action::CutField(_, value)
        | Action::Require(value)
        | Action::Send(_, value)
        | Action::Do(value) => emit_expr(code, methods, value),
        Action::PutLocal(_, key, value) | Action::PutField(_, key, value) => {
            emit_expr(code, methods, key)?;
            emit_expr(code, methods, value)
        }
        Action::Spawn(_, args) => emit_exprs(code, methods, args),
        Action::Return(value) | Action::Finish(value) => emit_value(code, methods, value),
        Action::For(counter, from, to, _) => {
            emit_bounds(code, methods, *counter, from, to, stmt.at)
        }
        Action::If(_, _, _) | Action::While(_, _) => Ok(()),
    }
}

// The bounds of a loop over numbers, which are kept in the slots of the counter and of the bound.
fn emit_bounds(
    code: &mut Code,
    methods: &[Method],
    counter: u16,
    from: &Expr,
    to: &Expr,
    at: Span,
) -> Result<(), OutOfMemory>
    requires { counter + 1 < 2 ^ 16 }
    ensures { OnOk result (Emits code.old code.new (tree_uses (tree_of from.now) ++ tree_uses (tree_of to.now)) (λ texts n. bounds_code methods.now texts n counter at (tree_of from.now) (tree_of to.now))) }
{
    emit_expr(code, methods, from)?;
    code.put(Instr::Store(counter), at)?;
    emit_expr(code, methods, to)?;
    code.put(Instr::Store(counter + 1), at)
}

// A value that may be left out.
fn emit_value(code: &mut Code, methods: &[Method], value: &Option<Expr>) -> Result<(), OutOfMemory>
    ensures { OnOk result (Emits code.old code.new (maybe_uses (option_map tree_of value.now)) (λ texts n. maybe_code methods.now texts n (option_map tree_of value.now))) }
{
    match value {
        Some(value) => emit_expr(code, methods, value),
        None => Ok(()),
    }
}

/// How a `finish` ends its event.
pub fn finish(value: &Option<Expr>) -> Instr
    ensures { result ≡ finish_instr (option_map tree_of value.now) }
{
    match value {
        Some(_) => Instr::Reply,
        None => Instr::End,
    }
}

/// Takes away a value that nothing takes.
pub fn emit_pop(code: &mut Code, leaves: bool, at: Span) -> Result<(), OutOfMemory>
    ensures { OnOk result (Puts code.old code.new (pop_code leaves at)) }
{
    if leaves {
        code.put(Instr::Pop, at)?;
    }
    Ok(())
}
