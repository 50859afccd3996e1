//! The instructions of statements, by the scheme.

ghost use Rattle.std.specs.Prelude.{◌+◌, ◌<◌, ◌^◌, OnOk};
ghost use Rattle.resolved_service.specs.Steps as steps;
ghost use Rattle.resolved_service.specs.Steps.{step_of, steps_in};
ghost use Rattle.resolved_service.specs.View.{tree_of};
ghost use Rattle.code_scheme.specs.Scheme.{turn_code, steps_code};
ghost use Rattle.code_scheme.specs.Texts.{steps_uses};
ghost use Rattle.service_compiler.specs.Slots.{HasSlots, HaveSlots};
ghost use Rattle.service_compiler.specs.inner.Drafts.{Emits, EmitsStep, EmitsSteps};
ghost use Rattle.service_compiler.specs.inner.Fronts.{loop_code};

use crate::code::Code;
use crate::emit::emit_expr;
use crate::loops::{emit_back, emit_next, emit_test};
use crate::operands::{emit_operands, emit_pop, finish, leaves};
use resolved_service::{Action, Expr, Method, Stmt, surely_ends};
use service_code::Instr;
use wave_base::{OutOfMemory, Span};

/// The code of statements, one after the other.
#[cycle(emit_stmt)]
pub fn emit_stmts(code: &mut Code, methods: &[Method], stmts: &[Stmt]) -> Result<(), OutOfMemory>
    requires { HaveSlots (steps_in stmts.now) }
    ensures { OnOk result (EmitsSteps methods.now code.old code.new (steps_in stmts.now)) }
{
    'stmts: for stmt in stmts {
        emit_stmt(code, methods, stmt)?;
    }
    Ok(())
}

#[cycle(emit_stmt)]
fn emit_stmt(code: &mut Code, methods: &[Method], stmt: &Stmt) -> Result<(), OutOfMemory>
    requires { HasSlots (step_of stmt.now) }
    ensures { OnOk result (EmitsStep methods.now code.old code.new (step_of stmt.now)) }
{
    let at = stmt.at;
    emit_operands(code, methods, stmt)?;
    match &stmt.action {
        Action::SetLocal(slot, _) => code.put(Instr::Store(*slot), at),
        Action::SetField(field, _) => code.put(Instr::SetField(*field), at),
        Action::PutLocal(slot, _, _) => code.put(Instr::PutLocal(*slot), at),
        Action::PutField(field, _, _) => code.put(Instr::PutField(*field), at),
        Action::CutLocal(slot, _) => code.put(Instr::CutLocal(*slot), at),
        Action::CutField(field, _) => code.put(Instr::CutField(*field), at),
        Action::Require(_) => code.put(Instr::Require, at),
        Action::Send(label, _) => {
            let number = code.text_number(label);
            code.put_use(label, Instr::Send(number), at)
        }
        Action::Spawn(event, _) => code.put(Instr::Spawn(*event), at),
        Action::Do(call) => emit_pop(code, leaves(methods, call), at),
        Action::Return(_) => code.put(Instr::Return, at),
        Action::Finish(value) => code.put(finish(value), at),
        Action::If(test, body, other) => match other {
            None => emit_if(code, methods, body, test, at),
            Some(other) => emit_else(code, methods, body, other, test, at),
        },
        Action::While(test, body) => emit_while(code, methods, body, test, at),
        Action::For(counter, _, _, body) => emit_loop(code, methods, *counter, body, at),
    }
}

// A choice with one block.
#[cycle(emit_stmt)]
fn emit_if(
    code: &mut Code,
    methods: &[Method],
    body: &[Stmt],
    test: &Expr,
    at: Span,
) -> Result<(), OutOfMemory>
    requires { HaveSlots (steps_in body.now) }
    ensures { OnOk result (EmitsStep methods.now code.old code.new (steps.If at (tree_of test.now) (steps_in body.now) steps.no_else)) }
{
    emit_expr(code, methods, test)?;
    let test_end = code.here();
    code.put(Instr::JumpFalse(0), at)?;
    emit_stmts(code, methods, body)?;
    let end = code.here();
    code.patch(test_end, Instr::JumpFalse(end), at);
    Ok(())
}

// A choice of two blocks. Behind the first no jump stands where it surely ends.
#[cycle(emit_stmt)]
fn emit_else(
    code: &mut Code,
    methods: &[Method],
    body: &[Stmt],
    other: &[Stmt],
    test: &Expr,
    at: Span,
) -> Result<(), OutOfMemory>
    requires slots { HaveSlots (steps_in body.now) }
    requires other_slots { HaveSlots (steps_in other.now) }
    ensures { OnOk result (EmitsStep methods.now code.old code.new (steps.If at (tree_of test.now) (steps_in body.now) (steps.otherwise (steps_in other.now)))) }
{
    emit_expr(code, methods, test)?;
    let test_end = code.here();
    code.put(Instr::JumpFalse(0), at)?;
    emit_stmts(code, methods, body)?;
    let body_end = code.here();
    if surely_ends(body) {
        emit_stmts(code, methods, other)?;
        code.patch(test_end, Instr::JumpFalse(body_end), at);
        return Ok(());
    }
    code.put(Instr::Jump(0), at)?;
    let other_start = code.here();
    emit_stmts(code, methods, other)?;
    let end = code.here();
    code.patch(test_end, Instr::JumpFalse(other_start), at);
    code.patch(body_end, Instr::Jump(end), at);
    Ok(())
}

#[cycle(emit_stmt)]
fn emit_while(
    code: &mut Code,
    methods: &[Method],
    body: &[Stmt],
    test: &Expr,
    at: Span,
) -> Result<(), OutOfMemory>
    requires { HaveSlots (steps_in body.now) }
    ensures { OnOk result (EmitsStep methods.now code.old code.new (steps.While at (tree_of test.now) (steps_in body.now))) }
{
    let start = code.here();
    emit_expr(code, methods, test)?;
    let test_end = code.here();
    code.put(Instr::JumpFalse(0), at)?;
    code.put(Instr::Tick, at)?;
    emit_stmts(code, methods, body)?;
    emit_back(code, surely_ends(body), start, at)?;
    let end = code.here();
    code.patch(test_end, Instr::JumpFalse(end), at);
    Ok(())
}

// A loop over numbers, behind its bounds.
#[cycle(emit_stmt)]
fn emit_loop(
    code: &mut Code,
    methods: &[Method],
    counter: u16,
    body: &[Stmt],
    at: Span,
) -> Result<(), OutOfMemory>
    requires counter { counter + 2 < 2 ^ 16 }
    requires slots { HaveSlots (steps_in body.now) }
    ensures { OnOk result (Emits code.old code.new (steps_uses (steps_in body.now)) (λ texts n. loop_code methods.now texts n counter at (steps_in body.now))) }
{
    let first = code.here();
    emit_test(code, counter, at)?;
    let test_end = code.here();
    code.put(Instr::JumpFalse(0), at)?;
    code.put(Instr::Tick, at)?;
    emit_turn(code, methods, counter, body, at)?;
    emit_back(code, surely_ends(body), first, at)?;
    let end = code.here();
    code.patch(test_end, Instr::JumpFalse(end), at);
    Ok(())
}

// A turn of such a loop.
#[cycle(emit_stmt)]
fn emit_turn(
    code: &mut Code,
    methods: &[Method],
    counter: u16,
    body: &[Stmt],
    at: Span,
) -> Result<(), OutOfMemory>
    requires counter { counter + 2 < 2 ^ 16 }
    requires slots { HaveSlots (steps_in body.now) }
    ensures { OnOk result (Emits code.old code.new (steps_uses (steps_in body.now)) (λ texts n. turn_code counter at (steps.surely_ends (steps_in body.now)) (steps_code methods.now texts (n + 1 + 1) (steps_in body.now)))) }
{
    let name = counter + 2;
    code.put(Instr::Load(counter), at)?;
    code.put(Instr::Store(name), at)?;
    emit_stmts(code, methods, body)?;
    if surely_ends(body) {
        return Ok(());
    }
    emit_next(code, counter, at)
}
