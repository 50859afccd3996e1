//! The instructions of expressions, by the scheme. A jump is written after the instructions that it passes.

ghost use Rattle.std.specs.Prelude.{[], ◌∷◌, map, OnOk};
ghost use Rattle.resolved_service.specs.View.{And, Or, tree_of, trees_of};
ghost use Rattle.code_scheme.specs.Scheme.{line, literal_instr};
ghost use Rattle.code_scheme.specs.Texts.{value_uses};
ghost use Rattle.service_compiler.specs.inner.Drafts.{Emits, EmitsTree, EmitsTrees};

use crate::code::Code;
use resolved_service::{Expr, Method, Node};
use service_code::Instr;
use wave_base::{OutOfMemory, Span, Value};

// What puts a literal on the stack.
fn emit_literal(code: &mut Code, value: &Value, at: Span) -> Result<(), OutOfMemory>
    ensures { OnOk result (Emits code.old code.new (value_uses value.now) (λ texts n. line (literal_instr texts value.now) at ∷ [])) }
{
    match value {
        Value::Int(n) => code.put(Instr::PushInt(*n), at),
        Value::Bool(b) => code.put(Instr::PushBool(*b), at),
        Value::Str(text) => {
            let number = code.text_number(text);
            code.put_use(text, Instr::PushText(number), at)
        }
        Value::Map(_) => code.put(Instr::PushEmpty, at),
    }
}

/// The code of expressions, one after the other.
#[cycle(emit_expr)]
pub fn emit_exprs(code: &mut Code, methods: &[Method], exprs: &[Expr]) -> Result<(), OutOfMemory>
    ensures { OnOk result (EmitsTrees methods.now code.old code.new (trees_of (map tree_of exprs.now))) }
{
    'exprs: for expr in exprs {
        emit_expr(code, methods, expr)?;
    }
    Ok(())
}

/// The code of an expression.
#[cycle(emit_expr)]
pub fn emit_expr(code: &mut Code, methods: &[Method], expr: &Expr) -> Result<(), OutOfMemory>
    ensures { OnOk result (EmitsTree methods.now code.old code.new (tree_of expr.now)) }
{
    let at = expr.at;
    match &expr.node {
        Node::Const(value) => emit_literal(code, value, at),
        Node::Local(slot) => code.put(Instr::Load(*slot), at),
        Node::Field(field) => code.put(Instr::Field(*field), at),
        Node::Above(level, field) => code.put(Instr::Above(*level, *field), at),
        Node::Op(row, args) => {
            emit_exprs(code, methods, args)?;
            code.put(Instr::Op(*row), at)
        }
        Node::And(left, right) => emit_and(code, methods, left, right, at),
        Node::Or(left, right) => emit_or(code, methods, left, right, at),
        Node::Call(method, args) => {
            emit_exprs(code, methods, args)?;
            code.put(Instr::Tick, at)?;
            code.put(Instr::Call(*method), at)
        }
        Node::Child(class, method, key, given) => {
            emit_expr(code, methods, key)?;
            emit_exprs(code, methods, given)?;
            code.put(Instr::Tick, at)?;
            code.put(Instr::CallDown(*class, *method), at)
        }
    }
}

// `&&`: the right operand where the left one is true, and else `false`.
#[cycle(emit_expr)]
fn emit_and(
    code: &mut Code,
    methods: &[Method],
    left: &Expr,
    right: &Expr,
    at: Span,
) -> Result<(), OutOfMemory>
    ensures { OnOk result (EmitsTree methods.now code.old code.new (And at (tree_of left.now) (tree_of right.now))) }
{
    emit_expr(code, methods, left)?;
    let test = code.here();
    code.put(Instr::JumpFalse(0), at)?;
    emit_expr(code, methods, right)?;
    let skip = code.here();
    code.put(Instr::Jump(0), at)?;
    let lost = code.here();
    code.put(Instr::PushBool(false), at)?;
    let end = code.here();
    code.patch(test, Instr::JumpFalse(lost), at);
    code.patch(skip, Instr::Jump(end), at);
    Ok(())
}

// `||`: `true` where the left operand is true, and else the right one.
#[cycle(emit_expr)]
fn emit_or(
    code: &mut Code,
    methods: &[Method],
    left: &Expr,
    right: &Expr,
    at: Span,
) -> Result<(), OutOfMemory>
    ensures { OnOk result (EmitsTree methods.now code.old code.new (Or at (tree_of left.now) (tree_of right.now))) }
{
    emit_expr(code, methods, left)?;
    let test = code.here();
    code.put(Instr::JumpFalse(0), at)?;
    code.put(Instr::PushBool(true), at)?;
    let skip = code.here();
    code.put(Instr::Jump(0), at)?;
    let other = code.here();
    emit_expr(code, methods, right)?;
    let end = code.here();
    code.patch(test, Instr::JumpFalse(other), at);
    code.patch(skip, Instr::Jump(end), at);
    Ok(())
}
