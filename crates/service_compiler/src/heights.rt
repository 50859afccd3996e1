//! The greatest height of a function's stack. What passes 65,535 counts as that: no function that is short enough is as high.

ghost use Rattle.std.specs.Prelude.{◌≡◌, min, map};
ghost use Rattle.std.specs.Option.{option_map};
ghost use Rattle.resolved_service.specs.Steps.{step_of, steps_in};
ghost use Rattle.resolved_service.specs.View.{tree_of, trees_of};
ghost use Rattle.code_scheme.specs.Heights.{one_if, tree_height, trees_height, maybe_height, step_height, steps_height, last_height, method_height, phases_height, event_height};

use crate::operands::leaves;
use resolved_service::{Action, Event, Expr, Last, Method, Node, Phase, Stmt};

/// That of a method.
pub fn height_of_method(methods: &[Method], method: &Method) -> u16
    ensures { result ≡ min (method_height methods.now method.now) 65535 }
{
    stmts_height(methods, method.body.as_slice()).max(height_of_last(methods, &method.last))
}

/// That of an event.
pub fn height_of_event(methods: &[Method], event: &Event) -> u16
    ensures { result ≡ min (event_height methods.now event.now) 65535 }
{
    let here = stmts_height(methods, event.here.as_slice());
    let phases = height_of_phases(methods, event.phases.as_slice());
    here.max(phases).max(height_of_last(methods, &event.last))
}

fn height_of_last(methods: &[Method], last: &Option<Last>) -> u16
    ensures { result ≡ min (last_height methods.now last.now) 65535 }
{
    match last {
        Some(last) => expr_height(methods, &last.value),
        None => 0,
    }
}

fn height_of_phases(methods: &[Method], phases: &[Phase]) -> u16
    ensures { result ≡ min (phases_height methods.now phases.now) 65535 }
{
    let mut height: u16 = 0;
    for phase in phases {
        let body = stmts_height(methods, phase.body.as_slice());
        height = expr_height(methods, &phase.key).max(body).max(height);
    }
    height
}

#[cycle(stmt_height)]
fn stmts_height(methods: &[Method], stmts: &[Stmt]) -> u16
    ensures { result ≡ min (steps_height methods.now (steps_in stmts.now)) 65535 }
{
    let mut height: u16 = 0;
    'stmts: for stmt in stmts {
        height = stmt_height(methods, stmt).max(height);
    }
    height
}

#[cycle(stmt_height)]
fn stmt_height(methods: &[Method], stmt: &Stmt) -> u16
    ensures { result ≡ min (step_height methods.now (step_of stmt.now)) 65535 }
{
    match &stmt.action {
        Action::SetLocal(_, value)
        | Action::SetField(_, value)
        | Action::Require(value)
        | Action::Send(_, value)
        | Action::Do(value) => expr_height(methods, value),
        Action::PutLocal(_, key, value) | Action::PutField(_, key, value) => {
            let value = expr_height(methods, value).saturating_add(1);
            expr_height(methods, key).max(value)
        }
        Action::CutLocal(_, key) | Action::CutField(_, key) => expr_height(methods, key),
        Action::If(test, body, other) => {
            let height = expr_height(methods, test).max(stmts_height(methods, body));
            match other {
                Some(other) => height.max(stmts_height(methods, other)),
                None => height,
            }
        }
        Action::While(test, body) => expr_height(methods, test).max(stmts_height(methods, body)),
        Action::For(_, from, to, body) => {
            let bounds = expr_height(methods, from).max(expr_height(methods, to));
            bounds.max(2).max(stmts_height(methods, body))
        }
        Action::Spawn(_, args) => exprs_height(methods, args),
        Action::Return(value) | Action::Finish(value) => height_of_value(methods, value),
    }
}

fn height_of_value(methods: &[Method], value: &Option<Expr>) -> u16
    ensures { result ≡ min (maybe_height methods.now (option_map tree_of value.now)) 65535 }
{
    match value {
        Some(value) => expr_height(methods, value),
        None => 0,
    }
}

#[cycle(expr_height)]
fn exprs_height(methods: &[Method], exprs: &[Expr]) -> u16
    ensures { result ≡ min (trees_height methods.now (trees_of (map tree_of exprs.now))) 65535 }
{
    let mut height: u16 = 0;
    let mut below: u16 = 0;
    'exprs: for expr in exprs {
        let operand = expr_height(methods, expr).max(1);
        height = operand.saturating_add(below).max(height);
        below = below.saturating_add(1);
    }
    height
}

#[cycle(expr_height)]
fn expr_height(methods: &[Method], expr: &Expr) -> u16
    ensures { result ≡ min (tree_height methods.now (tree_of expr.now)) 65535 }
{
    match &expr.node {
        Node::Const(_) | Node::Local(_) | Node::Field(_) | Node::Above(_, _) => 1,
        Node::Op(_, args) => exprs_height(methods, args).max(1),
        Node::And(left, right) | Node::Or(left, right) => {
            expr_height(methods, left)
                .max(expr_height(methods, right))
                .max(1)
        }
        Node::Call(_, args) => exprs_height(methods, args).max(height_left(leaves(methods, expr))),
        Node::Child(_, _, key, args) => {
            let given = exprs_height(methods, args).saturating_add(1);
            expr_height(methods, key)
                .max(given)
                .max(height_left(leaves(methods, expr)))
        }
    }
}

// What a call leaves on the stack.
fn height_left(leaves: bool) -> u16
    ensures { result ≡ one_if leaves }
{
    if leaves { 1 } else { 0 }
}
