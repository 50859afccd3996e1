//! Expressions whose values are found without any change: they have no calls.

ghost use Rattle.std.specs.Prelude.{◌≡◌, map, take};
ghost use Rattle.resolved_service.specs.View.{Op, And, Or, tree, no_trees, tree_of, trees_of};
ghost use Rattle.service_eval.specs.inner.Answers.{made_operand};
ghost use Rattle.service_eval.specs.inner.Turns.{Sees};
ghost use Rattle.service_eval.specs.inner.Wants.{WhereWanting, MayWant};

use crate::code::Code;
use crate::fields::{field, item};
use crate::machine::Machine;
use crate::operand::{Operand, is_true};
use crate::rows::{apply_one, apply_three, apply_two};
use crate::stop::Stop;
use context_tree::Tree;
use resolved_service::{Expr, Node};
use wave_base::{Path, Span, Value};

/// Where an expression's value is looked up: the code, the contexts, and the machine with its locals and its place.
#[derive(Clone, Copy)]
pub struct View<'v, 's> {
    /// The code, with the shape by which fields begin.
    pub code: Code<'v>,
    /// The contexts that are there.
    pub contexts: &'v Tree,
    /// The machine, with its locals and its place.
    pub m: &'v Machine<'s>,
}

/// The value of an expression. None where a call is met; nothing has changed then. Memory is asked for by operators that give a
/// text or a map alone.
#[cycle(look)]
pub fn look<'v, 's>(view: View<'v, 's>, e: &'v Expr) -> Result<Option<Operand<'v>>, Stop>
    ensures sees { Sees view.entry (tree_of e.now) result }
    ensures memory { WhereWanting result (MayWant (tree_of e.now)) }
{
    match &e.node {
        Node::Const(value) => Ok(Some(Operand::Held(value))),
        Node::Local(slot) => Ok(Some(item(view.m.locals.as_slice(), *slot as usize))),
        Node::Field(f) => Ok(Some(field(
            view.code.shape,
            view.contexts,
            view.m.near,
            &view.m.path,
            *f as usize,
        ))),
        Node::Above(level, f) => {
            let path = above(&view.m.path, *level as usize);
            Ok(Some(field(
                view.code.shape,
                view.contexts,
                view.m.near,
                &path,
                *f as usize,
            )))
        }
        Node::Op(row, args) => look_row(view, *row, args.as_slice(), e.at),
        Node::And(left, right) => look_and(view, left, right, e.at),
        Node::Or(left, right) => look_or(view, left, right, e.at),
        Node::Call(_, _) => Ok(None),
        Node::Child(_, _, _, _) => Ok(None),
    }
}

// The same, at once for a constant and a local.
#[cycle(look)]
#[inline(always)]
fn operand<'v, 's>(view: View<'v, 's>, e: &'v Expr) -> Result<Option<Operand<'v>>, Stop>
    ensures sees { Sees view.entry (tree_of e.now) result }
    ensures memory { WhereWanting result (MayWant (tree_of e.now)) }
{
    match &e.node {
        Node::Const(value) => Ok(Some(Operand::Held(value))),
        Node::Local(slot) => Ok(Some(item(view.m.locals.as_slice(), *slot as usize))),
        _ => look(view, e),
    }
}

/// The value of an operator, as `look` has it.
#[cycle(look)]
pub fn look_row<'v, 's>(
    view: View<'v, 's>,
    row: u16,
    args: &'v [Expr],
    at: Span,
) -> Result<Option<Operand<'v>>, Stop>
    ensures sees { Sees view.entry (Op at row (trees_of (map tree_of args.now))) result }
    ensures memory { WhereWanting result (MayWant (Op at row (trees_of (map tree_of args.now)))) }
{
    match args {
        [a] => look_one(view, row, a, at),
        [a, b] => look_two(view, row, a, b, at),
        [a, b, c] => look_three(view, row, a, b, c, at),
        _ => Ok(None),
    }
}

#[cycle(look)]
fn look_one<'v, 's>(
    view: View<'v, 's>,
    row: u16,
    a: &'v Expr,
    at: Span,
) -> Result<Option<Operand<'v>>, Stop>
    ensures sees { Sees view.entry (Op at row (tree (tree_of a.now) no_trees)) result }
    ensures memory { WhereWanting result (MayWant (Op at row (tree (tree_of a.now) no_trees))) }
{
    match look(view, a) {
        Ok(Some(a)) => {
            let first = a.value();
            made_operand(apply_one(view.code.alloc, row as usize, first, at))
        }
        Ok(None) => Ok(None),
        Err(e) => Err(e),
    }
}

#[cycle(look)]
fn look_two<'v, 's>(
    view: View<'v, 's>,
    row: u16,
    a: &'v Expr,
    b: &'v Expr,
    at: Span,
) -> Result<Option<Operand<'v>>, Stop>
    ensures sees { Sees view.entry (Op at row (tree (tree_of a.now) (tree (tree_of b.now) no_trees))) result }
    ensures memory { WhereWanting result (MayWant (Op at row (tree (tree_of a.now) (tree (tree_of b.now) no_trees)))) }
{
    match operand(view, a) {
        Ok(Some(a)) => match operand(view, b) {
            Ok(Some(b)) => {
                let first = a.value();
                let second = b.value();
                made_operand(apply_two(view.code.alloc, row as usize, first, second, at))
            }
            Ok(None) => Ok(None),
            Err(e) => Err(e),
        },
        Ok(None) => Ok(None),
        Err(e) => Err(e),
    }
}

#[cycle(look)]
fn look_three<'v, 's>(
    view: View<'v, 's>,
    row: u16,
    a: &'v Expr,
    b: &'v Expr,
    c: &'v Expr,
    at: Span,
) -> Result<Option<Operand<'v>>, Stop>
    ensures sees { Sees view.entry (Op at row (tree (tree_of a.now) (tree (tree_of b.now) (tree (tree_of c.now) no_trees)))) result }
    ensures memory { WhereWanting result (MayWant (Op at row (tree (tree_of a.now) (tree (tree_of b.now) (tree (tree_of c.now) no_trees))))) }
{
    match look(view, a) {
        Ok(Some(a)) => match look(view, b) {
            Ok(Some(b)) => match look(view, c) {
                Ok(Some(c)) => {
                    let first = a.value();
                    let second = b.value();
                    let third = c.value();
                    let given = apply_three(
                        view.code.alloc,
                        row as usize,
                        first,
                        second,
                        third,
                        at,
                    );
                    made_operand(given)
                }
                Ok(None) => Ok(None),
                Err(e) => Err(e),
            },
            Ok(None) => Ok(None),
            Err(e) => Err(e),
        },
        Ok(None) => Ok(None),
        Err(e) => Err(e),
    }
}

#[cycle(look)]
fn look_and<'v, 's>(
    view: View<'v, 's>,
    left: &'v Expr,
    right: &'v Expr,
    at: Span,
) -> Result<Option<Operand<'v>>, Stop>
    ensures sees { Sees view.entry (And at (tree_of left.now) (tree_of right.now)) result }
    ensures memory { WhereWanting result (MayWant (And at (tree_of left.now) (tree_of right.now))) }
{
    match look(view, left) {
        Ok(Some(a)) => {
            if is_true(a.value()) {
                look(view, right)
            } else {
                Ok(Some(Operand::Made(Value::Bool(false))))
            }
        }
        Ok(None) => Ok(None),
        Err(e) => Err(e),
    }
}

#[cycle(look)]
fn look_or<'v, 's>(
    view: View<'v, 's>,
    left: &'v Expr,
    right: &'v Expr,
    at: Span,
) -> Result<Option<Operand<'v>>, Stop>
    ensures sees { Sees view.entry (Or at (tree_of left.now) (tree_of right.now)) result }
    ensures memory { WhereWanting result (MayWant (Or at (tree_of left.now) (tree_of right.now))) }
{
    match look(view, left) {
        Ok(Some(a)) => {
            if is_true(a.value()) {
                Ok(Some(Operand::Made(Value::Bool(true))))
            } else {
                look(view, right)
            }
        }
        Ok(None) => Ok(None),
        Err(e) => Err(e),
    }
}

// What an operator gives, as an operand of its own.
fn made_operand<'v>(given: Result<Value, Stop>) -> Result<Option<Operand<'v>>, Stop>
    ensures { result ≡ made_operand given }
{
    match given {
        Ok(value) => Ok(Some(Operand::Made(value))),
        Err(e) => Err(e),
    }
}

/// The path of the ancestor at a level.
pub fn above(path: &Path, level: usize) -> Path
    ensures { result ≡ take level path.now }
{
    let mut above = *path;
    while above.len() > level {
        match above.parent() {
            Some(parent) => above = parent,
            None => return above,
        }
    }
    above
}
