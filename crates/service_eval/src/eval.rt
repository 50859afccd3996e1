//! Expressions on their way to their values.

ghost use Rattle.std.specs.Prelude.{◌≡◌, ◌≤◌, ◌⊎◌, true, false, map, length, OnOk, IfOk, IfErr};
ghost use Rattle.context_tree.specs.Contexts.{tree_of as shown};
ghost use Rattle.resolved_service.specs.Meaning.{value, call_act};
ghost use Rattle.service_eval.specs.inner.Answers.{Finds};
ghost use Rattle.service_eval.specs.declared.stop.Stop.{Stop};
ghost use Rattle.service_eval.specs.inner.Machines.{mach_of, state_of, with_value, own};
ghost use Rattle.wave_base.specs.declared.limits.TheConstants.{TICKS};
ghost use Rattle.wave_base.specs.declared.value.Value.{Value};
ghost use Rattle.resolved_service.specs.View.{Op, tree_of, trees_of};
ghost use Rattle.service_eval.specs.inner.Items as i;
ghost use Rattle.service_eval.specs.inner.Turns.{IsNext, Goes};
ghost use Rattle.service_eval.specs.inner.Wants.{WhereWanting, MayWantToFind};
ghost use Rattle.wave_base.specs.Memory.{the_refusal};
ghost use Rattle.wave_base.specs.Values.{TakesMemory};
ghost use Rattle.resolved_service.specs.World.{is_true};
ghost use Rattle.value_ops.specs.Operators.{gives_of};

use crate::code::Code;
use crate::fields::{field, item};
use crate::look::{View, above, look, look_row};
use crate::machine::Machine;
use crate::parts::first_of;
use crate::plain::plain;
use crate::rows::apply_any;
use crate::stop::Stop;
use crate::work::{Callee, Work};
use context_tree::Tree;
use resolved_service::{Expr, Node};
use wave_base::{OutOfMemory, Span, Value};

/// A leaf has its value at once, and so has an operator where no call is met; of any other expression the parts come
/// first.
pub fn eval<'s>(
    code: Code<'s>,
    contexts: &Tree,
    m: &mut Machine<'s>,
    e: &'s Expr,
) -> Result<(), Stop>
    requires { IsNext code contexts.now m.old (i.Eval (tree_of e.now)) }
    ensures { Goes code.entry contexts.now m.old (i.Eval (tree_of e.now)) result contexts.now m.new }
{
    let base = m.height();
    match &e.node {
        Node::Const(value) => give(m, value.copy(code.alloc)),
        Node::Local(slot) => {
            let value = item(m.locals.as_slice(), *slot as usize).into_value(code.alloc);
            give(m, value)
        }
        Node::Field(f) => {
            let value = field(code.shape, contexts, m.near, &m.path, *f as usize).into_value(
                code.alloc,
            );
            give(m, value)
        }
        Node::Above(level, f) => {
            let path = above(&m.path, *level as usize);
            let value = field(code.shape, contexts, m.near, &path, *f as usize).into_value(
                code.alloc,
            );
            give(m, value)
        }
        Node::Op(row, args) => operate(code, contexts, m, e.at, *row, args.as_slice()),
        Node::And(left, right) => m.push_two(Work::Eval(left), Work::AndThen(right, base)),
        Node::Or(left, right) => m.push_two(Work::Eval(left), Work::OrElse(right, base)),
        Node::Call(method, args) => match m.push(Work::Invoke(e.at, *method, base)) {
            Ok(()) => evals(code, contexts, m, args.as_slice()),
            Err(e) => Err(e),
        },
        Node::Child(class, method, key, args) => {
            let callee = Callee {
                class: *class,
                method: *method,
            };
            m.push_three(
                Work::Eval(key),
                Work::Evals(args.as_slice()),
                Work::Child(e.at, callee, base),
            )
        }
    }
}

// A value more, where there was memory for it.
fn give(m: &mut Machine<'_>, value: Result<Value, OutOfMemory>) -> Result<(), Stop>
    ensures ok { (v : Value) → IfOk value (λ x. x ≡ v) → OnOk result ((tree : _) → mach_of tree m.new ≡ with_value v (mach_of tree m.old)) }
    ensures err { IfErr result (λ e. e ≡ Stop.OutOfMemory the_refusal) }
{
    match value {
        Ok(value) => m.give(value),
        Err(refused) => Err(Stop::OutOfMemory(refused)),
    }
}

// An operator: its value, or its operands come first.
fn operate<'s>(
    code: Code<'s>,
    contexts: &Tree,
    m: &mut Machine<'s>,
    at: Span,
    row: u16,
    args: &'s [Expr],
) -> Result<(), Stop>
    requires { IsNext code contexts.now m.old (i.Eval (Op at row (trees_of (map tree_of args.now)))) }
    ensures { Goes code.entry contexts.now m.old (i.Eval (Op at row (trees_of (map tree_of args.now)))) result contexts.now m.new }
{
    match operator_value(code, contexts, m, at, row, args) {
        Ok(Some(value)) => m.give(value),
        Ok(None) => {
            let base = m.height();
            m.push_two(Work::Evals(args), Work::Apply(at, row, base))
        }
        Err(e) => Err(e),
    }
}

/// The value of an expression, where no call is met. Nothing has changed then.
#[inline(always)]
pub fn found_value(
    code: Code<'_>,
    contexts: &Tree,
    m: &Machine<'_>,
    e: &Expr,
) -> Result<Option<Value>, Stop>
    ensures finds { Finds (value (call_act code.entry.methods.now TICKS) m.now.path (tree_of e.now) (state_of (shown code.entry.shape.now contexts.now) m.now)) (state_of (shown code.entry.shape.now contexts.now) m.now) result }
    ensures memory { WhereWanting result (MayWantToFind code.entry contexts.now m.now (tree_of e.now)) }
{
    let view = View { code, contexts, m };
    match plain(&view, e) {
        Some(value) => Ok(Some(value)),
        None => looked_value(view, e),
    }
}

// The same, for whatever value.
#[inline(never)]
fn looked_value(view: View<'_, '_>, e: &Expr) -> Result<Option<Value>, Stop>
    ensures finds { Finds (value (call_act view.entry.code.methods.now TICKS) view.entry.m.now.path (tree_of e.now) (state_of (shown view.entry.code.shape.now view.entry.contexts.now) view.entry.m.now)) (state_of (shown view.entry.code.shape.now view.entry.contexts.now) view.entry.m.now) result }
    ensures memory { WhereWanting result (MayWantToFind view.entry.code view.entry.contexts.now view.entry.m.now (tree_of e.now)) }
{
    let alloc = view.code.alloc;
    match look(view, e) {
        Ok(Some(operand)) => match operand.into_value(alloc) {
            Ok(value) => Ok(Some(value)),
            Err(refused) => Err(Stop::OutOfMemory(refused)),
        },
        Ok(None) => Ok(None),
        Err(e) => Err(e),
    }
}

// The value of an operator, where no call is met.
fn operator_value(
    code: Code<'_>,
    contexts: &Tree,
    m: &Machine<'_>,
    at: Span,
    row: u16,
    args: &[Expr],
) -> Result<Option<Value>, Stop>
    ensures finds { Finds (value (call_act code.entry.methods.now TICKS) m.now.path (Op at row (trees_of (map tree_of args.now))) (state_of (shown code.entry.shape.now contexts.now) m.now)) (state_of (shown code.entry.shape.now contexts.now) m.now) result }
    ensures memory { WhereWanting result (MayWantToFind code.entry contexts.now m.now (Op at row (trees_of (map tree_of args.now)))) }
{
    match look_row(View { code, contexts, m }, row, args, at) {
        Ok(Some(operand)) => match operand.into_value(code.alloc) {
            Ok(value) => Ok(Some(value)),
            Err(refused) => Err(Stop::OutOfMemory(refused)),
        },
        Ok(None) => Ok(None),
        Err(e) => Err(e),
    }
}

/// Some expressions, one after the other: each at once, up to the first that meets a call.
pub fn evals<'s>(
    code: Code<'s>,
    contexts: &Tree,
    m: &mut Machine<'s>,
    es: &'s [Expr],
) -> Result<(), Stop>
    requires { IsNext code contexts.now m.old (i.Evals (trees_of (map tree_of es.now))) }
    ensures { Goes code.entry contexts.now m.old (i.Evals (trees_of (map tree_of es.now))) result contexts.now m.new }
{
    match first_of(es) {
        None => Ok(()),
        Some((first, others)) => match found_value(code, contexts, m, first) {
            Ok(Some(value)) => match m.give(value) {
                Ok(()) => evals(code, contexts, m, others),
                Err(e) => Err(e),
            },
            Ok(None) => m.push_two(Work::Eval(first), Work::Evals(others)),
            Err(e) => Err(e),
        },
    }
}

/// An operator whose operands have their values. Memory is asked for by operators that give a text or a map alone.
pub fn apply(
    code: Code<'_>,
    contexts: &Tree,
    m: &mut Machine<'_>,
    at: Span,
    row: u16,
    base: usize,
) -> Result<(), Stop>
    requires { IsNext code contexts.now m.old (i.Apply at row base) }
    ensures goes { Goes code.entry contexts.now m.old (i.Apply at row base) result contexts.now m.new }
    ensures memory { WhereWanting result (TakesMemory (gives_of row) ⊎ length m.old.values.items ≤ base) }
{
    match apply_any(code.alloc, row as usize, m.own(base), at) {
        Ok(value) => m.settle(base, value),
        Err(e) => Err(e),
    }
}

/// `&&` whose left operand has its value. Memory is asked for where the right one comes next.
pub fn and_then<'s>(
    code: Code<'s>,
    contexts: &Tree,
    m: &mut Machine<'s>,
    right: &'s Expr,
    base: usize,
) -> Result<(), Stop>
    requires { IsNext code contexts.now m.old (i.AndThen (tree_of right.now) base) }
    ensures goes { Goes code.entry contexts.now m.old (i.AndThen (tree_of right.now) base) result contexts.now m.new }
    ensures memory { WhereWanting result ((is_true (own 0 base m.old.values.items) ≡ true) ⊎ length m.old.values.items ≤ base) }
{
    if m.is_true(base) {
        m.cut(base);
        m.push(Work::Eval(right))
    } else {
        m.settle(base, Value::Bool(false))
    }
}

/// `||` whose left operand has its value. Memory is asked for where the right one comes next.
pub fn or_else<'s>(
    code: Code<'s>,
    contexts: &Tree,
    m: &mut Machine<'s>,
    right: &'s Expr,
    base: usize,
) -> Result<(), Stop>
    requires { IsNext code contexts.now m.old (i.OrElse (tree_of right.now) base) }
    ensures goes { Goes code.entry contexts.now m.old (i.OrElse (tree_of right.now) base) result contexts.now m.new }
    ensures memory { WhereWanting result ((is_true (own 0 base m.old.values.items) ≡ false) ⊎ length m.old.values.items ≤ base) }
{
    if m.is_true(base) {
        m.settle(base, Value::Bool(true))
    } else {
        m.cut(base);
        m.push(Work::Eval(right))
    }
}
