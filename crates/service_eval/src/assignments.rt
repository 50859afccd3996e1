//! Statements that change a variable: done at once where they meet no call, and begun where they do.

ghost use Rattle.std.specs.Prelude.{◌≡◌, ◌⊎◌, IsNone, IfSome};
ghost use Rattle.context_tree.specs.Contexts.{tree_of as shown};
ghost use Rattle.resolved_service.specs.Meaning.{value, call_act};
ghost use Rattle.resolved_service.specs.Steps.{step_of};
ghost use Rattle.resolved_service.specs.View.{tree_of};
ghost use Rattle.service_eval.specs.declared.assignments.Assignment.TheVariants as assignment;
ghost use Rattle.service_eval.specs.inner.Answers.{change_made, Finds, FindsTwo};
ghost use Rattle.service_eval.specs.inner.Wants.{WhereWanting, MayWantToFind, MayWantAtOnce};
ghost use Rattle.service_eval.specs.inner.Changes.{step_in, IsOther};
ghost use Rattle.service_eval.specs.inner.Items as i;
ghost use Rattle.service_eval.specs.inner.Machines.{state_of};
ghost use Rattle.service_eval.specs.inner.Ready.{Ready};
ghost use Rattle.service_eval.specs.inner.Turns.{mach, AtOnce, IsNext, Goes};
ghost use Rattle.wave_base.specs.declared.limits.TheConstants.{TICKS};

use crate::changes::{change, set_variable};
use crate::code::Code;
use crate::edits::Edit;
use crate::eval::{eval, found_value};
use crate::look::View;
use crate::machine::Machine;
use crate::plain::number;
use crate::stop::Stop;
use crate::work::{StatementEnd, Variable, Work};
use context_tree::Tree;
use resolved_service::{Action, Expr, Stmt};
use wave_base::{Span, Value};

/// A change of a variable, with the expressions of what it takes.
#[derive(Clone, Copy)]
pub enum Assignment<'s> {
    /// The variable gets a value.
    Set(Variable, &'s Expr),
    /// The variable's map gets a pair: the key, and then what the key has.
    Put(Variable, &'s Expr, &'s Expr),
    /// The variable's map loses a key.
    Cut(Variable, &'s Expr),
}

/// The change of a variable that a statement is, if it is one.
#[inline(always)]
pub fn assignment_in(stmt: &Stmt) -> Option<Assignment<'_>>
    ensures some { IfSome result (λ a. step_of stmt.now ≡ step_in stmt.now.at a) }
    ensures none { IsNone result → IsOther (step_of stmt.now) }
{
    match &stmt.action {
        Action::SetLocal(slot, e) => Some(Assignment::Set(Variable::Local(*slot as usize), e)),
        Action::SetField(f, e) => Some(Assignment::Set(Variable::Field(*f), e)),
        Action::PutLocal(slot, key, e) => {
            Some(Assignment::Put(Variable::Local(*slot as usize), key, e))
        }
        Action::PutField(f, key, e) => Some(Assignment::Put(Variable::Field(*f), key, e)),
        Action::CutLocal(slot, key) => Some(Assignment::Cut(Variable::Local(*slot as usize), key)),
        Action::CutField(f, key) => Some(Assignment::Cut(Variable::Field(*f), key)),
        _ => None,
    }
}

/// Does a statement that changes a variable and meets no call, and says whether it did. Nothing has changed where it
/// didn't. Memory is asked for by what gives or copies a text or a map, and by a new key of a map.
#[inline(always)]
pub fn at_once(
    code: Code<'_>,
    contexts: &mut Tree,
    m: &mut Machine<'_>,
    stmt: &Stmt,
) -> Result<bool, Stop>
    requires { Ready code.shape.now code.methods.now (mach code contexts.old m.old) }
    ensures does { AtOnce code.entry contexts.old m.old (step_of stmt.now) result contexts.new m.new }
    ensures memory { WhereWanting result (MayWantAtOnce code.entry contexts.old m.old (step_of stmt.now)) }
{
    let at = stmt.at;
    match assignment_in(stmt) {
        Some(Assignment::Set(variable, e)) => set(code, contexts, m, at, variable, e),
        Some(Assignment::Put(variable, key, e)) => put(code, contexts, m, at, variable, (key, e)),
        Some(Assignment::Cut(variable, key)) => cut(code, contexts, m, at, variable, key),
        None => Ok(false),
    }
}

// The variable has the value.
#[inline(always)]
fn set(
    code: Code<'_>,
    contexts: &mut Tree,
    m: &mut Machine<'_>,
    at: Span,
    variable: Variable,
    e: &Expr,
) -> Result<bool, Stop>
    requires { Ready code.shape.now code.methods.now (mach code contexts.old m.old) }
    ensures does { AtOnce code.entry contexts.old m.old (step_in at (assignment.Set variable e.entry)) result contexts.new m.new }
    ensures memory { WhereWanting result (MayWantAtOnce code.entry contexts.old m.old (step_in at (assignment.Set variable e.entry))) }
{
    match found_value(code, contexts, m, e) {
        Ok(Some(value)) => change_made(set_variable(code, contexts, m, at, variable, value)),
        Ok(None) => Ok(false),
        Err(e) => Err(e),
    }
}

// The variable's map has the pair.
fn put(
    code: Code<'_>,
    contexts: &mut Tree,
    m: &mut Machine<'_>,
    at: Span,
    variable: Variable,
    pair: (&Expr, &Expr),
) -> Result<bool, Stop>
    requires { Ready code.shape.now code.methods.now (mach code contexts.old m.old) }
    ensures does { AtOnce code.entry contexts.old m.old (step_in at (assignment.Put variable pair.entry.0 pair.entry.1)) result contexts.new m.new }
    ensures memory { WhereWanting result (MayWantAtOnce code.entry contexts.old m.old (step_in at (assignment.Put variable pair.entry.0 pair.entry.1))) }
{
    match found_two(code, contexts, m, pair.0, pair.1) {
        Ok(Some((key, value))) => change_made(change(
            code,
            contexts,
            m,
            at,
            variable,
            &mut Edit::Put(key, value),
        )),
        Ok(None) => Ok(false),
        Err(e) => Err(e),
    }
}

// The variable's map has the key no more.
fn cut(
    code: Code<'_>,
    contexts: &mut Tree,
    m: &mut Machine<'_>,
    at: Span,
    variable: Variable,
    key: &Expr,
) -> Result<bool, Stop>
    requires { Ready code.shape.now code.methods.now (mach code contexts.old m.old) }
    ensures does { AtOnce code.entry contexts.old m.old (step_in at (assignment.Cut variable key.entry)) result contexts.new m.new }
    ensures memory { WhereWanting result (MayWantAtOnce code.entry contexts.old m.old (step_in at (assignment.Cut variable key.entry))) }
{
    match found_key(code, contexts, m, key) {
        Ok(Some(key)) => change_made(change(code, contexts, m, at, variable, &mut Edit::Cut(key))),
        Ok(None) => Ok(false),
        Err(e) => Err(e),
    }
}

// The key of a map, where no call is met: an int, if it is any.
#[inline(always)]
fn found_key(
    code: Code<'_>,
    contexts: &Tree,
    m: &Machine<'_>,
    key: &Expr,
) -> Result<Option<Value>, Stop>
    ensures finds { Finds (value (call_act code.entry.methods.now TICKS) m.now.path (tree_of key.now) (state_of (shown code.entry.shape.now contexts.now) m.now)) (state_of (shown code.entry.shape.now contexts.now) m.now) result }
    ensures memory { WhereWanting result (MayWantToFind code.entry contexts.now m.now (tree_of key.now)) }
{
    let view = View { code, contexts, m };
    match number(&view, key) {
        Some(n) => Ok(Some(Value::Int(n))),
        None => found_value(code, contexts, m, key),
    }
}

// The values of two expressions, where no call is met: mostly two ints.
#[inline(always)]
fn found_two(
    code: Code<'_>,
    contexts: &Tree,
    m: &Machine<'_>,
    a: &Expr,
    b: &Expr,
) -> Result<Option<(Value, Value)>, Stop>
    ensures finds { FindsTwo (value (call_act code.entry.methods.now TICKS) m.now.path (tree_of a.now) (state_of (shown code.entry.shape.now contexts.now) m.now)) (value (call_act code.entry.methods.now TICKS) m.now.path (tree_of b.now)) (state_of (shown code.entry.shape.now contexts.now) m.now) result }
    ensures memory { WhereWanting result (MayWantToFind code.entry contexts.now m.now (tree_of a.now) ⊎ MayWantToFind code.entry contexts.now m.now (tree_of b.now)) }
{
    let view = View { code, contexts, m };
    match number(&view, a) {
        Some(first) => match number(&view, b) {
            Some(second) => Ok(Some((Value::Int(first), Value::Int(second)))),
            None => found_any_two(code, contexts, m, a, b),
        },
        None => found_any_two(code, contexts, m, a, b),
    }
}

// The same, for whatever values.
#[inline(never)]
fn found_any_two(
    code: Code<'_>,
    contexts: &Tree,
    m: &Machine<'_>,
    a: &Expr,
    b: &Expr,
) -> Result<Option<(Value, Value)>, Stop>
    ensures finds { FindsTwo (value (call_act code.entry.methods.now TICKS) m.now.path (tree_of a.now) (state_of (shown code.entry.shape.now contexts.now) m.now)) (value (call_act code.entry.methods.now TICKS) m.now.path (tree_of b.now)) (state_of (shown code.entry.shape.now contexts.now) m.now) result }
    ensures memory { WhereWanting result (MayWantToFind code.entry contexts.now m.now (tree_of a.now) ⊎ MayWantToFind code.entry contexts.now m.now (tree_of b.now)) }
{
    match found_value(code, contexts, m, a) {
        Ok(Some(first)) => match found_value(code, contexts, m, b) {
            Ok(Some(second)) => Ok(Some((first, second))),
            Ok(None) => Ok(None),
            Err(e) => Err(e),
        },
        Ok(None) => Ok(None),
        Err(e) => Err(e),
    }
}

// That a change was made, or why it wasn't.
#[inline(always)]
fn change_made(done: Result<(), Stop>) -> Result<bool, Stop>
    ensures { result ≡ change_made done }
{
    match done {
        Ok(()) => Ok(true),
        Err(e) => Err(e),
    }
}

/// Begins a change of a variable: its expressions come first, one after the other.
pub fn begin_assignment<'s>(
    code: Code<'s>,
    contexts: &Tree,
    m: &mut Machine<'s>,
    at: Span,
    change: Assignment<'s>,
) -> Result<(), Stop>
    requires { IsNext code contexts.now m.old (i.Begin (step_in at change)) }
    ensures { Goes code.entry contexts.now m.old (i.Begin (step_in at change.entry)) result contexts.now m.new }
{
    let base = m.height();
    match change {
        Assignment::Set(variable, e) => {
            match m.push(Work::Finish(at, StatementEnd::Set(variable), base)) {
                Ok(()) => eval(code, contexts, m, e),
                Err(e) => Err(e),
            }
        }
        Assignment::Put(variable, key, e) => {
            let last = Work::Finish(at, StatementEnd::Put(variable), base);
            m.push_three(Work::Eval(key), Work::Eval(e), last)
        }
        Assignment::Cut(variable, key) => {
            let last = Work::Finish(at, StatementEnd::Cut(variable), base);
            m.push_two(Work::Eval(key), last)
        }
    }
}
