//! Statements: their expressions come first.

ghost use Rattle.std.specs.Prelude.{[], ◌∷◌, length};
ghost use Rattle.std.specs.Option.{option_map};
ghost use Rattle.resolved_service.specs.Steps.{For, Return, Finish, step, step_of, steps_in};
ghost use Rattle.resolved_service.specs.View.{tree_of};
ghost use Rattle.service_eval.specs.inner.Changes.{IsOther};
ghost use Rattle.service_eval.specs.inner.Items.{end_of};
ghost use Rattle.service_eval.specs.inner.Items as i;
ghost use Rattle.service_eval.specs.inner.Turns.{IsNext, Goes, AreNext, GoOn};

use crate::ahead::{as_far, else_of};
use crate::assignments::{assignment_in, begin_assignment};
use crate::calls::give_back;
use crate::code::Code;
use crate::eval::found_value;
use crate::finish::finish;
use crate::machine::Machine;
use crate::parts::first_of;
use crate::stop::Stop;
use crate::work::{Branches, ForLoop, StatementEnd, Variable, WhileLoop, Work};
use context_tree::Tree;
use resolved_service::{Action, Expr, Stmt};
use wave_base::Span;

/// Some statements: those that can be done at once, and then the first that can't.
pub fn block<'s>(
    code: Code<'s>,
    contexts: &mut Tree,
    m: &mut Machine<'s>,
    stmts: &'s [Stmt],
) -> Result<(), Stop>
    requires { IsNext code contexts.old m.old (i.Block (steps_in stmts.now)) }
    ensures { Goes code.entry contexts.old m.old (i.Block (steps_in stmts.now)) result contexts.new m.new }
{
    match as_far(code, contexts, m, stmts) {
        Ok(rest) => begin_rest(code, contexts, m, rest),
        Err(e) => Err(e),
    }
}

/// The first of the statements that are left, and then the others.
pub fn begin_rest<'s>(
    code: Code<'s>,
    contexts: &mut Tree,
    m: &mut Machine<'s>,
    rest: &'s [Stmt],
) -> Result<(), Stop>
    requires { IsNext code contexts.old m.old (i.Block (steps_in rest.now)) }
    ensures { Goes code.entry contexts.old m.old (i.Block (steps_in rest.now)) result contexts.new m.new }
{
    match first_of(rest) {
        None => Ok(()),
        Some((first, others)) => begin_first(code, contexts, m, first, others),
    }
}

// A statement, and then the others.
fn begin_first<'s>(
    code: Code<'s>,
    contexts: &mut Tree,
    m: &mut Machine<'s>,
    first: &'s Stmt,
    others: &'s [Stmt],
) -> Result<(), Stop>
    requires { IsNext code contexts.old m.old (i.Block (step (step_of first.now) (steps_in others.now))) }
    ensures { Goes code.entry contexts.old m.old (i.Block (step (step_of first.now) (steps_in others.now))) result contexts.new m.new }
{
    match first_of(others) {
        None => begin(code, contexts, m, first),
        Some(_) => match m.push(Work::Block(others)) {
            Ok(()) => begin(code, contexts, m, first),
            Err(e) => Err(e),
        },
    }
}

// A statement: its expressions, and then what it does with their values.
fn begin<'s>(
    code: Code<'s>,
    contexts: &mut Tree,
    m: &mut Machine<'s>,
    stmt: &'s Stmt,
) -> Result<(), Stop>
    requires { IsNext code contexts.old m.old (i.Begin (step_of stmt.now)) }
    ensures { Goes code.entry contexts.old m.old (i.Begin (step_of stmt.now)) result contexts.new m.new }
{
    match assignment_in(stmt) {
        Some(change) => begin_assignment(code, contexts, m, stmt.at, change),
        None => begin_other(code, contexts, m, stmt),
    }
}

// The same of a statement that changes no variable.
fn begin_other<'s>(
    code: Code<'s>,
    contexts: &mut Tree,
    m: &mut Machine<'s>,
    stmt: &'s Stmt,
) -> Result<(), Stop>
    requires next { IsNext code contexts.old m.old (i.Begin (step_of stmt.now)) }
    requires other { IsOther (step_of stmt.now) }
    ensures { Goes code.entry contexts.old m.old (i.Begin (step_of stmt.now)) result contexts.new m.new }
{
    let at = stmt.at;
    let base = m.height();
    match &stmt.action {
        Action::If(test, body, other) => {
            let ending = StatementEnd::Branch(Branches {
                body: body.as_slice(),
                other: else_of(other),
            });
            begin_one(code, contexts, m, at, test, ending)
        }
        Action::While(test, body) => m.push(Work::Turns(WhileLoop {
            at,
            test,
            body: body.as_slice(),
        })),
        Action::For(counter, from, to, body) => {
            let cycle = ForLoop {
                at,
                counter: *counter,
                body: body.as_slice(),
            };
            begin_for(code, contexts, m, from, to, cycle)
        }
        Action::Require(e) => begin_one(code, contexts, m, at, e, StatementEnd::Require),
        Action::Send(label, e) => begin_one(code, contexts, m, at, e, StatementEnd::Send(label)),
        Action::Spawn(event, args) => m.push_two(
            Work::Evals(args.as_slice()),
            Work::Finish(at, StatementEnd::Spawn(*event), base),
        ),
        Action::Do(e) => m.push_two(Work::Eval(e), Work::Finish(at, StatementEnd::Drop, base)),
        Action::Return(value) => begin_return(code, contexts, m, at, value),
        Action::Finish(value) => begin_finish(code, contexts, m, at, value),
        _ => unreachable!(),
    }
}

// The one expression of a statement, and then what the statement does with its value: at once, where no call is met.
fn begin_one<'s>(
    code: Code<'s>,
    contexts: &mut Tree,
    m: &mut Machine<'s>,
    at: Span,
    e: &'s Expr,
    ending: StatementEnd<'s>,
) -> Result<(), Stop>
    requires { AreNext code contexts.old m.old (i.Eval (tree_of e.now) ∷ i.Finish at (end_of ending) (length m.old.values.items) ∷ []) }
    ensures { GoOn code.entry contexts.old m.old (i.Eval (tree_of e.now) ∷ i.Finish at (end_of ending.entry) (length m.old.values.items) ∷ []) result contexts.new m.new }
{
    let base = m.height();
    match found_value(code, contexts, m, e) {
        Ok(Some(value)) => match m.give(value) {
            Ok(()) => finish(code, contexts, m, at, ending, base),
            Err(e) => Err(e),
        },
        Ok(None) => m.push_two(Work::Eval(e), Work::Finish(at, ending, base)),
        Err(e) => Err(e),
    }
}

// The method ends, with a value or without one.
fn begin_return<'s>(
    code: Code<'s>,
    contexts: &mut Tree,
    m: &mut Machine<'s>,
    at: Span,
    value: &'s Option<Expr>,
) -> Result<(), Stop>
    requires { IsNext code contexts.old m.old (i.Begin (Return at (option_map tree_of value.now))) }
    ensures { Goes code.entry contexts.old m.old (i.Begin (Return at (option_map tree_of value.now))) result contexts.new m.new }
{
    match value {
        Some(e) => begin_one(code, contexts, m, at, e, StatementEnd::Return),
        None => give_back(code, contexts, m, None),
    }
}

// The event ends, with a reply or without one.
fn begin_finish<'s>(
    code: Code<'s>,
    contexts: &mut Tree,
    m: &mut Machine<'s>,
    at: Span,
    value: &'s Option<Expr>,
) -> Result<(), Stop>
    requires { IsNext code contexts.old m.old (i.Begin (Finish at (option_map tree_of value.now))) }
    ensures { Goes code.entry contexts.old m.old (i.Begin (Finish at (option_map tree_of value.now))) result contexts.new m.new }
{
    match value {
        Some(e) => begin_one(code, contexts, m, at, e, StatementEnd::Finish),
        None => Err(Stop::Ended(None)),
    }
}

// A loop over numbers: both bounds, and then its turns.
fn begin_for<'s>(
    code: Code<'s>,
    contexts: &Tree,
    m: &mut Machine<'s>,
    from: &'s Expr,
    to: &'s Expr,
    cycle: ForLoop<'s>,
) -> Result<(), Stop>
    requires { IsNext code contexts.now m.old (i.Begin (For cycle.at cycle.counter (tree_of from.now) (tree_of to.now) (steps_in cycle.body.now))) }
    ensures { Goes code.entry contexts.now m.old (i.Begin (For cycle.entry.at cycle.entry.counter (tree_of from.now) (tree_of to.now) (steps_in cycle.entry.body.now))) result contexts.now m.new }
{
    let at = cycle.at;
    let base = m.height();
    let slot = cycle.counter as usize;
    let last = Work::Finish(at, StatementEnd::Set(Variable::Local(slot + 1)), base);
    match m.push_three(Work::Eval(to), last, Work::Counts(cycle, false)) {
        Ok(()) => m.push_two(
            Work::Eval(from),
            Work::Finish(at, StatementEnd::Set(Variable::Local(slot)), base),
        ),
        Err(e) => Err(e),
    }
}
