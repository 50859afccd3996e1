//! What statements do once their expressions have their values.

ghost use Rattle.resolved_service.specs.Steps.{steps_in};
ghost use Rattle.service_eval.specs.inner.Machines.{own};
ghost use Rattle.service_eval.specs.inner.Wants.{WhereWanting, IsNewKey, MayWantAtEnd, value_of};
ghost use Rattle.service_eval.specs.declared.work.StatementEnd.TheVariants as ending;
ghost use Rattle.service_eval.specs.inner.Items as i;
ghost use Rattle.service_eval.specs.inner.Items.{end_of};
ghost use Rattle.service_eval.specs.inner.Turns.{IsNext, Goes};

use crate::calls::give_back;
use crate::changes::{change, set_variable};
use crate::code::Code;
use crate::edits::Edit;
use crate::machine::Machine;
use crate::stop::Stop;
use crate::trace::trap_at;
use crate::work::{Branches, StatementEnd, Variable, Work};
use context_tree::Tree;
use wave_base::{Span, TrapKind, Txt};

/// The rest of a statement. Memory is asked for by what is sent, created or still to be done, and by a new key of a map.
pub fn finish<'s>(
    code: Code<'s>,
    contexts: &mut Tree,
    m: &mut Machine<'s>,
    at: Span,
    ending: StatementEnd<'s>,
    base: usize,
) -> Result<(), Stop>
    requires { IsNext code contexts.old m.old (i.Finish at (end_of ending) base) }
    ensures goes { Goes code.entry contexts.old m.old (i.Finish at (end_of ending.entry) base) result contexts.new m.new }
    ensures memory { WhereWanting result (MayWantAtEnd code.entry contexts.old m.old base (end_of ending.entry)) }
{
    match ending {
        StatementEnd::Set(variable) => set(code, contexts, m, at, variable, base),
        StatementEnd::Put(variable) => put(code, contexts, m, at, variable, base),
        StatementEnd::Cut(variable) => cut(code, contexts, m, at, variable, base),
        StatementEnd::Branch(branches) => branch(code, contexts, m, at, branches, base),
        StatementEnd::Require => demand(code, contexts, m, at, base),
        StatementEnd::Send(label) => send(code, contexts, m, at, label, base),
        StatementEnd::Spawn(event) => spawn(code, contexts, m, at, event, base),
        StatementEnd::Drop => forget(code, contexts, m, at, base),
        StatementEnd::Return => return_with(code, contexts, m, at, base),
        StatementEnd::Finish => finish_with(code, contexts, m, at, base),
    }
}

// The variable has the value.
fn set<'s>(
    code: Code<'s>,
    contexts: &mut Tree,
    m: &mut Machine<'s>,
    at: Span,
    variable: Variable,
    base: usize,
) -> Result<(), Stop>
    requires { IsNext code contexts.old m.old (i.Finish at (end_of (ending.Set variable)) base) }
    ensures goes { Goes code.entry contexts.old m.old (i.Finish at (end_of (ending.Set variable)) base) result contexts.new m.new }
    ensures memory { WhereWanting result ⊥ }
{
    let value = m.take(base);
    set_variable(code, contexts, m, at, variable, value)
}

// The variable's map has the pair.
fn put<'s>(
    code: Code<'s>,
    contexts: &mut Tree,
    m: &mut Machine<'s>,
    at: Span,
    variable: Variable,
    base: usize,
) -> Result<(), Stop>
    requires { IsNext code contexts.old m.old (i.Finish at (end_of (ending.Put variable)) base) }
    ensures goes { Goes code.entry contexts.old m.old (i.Finish at (end_of (ending.Put variable)) base) result contexts.new m.new }
    ensures memory { WhereWanting result (IsNewKey (value_of code.entry contexts.old m.old variable) (own 0 base m.old.values.items)) }
{
    let (key, value) = m.take_two(base);
    change(code, contexts, m, at, variable, &mut Edit::Put(key, value))
}

// The variable's map has the key no more.
fn cut<'s>(
    code: Code<'s>,
    contexts: &mut Tree,
    m: &mut Machine<'s>,
    at: Span,
    variable: Variable,
    base: usize,
) -> Result<(), Stop>
    requires { IsNext code contexts.old m.old (i.Finish at (end_of (ending.Cut variable)) base) }
    ensures goes { Goes code.entry contexts.old m.old (i.Finish at (end_of (ending.Cut variable)) base) result contexts.new m.new }
    ensures memory { WhereWanting result ⊥ }
{
    let key = m.take(base);
    change(code, contexts, m, at, variable, &mut Edit::Cut(key))
}

// The statements for the value of a test.
fn branch<'s>(
    code: Code<'s>,
    contexts: &Tree,
    m: &mut Machine<'s>,
    at: Span,
    branches: Branches<'s>,
    base: usize,
) -> Result<(), Stop>
    requires { IsNext code contexts.now m.old (i.Finish at (i.Branch (steps_in branches.body.now) (steps_in branches.other.now)) base) }
    ensures { Goes code.entry contexts.now m.old (i.Finish at (i.Branch (steps_in branches.entry.body.now) (steps_in branches.entry.other.now)) base) result contexts.now m.new }
{
    let holds = m.is_true(base);
    m.cut(base);
    if holds {
        m.push(Work::Block(branches.body))
    } else {
        m.push(Work::Block(branches.other))
    }
}

// A condition holds, or the event ends.
fn demand<'s>(
    code: Code<'s>,
    contexts: &Tree,
    m: &mut Machine<'s>,
    at: Span,
    base: usize,
) -> Result<(), Stop>
    requires { IsNext code contexts.now m.old (i.Finish at (i.Require) base) }
    ensures goes { Goes code.entry contexts.now m.old (i.Finish at (i.Require) base) result contexts.now m.new }
    ensures memory { WhereWanting result ⊥ }
{
    let holds = m.is_true(base);
    if holds {
        m.cut(base);
        Ok(())
    } else {
        trap_at(TrapKind::Require, at)
    }
}

// A message with the value.
fn send<'s>(
    code: Code<'s>,
    contexts: &Tree,
    m: &mut Machine<'s>,
    at: Span,
    label: &Txt,
    base: usize,
) -> Result<(), Stop>
    requires { IsNext code contexts.now m.old (i.Finish at (i.Send label.now) base) }
    ensures { Goes code.entry contexts.now m.old (i.Finish at (i.Send label.now) base) result contexts.now m.new }
{
    let value = m.take(base);
    m.trace.send(code.alloc, label, value, at)
}

// A created event with the arguments.
fn spawn<'s>(
    code: Code<'s>,
    contexts: &Tree,
    m: &mut Machine<'s>,
    at: Span,
    event: u16,
    base: usize,
) -> Result<(), Stop>
    requires { IsNext code contexts.now m.old (i.Finish at (i.Spawn event) base) }
    ensures { Goes code.entry contexts.now m.old (i.Finish at (i.Spawn event) base) result contexts.now m.new }
{
    match m.take_all(base) {
        Ok(args) => m.trace.spawn(event, args, at),
        Err(e) => Err(e),
    }
}

// The value of a call is dropped.
fn forget<'s>(
    code: Code<'s>,
    contexts: &Tree,
    m: &mut Machine<'s>,
    at: Span,
    base: usize,
) -> Result<(), Stop>
    requires { IsNext code contexts.now m.old (i.Finish at (i.Drop) base) }
    ensures goes { Goes code.entry contexts.now m.old (i.Finish at (i.Drop) base) result contexts.now m.new }
    ensures memory { WhereWanting result ⊥ }
{
    m.cut(base);
    Ok(())
}

// The method ends with the value.
fn return_with<'s>(
    code: Code<'s>,
    contexts: &Tree,
    m: &mut Machine<'s>,
    at: Span,
    base: usize,
) -> Result<(), Stop>
    requires { IsNext code contexts.now m.old (i.Finish at (i.Returns) base) }
    ensures { Goes code.entry contexts.now m.old (i.Finish at (i.Returns) base) result contexts.now m.new }
{
    let value = m.take(base);
    give_back(code, contexts, m, Some(value))
}

// The event ends with the value.
fn finish_with<'s>(
    code: Code<'s>,
    contexts: &Tree,
    m: &mut Machine<'s>,
    at: Span,
    base: usize,
) -> Result<(), Stop>
    requires { IsNext code contexts.now m.old (i.Finish at (i.Finishes) base) }
    ensures goes { Goes code.entry contexts.now m.old (i.Finish at (i.Finishes) base) result contexts.now m.new }
    ensures memory { WhereWanting result ⊥ }
{
    Err(Stop::Ended(Some(m.take(base))))
}
