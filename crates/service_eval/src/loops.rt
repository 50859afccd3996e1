//! The turns of loops.

ghost use Rattle.std.specs.Prelude.{◌≡◌, ◌<◌, ◌+◌, ◌^◌, List, ◌∷◌, [], pos, true, Ok, get_or};
ghost use Rattle.resolved_service.specs.Meaning.{row_add, row_lt};
ghost use Rattle.resolved_service.specs.World.{nothing, is_true};
ghost use Rattle.service_eval.specs.inner.Answers.{Gives};
ghost use Rattle.resolved_service.specs.Steps.{steps_in};
ghost use Rattle.service_eval.specs.inner.Items as i;
ghost use Rattle.service_eval.specs.inner.Items.{item_of, turns_of, check_of, counts_of, again_of};
ghost use Rattle.service_eval.specs.inner.Turns.{IsNext, Goes, AreNext, GoesTo};
ghost use Rattle.value_ops.specs.Operators.{apply_row};
ghost use Rattle.wave_base.specs.declared.value.Value.TheVariants.{Int};

use crate::ahead::as_far;
use crate::block::begin_rest;
use crate::code::Code;
use crate::eval::found_value;
use crate::fields::item;
use crate::machine::Machine;
use crate::operand::is_true;
use crate::parts::first_of;
use crate::rows::{apply_two, trapping};
use crate::stop::Stop;
use crate::work::{ForLoop, WhileLoop, Work};
use context_tree::Tree;
use resolved_service::Stmt;
use value_ops::apply_ints;
use value_ops::rows::{ADD, LT};
use wave_base::{Span, Value};

/// The turns of a loop, one after the other, as long as its test and its statements can be done at once.
pub fn turns<'s>(
    code: Code<'s>,
    contexts: &mut Tree,
    m: &mut Machine<'s>,
    cycle: WhileLoop<'s>,
) -> Result<(), Stop>
    requires { IsNext code contexts.old m.old (turns_of cycle) }
    ensures { Goes code.entry contexts.old m.old (turns_of cycle.entry) result contexts.new m.new }
{
    'turns: loop {
        match test_turn(code, contexts, m, cycle) {
            Ok(more) => {
                if !more {
                    return Ok(());
                }
            }
            Err(e) => return Err(e),
        }
    }
}

// The test, and a turn where it holds: at once, where no call is met. True where the turn is done, and the loop goes on.
fn test_turn<'s>(
    code: Code<'s>,
    contexts: &mut Tree,
    m: &mut Machine<'s>,
    cycle: WhileLoop<'s>,
) -> Result<bool, Stop>
    requires { IsNext code contexts.old m.old (turns_of cycle) }
    ensures { GoesTo code.entry contexts.old m.old (turns_of cycle.entry ∷ []) (turns_of cycle.entry ∷ []) result contexts.new m.new }
{
    let base = m.height();
    match found_value(code, contexts, m, cycle.test) {
        Ok(Some(value)) => match m.give(value) {
            Ok(()) => check_turn(code, contexts, m, cycle, base),
            Err(e) => Err(e),
        },
        Ok(None) => match m.push_two(Work::Eval(cycle.test), Work::Check(cycle, base)) {
            Ok(()) => Ok(false),
            Err(e) => Err(e),
        },
        Err(e) => Err(e),
    }
}

/// A turn of a loop, where the test's value is true, and those behind it.
pub fn check<'s>(
    code: Code<'s>,
    contexts: &mut Tree,
    m: &mut Machine<'s>,
    cycle: WhileLoop<'s>,
    base: usize,
) -> Result<(), Stop>
    requires { IsNext code contexts.old m.old (check_of cycle base) }
    ensures { Goes code.entry contexts.old m.old (check_of cycle.entry base) result contexts.new m.new }
{
    match check_turn(code, contexts, m, cycle, base) {
        Ok(more) => {
            if more {
                turns(code, contexts, m, cycle)
            } else {
                Ok(())
            }
        }
        Err(e) => Err(e),
    }
}

// A turn, where the test's value is true. True where it is done, and the loop goes on.
fn check_turn<'s>(
    code: Code<'s>,
    contexts: &mut Tree,
    m: &mut Machine<'s>,
    cycle: WhileLoop<'s>,
    base: usize,
) -> Result<bool, Stop>
    requires { IsNext code contexts.old m.old (check_of cycle base) }
    ensures { GoesTo code.entry contexts.old m.old (check_of cycle.entry base ∷ []) (turns_of cycle.entry ∷ []) result contexts.new m.new }
{
    match due_turn(code, contexts, m, cycle, base) {
        Ok(due) => {
            if due {
                while_body(code, contexts, m, cycle)
            } else {
                Ok(false)
            }
        }
        Err(e) => Err(e),
    }
}

// Where the test's value is true, a tick is taken.
fn due_turn<'s>(
    code: Code<'s>,
    contexts: &Tree,
    m: &mut Machine<'s>,
    cycle: WhileLoop<'s>,
    base: usize,
) -> Result<bool, Stop>
    requires { IsNext code contexts.now m.old (check_of cycle base) }
    ensures { GoesTo code.entry contexts.now m.old (check_of cycle.entry base ∷ []) (i.Block (steps_in cycle.entry.body.now) ∷ turns_of cycle.entry ∷ []) result contexts.now m.new }
{
    let holds = m.is_true(base);
    m.cut(base);
    if holds {
        match m.trace.tick(cycle.at) {
            Ok(()) => Ok(true),
            Err(e) => Err(e),
        }
    } else {
        Ok(false)
    }
}

// The statements of a turn: at once, or as far as they can be.
fn while_body<'s>(
    code: Code<'s>,
    contexts: &mut Tree,
    m: &mut Machine<'s>,
    cycle: WhileLoop<'s>,
) -> Result<bool, Stop>
    requires { AreNext code contexts.old m.old (i.Block (steps_in cycle.body.now) ∷ turns_of cycle ∷ []) }
    ensures { GoesTo code.entry contexts.old m.old (i.Block (steps_in cycle.entry.body.now) ∷ turns_of cycle.entry ∷ []) (turns_of cycle.entry ∷ []) result contexts.new m.new }
{
    match as_far(code, contexts, m, cycle.body) {
        Ok(rest) => match first_of(rest) {
            None => Ok(true),
            Some(_) => leave_turn(code, contexts, m, rest, Work::Turns(cycle)),
        },
        Err(e) => Err(e),
    }
}

/// The turns of a loop over numbers, one after the other, as long as their statements can be done at once.
pub fn counts<'s>(
    code: Code<'s>,
    contexts: &mut Tree,
    m: &mut Machine<'s>,
    cycle: ForLoop<'s>,
) -> Result<(), Stop>
    requires { IsNext code contexts.old m.old (counts_of cycle) }
    ensures { Goes code.entry contexts.old m.old (counts_of cycle.entry) result contexts.new m.new }
{
    'turns: loop {
        match one_turn(code, contexts, m, cycle) {
            Ok(more) => {
                if !more {
                    return Ok(());
                }
            }
            Err(e) => return Err(e),
        }
    }
}

// A turn, where one is due. True where it is done, and the loop goes on.
fn one_turn<'s>(
    code: Code<'s>,
    contexts: &mut Tree,
    m: &mut Machine<'s>,
    cycle: ForLoop<'s>,
) -> Result<bool, Stop>
    requires { IsNext code contexts.old m.old (counts_of cycle) }
    ensures { GoesTo code.entry contexts.old m.old (counts_of cycle.entry ∷ []) (counts_of cycle.entry ∷ []) result contexts.new m.new }
{
    match begin_turn(code, contexts, m, cycle) {
        Ok(due) => {
            if due {
                turn_body(code, contexts, m, cycle)
            } else {
                Ok(false)
            }
        }
        Err(e) => Err(e),
    }
}

// Where the counter is below the bound, a tick is taken and the name has the counter's number.
fn begin_turn<'s>(
    code: Code<'s>,
    contexts: &Tree,
    m: &mut Machine<'s>,
    cycle: ForLoop<'s>,
) -> Result<bool, Stop>
    requires { IsNext code contexts.now m.old (counts_of cycle) }
    ensures { GoesTo code.entry contexts.now m.old (counts_of cycle.entry ∷ []) (i.Block (steps_in cycle.entry.body.now) ∷ again_of cycle.entry ∷ []) result contexts.now m.new }
{
    match is_below(code, m, cycle.at, cycle.counter as usize) {
        Ok(value) => {
            if is_true(&value) {
                name_turn(code, contexts, m, cycle, value)
            } else {
                Ok(false)
            }
        }
        Err(e) => Err(e),
    }
}

// The turn that was found to be due, by what the test gave.
fn name_turn<'s>(
    code: Code<'s>,
    contexts: &Tree,
    m: &mut Machine<'s>,
    cycle: ForLoop<'s>,
    value: Value,
) -> Result<bool, Stop>
    requires next { IsNext code contexts.now m.old (counts_of cycle) }
    requires test { apply_row row_lt (get_or m.old.locals.items cycle.counter nothing ∷ get_or m.old.locals.items (cycle.counter + 1) nothing ∷ []) ≡ Ok value }
    requires holds { is_true value ≡ true }
    ensures { GoesTo code.entry contexts.now m.old (counts_of cycle.entry ∷ []) (i.Block (steps_in cycle.entry.body.now) ∷ again_of cycle.entry ∷ []) result contexts.now m.new }
{
    match m.trace.tick(cycle.at) {
        Ok(()) => {}
        Err(e) => return Err(e),
    }
    let slot = cycle.counter as usize;
    match item(m.locals.as_slice(), slot).into_value(code.alloc) {
        Ok(number) => {
            m.set_local(slot + 2, number);
            Ok(true)
        }
        Err(refused) => Err(Stop::OutOfMemory(refused)),
    }
}

// The statements of a turn: at once, and then the counter goes on; or as far as they can be.
fn turn_body<'s>(
    code: Code<'s>,
    contexts: &mut Tree,
    m: &mut Machine<'s>,
    cycle: ForLoop<'s>,
) -> Result<bool, Stop>
    requires { AreNext code contexts.old m.old (i.Block (steps_in cycle.body.now) ∷ again_of cycle ∷ []) }
    ensures { GoesTo code.entry contexts.old m.old (i.Block (steps_in cycle.entry.body.now) ∷ again_of cycle.entry ∷ []) (counts_of cycle.entry ∷ []) result contexts.new m.new }
{
    match as_far(code, contexts, m, cycle.body) {
        Ok(rest) => match first_of(rest) {
            None => go_on(code, contexts, m, cycle),
            Some(_) => leave_turn(code, contexts, m, rest, Work::Counts(cycle, true)),
        },
        Err(e) => Err(e),
    }
}

// The statements that are left of a turn, and then the loop goes on.
fn leave_turn<'s>(
    code: Code<'s>,
    contexts: &mut Tree,
    m: &mut Machine<'s>,
    rest: &'s [Stmt],
    again: Work<'s>,
) -> Result<bool, Stop>
    requires { AreNext code contexts.old m.old (i.Block (steps_in rest.now) ∷ item_of again ∷ []) }
    ensures { (next : List i.Item) → GoesTo code.entry contexts.old m.old (i.Block (steps_in rest.now) ∷ item_of again.entry ∷ []) next result contexts.new m.new }
{
    match m.push(again) {
        Ok(()) => match begin_rest(code, contexts, m, rest) {
            Ok(()) => Ok(false),
            Err(e) => Err(e),
        },
        Err(e) => Err(e),
    }
}

/// The counter goes on by one, and so does the loop.
pub fn again<'s>(
    code: Code<'s>,
    contexts: &mut Tree,
    m: &mut Machine<'s>,
    cycle: ForLoop<'s>,
) -> Result<(), Stop>
    requires { IsNext code contexts.old m.old (again_of cycle) }
    ensures { Goes code.entry contexts.old m.old (again_of cycle.entry) result contexts.new m.new }
{
    match go_on(code, contexts, m, cycle) {
        Ok(more) => {
            if more {
                counts(code, contexts, m, cycle)
            } else {
                Ok(())
            }
        }
        Err(e) => Err(e),
    }
}

// The counter goes on by one.
#[inline(always)]
fn go_on<'s>(
    code: Code<'s>,
    contexts: &Tree,
    m: &mut Machine<'s>,
    cycle: ForLoop<'s>,
) -> Result<bool, Stop>
    requires { IsNext code contexts.now m.old (again_of cycle) }
    ensures { GoesTo code.entry contexts.now m.old (again_of cycle.entry ∷ []) (counts_of cycle.entry ∷ []) result contexts.now m.new }
{
    match one_more(code, m, cycle.at, cycle.counter as usize) {
        Ok(number) => {
            m.set_local(cycle.counter as usize, number);
            Ok(true)
        }
        Err(e) => Err(e),
    }
}

// What `counter < bound` gives.
#[inline(always)]
#[tactic(auto, unfolding(value_ops::specs::Operators::apply_row, value_ops::specs::Operators::operators))]
fn is_below(code: Code<'_>, m: &Machine<'_>, at: Span, slot: usize) -> Result<Value, Stop>
    requires { slot < 2 ^ 16 }
    ensures { Gives (apply_row row_lt (get_or m.now.locals.items slot nothing ∷ get_or m.now.locals.items (slot + 1) nothing ∷ [])) at result }
{
    let locals = m.locals.as_slice();
    let counter = item(locals, slot);
    let bound = item(locals, slot + 1);
    match (counter.value(), bound.value()) {
        (Value::Int(counter), Value::Int(bound)) => Ok(Value::Bool(*counter < *bound)),
        (counter, bound) => apply_two(code.alloc, LT, counter, bound, at),
    }
}

// What `counter + 1` gives.
#[inline(always)]
#[tactic(auto, unfolding(value_ops::specs::Operators::takes_of, value_ops::specs::Operators::operators))]
fn one_more(code: Code<'_>, m: &Machine<'_>, at: Span, slot: usize) -> Result<Value, Stop>
    ensures { Gives (apply_row row_add (get_or m.now.locals.items slot nothing ∷ Int (pos 1) ∷ [])) at result }
{
    let counter = item(m.locals.as_slice(), slot);
    match counter.value() {
        Value::Int(n) => trapping(apply_ints(ADD, *n, 1), at),
        other => apply_two(code.alloc, ADD, other, &Value::Int(1), at),
    }
}
