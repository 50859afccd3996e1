//! Statements that are done at once, one after the other, as far as no call is met.

ghost use Rattle.std.specs.Prelude.{◌≡◌, [], IfOk, IfErr};
ghost use Rattle.resolved_service.specs.Fits.{FitsSteps};
ghost use Rattle.resolved_service.specs.Steps.{step, step_of, steps_in, else_in};
ghost use Rattle.service_eval.specs.inner.Items.{else_steps};
ghost use Rattle.service_eval.specs.inner.Ready.{Ready};
ghost use Rattle.service_eval.specs.inner.Ahead.{Advances, AdvancesBy, StopsIn, Chooses};
ghost use Rattle.service_eval.specs.inner.Turns.{mach};
ghost use Rattle.wave_base.specs.Shapes.{class_of};

use crate::assignments::at_once;
use crate::code::Code;
use crate::eval::found_value;
use crate::machine::Machine;
use crate::operand::is_true;
use crate::parts::first_of;
use crate::stop::Stop;
use context_tree::Tree;
use resolved_service::{Action, Stmt};

/// Does statements from the first one on, up to one that can't be done at once. Those that are left come back.
pub fn as_far<'s>(
    code: Code<'s>,
    contexts: &mut Tree,
    m: &mut Machine<'s>,
    stmts: &'s [Stmt],
) -> Result<&'s [Stmt], Stop>
    requires ready { Ready code.shape.now code.methods.now (mach code contexts.old m.old) }
    requires fits { FitsSteps code.shape.now code.methods.now (class_of m.old.path) (steps_in stmts.now) }
    ensures ok { IfOk result (λ rest. Advances code.entry contexts.old m.old (steps_in stmts.now) contexts.new m.new (steps_in rest.now)) }
    ensures err { IfErr result (StopsIn code.entry contexts.old m.old (steps_in stmts.now) contexts.new m.new) }
{
    let mut rest = stmts;
    'statements: loop {
        match first_of(rest) {
            None => return Ok(rest),
            Some((first, others)) => match one_ahead(code, contexts, m, first, others) {
                Ok(Some(next)) => rest = next,
                Ok(None) => return Ok(rest),
                Err(e) => return Err(e),
            },
        }
    }
}

// Does the first statement, and gives what comes next. Nothing has changed where it can't be done at once.
fn one_ahead<'s>(
    code: Code<'s>,
    contexts: &mut Tree,
    m: &mut Machine<'s>,
    first: &'s Stmt,
    others: &'s [Stmt],
) -> Result<Option<&'s [Stmt]>, Stop>
    requires ready { Ready code.shape.now code.methods.now (mach code contexts.old m.old) }
    requires fits { FitsSteps code.shape.now code.methods.now (class_of m.old.path) (step (step_of first.now) (steps_in others.now)) }
    ensures ok { IfOk result (AdvancesBy code.entry contexts.old m.old (step (step_of first.now) (steps_in others.now)) contexts.new m.new) }
    ensures err { IfErr result (StopsIn code.entry contexts.old m.old (step (step_of first.now) (steps_in others.now)) contexts.new m.new) }
{
    match at_once(code, contexts, m, first) {
        Ok(done) => {
            if done {
                return Ok(Some(others));
            }
        }
        Err(e) => return Err(e),
    }
    match first_of(others) {
        None => chosen_block(code, contexts, m, first),
        Some(_) => Ok(None),
    }
}

// The block that an `if` goes on with, where its test meets no call. None of another statement.
fn chosen_block<'c>(
    code: Code<'_>,
    contexts: &Tree,
    m: &Machine<'_>,
    stmt: &'c Stmt,
) -> Result<Option<&'c [Stmt]>, Stop>
    ensures { Chooses code.entry contexts.now m.now (step_of stmt.now) result }
{
    match &stmt.action {
        Action::If(test, body, other) => match found_value(code, contexts, m, test) {
            Ok(Some(value)) => {
                if is_true(&value) {
                    Ok(Some(body.as_slice()))
                } else {
                    Ok(Some(else_of(other)))
                }
            }
            Ok(None) => Ok(None),
            Err(e) => Err(e),
        },
        _ => Ok(None),
    }
}

/// The statements of an `else`, if there is one.
pub fn else_of(other: &Option<Vec<Stmt>>) -> &[Stmt]
    ensures { steps_in result.now ≡ else_steps (else_in other.now) }
{
    match other {
        Some(stmts) => stmts.as_slice(),
        None => &[],
    }
}
