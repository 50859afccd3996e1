//! What is to be done, item by item, until nothing is left.

ghost use Rattle.std.specs.Prelude.{◌≡◌, All};
ghost use Rattle.context_tree.specs.Contexts.{tree_of as shown};
ghost use Rattle.resolved_service.specs.Fits.{FitsMethod};
ghost use Rattle.service_eval.specs.inner.Items.{item_of};
ghost use Rattle.service_eval.specs.inner.Ready.{Ready};
ghost use Rattle.service_eval.specs.inner.Turns.{mach, IsNext, Goes, Ran};
ghost use Rattle.wave_base.specs.Shapes.{IsShape};

use crate::block::block;
use crate::calls::{come_back, invoke, invoke_child};
use crate::code::Code;
use crate::eval::{and_then, apply, eval, evals, or_else};
use crate::finish::finish;
use crate::loops::{again, check, counts, turns};
use crate::machine::Machine;
use crate::stop::Stop;
use crate::work::Work;
use context_tree::Tree;

/// Does all that is to be done.
pub fn run<'s>(code: Code<'s>, contexts: &mut Tree, m: &mut Machine<'s>) -> Result<(), Stop>
    requires ready { Ready code.shape.now code.methods.now (mach code contexts.old m.old) }
    requires methods { All (FitsMethod code.shape.now code.methods.now) code.methods.now }
    requires shape { IsShape code.shape.now }
    ensures { Ran code.entry (mach code.entry contexts.old m.old) result (mach code.entry contexts.new m.new) }
{
    'items: while let Some(work) = m.pop() {
        match turn(code, contexts, m, work) {
            Ok(()) => {}
            Err(e) => return Err(e),
        }
    }
    Ok(())
}

// The next thing to be done.
fn turn<'s>(
    code: Code<'s>,
    contexts: &mut Tree,
    m: &mut Machine<'s>,
    work: Work<'s>,
) -> Result<(), Stop>
    requires next { IsNext code contexts.old m.old (item_of work) }
    requires methods { All (FitsMethod code.shape.now code.methods.now) code.methods.now }
    requires shape { IsShape code.shape.now }
    ensures { Goes code.entry contexts.old m.old (item_of work.entry) result contexts.new m.new }
{
    match work {
        Work::Eval(e) => eval(code, contexts, m, e),
        Work::Evals(es) => evals(code, contexts, m, es),
        Work::Apply(at, row, base) => apply(code, contexts, m, at, row, base),
        Work::AndThen(right, base) => and_then(code, contexts, m, right, base),
        Work::OrElse(right, base) => or_else(code, contexts, m, right, base),
        Work::Invoke(at, method, base) => invoke(code, contexts, m, at, method, base),
        Work::Child(at, callee, base) => invoke_child(code, contexts, m, at, callee, base),
        Work::Block(stmts) => block(code, contexts, m, stmts),
        Work::Finish(at, ending, base) => finish(code, contexts, m, at, ending, base),
        Work::Turns(cycle) => turns(code, contexts, m, cycle),
        Work::Check(cycle, base) => check(code, contexts, m, cycle, base),
        Work::Counts(cycle, more) => {
            if more {
                again(code, contexts, m, cycle)
            } else {
                counts(code, contexts, m, cycle)
            }
        }
        Work::Return(caller) => come_back(code, contexts, m, caller),
    }
}
