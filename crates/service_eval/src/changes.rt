//! Variables changed: locals of the function that runs, and fields of its context.

ghost use Rattle.service_eval.specs.inner.Changes.{changing};
ghost use Rattle.service_eval.specs.declared.edits.Edit.TheVariants as edit;
ghost use Rattle.service_eval.specs.declared.work.Variable.TheVariants as variable;
ghost use Rattle.service_eval.specs.inner.Ready.{Ready};
ghost use Rattle.service_eval.specs.inner.Turns.{mach, Does};
ghost use Rattle.service_eval.specs.inner.Wants.{WhereWanting, PutsNewKey, value_of};

use crate::code::Code;
use crate::edits::Edit;
use crate::machine::Machine;
use crate::stop::Stop;
use crate::work::Variable;
use context_tree::Tree;
use wave_base::{Seq, Span, Value};

/// Changes a variable: a value that is set is taken from the edit. Memory is asked for by a new key of a map alone.
#[inline(always)]
pub fn change(
    code: Code<'_>,
    contexts: &mut Tree,
    m: &mut Machine<'_>,
    at: Span,
    variable: Variable,
    edit: &mut Edit,
) -> Result<(), Stop>
    requires { Ready code.shape.now code.methods.now (mach code contexts.old m.old) }
    ensures does { Does code.entry contexts.old m.old (changing m.old.path at variable edit.old) result contexts.new m.new }
    ensures memory { WhereWanting result (PutsNewKey edit.old (value_of code.entry contexts.old m.old variable)) }
{
    match variable {
        Variable::Local(slot) => change_local(code, contexts, m, at, slot, edit),
        Variable::Field(f) => change_field(code, contexts, m, at, f, edit),
    }
}

/// Gives a variable a value.
#[inline(always)]
pub fn set_variable(
    code: Code<'_>,
    contexts: &mut Tree,
    m: &mut Machine<'_>,
    at: Span,
    variable: Variable,
    value: Value,
) -> Result<(), Stop>
    requires { Ready code.shape.now code.methods.now (mach code contexts.old m.old) }
    ensures does { Does code.entry contexts.old m.old (changing m.old.path at variable (edit.Set value)) result contexts.new m.new }
    ensures memory { WhereWanting result ⊥ }
{
    match variable {
        Variable::Local(slot) => {
            m.set_local(slot, value);
            Ok(())
        }
        Variable::Field(f) => change_field(code, contexts, m, at, f, &mut Edit::Set(value)),
    }
}

// A local changes where it stands.
#[inline(always)]
fn change_local(
    code: Code<'_>,
    contexts: &Tree,
    m: &mut Machine<'_>,
    at: Span,
    slot: usize,
    edit: &mut Edit,
) -> Result<(), Stop>
    requires { Ready code.shape.now code.methods.now (mach code contexts.now m.old) }
    ensures does { Does code.entry contexts.now m.old (changing m.old.path at (variable.Local slot) edit.old) result contexts.now m.new }
    ensures memory { WhereWanting result (PutsNewKey edit.old (value_of code.entry contexts.now m.old (variable.Local slot))) }
{
    edit.apply_at(&mut m.locals, slot, at)
}

// A field changes where it stands: the fields come out of the record of the context, and go back.
#[inline(never)]
fn change_field(
    code: Code<'_>,
    contexts: &mut Tree,
    m: &Machine<'_>,
    at: Span,
    f: u16,
    edit: &mut Edit,
) -> Result<(), Stop>
    requires { Ready code.shape.now code.methods.now (mach code contexts.old m.now) }
    ensures does { Does code.entry contexts.old m.now (changing m.now.path at (variable.Field f) edit.old) result contexts.new m.now }
    ensures memory { WhereWanting result (PutsNewKey edit.old (value_of code.entry contexts.old m.now (variable.Field f))) }
{
    match contexts.record_mut_near(m.near, &m.path) {
        Some(record) => {
            let taken = std::mem::replace(&mut record.fields, Seq::new(code.alloc));
            let mut fields = taken.into_vec();
            let done = edit.apply_at(&mut fields, f as usize, at);
            record.fields = Seq::from_vec(fields);
            done
        }
        None => unreachable!(),
    }
}
