//! Where in a service a judgement stands, and what can be named there.

ghost use Rattle.std.specs.Prelude.{◌≡◌, ◌+◌, IfSome};
ghost use Rattle.std.specs.Option.{option_copied};
ghost use Rattle.type_rules.specs.Here as rules;
ghost use Rattle.type_rules.specs.Known as known;
ghost use Rattle.type_tables.specs.Rows.{IsCallable};
ghost use Rattle.context_types.specs.inner.Judged.{FewFields};

use type_rules::{Callee, Local, Variable};
use type_tables::Tables;
use wave_base::{Kind, Txt};

/// What a statement stands in: a method or an event, and the kind that it gives, if any.
#[derive(Clone, Copy)]
pub enum Within {
    /// A method, and the kind that it returns, if any.
    Method(Option<Kind>),
    /// An event, and the kind that it replies with, if any.
    Event(Option<Kind>),
}

/// Where the walk stands: in a class, in a method or an event with a number, behind the locals that may be named. `slots`
/// has the kinds of all slots that the function has given so far.
#[derive(Drop)]
pub struct Here<'t> {
    /// What the service declares.
    pub known: &'t Tables,
    /// The number of the class whose context it is.
    pub class: u16,
    /// The number of the method among all methods, or of the event among all events.
    pub function: usize,
    /// Which of the two it is.
    pub within: Within,
    /// The locals that may be named here, the last one last.
    pub locals: Vec<Local>,
    /// The kinds of all slots that the function has given so far, parameters first.
    pub slots: Vec<Kind>,
    ghost few: { FewFields known.now (class + 1) },
}

impl Here<'_> {
    ghost use Rattle.context_types.specs.inner.Places.{here_of};

    /// The local of a name.
    pub fn local(&self, name: &Txt) -> Option<&Local>
        ensures { option_copied result ≡ rules.local_named (here_of self.now) name.now }
    {
        for local in &self.locals {
            if local.name == *name {
                return Some(local);
            }
        }
        None
    }

    /// What a name of a value stands for: a local, else an own field.
    pub fn variable(&self, name: &Txt) -> Option<Variable>
        ensures { result ≡ rules.variable (here_of self.now) name.now }
    {
        match self.local(name) {
            Some(local) => Some(Variable::Local(local.slot, local.kind)),
            None => match self.known.field(self.class, name) {
                Some((field, kind)) => Some(Variable::Field(field as u16, kind)),
                None => None,
            },
        }
    }

    /// What a call names: a builtin, else an own method.
    pub fn callee_named(&self, name: &Txt) -> Option<Callee>
        ensures found { result ≡ rules.callee_named (here_of self.now) name.now }
        ensures callable { IfSome result (IsCallable self.now.known.now) }
    {
        match self.known.builtin(name) {
            Some(row) => Some(Callee::Builtin(row)),
            None => match self.known.method(self.class, name) {
                Some(method) => Some(Callee::Method(method)),
                None => None,
            },
        }
    }

    /// Whether a class is a child of the class here.
    pub fn is_child(&self, class: u16) -> bool
        ensures { result ≡ rules.is_child (here_of self.now) class }
    {
        self.known.is_child(self.class, class)
    }
}
