//! An event on its way.

ghost use Rattle.std.specs.Prelude.{◌≡◌, ◌<◌, ◌≤◌, ◌^◌, suc, length, drop, get_or, slice_set, [], ◌∷◌, OnOk, OnErr, IfOk, IfErr, IsNone, IfSome};
ghost use Rattle.resolved_service.specs.World.{nothing, is_true, key_of};
ghost use Rattle.service_eval.specs.declared.stop.Stop.{Stop};
ghost use Rattle.service_eval.specs.inner.Items.{item_of, return_of, to_return};
ghost use Rattle.service_eval.specs.inner.Machines.{items_of, mach_of, on_top, with_value, cut_to, own, at_parent};
ghost use Rattle.wave_base.specs.Memory.{the_refusal};

use crate::operand::is_true;
use crate::stop::Stop;
use crate::trace::Trace;
use crate::work::{Caller, Work};
use std::mem;
use wave_base::{OutOfMemory, Path, Value, push};

/// An event on its way: what is still to be done, the last first, and the values that it waits for; the locals, the
/// context of the function that runs; and what the event has done.
#[derive(Drop)]
pub struct Machine<'s> {
    /// What is still to be done, the next one last.
    pub work: Vec<Work<'s>>,
    /// The values that wait for it.
    pub values: Vec<Value>,
    /// The locals of the function that runs, by their slots.
    pub locals: Vec<Value>,
    /// The context where it runs.
    pub path: Path,
    /// A slot where that context may stand, so that it is found without a look-up: any number does, and the right one is fast.
    pub near: usize,
    /// What the event has done.
    pub trace: Trace,
}

impl<'s> Machine<'s> {
    /// One thing more is to be done, before all others.
    #[inline(always)]
    pub fn push(&mut self, work: Work<'s>) -> Result<(), Stop>
        ensures ok { OnOk result ((tree : _) → mach_of tree self.new ≡ on_top (item_of work.entry) (mach_of tree self.old)) }
        ensures err { IfErr result (λ e. e ≡ Stop.OutOfMemory the_refusal) }
    {
        push(&mut self.work, work)?;
        Ok(())
    }

    /// Two things more are to be done, before all others.
    pub fn push_two(&mut self, first: Work<'s>, second: Work<'s>) -> Result<(), Stop>
        ensures ok { OnOk result ((tree : _) → mach_of tree self.new ≡ on_top (item_of first.entry) (on_top (item_of second.entry) (mach_of tree self.old))) }
        ensures err { IfErr result (λ e. e ≡ Stop.OutOfMemory the_refusal) }
    {
        self.push(second)?;
        self.push(first)
    }

    /// Three things more are to be done, before all others.
    pub fn push_three(
        &mut self,
        first: Work<'s>,
        second: Work<'s>,
        third: Work<'s>,
    ) -> Result<(), Stop>
        ensures ok { OnOk result ((tree : _) → mach_of tree self.new ≡ on_top (item_of first.entry) (on_top (item_of second.entry) (on_top (item_of third.entry) (mach_of tree self.old)))) }
        ensures err { IfErr result (λ e. e ≡ Stop.OutOfMemory the_refusal) }
    {
        self.push(third)?;
        self.push_two(first, second)
    }

    /// Takes what is to be done next.
    #[inline(always)]
    pub fn pop(&mut self) -> Option<Work<'s>>
        ensures none { IsNone result → (tree : _) → (mach_of tree self.new ≡ mach_of tree self.old) × ((mach_of tree self.old).items ≡ []) }
        ensures some { IfSome result (λ w. (tree : _) → mach_of tree self.old ≡ on_top (item_of w) (mach_of tree self.new)) }
    {
        self.work.pop()
    }

    /// Leaves out what is to be done up to the next return, and takes that, if there is one.
    pub fn to_caller(&mut self) -> Option<Caller>
        ensures none { IsNone result → to_return (items_of self.old) ≡ [] }
        ensures some { IfSome result (λ caller. to_return (items_of self.old) ≡ return_of caller ∷ items_of self.new) }
        ensures rest { (tree : _) → mach_of tree self.new ≡ record (mach_of tree self.old) { items = items_of self.new } }
    {
        while let Some(work) = self.pop() {
            match work {
                Work::Return(caller) => return Some(caller),
                _ => {}
            }
        }
        None
    }

    /// A value more.
    pub fn give(&mut self, value: Value) -> Result<(), Stop>
        ensures ok { OnOk result ((tree : _) → mach_of tree self.new ≡ with_value value (mach_of tree self.old)) }
        ensures err { IfErr result (λ e. e ≡ Stop.OutOfMemory the_refusal) }
    {
        push(&mut self.values, value)?;
        Ok(())
    }

    /// An item's own values come to this one. Memory is asked for only where it has none.
    pub fn settle(&mut self, base: usize, value: Value) -> Result<(), Stop>
        ensures ok { OnOk result ((tree : _) → mach_of tree self.new ≡ with_value value (cut_to base (mach_of tree self.old))) }
        ensures err { IfErr result (λ e. e ≡ Stop.OutOfMemory the_refusal) }
        ensures memory { OnErr result (length self.old.values.items ≤ base) }
    {
        if base < self.values.len() {
            self.values[base] = value;
            self.values.truncate(base + 1);
            Ok(())
        } else {
            self.give(value)
        }
    }

    /// The number of values.
    pub fn height(&self) -> usize
        ensures { result ≡ length self.now.values.items }
    {
        self.values.len()
    }

    /// An item's own values.
    pub fn own(&self, base: usize) -> &[Value]
        ensures { result.now ≡ drop base self.now.values.items }
    {
        if base < self.values.len() {
            &self.values[base..]
        } else {
            &[]
        }
    }

    /// Whether an item's first value is true.
    pub fn is_true(&self, base: usize) -> bool
        ensures { result ≡ is_true (own 0 base self.now.values.items) }
    {
        match self.values.get(base) {
            Some(value) => is_true(value),
            None => false,
        }
    }

    /// Takes an item's own values away.
    pub fn cut(&mut self, base: usize)
        ensures { (tree : _) → mach_of tree self.new ≡ cut_to base (mach_of tree self.old) }
    {
        self.values.truncate(base);
    }

    /// Takes an item's own values away, and gives the first.
    pub fn take(&mut self, base: usize) -> Value
        ensures value { result ≡ own 0 base self.old.values.items }
        ensures rest { (tree : _) → mach_of tree self.new ≡ cut_to base (mach_of tree self.old) }
    {
        if base >= self.values.len() {
            return Value::Int(0);
        }
        let value = mem::replace(&mut self.values[base], Value::Int(0));
        self.values.truncate(base);
        value
    }

    /// Takes an item's own values away, and gives the first two.
    pub fn take_two(&mut self, base: usize) -> (Value, Value)
        ensures first { result.0 ≡ own 0 base self.old.values.items }
        ensures second { result.1 ≡ own 1 base self.old.values.items }
        ensures rest { (tree : _) → mach_of tree self.new ≡ cut_to base (mach_of tree self.old) }
    {
        if base >= self.values.len() {
            return (Value::Int(0), Value::Int(0));
        }
        let second = self.take(base + 1);
        let first = self.take(base);
        (first, second)
    }

    /// Takes an item's own values, from one of them on.
    pub fn take_all(&mut self, base: usize) -> Result<Vec<Value>, Stop>
        ensures values { IfOk result (λ taken. taken.items ≡ drop base self.old.values.items) }
        ensures rest { OnOk result ((tree : _) → mach_of tree self.new ≡ cut_to base (mach_of tree self.old)) }
        ensures err { IfErr result (λ e. e ≡ Stop.OutOfMemory the_refusal) }
    {
        let base = base.min(self.values.len());
        match self.values.split_off(base) {
            Ok(taken) => Ok(taken),
            Err(refused) => Err(Stop::OutOfMemory(OutOfMemory::from(refused))),
        }
    }

    /// Takes an item's own values but the first.
    pub fn take_others(&mut self, base: usize) -> Result<Vec<Value>, Stop>
        ensures values { IfOk result (λ taken. taken.items ≡ drop (suc base) self.old.values.items) }
        ensures rest { OnOk result ((tree : _) → mach_of tree self.new ≡ cut_to (suc base) (mach_of tree self.old)) }
        ensures err { IfErr result (λ e. e ≡ Stop.OutOfMemory the_refusal) }
    {
        if base < self.height() {
            self.take_all(base + 1)
        } else {
            self.take_all(base)
        }
    }

    /// Sets a local, where there is one.
    #[inline(always)]
    pub fn set_local(&mut self, slot: usize, value: Value)
        ensures { (tree : _) → mach_of tree self.new ≡ record (mach_of tree self.old) { state = record { locals = slice_set self.old.locals.items slot value; world = (mach_of tree self.old).state.world } } }
    {
        if slot < self.locals.len() {
            self.locals[slot] = value;
        }
    }

    /// The key that an item's first value tells.
    pub fn key(&self, base: usize) -> i64
        ensures { result ≡ key_of (own 0 base self.now.values.items) }
    {
        match self.values.get(base) {
            Some(Value::Int(key)) => *key,
            _ => 0,
        }
    }

    /// Back to the parent.
    pub fn rise(&mut self)
        ensures { (tree : _) → mach_of tree self.new ≡ at_parent (mach_of tree self.old) }
    {
        if let Some(parent) = self.path.parent() {
            self.path = parent;
        }
    }
}
