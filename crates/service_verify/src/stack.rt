//! The stack of the verifier.

ghost use Rattle.std.specs.Prelude.{◌≡◌, ◌≤◌, ◌↔◌, [], ◌∷◌, ◌++◌, length, reverse, take, drop, option_to_list, IsNone, IfOk, OnOk, OnErr};

use std::alloc::Global;
use std::marker::Model;
use wave_base::{Copied, OutOfMemory};

/// A stack. Contracts see it as a list, the top first.
#[derive(Debug, Drop)]
pub struct Stack<T> {
    items: Vec<T>,
}

impl<T> Model for Stack<T> {
    ghost use Rattle.std.specs.Prelude.{List, reverse};

    ghost Value = { List T };

    ghost view = { λ s. reverse s.items.items };
}

impl<T> Stack<T> {
    /// The empty stack.
    pub fn new(alloc: Global) -> Stack<T>
        ensures { result ≡ [] }
    {
        Stack {
            items: Vec::new(alloc),
        }
    }

    /// How many values lie on it.
    pub fn len(&self) -> usize
        ensures { result ≡ length self.now }
    {
        self.items.len()
    }

    /// The values, the top last.
    pub fn as_slice(&self) -> &[T]
        ensures { self.now ≡ reverse result.now }
    {
        self.items.as_slice()
    }

    /// Takes the top away.
    pub fn pop(&mut self) -> Option<T>
        ensures top { self.old ≡ option_to_list result ++ self.new }
        ensures none { IsNone result ↔ (self.old ≡ []) }
    {
        self.items.pop()
    }
}

impl<T: Drop> Stack<T> {
    /// Puts a value on top.
    pub fn push(&mut self, x: T) -> Result<(), OutOfMemory>
        ensures ok { OnOk result (self.new ≡ x ∷ self.old) }
        ensures err { OnErr result (self.new ≡ self.old) }
    {
        self.items.push(x)?;
        Ok(())
    }
}

impl<T: Copied + Drop> Stack<T> {
    /// A stack of equal values.
    pub fn copy(&self, alloc: Global) -> Result<Stack<T>, OutOfMemory>
        ensures { IfOk result (λ s. s ≡ self.now) }
    {
        let mut items = Vec::new(alloc);
        for x in &self.items {
            items.push(x.copied(alloc)?)?;
        }
        Ok(Stack { items })
    }
}
