//! New locals: their names, and the slots that they get.

ghost use Rattle.std.specs.Prelude.{◌≡◌, ◌≤◌, length, OnOk};
ghost use Rattle.type_rules.specs.Demands.{Judges};
ghost use Rattle.type_rules.specs.Here as rules;
ghost use Rattle.type_rules.specs.Stmts.{local_asks};
ghost use Rattle.context_types.specs.inner.Places.{here_of};

use crate::here::Here;
use mace_ast::Name;
use std::alloc::Global;
use type_rules::{Local, TypeError, Which};
use wave_base::{Kind, LOCALS, OutOfMemory, Txt};

impl Here<'_> {
    /// The slot of a new local, which takes so many of them.
    pub fn free_slot(&self, name: &Name, slots: usize) -> Result<u16, TypeError>
        requires { slots ≤ 3 }
        ensures { Judges (local_asks (here_of self.now) name.now slots) (λ slot. slot ≡ length self.now.slots.items) result }
    {
        if self.local(&name.text).is_some() {
            return Err(TypeError::Duplicate(name.at));
        }
        let slot = self.slots.len();
        if slot + slots > LOCALS {
            return Err(TypeError::Limit(Which::Locals, name.at));
        }
        Ok(slot as u16)
    }

    /// One more local, in a slot of its own.
    pub fn declare(
        &mut self,
        alloc: Global,
        name: &Txt,
        kind: Kind,
        slot: u16,
    ) -> Result<(), OutOfMemory>
        requires { slot ≡ length self.old.slots.items }
        ensures { OnOk result (here_of self.new ≡ rules.with_local (here_of self.old) name.now kind) }
    {
        let name = name.copy(alloc)?;
        self.locals.push(Local { name, kind, slot })?;
        self.slots.push(kind)?;
        Ok(())
    }
}
