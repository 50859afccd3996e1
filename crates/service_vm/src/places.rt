//! Instructions that lead to another context, or back from it.

ghost use Rattle.std.specs.Prelude.{◌≡◌, ◌<◌, ◌≤◌, ◌^◌, List, length, Some, IsSome, IfOk, OnOk, slice_get};
ghost use Rattle.wave_base.specs.declared.limits.TheConstants.{CLASS_DEPTH};
ghost use Rattle.wave_base.specs.declared.value.Value.{Value};
ghost use Rattle.wave_base.specs.Paths.{parent_of};
ghost use Rattle.service_code.specs.declared.instr.Instr.TheVariants as instr;
ghost use Rattle.service_code.specs.declared.program.Program.{Program};
ghost use Rattle.service_vm.specs.inner.Acts.{Does, Stays};
ghost use Rattle.service_vm.specs.inner.Stacks.{int_on_top, key_below};

use crate::flow::Flow;
use crate::run::Run;
use service_code::Function;
use wave_base::{Class, OutOfMemory, Path, Step, TrapKind};

impl Run {
    /// Into a child for good: all that is held outside its subtree is given up.
    #[inline(never)]
    pub fn go(&mut self, class: Class) -> Result<Flow, OutOfMemory>
        requires place { self.old.frames.top.place < 2 ^ 63 }
        requires path { length self.old.path < CLASS_DEPTH }
        requires key { IsSome (int_on_top self.old.frames.top.stack) }
        ensures does { IfOk result (λ flow. (program : Program) (fields : List Value) → Does program self.old (instr.Go class) fields flow self.new fields) }
        ensures stays { Stays self.old self.new }
    {
        let key = self.frames.pop_int();
        let step = Step { class, key };
        let child = self.path.child(step);
        if !self.enter(child)? {
            return Ok(Flow::Traps(TrapKind::Reach));
        }
        self.frames.advance();
        self.path = child;
        self.held.keep_below(&child);
        Ok(Flow::Go(step))
    }

    /// Into a child for a call of one of its methods.
    #[inline(never)]
    pub fn call_down(
        &mut self,
        class: Class,
        number: u16,
        function: &Function,
    ) -> Result<Flow, OutOfMemory>
        requires place { self.old.frames.top.place < 2 ^ 63 }
        requires path { length self.old.path < CLASS_DEPTH }
        requires args { IsSome (key_below (length function.now.args) self.old.frames.top.stack) }
        requires locals { length function.now.args ≤ length function.now.locals }
        ensures does { IfOk result (λ flow. (program : Program) (fields : List Value) → slice_get program.functions number ≡ Some function.now → Does program self.old (instr.CallDown class number) fields flow self.new fields) }
        ensures stays { Stays self.old self.new }
    {
        let key = self.frames.take_key(function.args.len());
        let step = Step { class, key };
        let child = self.path.child(step);
        if !self.enter(child)? {
            return Ok(Flow::Traps(TrapKind::Reach));
        }
        self.frames.begin(self.alloc, number, function, true)?;
        self.path = child;
        Ok(Flow::Down(step))
    }

    /// The end of a method: back to its caller, in the same context or in the parent, which takes no memory.
    #[inline(never)]
    pub fn return_from(&mut self, function: &Function) -> Flow
        requires caller { 0 < length self.old.frames.below }
        requires value { IsSome function.now.result → 0 < length self.old.frames.top.stack }
        ensures does { (program : Program) (fields : List Value) → slice_get program.functions self.old.frames.top.function ≡ Some function.now → Does program self.old instr.Return fields result self.new fields }
        ensures stays { Stays self.old self.new }
    {
        let down = self.frames.is_down();
        self.frames.close(function.result.is_some());
        if !down {
            return Flow::On;
        }
        self.path = parent_of(&self.path);
        Flow::Back
    }
}

// The path of the context in which a context stands; the root's is the root's.
fn parent_of(path: &Path) -> Path
    ensures { result ≡ parent_of path.now }
{
    match path.parent() {
        Some(parent) => parent,
        None => Path::root(),
    }
}
