//! Instructions that say what comes next in the same context.

ghost use Rattle.std.specs.Prelude.{◌≡◌, ◌<◌, ◌≤◌, ◌^◌, List, [], true, false, length, Some, None, IsSome, IfOk, OnOk, slice_get};
ghost use Rattle.wave_base.specs.declared.span.Span.{Span};
ghost use Rattle.wave_base.specs.declared.value.Value.{Value};
ghost use Rattle.service_code.specs.declared.instr.Instr.TheVariants as instr;
ghost use Rattle.service_code.specs.declared.program.Program.{Program};
ghost use Rattle.service_verify.specs.Steps.{taken_values};
ghost use Rattle.service_vm.specs.inner.Acts.{Did, Does, Stays};
ghost use Rattle.service_vm.specs.inner.Stacks.{truth_on_top};

use crate::flow::Flow;
use crate::run::Run;
use service_code::Function;
use wave_base::{OutOfMemory, TrapKind};

impl Run {
    /// Goes on at an instruction.
    #[tactic(auto, unfolding(service_verify::specs::Steps::act_move))]
    pub fn jump(&mut self, to: u16)
        ensures did { (program : Program) (at : Span) (fields : List Value) → Did program self.old (instr.Jump to) at fields None self.new fields }
        ensures own { self.new.frames.top.function ≡ self.old.frames.top.function }
        ensures stays { Stays self.old self.new }
    {
        self.frames.jump(to as usize);
    }

    /// Throws the value on top away.
    #[tactic(auto, unfolding(service_verify::specs::Steps::act_move))]
    pub fn forget(&mut self)
        requires place { self.old.frames.top.place < 2 ^ 63 }
        requires value { 0 < length self.old.frames.top.stack }
        ensures did { (program : Program) (at : Span) (fields : List Value) → Did program self.old instr.Pop at fields None self.new fields }
        ensures stays { Stays self.old self.new }
    {
        let _ = self.frames.pop();
        self.frames.advance();
    }

    /// Goes on at an instruction where the value on top is false.
    #[tactic(auto, unfolding(service_verify::specs::Steps::act_move))]
    pub fn branch(&mut self, to: u16)
        requires place { self.old.frames.top.place < 2 ^ 63 }
        requires truth { IsSome (truth_on_top self.old.frames.top.stack) }
        ensures did { (program : Program) (at : Span) (fields : List Value) → Did program self.old (instr.JumpFalse to) at fields None self.new fields }
        ensures own { self.new.frames.top.function ≡ self.old.frames.top.function }
        ensures stays { Stays self.old self.new }
    {
        if self.frames.pop_truth() {
            self.frames.advance();
        } else {
            self.frames.jump(to as usize);
        }
    }

    /// Takes a tick, if one is left, and says whether it did.
    #[tactic(auto, unfolding(service_verify::specs::Steps::act_move))]
    pub fn tick(&mut self) -> bool
        requires place { self.old.frames.top.place < 2 ^ 63 }
        ensures did { result ≡ true → (program : Program) (at : Span) (fields : List Value) → Did program self.old instr.Tick at fields None self.new fields }
        ensures none { result ≡ false → (self.old.ticks ≡ 0) × (self.new ≡ self.old) }
        ensures own { self.new.frames.top.function ≡ self.old.frames.top.function }
        ensures stays { Stays self.old self.new }
    {
        if self.ticks == 0 {
            return false;
        }
        self.ticks -= 1;
        self.frames.advance();
        true
    }

    /// Traps where the value on top is false.
    #[tactic(auto, unfolding(service_verify::specs::Steps::act_move))]
    pub fn demand(&mut self) -> Flow
        requires place { self.old.frames.top.place < 2 ^ 63 }
        requires truth { IsSome (truth_on_top self.old.frames.top.stack) }
        ensures does { (program : Program) (fields : List Value) → Does program self.old instr.Require fields result self.new fields }
        ensures stays { Stays self.old self.new }
    {
        if !self.frames.pop_truth() {
            return Flow::Traps(TrapKind::Require);
        }
        self.frames.advance();
        Flow::On
    }

    /// A method of the same context begins.
    #[tactic(auto, unfolding(service_verify::specs::Steps::act_move))]
    pub fn call(&mut self, number: u16, function: &Function) -> Result<(), OutOfMemory>
        requires place { self.old.frames.top.place < 2 ^ 63 }
        requires args { IsSome (taken_values (length function.now.args) [] self.old.frames.top.stack) }
        requires locals { length function.now.args ≤ length function.now.locals }
        ensures did { OnOk result ((program : Program) (at : Span) (fields : List Value) → slice_get program.functions number ≡ Some function.now → Did program self.old (instr.Call number) at fields None self.new fields) }
        ensures stays { Stays self.old self.new }
    {
        self.frames.begin(self.alloc, number, function, false)
    }
}
