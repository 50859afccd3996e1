//! Instructions that send and create.

ghost use Rattle.std.specs.Prelude.{◌≡◌, ◌<◌, ◌≤◌, ◌^◌, ℕ, List, [], length, Some, IsSome, IfOk, OnOk, slice_get};
ghost use Rattle.wave_base.specs.declared.limits.TheConstants.{GENERATION};
ghost use Rattle.wave_base.specs.declared.shape.EventInfo.{EventInfo};
ghost use Rattle.wave_base.specs.declared.value.Value.{Value};
ghost use Rattle.deferred_out.specs.Kept.{IsKept};
ghost use Rattle.service_code.specs.declared.instr.Instr.TheVariants as instr;
ghost use Rattle.service_code.specs.declared.program.Program.{Program};
ghost use Rattle.service_verify.specs.Steps.{taken_values};
ghost use Rattle.service_vm.specs.inner.Acts.{Does, Stays};

use crate::flow::Flow;
use crate::run::Run;
use deferred_out::{SendError, SpawnError};
use wave_base::{Call, Message, OutOfMemory, TrapKind, Txt};

impl Run {
    /// Sends the value on top.
    #[inline(never)]
    pub fn send(&mut self, label: Txt) -> Result<Flow, OutOfMemory>
        requires place { self.old.frames.top.place < 2 ^ 63 }
        requires value { 0 < length self.old.frames.top.stack }
        requires few { IsKept self.old.outputs }
        ensures does { IfOk result (λ flow. (program : Program) (i : ℕ) (fields : List Value) → slice_get program.texts i ≡ Some label → Does program self.old (instr.Send i) fields flow self.new fields) }
        ensures stays { Stays self.old self.new }
    {
        let value = self.frames.pop();
        match self.outputs.send(Message { label, value }) {
            Ok(()) => {
                self.frames.advance();
                Ok(Flow::On)
            }
            Err(SendError::Sends(_)) => Ok(Flow::Traps(TrapKind::Sends)),
            Err(SendError::OutOfMemory(_, refused)) => Err(refused),
        }
    }

    /// Creates an event, with the values on top as its arguments.
    #[inline(never)]
    pub fn spawn(&mut self, event: u16, count: usize) -> Result<Flow, OutOfMemory>
        requires place { self.old.frames.top.place < 2 ^ 63 }
        requires args { IsSome (taken_values count [] self.old.frames.top.stack) }
        requires few { IsKept self.old.outputs }
        requires generation { self.old.generation ≤ GENERATION }
        ensures does { IfOk result (λ flow. (program : Program) (e : EventInfo) (fields : List Value) → slice_get program.shape.events event ≡ Some e → length e.params ≡ count → Does program self.old (instr.Spawn event) fields flow self.new fields) }
        ensures stays { Stays self.old self.new }
    {
        let args = self.frames.take(self.alloc, count)?;
        let call = Call {
            event,
            args,
            generation: self.generation + 1,
        };
        match self.outputs.spawn(self.generation, call) {
            Ok(()) => {
                self.frames.advance();
                Ok(Flow::On)
            }
            Err(SpawnError::Generation(_)) => Ok(Flow::Traps(TrapKind::Generation)),
            Err(SpawnError::Spawns(_)) => Ok(Flow::Traps(TrapKind::Spawns)),
            Err(SpawnError::OutOfMemory(_, refused)) => Err(refused),
        }
    }
}
