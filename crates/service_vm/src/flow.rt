//! What instructions lead to.

ghost use Rattle.std.specs.Prelude.{◌≡◌, ◌<◌, ◌∷◌, List, Some, length};
ghost use Rattle.wave_base.specs.declared.value.Value.{Value};
ghost use Rattle.service_verify.specs.Steps.{Move};
ghost use Rattle.service_vm.specs.inner.Acts.{next_move, Flows, Stays};

use crate::run::Run;
use wave_base::{Outcome, Pause, Span, Step, TrapKind};

/// What an instruction leads to.
#[derive(Clone, Copy)]
pub enum Flow {
    /// The event runs on.
    On,
    /// It traps at this instruction.
    Traps(TrapKind),
    /// It has gone into a child for good.
    Go(Step),
    /// It has gone into a child for a call.
    Down(Step),
    /// It is back in the parent.
    Back,
    /// It ends with the value on top as its reply.
    Reply,
    /// It ends without a reply.
    End,
}

impl Run {
    /// Stops at what an instruction led to, which stands at this place in the service text; and says why.
    #[inline(never)]
    pub fn stop(&mut self, flow: Flow, at: Span) -> Pause
        requires stops { flow ≡ Flow.On → ⊥ }
        requires value { flow ≡ Flow.Reply → 0 < length self.old.frames.top.stack }
        ensures stopped { (m : Move) (fields : List Value) → Flows m at flow self.old fields → m ≡ next_move (Some result) self.new fields }
        ensures stays { Stays self.old self.new }
    {
        match flow {
            Flow::On => unreachable!(),
            Flow::Traps(kind) => self.trap(kind, at),
            Flow::Go(step) => Pause::Go(step),
            Flow::Down(step) => Pause::Down(step),
            Flow::Back => Pause::Back,
            Flow::Reply => {
                let value = self.frames.pop();
                self.finish(Outcome::Reply(value))
            }
            Flow::End => self.finish(Outcome::Done),
        }
    }
}
