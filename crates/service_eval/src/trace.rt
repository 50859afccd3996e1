//! What an event has done, besides its changes of fields.

ghost use Rattle.std.specs.Prelude.{◌≡◌, ◌≤◌, ◌<◌, length, Err};
ghost use Rattle.resolved_service.specs.World.{has, ticking, releasing, sending, spawning};
ghost use Rattle.service_eval.specs.inner.Wants.{WhereWanting};
ghost use Rattle.service_eval.specs.inner.Traces.{world_of, Changes};
ghost use Rattle.wave_base.specs.declared.limits.TheConstants.{GENERATION};
ghost use Rattle.service_eval.specs.declared.stop.Stop.{Stop};

use crate::stop::Stop;
use std::alloc::Global;
use wave_base::{
    Call, GENERATION, MESSAGES, Message, Path, SPAWNS, Seq, Span, Trap, TrapKind, Txt, Value, push,
};

/// What an event has done so far, besides its changes of fields.
#[derive(Drop)]
pub struct Trace {
    /// The event's generation: 0 for a request, and one more for each event that led to it.
    pub generation: u8,
    /// The ticks that are left.
    pub ticks: u32,
    /// The paths that it has entered, the first one first.
    pub entered: Vec<Path>,
    /// The paths of the contexts that it holds.
    pub held: Vec<Path>,
    /// The messages that it has sent, in order.
    pub messages: Vec<Message>,
    /// The calls that it has created, in order.
    pub created: Vec<Call>,
}

impl Trace {
    /// Takes a tick.
    #[inline(always)]
    pub fn tick(&mut self, at: Span) -> Result<(), Stop>
        ensures changes { (tree : _) → Changes (ticking (world_of tree self.old)) at (world_of tree self.old) result (world_of tree self.new) }
        ensures memory { WhereWanting result ⊥ }
    {
        if self.ticks == 0 {
            return trap_at(TrapKind::Ticks, at);
        }
        self.ticks -= 1;
        Ok(())
    }

    /// Whether the event holds a context.
    pub fn holds(&self, path: &Path) -> bool
        ensures { result ≡ has self.now.held.items path.now }
    {
        for held in &self.held {
            if path == held {
                return true;
            }
        }
        false
    }

    /// Gives up all that lies outside the subtree of a context.
    pub fn release(&mut self, path: &Path)
        ensures { (tree : _) → world_of tree self.new ≡ releasing path.now (world_of tree self.old) }
    {
        self.held.retain(|held| path.is_above(held));
    }

    /// Sends a message.
    pub fn send(&mut self, alloc: Global, label: &Txt, value: Value, at: Span) -> Result<(), Stop>
        ensures changes { (tree : _) → Changes (sending label.now value (world_of tree self.old)) at (world_of tree self.old) result (world_of tree self.new) }
        ensures memory { WhereWanting result (length self.old.messages.items < MESSAGES) }
    {
        if self.messages.len() >= MESSAGES {
            return trap_at(TrapKind::Sends, at);
        }
        let label = label.copy(alloc)?;
        push(&mut self.messages, Message { label, value })?;
        Ok(())
    }

    /// Creates an event.
    pub fn spawn(&mut self, event: u16, args: Vec<Value>, at: Span) -> Result<(), Stop>
        requires { self.old.generation ≤ GENERATION }
        ensures changes { (tree : _) → Changes (spawning event args.items (world_of tree self.old)) at (world_of tree self.old) result (world_of tree self.new) }
        ensures memory { WhereWanting result ((self.old.generation < GENERATION) × length self.old.created.items < SPAWNS) }
    {
        if self.generation == GENERATION {
            return trap_at(TrapKind::Generation, at);
        }
        if self.created.len() >= SPAWNS {
            return trap_at(TrapKind::Spawns, at);
        }
        let call = Call {
            event,
            args: Seq::from_vec(args),
            generation: self.generation + 1,
        };
        push(&mut self.created, call)?;
        Ok(())
    }
}

/// A trap at a place.
pub fn trap_at(kind: TrapKind, at: Span) -> Result<(), Stop>
    ensures { result ≡ Err (Stop.Trapped (record { kind = kind; at = at })) }
{
    Err(Stop::Trapped(Trap { kind, at }))
}
