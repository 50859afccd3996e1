//! What an event sends and creates, which counts only once it has ended well.

ghost use Rattle.std.specs.Prelude.{◌≡◌, ◌≢◌, ◌↔◌, [], length, Err, IfErr, OnOk, OnErr};
ghost use Rattle.deferred_out.specs.Kept.{nothing, with_message, with_call, IsKept};
ghost use Rattle.deferred_out.specs.Refused.{message_of, call_of};

use std::alloc::Global;
use std::marker::Model;
use thiserror::Error;
use wave_base::{Call, GENERATION, MESSAGES, Message, OutOfMemory, SPAWNS, Seq};

/// Why a message was not kept. It comes back.
#[derive(Debug, Drop, Error)]
pub enum SendError {
    /// The event has sent `MESSAGES` messages.
    #[error("the event has sent all the messages that it may")]
    Sends(Message),
    /// No memory was left for it.
    #[error("out of memory")]
    OutOfMemory(Message, OutOfMemory),
}

/// Why a created call was not kept. It comes back.
#[derive(Debug, Drop, Error)]
pub enum SpawnError {
    /// The event is of the greatest generation, `GENERATION`.
    #[error("an event of the greatest generation creates none")]
    Generation(Call),
    /// The event has created `SPAWNS` calls.
    #[error("the event has created all the events that it may")]
    Spawns(Call),
    /// No memory was left for it.
    #[error("out of memory")]
    OutOfMemory(Call, OutOfMemory),
}

/// The messages and the created calls of an event, in order.
#[derive(Debug, Drop)]
pub struct Outputs {
    messages: Seq<Message>,
    created: Seq<Call>,
    alloc: Global,
}

impl Model for Outputs {
    ghost use Rattle.deferred_out.specs.Kept.{Kept, IsKept};

    ghost Value = { Kept };

    ghost view = { λ o. record { messages = o.messages; created = o.created } };

    ghost invariant = { λ o. IsKept (record { messages = o.messages; created = o.created }) };
}

impl Outputs {
    /// Nothing sent and nothing created.
    pub fn new(alloc: Global) -> Outputs
        ensures { result ≡ nothing }
    {
        Outputs {
            messages: Seq::new(alloc),
            created: Seq::new(alloc),
            alloc,
        }
    }

    /// Adds a message.
    pub fn send(&mut self, message: Message) -> Result<(), SendError>
        ensures ok { OnOk result (self.new ≡ with_message self.old message) }
        ensures err { OnErr result (self.new ≡ self.old) }
        ensures back { IfErr result (λ e. message_of e ≡ message) }
        ensures sends { (result ≡ Err (SendError.Sends message)) ↔ (length self.old.messages ≡ MESSAGES) }
    {
        if self.messages.len() == MESSAGES {
            return Err(SendError::Sends(message));
        }
        match self.messages.push(message) {
            Ok(()) => Ok(()),
            Err((message, refused)) => Err(SendError::OutOfMemory(message, refused)),
        }
    }

    /// Adds a call that an event of this generation creates.
    pub fn spawn(&mut self, generation: u8, call: Call) -> Result<(), SpawnError>
        ensures ok { OnOk result (self.new ≡ with_call self.old call) }
        ensures err { OnErr result (self.new ≡ self.old) }
        ensures back { IfErr result (λ e. call_of e ≡ call) }
        ensures generation { (result ≡ Err (SpawnError.Generation call)) ↔ (generation ≡ GENERATION) }
        ensures spawns { (result ≡ Err (SpawnError.Spawns call)) ↔ ((generation ≢ GENERATION) × (length self.old.created ≡ SPAWNS)) }
    {
        if generation == GENERATION {
            return Err(SpawnError::Generation(call));
        }
        if self.created.len() == SPAWNS {
            return Err(SpawnError::Spawns(call));
        }
        match self.created.push(call) {
            Ok(()) => Ok(()),
            Err((call, refused)) => Err(SpawnError::OutOfMemory(call, refused)),
        }
    }

    /// Throws both away.
    pub fn discard(&mut self)
        ensures { self.new ≡ nothing }
    {
        let _ = self.take();
    }

    /// Gives both, and keeps none.
    pub fn take(&mut self) -> (Seq<Message>, Seq<Call>)
        ensures messages { result.0 ≡ self.old.messages }
        ensures created { result.1 ≡ self.old.created }
        ensures nothing { self.new ≡ nothing }
        ensures few { IsKept self.old }
    {
        let messages = std::mem::replace(&mut self.messages, Seq::new(self.alloc));
        let created = std::mem::replace(&mut self.created, Seq::new(self.alloc));
        (messages, created)
    }
}
