//! Bytes held back before a sink, so that many small pieces go out in one write.
ghost use Rattle.std.specs.Prelude.{◌≡◌, [], ◌++◌, true, false, OnOk, OnErr, IfOk};
ghost use Rattle.wave_io.specs.Causes.{HasCause};
ghost use Rattle.wave_io.specs.Held.{Takes, TakesFront};

use crate::ends::{Failed, Sink};
use crate::room::HELD_BYTES;
use crate::whole::{write_all, write_front};
use std::alloc::Global;
use std::marker::Model;
use wave_base::OutOfMemory;

/// Bytes on their way to a sink, which is the same one at each call. The memory for them is taken when this is made, and none later.
///
/// What is still held when this is dropped reaches no sink: `flush` comes last.
#[derive(Debug, Drop)]
pub struct HeldBytes {
    bytes: Vec<u8>,
    // so many of them have reached the sink
    sent: usize,
}

impl Model for HeldBytes {
    ghost use Rattle.std.specs.Prelude.{List, ℕ, length, drop, vec_capacity};
    ghost use Rattle.wave_io.specs.Held.{IsInRoom};

    ghost Value = { List ℕ };

    ghost view = { λ h. drop h.sent h.bytes.items };

    ghost invariant = { λ h. IsInRoom h.sent (length h.bytes.items) (vec_capacity h.bytes) };
}

impl HeldBytes {
    /// Nothing is held yet.
    pub fn new(alloc: Global) -> Result<HeldBytes, OutOfMemory>
        ensures { IfOk result (λ held. held ≡ []) }
    {
        let bytes = Vec::with_capacity(alloc, HELD_BYTES)?;
        Ok(HeldBytes { bytes, sent: 0 })
    }

    // Holds the bytes too, where there is room for them.
    fn hold(&mut self, bytes: &[u8]) -> bool
        ensures held { result ≡ true → self.new ≡ self.old ++ bytes.now }
        ensures not_held { result ≡ false → self.new ≡ self.old }
    {
        if bytes.len() > HELD_BYTES - self.bytes.len() {
            return false;
        }
        self.bytes.extend_from_slice(bytes).unwrap();
        true
    }

    /// Takes all of the bytes, or a front of them where the sink fails. What was held reaches the sink before them; they are held where
    /// there is room for them, and are written else.
    pub fn write_all<K: Sink>(&mut self, sink: &mut K, bytes: &[u8]) -> Result<(), Failed>
        ensures ok { OnOk result (Takes self.old self.new (K.written sink.old) (K.written sink.new) bytes.now) }
        ensures err { OnErr result (TakesFront self.old self.new (K.written sink.old) (K.written sink.new) bytes.now) }
        ensures cause { HasCause (K.faults sink.old) (K.faults sink.new) result }
    {
        if self.hold(bytes) {
            return Ok(());
        }
        self.flush(sink)?;
        if self.hold(bytes) {
            return Ok(());
        }
        write_all(sink, bytes)
    }

    /// Writes all that is held, or a front of it where the sink fails: the rest is still held then.
    pub fn flush<K: Sink>(&mut self, sink: &mut K) -> Result<(), Failed>
        ensures ok { OnOk result (self.new ≡ []) }
        ensures bytes { Takes self.old self.new (K.written sink.old) (K.written sink.new) [] }
        ensures cause { HasCause (K.faults sink.old) (K.faults sink.new) result }
    {
        match write_front(sink, &self.bytes.as_slice()[self.sent..]) {
            Ok(()) => {
                self.bytes.clear();
                self.sent = 0;
                Ok(())
            }
            Err(n) => {
                self.sent += n;
                Err(Failed)
            }
        }
    }
}
