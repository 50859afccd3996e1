//! Sources and sinks in memory that fail where a test says so.

ghost use Rattle.std.specs.Prelude.{◌≡◌, ◌-◌, ◌<◌, ◌≤◌, ◌⊎◌, ◌↔◌, min, [], length, Some, OnOk, OnErr, IfOk, IsErr, Contains};
ghost use Rattle.std.specs.Io.{ReadsAtMost};
ghost use Rattle.std.specs.Io.KnownBytes.{ReadConsumes, WriteAppends};
ghost use Rattle.wave_io.specs.Causes.{HasCause, raised_count};

use crate::ends::{Failed, Sink, Source};
use crate::sure::fill;
use std::alloc::Global;
use std::marker::Model;
use wave_base::{OutOfMemory, Seq};

/// Bytes in memory, given at most `most` at a time, where the calls with the numbers of a list fail.
///
/// Calls are numbered from 1, and the number stays where it has come to the last value of its type.
#[derive(Debug, Drop)]
pub struct MemSource {
    bytes: Seq<u8>,
    at: usize,
    most: usize,
    failing: Seq<u64>,
    calls: u64,
    faults: u64,
}

impl Model for MemSource {
    ghost use Rattle.std.specs.Prelude.{◌<◌, ◌≤◌, length, drop};
    ghost use Rattle.wave_io.specs.Memory.{Supply};

    ghost Value = { Supply };

    ghost view = { λ s. record { left = drop s.at s.bytes; most = s.most; failing = s.failing; calls = s.calls; faults = s.faults } };

    ghost invariant = { λ s. (s.at ≤ length s.bytes) × (0 < s.most) };
}

impl MemSource {
    /// A source of these bytes.
    pub fn new(bytes: Seq<u8>, most: usize, failing: Seq<u64>) -> MemSource
        requires { 0 < most }
        ensures { result ≡ record { left = bytes; most = most; failing = failing; calls = 0; faults = 0 } }
    {
        MemSource {
            bytes,
            at: 0,
            most,
            failing,
            calls: 0,
            faults: 0,
        }
    }
}

impl Source for MemSource {
    ghost left = { λ s. Some s.left };

    ghost faults = { λ s. s.faults };

    #[tactic(auto, using(crate::proofs::StreamLemmas::next_bytes))]
    fn read(&mut self, buf: &mut [u8]) -> Result<usize, Failed>
        requires { 0 < length buf.old }
        ensures bound { ReadsAtMost result buf.new }
        ensures bytes { ReadConsumes (Some self.old.left) (Some self.new.left) result buf.new }
        ensures cause { HasCause self.old.faults self.new.faults result }

        // It fails exactly at the calls of the list, and else gives as much as it may.
        ensures failed { IsErr result ↔ Contains self.old.failing (raised_count self.old.calls) }
        ensures count { IfOk result (λ n. n ≡ min (min (length buf.old) self.old.most) (length self.old.left)) }
        ensures calls { self.new.calls ≡ raised_count self.old.calls }
        ensures same { (self.new.most ≡ self.old.most) × (self.new.failing ≡ self.old.failing) }
        ensures on_err { OnErr result (self.new.faults ≡ raised_count self.old.faults) }
        ensures on_ok { OnOk result (self.new.faults ≡ self.old.faults) }
    {
        self.calls = self.calls.saturating_add(1);
        if self.failing.as_slice().contains(&self.calls) {
            self.faults = self.faults.saturating_add(1);
            return Err(Failed);
        }
        let n = fill(buf, &self.bytes.as_slice()[self.at..], self.most);
        self.at += n;
        Ok(n)
    }
}

/// Room in memory for bytes, taken at most `most` at a time, where the calls with the numbers of a list fail.
///
/// Calls are numbered from 1, and the number stays where it has come to the last value of its type.
#[derive(Debug, Drop)]
pub struct MemSink {
    bytes: Vec<u8>,
    room: usize,
    most: usize,
    failing: Seq<u64>,
    calls: u64,
    faults: u64,
}

impl Model for MemSink {
    ghost use Rattle.std.specs.Prelude.{◌<◌, ◌≤◌, length, vec_capacity};
    ghost use Rattle.wave_io.specs.Memory.{Room, IsReserved};

    ghost Value = { Room };

    ghost view = { λ s. record { written = s.bytes.items; room = s.room; most = s.most; failing = s.failing; calls = s.calls; faults = s.faults } };

    ghost invariant = { λ s. IsReserved s.most (length s.bytes.items) s.room (vec_capacity s.bytes) };
}

impl MemSink {
    /// A sink with room for so many bytes. It takes the memory for them now, and none later.
    pub fn new(
        alloc: Global,
        room: usize,
        most: usize,
        failing: Seq<u64>,
    ) -> Result<MemSink, OutOfMemory>
        requires { 0 < most }
        ensures { IfOk result (λ s. s ≡ record { written = []; room = room; most = most; failing = failing; calls = 0; faults = 0 }) }
    {
        let bytes = Vec::with_capacity(alloc, room)?;
        Ok(MemSink {
            bytes,
            room,
            most,
            failing,
            calls: 0,
            faults: 0,
        })
    }

    /// What was written.
    pub fn bytes(&self) -> &[u8]
        ensures { result.now ≡ self.now.written }
    {
        self.bytes.as_slice()
    }
}

impl Sink for MemSink {
    ghost written = { λ s. Some s.written };

    ghost faults = { λ s. s.faults };

    fn write(&mut self, piece: &[u8]) -> Result<usize, Failed>
        requires { 0 < length piece.now }
        ensures bound { IfOk result (λ n. (0 < n) × (n ≤ length piece.now)) }
        ensures bytes { WriteAppends (Some self.old.written) (Some self.new.written) result piece.now }
        ensures cause { HasCause self.old.faults self.new.faults result }

        // It fails exactly at the calls of the list and where no room is left, and else takes as much as it may.
        ensures failed { IsErr result ↔ ((self.old.room ≤ length self.old.written) ⊎ Contains self.old.failing (raised_count self.old.calls)) }
        ensures count { IfOk result (λ n. n ≡ min (min (length piece.now) self.old.most) (self.old.room - length self.old.written)) }
        ensures calls { self.new.calls ≡ raised_count self.old.calls }
        ensures same { (self.new.room ≡ self.old.room) × (self.new.most ≡ self.old.most) × (self.new.failing ≡ self.old.failing) }
        ensures on_err { OnErr result (self.new.faults ≡ raised_count self.old.faults) }
        ensures on_ok { OnOk result (self.new.faults ≡ self.old.faults) }
    {
        self.calls = self.calls.saturating_add(1);
        let free = self.room - self.bytes.len();
        if free == 0 || self.failing.as_slice().contains(&self.calls) {
            self.faults = self.faults.saturating_add(1);
            return Err(Failed);
        }
        let n = piece.len().min(self.most).min(free);
        self.bytes.extend_from_slice(&piece[..n]).unwrap();
        Ok(n)
    }
}
