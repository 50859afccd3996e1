//! What the tests ask of a sink.

use std::process::Abort;
use wave_io::MemSink;

// These bytes were written.
pub(super) fn has_written(rt: &impl Abort, sink: &MemSink, bytes: &[u8]) {
    assert!(rt; sink.bytes() == bytes);
}

// What was written is a front of these bytes.
pub(super) fn has_a_front(rt: &impl Abort, sink: &MemSink, bytes: &[u8]) {
    assert!(rt; bytes.starts_with(sink.bytes()));
}
