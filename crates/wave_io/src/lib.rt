//! Sources and sinks of bytes, whose faults are counted; whole reads and writes over them, and bytes held back before a sink; and the gate
//! before a segment.
#![tactic(auto)]

mod ends;
mod gate;
mod held;
mod memory;
mod room;
mod standard;
mod sure;
mod whole;

pub use ends::{Failed, Sink, Source};
pub use gate::{Gate, OpenGate};
pub use held::HeldBytes;
pub use memory::{MemSink, MemSource};
pub use room::HELD_BYTES;
pub use standard::{StdSink, StdSource};
pub use sure::{SureSink, SureSource};
pub use whole::{ReadError, read_all, write_all};
