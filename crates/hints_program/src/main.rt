//! What could stand where a service stops: reads the service from standard input, and writes a line where the grammar stops it.
#![tactic(auto)]

mod expected;
mod groups;
mod phrase;

use expected::expected_words;
use input_parts::parts_of;
use std::process::ExitCode;
use wave_base::INPUT_BYTES;
use wave_io::{StdSink, StdSource, read_all, write_all};

fn main(rt: HostRuntime) -> ExitCode {
    let alloc = rt.alloc();
    let mut input = StdSource::new(rt.stdin());
    let mut out = StdSink::new(rt.stdout());
    let Ok(bytes) = read_all(alloc, &mut input, INPUT_BYTES) else {
        return ExitCode::from(1);
    };
    let (text, _) = parts_of(bytes.as_slice());
    let Ok(line) = expected_words(alloc, text) else {
        return ExitCode::from(1);
    };
    match write_all(&mut out, line.as_slice()) {
        Ok(()) => ExitCode::from(0),
        Err(_) => ExitCode::from(1),
    }
}
