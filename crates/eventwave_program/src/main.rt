//! Runs a service: reads a service and a script from standard input, and writes what its events answer.
#![tactic(auto)]

use eventwave::start;
use std::env;
use std::process::ExitCode;
use wave_base::{OutOfMemory, Words};
use wave_io::{OpenGate, StdSink, StdSource};

/// The words after the program's name. Where they can't be had, or one is no text, there are none, which is no command.
fn words_given(rt: &HostRuntime) -> Result<Words, OutOfMemory> {
    let mut words = Words::new(rt.alloc());
    match env::args(rt) {
        Ok(args) => {
            for arg in args.skip(1) {
                words.push(arg.as_str())?;
            }
        }
        Err(error) => {
            if let Some(refused) = OutOfMemory::of_stream(error.kind()) {
                return Err(refused);
            }
        }
    }
    Ok(words)
}

fn main(rt: HostRuntime) -> ExitCode {
    let words = words_given(&rt);
    let mut input = StdSource::new(rt.stdin());
    let mut out = StdSink::new(rt.stdout());
    let mut notes = StdSink::new(rt.stderr());
    let status = start(
        &rt,
        rt.alloc(),
        words,
        &mut input,
        &mut out,
        &mut notes,
        &OpenGate,
    );
    ExitCode::from(status)
}
