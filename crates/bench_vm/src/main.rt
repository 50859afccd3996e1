//! An event that counts to a number in one segment, a tick each; and a plain loop with as many turns, beside it.
//!
//! The words are COUNT [RUNS]. Without RUNS it prints the event's reply. With RUNS it prints a line for each run: the
//! nanoseconds of the event, those of the plain loop, and what the loop came to.
#![tactic(auto)]

ghost use Rattle.std.specs.Prelude.{◌≡◌};
ghost use Rattle.service_vm.specs.Spin.{spin};

mod run;
mod spin;

use service_verify::{Verified, verify};
use std::alloc::Global;
use std::time::{Clock, Instant};
use std::{env, io};
use wave_base::{EventResult, Outcome, Pause, Value};

// A word of the command line, as a number.
fn number(word: Option<String>) -> Option<u32> {
    word?.as_str().parse::<u32>().ok()
}

// What the event replied.
fn print_reply<R: Print>(rt: &R, pause: Pause) -> io::Result<()> {
    match pause {
        Pause::Over(
            EventResult {
                outcome: Outcome::Reply(Value::Int(n)),
                messages: _,
                created: _,
            },
        ) => println!(rt; "reply {n}"),
        _ => println!(rt; "no reply"),
    }
}

// As many turns of a plain loop, each a step of a generator: a loop that only counted would be compiled away.
fn plain(count: u32) -> u64 {
    let mut x: u64 = 1;
    for _ in 0..count {
        x ^= x << 13;
        x ^= x >> 7;
        x ^= x << 17;
    }
    x
}

// Prints how long each took, run by run.
fn print_times<R: Print + Clock>(
    rt: &R,
    alloc: Global,
    program: &Verified,
    count: u32,
    runs: u32,
) -> io::Result<()>
    requires { program.now ≡ spin }
{
    for _ in 0..runs {
        let start = Instant::now(rt)?;
        let _ = run::count(alloc, program, i64::from(count));
        let event = start.elapsed(rt)?.as_nanos();
        let start = Instant::now(rt)?;
        let last = plain(count);
        let plain = start.elapsed(rt)?.as_nanos();
        println!(rt; "{event} {plain} {last}")?;
    }
    Ok(())
}

fn main(rt: HostRuntime) -> io::Result<()> {
    let mut words = env::args(&rt)?;
    words.next();
    let Some(count) = number(words.next()) else {
        return println!(rt; "words: COUNT [RUNS]");
    };
    let alloc = rt.alloc();
    let Ok(program) = spin::program(alloc) else {
        return println!(rt; "out of memory");
    };
    let Ok(program) = verify(alloc, program) else {
        return println!(rt; "not verified");
    };
    if let Some(runs) = number(words.next()) {
        return print_times(&rt, alloc, &program, count, runs);
    }
    match run::count(alloc, &program, i64::from(count)) {
        Ok(pause) => print_reply(&rt, pause),
        Err(_) => println!(rt; "out of memory"),
    }
}
