//! The script of an input, run by the code of its service. The one word is how often.
//!
//! Without a word it prints the listing. With a word it prints a line for each run: its nanoseconds.
#![tactic(auto)]

ghost use Rattle.wave_base.specs.Scripts.{IsScript};
ghost use Rattle.code_runner.specs.Coded.{IsCode};

use code_meaning::run_script;
use listing_out::write_listing;
use std::alloc::Global;
use std::time::{Clock, Instant};
use std::{env, io};
use tests_code::{Coded, coded_input};
use wave_base::INPUT_BYTES;
use wave_io::{Sink, StdSink, StdSource, read_all};

// A word of the command line, as a number.
fn number(word: Option<String>) -> Option<u32> {
    word?.as_str().parse::<u32>().ok()
}

// Writes the listing, and says whether it is whole.
fn write_results<K: Sink>(alloc: Global, out: &mut K, coded: &Coded) -> bool
    requires code { IsCode coded.now.typed.resolved coded.now.program }
    requires script { IsScript coded.now.program.shape coded.now.script }
{
    match run_script(alloc, &coded.program, &coded.typed.resolved, &coded.script) {
        Ok(done) => write_listing(alloc, out, &coded.program.program().shape, &done, false).is_ok(),
        Err(_) => false,
    }
}

// Prints how long each run takes.
fn print_times<R: Print + Clock>(rt: &R, alloc: Global, coded: &Coded, runs: u32) -> io::Result<()>
    requires code { IsCode coded.now.typed.resolved coded.now.program }
    requires script { IsScript coded.now.program.shape coded.now.script }
{
    for _ in 0..runs {
        let start = Instant::now(rt)?;
        let _ = run_script(alloc, &coded.program, &coded.typed.resolved, &coded.script);
        let took = start.elapsed(rt)?.as_nanos();
        println!(rt; "{took}")?;
    }
    Ok(())
}

fn main(rt: HostRuntime) -> io::Result<()> {
    let alloc = rt.alloc();
    let mut words = env::args(&rt)?;
    words.next();
    let runs = number(words.next());
    let mut input = StdSource::new(rt.stdin());
    let Ok(bytes) = read_all(alloc, &mut input, INPUT_BYTES) else {
        return println!(rt; "no input");
    };
    let Some(coded) = coded_input(alloc, bytes.as_slice()) else {
        return println!(rt; "no script of a service");
    };
    if let Some(runs) = runs {
        return print_times(&rt, alloc, &coded, runs);
    }
    let mut out = StdSink::new(rt.stdout());
    if !write_results(alloc, &mut out, &coded) {
        return println!(rt; "no listing");
    }
    Ok(())
}
