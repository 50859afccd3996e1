//! What is counted of a run.

ghost use Rattle.std.specs.Prelude.{◌≡◌, ◌++◌, codes, IfOk, OnOk};
ghost use Rattle.std.specs.Fmt.{decimal};
ghost use Rattle.wave_gen.specs.Summary.{ended_so, tally, worth, total, entry, summary_text};

use itoa::Buffer;
use std::alloc::Global;
use wave_base::{EventResult, OutOfMemory, Outcome, Seq, Value};
use wave_text::put_bytes;

// How an event ended, where that is counted.
#[derive(Clone, Copy)]
enum CountedEnd {
    Replied,
    Trapped,
    Moved,
    Absent,
}

fn ended_so(outcome: &Outcome, ending: CountedEnd) -> bool
    ensures { result ≡ ended_so ending outcome.now }
{
    match outcome {
        Outcome::Reply(_) => matches!(ending, CountedEnd::Replied),
        Outcome::Trapped(_) => matches!(ending, CountedEnd::Trapped),
        Outcome::Moved(_, _) => matches!(ending, CountedEnd::Moved),
        Outcome::Absent(_) => matches!(ending, CountedEnd::Absent),
        Outcome::Done | Outcome::Shots(_) => false,
    }
}

// How many ended so.
fn tally(results: &[EventResult], ending: CountedEnd) -> usize
    ensures { result ≡ tally ending results.now }
{
    let mut count = 0;
    for ended in results {
        if ended_so(&ended.outcome, ending) {
            count += 1;
        }
    }
    count
}

// A whole number that was replied.
fn worth(outcome: &Outcome) -> i64
    ensures { result ≡ worth outcome.now }
{
    match outcome {
        Outcome::Reply(Value::Int(n)) => *n,
        _ => 0,
    }
}

// The exact sum of the whole numbers that were replied.
fn total(results: &[EventResult]) -> i128
    ensures { result ≡ total results.now }
{
    let mut total: i128 = 0;
    for ended in results {
        total += i128::from(worth(&ended.outcome));
    }
    total
}

// Appends a line with a name and a number.
fn put_entry(out: &mut Vec<u8>, name: &[u8], number: &str) -> Result<(), OutOfMemory>
    ensures { OnOk result (out.new.items ≡ out.old.items ++ entry name.now number.now) }
{
    put_bytes(out, name)?;
    put_bytes(out, b" ")?;
    put_bytes(out, number.as_bytes())?;
    put_bytes(out, b"\n")
}

// Appends a line with a name and a count.
fn put_count(out: &mut Vec<u8>, name: &[u8], n: usize) -> Result<(), OutOfMemory>
    ensures { OnOk result (out.new.items ≡ out.old.items ++ entry name.now (decimal n)) }
{
    let mut buffer = Buffer::new();
    put_entry(out, name, buffer.format(n))
}

/// The summary of a run, from the results of its events: how many there were, how they ended, and the exact sum of the whole
/// numbers that they replied.
pub fn summarize(alloc: Global, results: &[EventResult]) -> Result<Seq<u8>, OutOfMemory>
    ensures { IfOk result (λ text. text ≡ summary_text results.now) }
{
    let mut text = Vec::new(alloc);
    put_count(&mut text, b"events", results.len())?;
    put_count(&mut text, b"replies", tally(results, CountedEnd::Replied))?;
    put_count(&mut text, b"traps", tally(results, CountedEnd::Trapped))?;
    put_count(&mut text, b"moved", tally(results, CountedEnd::Moved))?;
    put_count(&mut text, b"absent", tally(results, CountedEnd::Absent))?;
    let mut buffer = Buffer::new();
    put_entry(&mut text, b"total", buffer.format(total(results)))?;
    Ok(Seq::from_vec(text))
}
