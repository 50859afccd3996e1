//! Scripts that are traced: the listing, and behind it the journal of the run.

use super::{Answer, due, has, join, without_mark};
use std::alloc::Global;
use std::process::Abort;
use std::test::Fail;
use tests_services::{ONE_EVENT, TICK, input_of};
use wave_base::OutOfMemory;

// It gives this listing, and behind it the one journal of one event, by the generator from 0.
fn gives(
    rt: &impl Abort,
    alloc: Global,
    answer: &Answer,
    status: u8,
    listing: &[u8],
) -> Result<(), OutOfMemory> {
    let text = join(alloc, &[listing, ONE_EVENT])?;
    has(rt, answer, status, b"", text.as_slice());
    Ok(())
}

#[test]
fn the_journal_stands_behind_the_listing(rt: HostRuntime) -> Result<(), Fail> {
    let alloc = rt.alloc();
    let input = input_of(alloc, TICK, b"request hit()\n")?;
    let input = input.as_slice();
    let unlisted = due(&rt, alloc, "trace --schedule 0", input)?;
    gives(&rt, alloc, &unlisted, 0, b"#1 hit = 1\ndone 1\n")?;
    let listed = due(&rt, alloc, "trace --schedule 0 --map", input)?;
    gives(&rt, alloc, &listed, 0, b"#1 hit = 1\nplace / 0\ndone 1\n")?;
    Ok(())
}

#[test]
fn a_trap_is_traced_too(rt: HostRuntime) -> Result<(), Fail> {
    let alloc = rt.alloc();
    let (column, input) = without_mark(
        alloc,
        b"service S { event e() { here { ^require 1 < 0; } } }\n----\nrequest e()\n",
    )?;
    assert_eq!(rt; column, 32);
    let input = input.as_slice();
    let seeded = due(&rt, alloc, "trace --schedule 0", input)?;
    gives(
        &rt,
        alloc,
        &seeded,
        1,
        b"#1 e trap Require at 1:32\ndone 1\n",
    )?;
    Ok(())
}

// Whatever picks the run.
fn refuses(
    rt: &impl Abort,
    alloc: Global,
    input: &[u8],
    status: u8,
    note: &[u8],
) -> Result<(), OutOfMemory> {
    for words in ["trace --schedule 7 --map", "trace --schedule oldest --map"] {
        let answer = due(rt, alloc, words, input)?;
        has(rt, &answer, status, note, b"");
    }
    Ok(())
}

#[test]
fn a_refusal_has_no_journal(rt: HostRuntime) -> Result<(), Fail> {
    let alloc = rt.alloc();
    let alone = b"service T { event e() { here { } } }\n";
    refuses(&rt, alloc, alone, 3, b"NoScript")?;
    let unknown = b"service T { event e() { here { } } }\n----\nrequest f()\n";
    refuses(&rt, alloc, unknown, 4, b"S2 UnknownEvent line 1")?;
    Ok(())
}
