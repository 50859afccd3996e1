//! Rows by one worker and by many, whose output is the same; and the journal that stands behind it.

use super::rows::{Case, all_hold, holds, join, plain, ran_on, traps, works};
use super::services::{EDGE, TICK};
use std::alloc::Global;
use std::process::Abort;
use std::sync::Wait;
use std::test::Fail;
use std::thread::Threads;
use tests_services::{MARKET, MOVES, ONE_EVENT, TO_AND_FRO};
use wave_io::OpenGate;

/// What `MOVES` comes to, with places.
pub const MOVED: &[u8] =
    b"#1 buy = 7\n#1 send \"till\" 3\n#2 moved /Hall[1] to 1\n#3 buy = 6\n#3 send \"till\" 7\n#4 pair = 11\nplace / 0\nplace /Hall[1] 1\nplace /Hall[1]/Stall[1] 0\nplace /Hall[1]/Stall[2] 1\ndone 4\n";

/// What `TO_AND_FRO` comes to.
pub const WENT_TO_AND_FRO: &[u8] =
    b"#1 buy = 9\n#1 send \"till\" 1\n#2 moved /Hall[1] to 1\n#3 buy = 8\n#3 send \"till\" 2\n#4 moved /Hall[1] to 0\n#5 buy = 7\n#5 send \"till\" 3\n#6 moved /Hall[1] to 1\n#7 buy = 6\n#7 send \"till\" 4\ndone 7\n";

/// A script for the market: snapshots behind purchases.
pub const LOOKS: &[u8] = b"request buy(1,1,3)\nsnapshot\nrequest buy(1,2,4)\nsnapshot\n";

/// What it comes to.
pub const LOOKED: &[u8] =
    b"#1 buy = 7\n#1 send \"till\" 3\n#2 snapshot 3\n#2 at / seen=1\n#2 at /Hall[1] count=3\n#2 at /Hall[1]/Stall[1] stock=7\n#3 buy = 6\n#3 send \"till\" 7\n#4 snapshot 4\n#4 at / seen=2\n#4 at /Hall[1] count=7\n#4 at /Hall[1]/Stall[1] stock=7\n#4 at /Hall[1]/Stall[2] stock=6\ndone 4\n";

const BUMPS: &[u8] = b"request bump(1)\nsnapshot\n";

const BUMPED: &[u8] =
    b"#1 bump trap Overflow at 8:26\n#2 snapshot 2\n#2 at / seen=1\n#2 at /Hall[1] top=9223372036854775807\ndone 2\n";

#[test]
fn one_worker_or_many(rt: HostRuntime) -> Result<(), Fail> {
    let alloc = rt.alloc();
    for words in ["run --workers 1", "run --workers 4", "run --workers 16"] {
        let cases = [
            works(words, MARKET, TO_AND_FRO, WENT_TO_AND_FRO),
            works(words, MARKET, LOOKS, LOOKED),
        ];
        all_hold(&rt, alloc, cases.as_slice())?;
    }
    for words in [
        "run --map --workers 1",
        "run --map --workers 4",
        "run --map --workers 16",
    ] {
        all_hold(&rt, alloc, &[works(words, MARKET, MOVES, MOVED)])?;
    }
    Ok(())
}

// Whether a text is a journal of as many lines as its head tells.
fn is_journal(alloc: Global, text: &[u8]) -> Result<bool, Fail> {
    let feeds = text.iter().filter(|byte| **byte == b'\n').count();
    let head = format!(in alloc; "journal {}\n1 w", feeds.saturating_sub(1))?;
    Ok(text.starts_with(head.as_bytes()) && text.ends_with(b"\n"))
}

// A trace writes what `run` writes, and then a journal.
fn traces<R: Abort + Threads + Wait + Sync>(
    rt: &R,
    alloc: Global,
    case: &Case,
) -> Result<(), Fail> {
    let input = join(alloc, case.service, case.script)?;
    let (status, out) = ran_on(rt, alloc, case.words, input.as_slice(), &OpenGate)?;
    assert_eq!(rt; status, case.status);
    assert!(rt; out.bytes().starts_with(case.out));
    assert!(rt; is_journal(alloc, &out.bytes()[case.out.len()..])?);
    Ok(())
}

#[test]
fn journals(rt: HostRuntime) -> Result<(), Fail> {
    let alloc = rt.alloc();
    for words in [
        "trace --map --workers 1",
        "trace --map --workers 4",
        "trace --map --workers 16",
        "trace --map --schedule newest",
    ] {
        traces(&rt, alloc, &works(words, MARKET, MOVES, MOVED))?;
    }
    for words in ["trace", "trace --workers 1", "trace --schedule 3"] {
        traces(&rt, alloc, &works(words, MARKET, LOOKS, LOOKED))?;
        traces(&rt, alloc, &traps(words, EDGE, BUMPS, BUMPED))?;
    }
    Ok(())
}

/// A schedule has one journal.
#[test]
fn the_journal_of_a_schedule(rt: HostRuntime) -> Result<(), Fail> {
    let alloc = rt.alloc();
    let mut told = Vec::from_slice(alloc, b"#1 hit = 1\ndone 1\n")?;
    told.extend_from_slice(ONE_EVENT)?;
    holds(
        &rt,
        alloc,
        &plain("trace --schedule 0", TICK, 0, told.as_slice(), b""),
    )?;
    Ok(())
}
