//! Journals that are replayed.

use super::rows::{holds, plain, ran_on};
use super::services::TICK;
use std::alloc::Global;
use std::process::Abort;
use std::sync::Wait;
use std::test::Fail;
use std::thread::Threads;
use tests_services::{CHAIN, MARKET, ONE_EVENT};
use wave_base::OutOfMemory;
use wave_io::OpenGate;

/// What the machine is after so many of its labels.
const SHOWN: [(&str, &[u8]); 6] = [
    (
        "replay 0",
        b"run 7 finished\nstep 0 admitted 0 committed 0\nowner / 0\n",
    ),
    (
        "replay 1",
        b"run 7 finished\nstep 1 admitted 1 committed 0\nowner / 0\n",
    ),
    (
        "replay 4",
        b"run 7 finished\nstep 4 admitted 1 committed 0\nowner / 0\n",
    ),
    (
        "replay 4 --workers 1",
        b"run 7 finished\nstep 4 admitted 1 committed 0\nowner / 0\n",
    ),
    (
        "replay 6",
        b"run 7 finished\nstep 6 admitted 1 committed 1\nowner / 0\n",
    ),
    (
        "replay 18446744073709551615",
        b"run 7 finished\nstep 7 admitted 1 committed 1\nowner / 0\n",
    ),
];

/// Journals that are no run, and what is told of each.
const WRONG: [(&[u8], &[u8]); 4] = [
    (
        b"journal 3\n1 w0 h0 Admit #1\n2 w0 h0 Queue #1.1 /\n3 w0 h0 Start #1 /\n",
        b"refused 3\nenabled 1\nw0 h0 Grant #1 /\n",
    ),
    (
        b"journal 1\n1 w200 h0 Admit #1\n",
        b"refused 1\nenabled 1\nw0 h0 Admit #1\n",
    ),
    (
        b"journal 1\n1 w0 h0 Admit #2\n",
        b"refused 1\nenabled 1\nw0 h0 Admit #1\n",
    ),
    (
        b"journal 5\n1 w0 h0 Admit #1\n2 w0 h0 Queue #1.1 /\n3 w0 h0 Grant #1 /\n4 w0 h0 Start #1 /\n5 w1 h0 Stop #1 /\n",
        b"refused 5\nenabled 1\nw0 h0 Stop #1 /\n",
    ),
];

// An input with a journal behind it.
fn with_journal(alloc: Global, input: &[u8], journal: &[u8]) -> Result<Vec<u8>, OutOfMemory> {
    let mut text = Vec::from_slice(alloc, input)?;
    text.extend_from_slice(b"----\n")?;
    text.extend_from_slice(journal)?;
    Ok(text)
}

#[test]
fn the_machine_is_shown(rt: HostRuntime) -> Result<(), Fail> {
    let alloc = rt.alloc();
    let mut request = Vec::from_slice(alloc, TICK)?;
    request.push(b'\n')?;
    let input = with_journal(alloc, request.as_slice(), ONE_EVENT)?;
    for (words, out) in SHOWN {
        holds(&rt, alloc, &plain(words, input.as_slice(), 0, out, b""))?;
    }
    let none = with_journal(alloc, request.as_slice(), b"journal 0\n")?;
    let first = b"run 0 unfinished\nstep 0 admitted 0 committed 0\nowner / 0\n";
    holds(
        &rt,
        alloc,
        &plain("replay 9", none.as_slice(), 0, first, b""),
    )?;
    Ok(())
}

#[test]
fn a_label_that_is_not_enabled_is_told(rt: HostRuntime) -> Result<(), Fail> {
    let alloc = rt.alloc();
    let mut request = Vec::from_slice(alloc, TICK)?;
    request.push(b'\n')?;
    for (journal, out) in WRONG {
        let input = with_journal(alloc, request.as_slice(), journal)?;
        holds(
            &rt,
            alloc,
            &plain("replay 1", input.as_slice(), 11, out, b"Refused\n"),
        )?;
    }
    Ok(())
}

#[test]
fn refusals_before_a_replay_in_order(rt: HostRuntime) -> Result<(), Fail> {
    let alloc = rt.alloc();
    let mut request = Vec::from_slice(alloc, TICK)?;
    request.push(b'\n')?;
    let input = request.as_slice();
    holds(&rt, alloc, &plain("replay 4", input, 3, b"", b"NoScript\n"))?;
    for (journal, note) in [
        (
            b"journal 2\n1 w0 h0 Admit #1\n".as_slice(),
            b"J1 Syntax line 1\n".as_slice(),
        ),
        (b"journal 1\n2 w0 h0 Admit #1\n", b"J1 Syntax line 2\n"),
        (b"", b"J1 Syntax line 1\n"),
    ] {
        let wrong = with_journal(alloc, input, journal)?;
        holds(
            &rt,
            alloc,
            &plain("replay 4", wrong.as_slice(), 10, b"", note),
        )?;
    }
    let script = b"service T { event e() { here { } } }\n----\nrequest f()\n----\nnonsense\n";
    holds(
        &rt,
        alloc,
        &plain("replay 4", script, 4, b"", b"S2 UnknownEvent line 1\n"),
    )?;
    holds(&rt, alloc, &plain("replay", input, 2, b"", b"words\n"))?;
    Ok(())
}

// The journal of a traced script, replayed by as many workers, is a finished run.
fn is_finished<R: Abort + Threads + Wait + Sync>(
    rt: &R,
    alloc: Global,
    input: &[u8],
    crew: &str,
) -> Result<(), Fail> {
    let traced = format!(in alloc; "trace {crew}")?;
    let (_, told) = ran_on(rt, alloc, traced.as_str(), input, &OpenGate)?;
    let at = told
        .bytes()
        .windows(8)
        .position(|bytes| bytes == b"journal ".as_slice());
    let journal = told.bytes().get(at.unwrap_or(0)..).unwrap_or(b"");
    let text = with_journal(alloc, input, journal)?;
    let replayed = format!(in alloc; "replay 7 {crew}")?;
    let (status, shown) = ran_on(rt, alloc, replayed.as_str(), text.as_slice(), &OpenGate)?;
    let first = shown
        .bytes()
        .split(|byte| *byte == b'\n')
        .next()
        .unwrap_or(b"");
    assert_eq!(rt; status, 0);
    assert!(rt; first.ends_with(b" finished"));
    Ok(())
}

#[test]
fn what_is_traced_is_finished(rt: HostRuntime) -> Result<(), Fail> {
    let alloc = rt.alloc();
    let mut moves = Vec::from_slice(alloc, MARKET)?;
    moves.extend_from_slice(
        b"----\nhosts 3\nrequest buy(1,1,3)\nmove /Hall[1] to 1\nrequest pair(1)\nsettle\nmove /Hall[1]/Stall[1] to 2\nsnapshot\nrequest pair(1)\n",
    )?;
    let mut chain = Vec::from_slice(alloc, CHAIN)?;
    chain.extend_from_slice(b"----\nrequest two()\nrequest one()\n")?;
    for input in [moves.as_slice(), chain.as_slice()] {
        for crew in ["--workers 1", "--workers 4", "--workers 16"] {
            is_finished(&rt, alloc, input, crew)?;
        }
    }
    Ok(())
}
