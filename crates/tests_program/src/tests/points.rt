//! Checkpoints: a run whose point is saved, and runs that go on from one.

use super::rows::{Row, holds, join, plain, ran_on};
use std::alloc::Global;
use std::process::Abort;
use std::sync::Wait;
use std::test::Fail;
use std::thread::Threads;
use tests_services::{CHAIN, MARKET};
use wave_base::OutOfMemory;
use wave_io::OpenGate;

/// The lines of the point behind one sale.
const POINT: [&[u8]; 14] = [
    b"checkpoint 1\n",
    b"hosts 1 lines 1 next 2\n",
    b"classes 3\n",
    b"class Market - seen:int\n",
    b"class Hall Market count:int\n",
    b"class Stall Hall stock:int\n",
    b"snapshot 3\n",
    b"at / seen=1\n",
    b"at /Hall[1] count=3\n",
    b"at /Hall[1]/Stall[1] stock=7\n",
    b"place / 0\n",
    b"place /Hall[1] 0\n",
    b"place /Hall[1]/Stall[1] 0\n",
    b"end\n",
];

const SALE: &[u8] = b"request buy(1,1,3)\n";

const NEXT_SALE: &[u8] = b"request buy(1,2,4)\n";

const NEXT_LISTED: &[u8] = b"#2 buy = 6\n#2 send \"till\" 7\ndone 2\n";

// A service, a point behind a line of dashes, and a script behind another.
fn with_point(
    alloc: Global,
    service: &[u8],
    point: &[u8],
    script: &[u8],
) -> Result<Vec<u8>, OutOfMemory> {
    let mut input = join(alloc, service, point)?;
    input.extend_from_slice(b"----\n")?;
    input.extend_from_slice(script)?;
    Ok(input)
}

// The point with another line in the place of one, from 1.
fn point_with(alloc: Global, place: usize, line: &[u8]) -> Result<Vec<u8>, OutOfMemory> {
    let mut text = Vec::new(alloc);
    for (i, own) in POINT.iter().enumerate() {
        text.extend_from_slice(if i + 1 == place { line } else { own })?;
    }
    Ok(text)
}

fn point(alloc: Global) -> Result<Vec<u8>, OutOfMemory> {
    point_with(alloc, 0, b"")
}

// The status of a call, what it writes, and its note.
type Wanted<'a> = (u8, &'a [u8], &'a [u8]);

// A point is saved behind a script, or not.
fn saves<R: Abort + Threads + Wait + Sync>(
    rt: &R,
    alloc: Global,
    service: &[u8],
    script: &[u8],
    wanted: Wanted,
) -> Result<(), OutOfMemory> {
    let input = join(alloc, service, script)?;
    let row = plain("save", input.as_slice(), wanted.0, wanted.1, wanted.2);
    holds(rt, alloc, &row)
}

// A run goes on behind a point, or not.
fn resumes<R: Abort + Threads + Wait + Sync>(
    rt: &R,
    alloc: Global,
    service: &[u8],
    point: &[u8],
    script: &[u8],
    wanted: Wanted,
) -> Result<(), OutOfMemory> {
    let input = with_point(alloc, service, point, script)?;
    let row = plain("resume", input.as_slice(), wanted.0, wanted.1, wanted.2);
    holds(rt, alloc, &row)
}

// The same for the market, behind the point with another line in the place of one.
fn resumes_with<R: Abort + Threads + Wait + Sync>(
    rt: &R,
    alloc: Global,
    place: usize,
    line: &[u8],
    script: &[u8],
    wanted: Wanted,
) -> Result<(), OutOfMemory> {
    let point = point_with(alloc, place, line)?;
    resumes(rt, alloc, MARKET, point.as_slice(), script, wanted)
}

#[test]
fn a_point_is_saved(rt: HostRuntime) -> Result<(), Fail> {
    let alloc = rt.alloc();
    let saved = point(alloc)?;
    let input = join(alloc, MARKET, SALE)?;
    for words in ["save", "save --workers 1", "save --workers 16"] {
        holds(
            &rt,
            alloc,
            &plain(words, input.as_slice(), 0, saved.as_slice(), b""),
        )?;
    }
    let first =
        b"checkpoint 1\nhosts 1 lines 0 next 1\nclasses 3\nclass Market - seen:int\nclass Hall Market count:int\nclass Stall Hall stock:int\nsnapshot 1\nat / seen=0\nplace / 0\nend\n";
    saves(&rt, alloc, MARKET, b"", (0, first, b""))?;
    let moved = b"hosts 3\nmove / to 2\nrequest two()\nsnapshot\n";
    let behind =
        b"checkpoint 1\nhosts 3 lines 3 next 6\nclasses 1\nclass Chain - n:int\nsnapshot 1\nat / n=21\nplace / 2\nend\n";
    saves(&rt, alloc, CHAIN, moved, (0, behind, b""))?;
    Ok(())
}

#[test]
fn a_point_is_saved_where_an_event_traps(rt: HostRuntime) -> Result<(), Fail> {
    let alloc = rt.alloc();
    let service = b"service T { var n: int = 1; event e() { here { n = 5; require n < 0; } } }\n";
    let saved =
        b"checkpoint 1\nhosts 1 lines 1 next 2\nclasses 1\nclass T - n:int\nsnapshot 1\nat / n=5\nplace / 0\nend\n";
    saves(&rt, alloc, service, b"request e()\n", (1, saved, b""))?;
    // the run that goes on traps nowhere
    let listed = b"#2 snapshot 1\n#2 at / n=5\ndone 2\n";
    resumes(&rt, alloc, service, saved, b"snapshot\n", (0, listed, b""))?;
    Ok(())
}

// The market, the point behind one sale, and a script.
fn market_point(alloc: Global, script: &[u8]) -> Result<Vec<u8>, OutOfMemory> {
    let saved = point(alloc)?;
    with_point(alloc, MARKET, saved.as_slice(), script)
}

#[test]
fn a_run_goes_on(rt: HostRuntime) -> Result<(), Fail> {
    let alloc = rt.alloc();
    let input = market_point(alloc, NEXT_SALE)?;
    for words in [
        "resume",
        "resume --workers 1",
        "resume --workers 16",
        "resume --schedule 5",
        "resume --schedule movers --workers 2",
    ] {
        holds(
            &rt,
            alloc,
            &plain(words, input.as_slice(), 0, NEXT_LISTED, b""),
        )?;
    }
    let places =
        b"#2 buy = 6\n#2 send \"till\" 7\nplace / 0\nplace /Hall[1] 0\nplace /Hall[1]/Stall[1] 0\nplace /Hall[1]/Stall[2] 0\ndone 2\n";
    for words in ["resume --map", "resume --schedule 5 --map"] {
        holds(&rt, alloc, &plain(words, input.as_slice(), 0, places, b""))?;
    }
    resumes_with(&rt, alloc, 0, b"", b"", (0, b"done 1\n", b""))?;
    Ok(())
}

/// One line changed, and what is told of the point then.
const WRONG: [(usize, &[u8], &[u8]); 12] = [
    (1, b"checkpoint 2\n", b"K1 Syntax line 1\n"),
    (2, b"hosts 9 lines 1 next 2\n", b"K3 Tree line 2\n"),
    (2, b"hosts 1 lines 4001 next 2\n", b"K3 Tree line 2\n"),
    (2, b"hosts 1 lines 1 next 20000001\n", b"K3 Tree line 2\n"),
    (3, b"classes 4\n", b"K2 Service line 3\n"),
    (5, b"class Hall Market count:text\n", b"K2 Service line 5\n"),
    (6, b"class Stall Market stock:int\n", b"K2 Service line 6\n"),
    (7, b"snapshot 4\n", b"K1 Syntax line 7\n"),
    (9, b"at /Hall[1] count=x\n", b"K1 Syntax line 9\n"),
    (
        9,
        b"at /Hall[1] count=9223372036854775808\n",
        b"K3 Tree line 9\n",
    ),
    (12, b"place /Hall[1] 1\n", b"K3 Tree line 12\n"),
    (14, b"", b"K1 Syntax line 14\n"),
];

#[test]
fn a_point_is_refused(rt: HostRuntime) -> Result<(), Fail> {
    let alloc = rt.alloc();
    for (place, line, note) in &WRONG {
        resumes_with(&rt, alloc, *place, line, b"nonsense\n", (8, b"", *note))?;
    }
    let longer = b"end\n\n";
    let note = b"K1 Syntax line 15\n";
    resumes_with(&rt, alloc, 14, longer, b"", (8, b"", note))?;
    Ok(())
}

#[test]
fn refusals_of_a_resumed_script_in_order(rt: HostRuntime) -> Result<(), Fail> {
    let alloc = rt.alloc();
    let two = join(alloc, MARKET, SALE)?;
    holds(
        &rt,
        alloc,
        &plain("resume", two.as_slice(), 3, b"", b"NoScript\n"),
    )?;
    let late = b"S7 HostsLate line 1\n";
    resumes_with(&rt, alloc, 0, b"", b"hosts 1\n", (4, b"", late))?;
    let dashes = b"snapshot\n----\n";
    let unknown = b"S1 UnknownCommand line 2\n";
    resumes_with(&rt, alloc, 0, b"", dashes, (4, b"", unknown))?;
    let most = b"hosts 1 lines 3999 next 2\n";
    let many = b"snapshot\nsnapshot\n";
    resumes_with(&rt, alloc, 2, most, many, (4, b"", b"S8 TooMany line 2\n"))?;
    Ok(())
}

#[test]
fn a_resumed_script_may_be_too_large(rt: HostRuntime) -> Result<(), Fail> {
    let alloc = rt.alloc();
    let long = Vec::from_elem(alloc, b' ', 1_048_577)?;
    let large = market_point(alloc, long.as_slice())?;
    let row = plain("resume", large.as_slice(), 4, b"", b"TooLarge script\n");
    assert_eq!(rt;
        ran_on(&rt, alloc, row.words, row.input, &OpenGate)?.0,
        row.status
    );
    Ok(())
}

// A call fails at each read of 16 bytes, the last of which finds nothing left, and at each write of 4.
fn fails_at_each<R: Abort + Threads + Wait + Sync>(
    rt: &R,
    alloc: Global,
    words: &str,
    input: &[u8],
    out: &[u8],
) -> Result<(), OutOfMemory> {
    for failing_read in 1..(input.len() as u64).div_ceil(16) + 2 {
        let row = Row {
            failing_read,
            ..plain(words, input, 5, b"", b"ReadFault\n")
        };
        holds(rt, alloc, &row)?;
    }
    for failing_write in 1..(out.len() as u64).div_ceil(4) + 1 {
        let written = (failing_write as usize - 1) * 4;
        let row = Row {
            failing_write,
            ..plain(
                words,
                input,
                6,
                &out[..written.min(out.len())],
                b"WriteFault\n",
            )
        };
        holds(rt, alloc, &row)?;
    }
    Ok(())
}

#[test]
fn each_read_and_each_write_of_a_point_fails(rt: HostRuntime) -> Result<(), Fail> {
    let alloc = rt.alloc();
    let saved = point(alloc)?;
    let first = join(alloc, MARKET, SALE)?;
    fails_at_each(&rt, alloc, "save", first.as_slice(), saved.as_slice())?;
    let second = market_point(alloc, b"")?;
    fails_at_each(&rt, alloc, "resume", second.as_slice(), b"done 1\n")?;
    Ok(())
}

// The market, and a script of these two batches.
fn in_batches(alloc: Global, one: &[u8], other: &[u8]) -> Result<Vec<u8>, OutOfMemory> {
    let mut input = join(alloc, MARKET, one)?;
    input.extend_from_slice(b"settle\n")?;
    input.extend_from_slice(other)?;
    Ok(input)
}

/// A script cut where a batch ends: the point behind the first half, and the run of the second from there, give what the whole gives.
#[test]
fn two_halves_are_the_whole(rt: HostRuntime) -> Result<(), Fail> {
    let alloc = rt.alloc();
    let one: &[u8] = b"hosts 2\nrequest buy(1,1,3)\nmove /Hall[1] to 1\nrequest pair(1)\n";
    let other: &[u8] =
        b"request buy(2,1,4)\nmove /Hall[1]/Stall[1] to 1\nrequest pair(1)\nsnapshot\n";
    let whole = in_batches(alloc, one, other)?;
    let (_, listed) = ran_on(&rt, alloc, "run --map", whole.as_slice(), &OpenGate)?;
    let first = join(alloc, MARKET, one)?;
    let (_, saved) = ran_on(&rt, alloc, "save", first.as_slice(), &OpenGate)?;
    let second = with_point(alloc, MARKET, saved.bytes(), other)?;
    for words in [
        "resume --map",
        "resume --map --workers 1",
        "resume --map --schedule 3",
    ] {
        let (status, rest) = ran_on(&rt, alloc, words, second.as_slice(), &OpenGate)?;
        assert_eq!(rt; status, 0);
        assert!(rt; listed.bytes().ends_with(rest.bytes()));
        assert!(rt; rest.bytes().starts_with(b"#4 buy"));
    }
    Ok(())
}
