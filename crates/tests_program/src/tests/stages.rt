//! Scripts with policies, which are run piece by piece.

use super::rows::{Case, all_hold, break_call, holds, join, plain, refuses};
use super::services::EDGE;
use std::alloc::Global;
use std::process::Abort;
use std::sync::Wait;
use std::test::Fail;
use std::thread::Threads;
use tests_services::{CHAIN, MARKET};
use wave_base::OutOfMemory;

/// Who runs a script, without the places and with them.
const ENGINES: [(&str, &str); 5] = [
    ("seq", "seq --map"),
    ("run --workers 1", "run --workers 1 --map"),
    ("run --workers 4", "run --workers 4 --map"),
    ("run --workers 16", "run --workers 16 --map"),
    ("run --schedule 5", "run --schedule 5 --map"),
];

/// A script with policies: what runs on which service, its status, the lines of its events, its places, and the last line.
#[derive(Clone, Copy)]
struct Staged<'a> {
    service: &'a [u8],
    script: &'a [u8],
    status: u8,
    lines: &'a [u8],
    places: &'a [u8],
    last: &'a [u8],
}

/// Loads of 3, 2 and four times 1 on one host: what goes is the root, and then a hall.
const BALANCED: Staged = Staged {
    service: MARKET,
    script: b"hosts 2
request buy(1,1,1)
request buy(1,2,1)
request buy(2,1,1)
settle
balance by 2
request buy(1,1,1)
",
    status: 0,
    lines: b"#1 buy = 9
#1 send \"till\" 1
#2 buy = 9
#2 send \"till\" 2
#3 buy = 9
#3 send \"till\" 1
#4 moved / to 1
#5 moved /Hall[1] to 1
#6 buy = 8
#6 send \"till\" 3
",
    places: b"place / 1
place /Hall[1] 1
place /Hall[1]/Stall[1] 0
place /Hall[1]/Stall[2] 0
place /Hall[2] 0
place /Hall[2]/Stall[1] 0
",
    last: b"done 6\n",
};

/// A host is left by all its contexts; a part without lines loads nothing, so that a balance behind it moves nothing.
const DRAINED: Staged = Staged {
    service: MARKET,
    script: b"hosts 2
request buy(1,1,3)
settle
drain 0 to 1
settle
balance by 5
request buy(1,1,1)
",
    status: 0,
    lines: b"#1 buy = 7
#1 send \"till\" 3
#2 moved / to 1
#3 moved /Hall[1] to 1
#4 moved /Hall[1]/Stall[1] to 1
#5 buy = 6
#5 send \"till\" 4
",
    places: b"place / 1
place /Hall[1] 1
place /Hall[1]/Stall[1] 1
",
    last: b"done 5\n",
};

/// The second balance has the loads of the part before it alone, 1 and 2; with those of the first part too, a hall would go.
const LOADED: Staged = Staged {
    service: MARKET,
    script: b"hosts 2
request buy(1,1,1)
request buy(1,1,1)
request buy(2,1,1)
settle
balance by 1
request buy(2,1,1)
settle
balance by 1
snapshot
",
    status: 0,
    lines: b"#1 buy = 9
#1 send \"till\" 1
#2 buy = 8
#2 send \"till\" 2
#3 buy = 9
#3 send \"till\" 1
#4 moved / to 1
#5 buy = 8
#5 send \"till\" 2
#6 snapshot 5
#6 at / seen=4
#6 at /Hall[1] count=2
#6 at /Hall[1]/Stall[1] stock=8
#6 at /Hall[2] count=2
#6 at /Hall[2]/Stall[1] stock=8
",
    places: b"place / 1
place /Hall[1] 0
place /Hall[1]/Stall[1] 0
place /Hall[2] 0
place /Hall[2]/Stall[1] 0
",
    last: b"done 6\n",
};

/// The moves of a policy are no load for the next one: the root counts 2, as its hall.
const UNMOVED: Staged = Staged {
    service: MARKET,
    script: b"hosts 2
request buy(1,1,1)
settle
drain 0 to 1
request buy(2,1,1)
request buy(2,2,1)
settle
balance by 3
",
    status: 0,
    lines: b"#1 buy = 9
#1 send \"till\" 1
#2 moved / to 1
#3 moved /Hall[1] to 1
#4 moved /Hall[1]/Stall[1] to 1
#5 buy = 9
#5 send \"till\" 1
#6 buy = 9
#6 send \"till\" 2
#7 moved / to 0
#8 moved /Hall[2]/Stall[1] to 0
",
    places: b"place / 0
place /Hall[1] 1
place /Hall[1]/Stall[1] 1
place /Hall[2] 1
place /Hall[2]/Stall[1] 0
place /Hall[2]/Stall[2] 1
",
    last: b"done 8\n",
};

/// An event of the first piece traps, and none behind it.
const TRAPPED_FIRST: Staged = Staged {
    service: EDGE,
    script: b"hosts 2\nrequest bump(1)\nsettle\ndrain 0 to 1\nsnapshot\n",
    status: 1,
    lines: b"#1 bump trap Overflow at 8:26
#2 moved / to 1
#3 moved /Hall[1] to 1
#4 snapshot 2
#4 at / seen=1
#4 at /Hall[1] top=9223372036854775807
",
    places: b"place / 1\nplace /Hall[1] 1\n",
    last: b"done 4\n",
};

/// An event of the last piece traps, and none before it.
const TRAPPED_LAST: Staged = Staged {
    service: EDGE,
    script: b"hosts 2\nsnapshot\nsettle\ndrain 0 to 1\nrequest bump(1)\n",
    status: 1,
    lines: b"#1 snapshot 1
#1 at / seen=0
#2 moved / to 1
#3 bump trap Overflow at 8:26
",
    places: b"place / 1\nplace /Hall[1] 1\n",
    last: b"done 3\n",
};

/// Events that are created have their tickets behind those of the pieces before.
const CREATED: Staged = Staged {
    service: CHAIN,
    script: b"hosts 2\nrequest two()\nsettle\ndrain 0 to 1\nrequest two()\n",
    status: 0,
    lines: b"#1 two = 1
#1 made #2
#1 made #3
#2 one = 11
#3 one = 21
#4 moved / to 1
#5 two = 22
#5 made #6
#5 made #7
#6 one = 32
#7 one = 42
",
    places: b"place / 1\n",
    last: b"done 7\n",
};

/// A policy with nothing before it finds no load, and nothing is run.
const EMPTY: Staged = Staged {
    service: CHAIN,
    script: b"balance by 0007\n",
    status: 0,
    lines: b"",
    places: b"place / 0\n",
    last: b"done 0\n",
};

/// A service with a loop, whose events create none.
const TOWN: &[u8] = b"service Town {
  var built: int = 0;
  context House[int] { var rooms: int = 1; method build() { rooms = rooms + 1; } }
  event build(a: int, b: int): int {
    here { for i in a to b { House[i].build(); } built = built + b - a; }
    reply built;
  }
  event add(i: int): int { down House[i] { rooms = rooms + 1; } reply rooms; }
}
";

/// A service with a loop, in which an event creates others.
const MILL: &[u8] = b"service Mill {
  var ground: int = 0;
  context Stone[int] { var turns: int = 0; }
  event grind(s: int, n: int): int {
    here { for i in 0 to n { spawn turn(s); } }
    down Stone[s] { turns = turns + 1; }
    reply turns;
  }
  event turn(s: int): int { down Stone[s] { turns = turns + 10; } reply turns; }
}
";

/// No batch has two events, so that only one worker could ever run at a time, though the service has a loop.
const SINGLE: Staged = Staged {
    service: TOWN,
    script: b"hosts 2
request build(0,3)
settle
request add(1)
settle
balance by 1
request add(1)
settle
drain 0 to 1
snapshot
",
    status: 0,
    lines: b"#1 build = 3
#2 add = 3
#3 moved / to 1
#4 add = 4
#5 moved /House[0] to 1
#6 moved /House[1] to 1
#7 moved /House[2] to 1
#8 snapshot 4
#8 at / built=3
#8 at /House[0] rooms=2
#8 at /House[1] rooms=4
#8 at /House[2] rooms=2
",
    places: b"place / 1
place /House[0] 1
place /House[1] 1
place /House[2] 1
",
    last: b"done 8\n",
};

/// Batches of two events and pieces of moves or of one event by turns.
const BY_TURNS: Staged = Staged {
    service: TOWN,
    script: b"hosts 3
request build(0,2)
request add(1)
settle
balance by 1
request add(0)
request add(1)
settle
drain 1 to 2
request add(0)
settle
balance by 4
snapshot
request build(1,3)
settle
drain 0 to 1
request add(2)
",
    status: 0,
    lines: b"#1 build = 2
#2 add = 3
#3 moved / to 1
#4 add = 3
#5 add = 4
#6 moved / to 2
#7 add = 4
#8 snapshot 3
#8 at / built=2
#8 at /House[0] rooms=4
#8 at /House[1] rooms=4
#9 build = 4
#10 moved /House[0] to 1
#11 moved /House[1] to 1
#12 add = 3
",
    places: b"place / 2
place /House[0] 1
place /House[1] 1
place /House[2] 2
",
    last: b"done 12\n",
};

/// The one event of a batch creates others, which workers share.
const CREATED_BY_ONE: Staged = Staged {
    service: MILL,
    script: b"hosts 2
request grind(1,2)
settle
balance by 1
request grind(2,1)
settle
drain 0 to 1
request turn(1)
",
    status: 0,
    lines: b"#1 grind = 1
#1 made #2
#1 made #3
#2 turn = 11
#3 turn = 21
#4 moved / to 1
#5 grind = 1
#5 made #6
#6 turn = 11
#7 moved /Stone[1] to 1
#8 turn = 31
",
    places: b"place / 1
place /Stone[1] 1
place /Stone[2] 1
",
    last: b"done 8\n",
};

// The lines of the events, the places or none, and the last line.
fn listing_of(alloc: Global, staged: &Staged, places: &[u8]) -> Result<Vec<u8>, OutOfMemory> {
    let mut text = Vec::from_slice(alloc, staged.lines)?;
    text.extend_from_slice(places)?;
    text.extend_from_slice(staged.last)?;
    Ok(text)
}

// By these words a script with policies comes to its lines, these places and its last line.
fn lists<R: Abort + Threads + Wait + Sync>(
    rt: &R,
    alloc: Global,
    words: &str,
    staged: &Staged,
    places: &[u8],
) -> Result<(), OutOfMemory> {
    let input = join(alloc, staged.service, staged.script)?;
    let out = listing_of(alloc, staged, places)?;
    let row = plain(words, input.as_slice(), staged.status, out.as_slice(), b"");
    holds(rt, alloc, &row)
}

const STAGED: [Staged; 11] = [
    BALANCED,
    DRAINED,
    LOADED,
    UNMOVED,
    TRAPPED_FIRST,
    TRAPPED_LAST,
    CREATED,
    EMPTY,
    SINGLE,
    BY_TURNS,
    CREATED_BY_ONE,
];

#[test]
fn policies_move_contexts(rt: HostRuntime) -> Result<(), Fail> {
    let alloc = rt.alloc();
    for staged in &STAGED {
        for (unlisted, with_places) in &ENGINES {
            lists(&rt, alloc, unlisted, staged, b"")?;
            lists(&rt, alloc, with_places, staged, staged.places)?;
        }
    }
    Ok(())
}

/// Policies that are refused, and what is told of each.
const WRONG: [(&[u8], &[u8]); 11] = [
    (b"balance by\n", b"S1 UnknownCommand line 1\n"),
    (b"balance by -1\n", b"S1 UnknownCommand line 1\n"),
    (b"balance by 1\nhosts 2\n", b"S7 HostsLate line 2\n"),
    (b"snapshot\nbalance by 0\n", b"S10 PolicyLate line 2\n"),
    (
        b"hosts 2\nsnapshot\ndrain 1 to 1\n",
        b"S10 PolicyLate line 3\n",
    ),
    (b"balance by 1\nbalance by 1\n", b"S10 PolicyLate line 2\n"),
    (b"balance by 0\n", b"S11 CountRange line 1\n"),
    (b"balance by 4001\n", b"S11 CountRange line 1\n"),
    (
        b"balance by 99999999999999999999999999\n",
        b"S11 CountRange line 1\n",
    ),
    (b"hosts 2\ndrain 1 to 1\n", b"S6 HostRange line 2\n"),
    (b"drain 0 to 1\n", b"S6 HostRange line 1\n"),
];

// A script for the market is refused so.
fn is_refused<R: Abort + Threads + Wait + Sync>(
    rt: &R,
    alloc: Global,
    script: &[u8],
    note: &[u8],
) -> Result<(), Fail> {
    all_hold(rt, alloc, &[refuses(MARKET, script, note)])
}

// 3,999 event lines, and then these lines.
fn behind_3999(alloc: Global, lines: &[u8]) -> Result<Vec<u8>, OutOfMemory> {
    let mut script = Vec::new(alloc);
    for _ in 0..3999 {
        script.extend_from_slice(b"snapshot\n")?;
    }
    script.extend_from_slice(lines)?;
    Ok(script)
}

// A policy is an event line, and what is asked of its place and its number comes behind.
#[test]
fn policies_are_counted(rt: HostRuntime) -> Result<(), Fail> {
    let alloc = rt.alloc();
    let late = behind_3999(alloc, b"snapshot\nbalance by 0\n")?;
    is_refused(&rt, alloc, late.as_slice(), b"S8 TooMany line 4001\n")?;
    let counted = behind_3999(alloc, b"settle\nbalance by 1\nsnapshot\n")?;
    is_refused(&rt, alloc, counted.as_slice(), b"S8 TooMany line 4002\n")?;
    Ok(())
}

#[test]
fn policies_are_refused_in_order(rt: HostRuntime) -> Result<(), Fail> {
    let alloc = rt.alloc();
    for (script, note) in WRONG {
        let case = refuses(MARKET, script, note);
        let run = Case {
            words: "run --workers 2",
            ..case
        };
        all_hold(&rt, alloc, &[case, run])?;
    }
    // no other command knows them
    let unknown = refuses(MARKET, b"balance by 1\n", b"S1 UnknownCommand line 1\n");
    for words in ["trace", "save"] {
        all_hold(&rt, alloc, &[Case { words, ..unknown }])?;
    }
    Ok(())
}

// Each write of a listing of this script fails once: what was written before is a front of it, and longer than where the write before failed.
fn each_write_fails<R: Abort + Threads + Wait + Sync>(
    rt: &R,
    alloc: Global,
    staged: &Staged,
) -> Result<(), OutOfMemory> {
    let input = join(alloc, staged.service, staged.script)?;
    let whole = listing_of(alloc, staged, staged.places)?;
    let note: &[u8] = b"WriteFault\n";
    for (_, words) in ENGINES {
        let mut written = 0;
        for failing_write in 1..(whole.len() as u64).div_ceil(16) + 1 {
            let (status, out, notes) = break_call(
                rt,
                alloc,
                words,
                input.as_slice(),
                16,
                failing_write,
            )?;
            assert_eq!(rt; status, 6);
            assert_eq!(rt; notes.bytes(), note);
            assert!(rt; whole.as_slice().starts_with(out.bytes()));
            assert!(rt; failing_write == 1 || out.bytes().len() > written);
            written = out.bytes().len();
        }
    }
    Ok(())
}

const WRITTEN: [Staged; 2] = [BALANCED, BY_TURNS];

#[test]
fn each_write_of_a_script_with_policies_fails(rt: HostRuntime) -> Result<(), Fail> {
    let alloc = rt.alloc();
    for staged in &WRITTEN {
        each_write_fails(&rt, alloc, staged)?;
    }
    Ok(())
}
