//! Scripts on services: what they come to.

use super::crews::{MOVED, WENT_TO_AND_FRO};
use super::rows::{all_hold, refuses, traps, works};
use super::services::{CALC, EDGE, LONG, LOOP, SENDS, WIDE};
use std::test::Fail;
use tests_services::{CHAIN, MARKET, MOVES, TO_AND_FRO};

/// Requests alone, with one worker and more, and none at all.
#[test]
fn requests(rt: HostRuntime) -> Result<(), Fail> {
    let cases = [
        works(
            "run",
            MARKET,
            b"request buy(1,1,3)\n",
            b"#1 buy = 7\n#1 send \"till\" 3\ndone 1\n",
        ),
        works("run", MARKET, b"", b"done 0\n"),
        works("run --map", MARKET, b"", b"place / 0\ndone 0\n"),
        works(
            "run --workers 8",
            MARKET,
            b"request buy(1,1,3)\nrequest buy(1,2,4)\nrequest pair(1)\n",
            b"#1 buy = 7\n#1 send \"till\" 3\n#2 buy = 6\n#2 send \"till\" 7\n#3 pair = 11\ndone 3\n",
        ),
    ];
    all_hold(&rt, rt.alloc(), cases.as_slice())
}

/// Contexts that move, one that is not there, and the root.
#[test]
fn moves(rt: HostRuntime) -> Result<(), Fail> {
    let cases = [
        works("seq --map", MARKET, MOVES, MOVED),
        works(
            "seq",
            MARKET,
            b"hosts 2\nmove /Hall[9] to 1\nsnapshot\n",
            b"#1 absent /Hall[9]\n#2 snapshot 1\n#2 at / seen=0\ndone 2\n",
        ),
        works("seq", MARKET, TO_AND_FRO, WENT_TO_AND_FRO),
        works(
            "seq --map",
            MARKET,
            b"hosts 8\nmove / to 7\n",
            b"#1 moved / to 7\nplace / 7\ndone 1\n",
        ),
    ];
    all_hold(&rt, rt.alloc(), cases.as_slice())
}

/// Copies of what is there, after a method that looks at two children too.
#[test]
fn snapshots(rt: HostRuntime) -> Result<(), Fail> {
    let cases = [
        works(
            "seq",
            MARKET,
            b"request same(1)\nsnapshot\n",
            b"#1 same = 17\n#2 snapshot 3\n#2 at / seen=0\n#2 at /Hall[1] count=0\n#2 at /Hall[1]/Stall[1] stock=8\ndone 2\n",
        ),
        works(
            "seq",
            MARKET,
            b"request buy(1,1,3)\nsnapshot\nrequest buy(1,2,4)\nsnapshot\n",
            b"#1 buy = 7\n#1 send \"till\" 3\n#2 snapshot 3\n#2 at / seen=1\n#2 at /Hall[1] count=3\n#2 at /Hall[1]/Stall[1] stock=7\n#3 buy = 6\n#3 send \"till\" 7\n#4 snapshot 4\n#4 at / seen=2\n#4 at /Hall[1] count=7\n#4 at /Hall[1]/Stall[1] stock=7\n#4 at /Hall[1]/Stall[2] stock=6\ndone 4\n",
        ),
    ];
    all_hold(&rt, rt.alloc(), cases.as_slice())
}

/// Events that events create, before and after `settle`, and one of too late a generation.
#[test]
fn created_events(rt: HostRuntime) -> Result<(), Fail> {
    let cases = [
        works(
            "run",
            CHAIN,
            b"request two()\nrequest one()\n",
            b"#1 two = 1\n#1 made #3\n#1 made #4\n#2 one = 11\n#3 one = 21\n#4 one = 31\ndone 4\n",
        ),
        works(
            "run",
            CHAIN,
            b"request two()\nsettle\nrequest one()\n",
            b"#1 two = 1\n#1 made #2\n#1 made #3\n#2 one = 11\n#3 one = 21\n#4 one = 31\ndone 4\n",
        ),
        traps(
            "run",
            CHAIN,
            b"request again()\n",
            b"#1 again ok\n#1 made #2\n#2 again ok\n#2 made #3\n#3 again ok\n#3 made #4\n#4 again ok\n#4 made #5\n#5 again trap Generation at 8:37\ndone 5\n",
        ),
    ];
    all_hold(&rt, rt.alloc(), cases.as_slice())
}

/// Numbers at their bounds, too many contexts, and values of each kind that are sent.
#[test]
fn values_and_traps(rt: HostRuntime) -> Result<(), Fail> {
    let cases = [
        traps(
            "seq",
            EDGE,
            b"request bump(1)\nsnapshot\n",
            b"#1 bump trap Overflow at 8:26\n#2 snapshot 2\n#2 at / seen=1\n#2 at /Hall[1] top=9223372036854775807\ndone 2\n",
        ),
        traps(
            "run",
            CALC,
            b"request div(7,-2)\nrequest rem(-7,2)\nrequest div(1,0)\nrequest div(-9223372036854775808,-1)\nrequest rem(-9223372036854775808,-1)\n",
            b"#1 div = -3\n#2 rem = -1\n#3 div trap DivZero at 2:42\n#4 div trap Overflow at 2:42\n#5 rem trap Overflow at 3:42\ndone 5\n",
        ),
        traps(
            "run",
            WIDE,
            b"request fill(255)\nrequest fill(256)\n",
            b"#1 fill ok\n#2 fill trap Reach at 6:49\ndone 2\n",
        ),
        works(
            "run",
            SENDS,
            b"request all()\n",
            b"#1 all ok\n#1 send \"n\" -1\n#1 send \"b\" true\n#1 send \"t\" \"a \\\"b\\\"\"\n#1 send \"m\" {1: 5, 2: 6}\ndone 1\n",
        ),
    ];
    all_hold(&rt, rt.alloc(), cases.as_slice())
}

/// Scripts with a fault, at its line.
#[test]
fn refused_scripts(rt: HostRuntime) -> Result<(), Fail> {
    let mut many = Vec::new(rt.alloc());
    for _ in 0..4001 {
        many.extend_from_slice(b"snapshot\n")?;
    }
    let cases = [
        refuses(MARKET, b"hosts 9\n", b"S6 HostRange line 1\n"),
        refuses(MARKET, b"request buy(1,1)\n", b"S3 ArgCount line 1\n"),
        refuses(
            MARKET,
            b"hosts 2\nmove /Hall[1] to 2\n",
            b"S6 HostRange line 2\n",
        ),
        refuses(MARKET, many.as_slice(), b"S8 TooMany line 4001\n"),
        refuses(
            MARKET,
            b"request buy(1,1,x)\n",
            b"S1 UnknownCommand line 1\n",
        ),
    ];
    all_hold(&rt, rt.alloc(), cases.as_slice())
}

/// A hundred thousand turns, and one more; and as many of ten statements.
#[test]
fn long_loops(rt: HostRuntime) -> Result<(), Fail> {
    let cases = [
        traps(
            "run",
            LOOP,
            b"request turns(100000)\nrequest turns(100001)\n",
            b"#1 turns = 4999950000\n#2 turns trap Ticks at 3:23\ndone 2\n",
        ),
        works(
            "seq",
            LONG,
            b"request turns(100000)\n",
            b"#1 turns = 1000000\ndone 1\n",
        ),
    ];
    all_hold(&rt, rt.alloc(), cases.as_slice())
}
