//! Tables: each read and each write of a run that fails, each rule that picks, and the limits of events.

use super::crews::{LOOKED, LOOKS, MOVED, WENT_TO_AND_FRO};
use super::rows::{Row, all_hold, break_call, holds, join, plain, ran_on, traps, works};
use std::test::Fail;
use tests_services::{CHAIN, MARKET, MOVES, TO_AND_FRO};
use wave_io::OpenGate;

const THREE: &[u8] = b"request buy(1,1,3)\nrequest buy(1,2,4)\nrequest pair(1)\n";

const THREE_LISTED: &[u8] =
    b"#1 buy = 7\n#1 send \"till\" 3\n#2 buy = 6\n#2 send \"till\" 7\n#3 pair = 11\ndone 3\n";

const TWO_AND_ONE: &[u8] = b"request two()\nrequest one()\n";

const TWO_AND_ONE_LISTED: &[u8] =
    b"#1 two = 1\n#1 made #3\n#1 made #4\n#2 one = 11\n#3 one = 21\n#4 one = 31\ndone 4\n";

/// Each read of 16 bytes up to the last, which finds nothing left, fails once: with 712 bytes there are 46.
#[test]
fn each_read_fails(rt: HostRuntime) -> Result<(), Fail> {
    let alloc = rt.alloc();
    let input = join(alloc, MARKET, THREE)?;
    assert_eq!(rt; input.len(), 712);
    for words in ["run", "seq", "trace --workers 2", "run --schedule 5"] {
        for failing_read in 1..47 {
            let row = Row {
                failing_read,
                ..plain(words, input.as_slice(), 5, b"", b"ReadFault\n")
            };
            holds(&rt, alloc, &row)?;
        }
    }
    let row = Row {
        failing_read: 47,
        ..plain("run", input.as_slice(), 0, THREE_LISTED, b"")
    };
    holds(&rt, alloc, &row)?;
    Ok(())
}

/// Each write up to the last fails once: what stands there is a front of what is due, and no longer than the writes before it. With 76
/// bytes there are 19 writes at least.
#[test]
fn each_write_fails(rt: HostRuntime) -> Result<(), Fail> {
    let alloc = rt.alloc();
    let input = join(alloc, MARKET, THREE)?;
    assert_eq!(rt; THREE_LISTED.len(), 76);
    for words in ["run", "run --workers 4", "seq", "run --schedule 5"] {
        for before in 0..29 {
            let (status, out, notes) = break_call(
                &rt,
                alloc,
                words,
                input.as_slice(),
                4,
                before + 1,
            )?;
            let written = out.bytes();
            assert!(rt; THREE_LISTED.starts_with(written));
            if status == 6 {
                assert!(rt; written.len() as u64 <= 4 * before);
                assert_eq!(rt; notes.bytes(), b"WriteFault\n".as_slice());
            } else {
                assert!(rt; before >= 19);
                assert_eq!(rt; status, 0);
                assert_eq!(rt; written.len(), 76);
                assert_eq!(rt; notes.bytes(), b"".as_slice());
            }
        }
        let (status, _, _) = break_call(&rt, alloc, words, input.as_slice(), 4, 30)?;
        assert_eq!(rt; status, 0);
    }
    Ok(())
}

/// Whichever rule picks, the listing is the same.
#[test]
fn each_rule_picks(rt: HostRuntime) -> Result<(), Fail> {
    let alloc = rt.alloc();
    for words in [
        "run --schedule oldest",
        "run --schedule newest",
        "run --schedule movers",
        "run --schedule maillast",
        "run --workers 16 --schedule newest",
    ] {
        let cases = [
            works(words, MARKET, THREE, THREE_LISTED),
            works(words, MARKET, TO_AND_FRO, WENT_TO_AND_FRO),
            works(words, CHAIN, TWO_AND_ONE, TWO_AND_ONE_LISTED),
            works(words, MARKET, LOOKS, LOOKED),
        ];
        all_hold(&rt, alloc, cases.as_slice())?;
    }
    for words in [
        "run --map --schedule oldest",
        "run --map --schedule newest",
        "run --map --schedule movers",
        "run --map --schedule maillast",
    ] {
        all_hold(&rt, alloc, &[works(words, MARKET, MOVES, MOVED)])?;
    }
    Ok(())
}

/// An event sends at most 64 messages and creates at most 4 calls.
#[test]
fn an_event_leaves_at_most_so_much(rt: HostRuntime) -> Result<(), Fail> {
    let alloc = rt.alloc();
    let service = b"service Limits {
  event sends(k: int) { here { for i in 0 to k { send \"m\", i; } } }
  event calls(k: int) { here { for i in 0 to k { spawn none(); } } }
  event none() { here { } }
}
";
    let created = traps(
        "run",
        service,
        b"request calls(4)\nrequest calls(5)\n",
        b"#1 calls ok\n#1 made #3\n#1 made #4\n#1 made #5\n#1 made #6\n#2 calls trap Spawns at 3:50\n#3 none ok\n#4 none ok\n#5 none ok\n#6 none ok\ndone 6\n",
    );
    all_hold(&rt, alloc, &[created])?;
    let input = join(alloc, service, b"request sends(64)\nrequest sends(65)\n")?;
    let (status, out) = ran_on(&rt, alloc, "run", input.as_slice(), &OpenGate)?;
    assert_eq!(rt; status, 1);
    assert!(rt; out.bytes().starts_with(b"#1 sends ok\n#1 send \"m\" 0\n"));
    let end = b"#1 send \"m\" 63\n#2 sends trap Sends at 2:50\ndone 2\n".as_slice();
    assert!(rt; out.bytes().ends_with(end));
    Ok(())
}
