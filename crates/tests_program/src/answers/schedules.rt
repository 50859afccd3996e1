//! Scripts run by the machine without threads: whichever rule picks, and however many workers there are, the listing is the same.

use super::{due, has};
use std::alloc::Global;
use std::process::Abort;
use std::test::Fail;
use tests_services::{CHAIN, MARKET, input_of};
use wave_base::OutOfMemory;

const CREWS: [&str; 10] = [
    "run --map --workers 1 --schedule 7",
    "run --map --workers 16 --schedule 7",
    "run --map --workers 1 --schedule oldest",
    "run --map --workers 16 --schedule oldest",
    "run --map --workers 1 --schedule newest",
    "run --map --workers 16 --schedule newest",
    "run --map --workers 1 --schedule movers",
    "run --map --workers 16 --schedule movers",
    "run --map --workers 1 --schedule maillast",
    "run --map --workers 16 --schedule maillast",
];

// What a service's script gives by each rule, with one worker and with sixteen.
fn gives(
    rt: &impl Abort,
    alloc: Global,
    service: &[u8],
    script: &[u8],
    listing: &[u8],
) -> Result<(), OutOfMemory> {
    let input = input_of(alloc, service, script)?;
    for words in &CREWS {
        let answer = due(rt, alloc, words, input.as_slice())?;
        has(rt, &answer, 0, b"", listing);
    }
    Ok(())
}

#[test]
fn contexts_move_between_hosts(rt: HostRuntime) -> Result<(), Fail> {
    let script = b"hosts 2
request buy(1,1,3)
move /Hall[1] to 1
request buy(1,2,4)
request pair(1)
snapshot
";
    let listing = b"#1 buy = 7
#1 send \"till\" 3
#2 moved /Hall[1] to 1
#3 buy = 6
#3 send \"till\" 7
#4 pair = 11
#5 snapshot 4
#5 at / seen=2
#5 at /Hall[1] count=7
#5 at /Hall[1]/Stall[1] stock=6
#5 at /Hall[1]/Stall[2] stock=5
place / 0
place /Hall[1] 1
place /Hall[1]/Stall[1] 0
place /Hall[1]/Stall[2] 1
done 5
";
    gives(&rt, rt.alloc(), MARKET, script, listing)?;
    Ok(())
}

#[test]
fn events_create_events(rt: HostRuntime) -> Result<(), Fail> {
    let script = b"request two()
request one()
";
    let listing = b"#1 two = 1
#1 made #3
#1 made #4
#2 one = 11
#3 one = 21
#4 one = 31
place / 0
done 4
";
    gives(&rt, rt.alloc(), CHAIN, script, listing)?;
    Ok(())
}
