//! Two segments are out at once, where they may be.

use super::cases::{plan_for, ran};
use std::alloc::Global;
use std::process::Abort;
use std::sync::Wait;
use std::test::Fail;
use std::thread::Threads;
use tests_machine::{Case, TWO_LOOKS};
use tests_services::{MARKET, Meeting, hall, stall};
use wave_base::{OutOfMemory, Path, Seq};
use wave_io::MemSink;

// Whether two events miss each other that are to meet at these contexts.
fn has_missed<R: Threads + Wait + Sync + Abort>(
    rt: &R,
    alloc: Global,
    case: &Case,
    first_at: Path,
    second_at: Path,
) -> Result<bool, OutOfMemory> {
    let plan = plan_for(rt, alloc, case);
    let gate = Meeting::at(first_at, second_at);
    let mut sink = MemSink::new(alloc, 1000, 100, Seq::new(alloc))?;
    assert!(rt; ran(rt, alloc, &plan, &gate, &mut sink).is_ok());
    Ok(gate.has_missed())
}

const TWO_STALLS: Case = Case {
    service: MARKET,
    script: b"request buy(1,1,1)
request buy(1,2,1)
",
    workers: 2,
};

#[test]
fn two_stalls_are_entered_at_once(rt: HostRuntime) -> Result<(), Fail> {
    assert!(rt; !has_missed(&rt, rt.alloc(), &TWO_STALLS, stall(1, 1), stall(1, 2))?);
    Ok(())
}

#[test]
fn two_events_look_at_once(rt: HostRuntime) -> Result<(), Fail> {
    assert!(rt; !has_missed(&rt, rt.alloc(), &TWO_LOOKS, hall(1), hall(1))?);
    Ok(())
}

const ONE_STALL: Case = Case {
    service: MARKET,
    script: b"request buy(1,1,1)
request buy(1,1,1)
",
    workers: 2,
};

#[test]
fn one_stall_is_entered_in_turn(rt: HostRuntime) -> Result<(), Fail> {
    assert!(rt; has_missed(&rt, rt.alloc(), &ONE_STALL, stall(1, 1), stall(1, 1))?);
    Ok(())
}
