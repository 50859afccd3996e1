//! Runs with their listings, by one worker and by many.

use super::cases::{plan_for, ran};
use super::wants::{has_a_front, has_written};
use host_workers::RunError;
use listing_out::write_end;
use std::alloc::Global;
use std::process::Abort;
use std::sync::Wait;
use std::test::Fail;
use std::thread::Threads;
use tests_machine::Case;
use tests_services::{CHAIN, MARKET, MOVES, TICK};
use wave_base::{Finished, OutOfMemory, Seq};
use wave_effects::Plan;
use wave_io::{MemSink, OpenGate};

// The end of the listing of a run, places among it.
fn write_places(
    rt: &impl Abort,
    alloc: Global,
    plan: &Plan,
    finished: &Finished,
    sink: &mut MemSink,
) {
    let shape = &plan.program.program().shape;
    let last = finished.results.len();
    if last > 4000 {
        panic!(rt; "too many");
    }
    if write_end(alloc, sink, shape, Some(&finished.places), last as u32).is_err() {
        panic!(rt; "no end");
    }
}

// The whole listing of a run is this.
fn lists<R: Threads + Wait + Sync + Abort>(
    rt: &R,
    alloc: Global,
    case: &Case,
    listing: &[u8],
) -> Result<(), OutOfMemory> {
    let plan = plan_for(rt, alloc, case);
    let mut sink = MemSink::new(alloc, 10_000, 5, Seq::new(alloc))?;
    match ran(rt, alloc, &plan, &OpenGate, &mut sink) {
        Ok(finished) => write_places(rt, alloc, &plan, &finished, &mut sink),
        Err(_) => panic!(rt; "no run"),
    }
    has_written(rt, &sink, listing);
    Ok(())
}

const MOVED: &[u8] = b"#1 buy = 7
#1 send \"till\" 3
#2 moved /Hall[1] to 1
#3 buy = 6
#3 send \"till\" 7
#4 pair = 11
place / 0
place /Hall[1] 1
place /Hall[1]/Stall[1] 0
place /Hall[1]/Stall[2] 1
done 4
";

fn moves(workers: u8) -> Case<'static> {
    Case {
        service: MARKET,
        script: MOVES,
        workers,
    }
}

#[test]
fn as_many_workers_as_you_like(rt: HostRuntime) -> Result<(), Fail> {
    let alloc = rt.alloc();
    lists(&rt, alloc, &moves(1), MOVED)?;
    lists(&rt, alloc, &moves(4), MOVED)?;
    lists(&rt, alloc, &moves(16), MOVED)?;
    Ok(())
}

const CREATES: Case = Case {
    service: CHAIN,
    script: b"request two()
request one()
",
    workers: 4,
};

const CREATED: &[u8] = b"#1 two = 1
#1 made #3
#1 made #4
#2 one = 11
#3 one = 21
#4 one = 31
place / 0
done 4
";

#[test]
fn created_events_have_their_tickets(rt: HostRuntime) -> Result<(), Fail> {
    lists(&rt, rt.alloc(), &CREATES, CREATED)?;
    Ok(())
}

fn hit(workers: u8) -> Case<'static> {
    Case {
        service: TICK,
        script: b"request hit()\n",
        workers,
    }
}

// A sink with room for six bytes fails, and has them.
fn fails<R: Threads + Wait + Sync + Abort>(
    rt: &R,
    alloc: Global,
    case: &Case,
) -> Result<(), OutOfMemory> {
    let plan = plan_for(rt, alloc, case);
    let mut sink = MemSink::new(alloc, 6, 4, Seq::new(alloc))?;
    match ran(rt, alloc, &plan, &OpenGate, &mut sink) {
        Err(RunError::WriteFault) => {}
        _ => panic!(rt; "no fault"),
    }
    has_written(rt, &sink, b"#1 hit");
    Ok(())
}

#[test]
fn a_sink_that_fails_has_a_front(rt: HostRuntime) -> Result<(), Fail> {
    let alloc = rt.alloc();
    fails(&rt, alloc, &hit(1))?;
    fails(&rt, alloc, &hit(4))?;
    Ok(())
}

const MOVED_LINES: &[u8] = b"#1 buy = 7
#1 send \"till\" 3
#2 moved /Hall[1] to 1
#3 buy = 6
#3 send \"till\" 7
#4 pair = 11
";

// One worker writes all lines, or, where memory is wanting, a front of them: `rt try --test --fail-alloc 1..` refuses each request
// for memory in turn.
#[test]
fn one_worker_writes_a_front(rt: HostRuntime) -> Result<(), Fail> {
    let alloc = rt.alloc();
    let plan = plan_for(&rt, alloc, &moves(1));
    let mut sink = MemSink::new(alloc, 1000, 100, Seq::new(alloc))?;
    match ran(&rt, alloc, &plan, &OpenGate, &mut sink) {
        Ok(_) => has_written(&rt, &sink, MOVED_LINES),
        Err(RunError::OutOfMemory(_)) => has_a_front(&rt, &sink, MOVED_LINES),
        Err(RunError::WriteFault) => panic!(rt; "a fault"),
    }
    Ok(())
}
