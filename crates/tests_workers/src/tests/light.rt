//! Events that are light for sure are done by one worker.

use super::cases::{plan_for, told_lines};
use label_log::LabelLog;
use std::alloc::Global;
use std::process::Abort;
use std::sync::Wait;
use std::test::Fail;
use std::thread::Threads;
use tests_machine::Case;
use tests_services::MARKET;
use wave_base::{OutOfMemory, Seq, Worker};
use wave_io::{MemSink, OpenGate};

// More tickets than lines are written at once.
fn sales(alloc: Global) -> Result<String, OutOfMemory> {
    let mut script = String::new(alloc);
    for _ in 0..100 {
        script.push_str("request buy(1,1,1)\nrequest buy(2,2,1)\n")?;
    }
    Ok(script)
}

// How many labels another worker than the first took.
fn by_others(journal: &LabelLog) -> usize {
    let mut others = 0usize;
    for i in 0..journal.len() {
        if journal.label_at(i).worker != Worker(0) {
            others = others.saturating_add(1);
        }
    }
    others
}

// The journal of a run at an open gate: how many labels it has, and how many others than the first worker took.
fn shares<R: Threads + Wait + Sync + Abort>(
    rt: &R,
    alloc: Global,
    case: &Case,
) -> Result<(usize, usize), OutOfMemory> {
    let plan = plan_for(rt, alloc, case);
    let mut sink = MemSink::new(alloc, 10_000, 1_000, Seq::new(alloc))?;
    match told_lines(rt, alloc, &plan, &OpenGate, &mut sink) {
        Ok((_, journal)) => Ok((journal.len(), by_others(&journal))),
        Err(_) => panic!(rt; "no run"),
    }
}

#[test]
fn light_events_are_done_by_one_worker(rt: HostRuntime) -> Result<(), Fail> {
    let script = sales(rt.alloc())?;
    let case = Case {
        service: MARKET,
        script: script.as_bytes(),
        workers: 16,
    };
    let (labels, others) = shares(&rt, rt.alloc(), &case)?;
    assert!(rt; labels > 2000);
    assert_eq!(rt; others, 0);
    Ok(())
}
