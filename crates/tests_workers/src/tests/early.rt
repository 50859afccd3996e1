//! Lines are written while the workers run.

ghost use Rattle.std.specs.Prelude.{◌≡◌, ◌<◌, ◌≤◌, length, None, IfOk};
ghost use Rattle.std.specs.Io.KnownBytes.{WriteAppends};
ghost use Rattle.wave_io.specs.Causes.{HasCause};

use super::cases::{plan_for, ran};
use std::alloc::Global;
use std::process::Abort;
use std::sync::Wait;
use std::sync::atomic::{AtomicU64, Ordering};
use std::test::Fail;
use std::thread::Threads;
use tests_machine::Case;
use tests_services::MARKET;
use wave_base::{OutOfMemory, Path, Seq, Ticket};
use wave_io::{Failed, Gate, MemSink, OpenGate, Sink};

// A sink that takes everything, and counts its calls where a gate sees the count.
#[derive(Drop)]
struct Telling<'a> {
    taken: &'a AtomicU64,
}

impl<'a> Sink for Telling<'a> {
    ghost written = { λ _. None };

    ghost faults = { λ _. 0 };

    fn write(&mut self, piece: &[u8]) -> Result<usize, Failed> {
        self.taken.fetch_add(1, Ordering::SeqCst);
        Ok(piece.len())
    }
}

// Looks, where ticket 71 comes to it, whether the sink has taken something.
#[derive(Drop)]
struct Looking<'a> {
    taken: &'a AtomicU64,
    too_late: AtomicU64,
}

impl<'a> Gate for Looking<'a> {
    fn reach(&self, ticket: Ticket, _path: &Path) {
        if ticket.0 == 71 && self.taken.load(Ordering::SeqCst) == 0 {
            self.too_late.store(1, Ordering::SeqCst);
        }
    }
}

// So many sales, and one more after them.
fn sales(alloc: Global, count: u8) -> Result<String, OutOfMemory> {
    let mut script = String::new(alloc);
    for _ in 0..count {
        script.push_str("request buy(1,1,1)\n")?;
    }
    script.push_str("settle\nrequest buy(1,1,1)\n")?;
    Ok(script)
}

// Of a run by so many workers, whether the sink had taken nothing before ticket 71, and how often it was written to.
fn lines_seen<R: Threads + Wait + Sync + Abort>(
    rt: &R,
    alloc: Global,
    script: &str,
    workers: u8,
) -> (u64, u64) {
    let case = Case {
        service: MARKET,
        script: script.as_bytes(),
        workers,
    };
    let plan = plan_for(rt, alloc, &case);
    let taken = AtomicU64::new(0);
    let gate = Looking {
        taken: &taken,
        too_late: AtomicU64::new(0),
    };
    let mut sink = Telling { taken: &taken };
    if ran(rt, alloc, &plan, &gate, &mut sink).is_err() {
        panic!(rt; "no run");
    }
    let late = gate.too_late.load(Ordering::SeqCst);
    (late, taken.load(Ordering::SeqCst))
}

#[test]
fn lines_are_written_while_the_workers_run(rt: HostRuntime) -> Result<(), Fail> {
    let alloc = rt.alloc();
    let script = sales(alloc, 70)?;
    assert_eq!(rt; lines_seen(&rt, alloc, script.as_str(), 1), (0, 2));
    Ok(())
}

// Lines go out 64 at a time, however many workers there are.
#[test]
fn lines_are_written_in_few_parts(rt: HostRuntime) -> Result<(), Fail> {
    let alloc = rt.alloc();
    let script = sales(alloc, 199)?;
    let (_, alone) = lines_seen(&rt, alloc, script.as_str(), 1);
    assert_eq!(rt; alone, 4);
    let (_, together) = lines_seen(&rt, alloc, script.as_str(), 4);
    assert_eq!(rt; together, 4);
    Ok(())
}

fn written_by<R: Threads + Wait + Sync + Abort>(
    rt: &R,
    alloc: Global,
    script: &str,
    workers: u8,
) -> Result<MemSink, OutOfMemory> {
    let case = Case {
        service: MARKET,
        script: script.as_bytes(),
        workers,
    };
    let plan = plan_for(rt, alloc, &case);
    let mut sink = MemSink::new(alloc, 10_000, 100, Seq::new(alloc))?;
    assert!(rt; ran(rt, alloc, &plan, &OpenGate, &mut sink).is_ok());
    Ok(sink)
}

// Light events, which one worker carries out while the others rest.
#[test]
fn many_workers_carry_out_sales_in_a_row(rt: HostRuntime) -> Result<(), Fail> {
    let alloc = rt.alloc();
    let script = sales(alloc, 40)?;
    let alone = written_by(&rt, alloc, script.as_str(), 1)?;
    let together = written_by(&rt, alloc, script.as_str(), 4)?;
    assert!(rt; alone.bytes() == together.bytes());
    Ok(())
}
