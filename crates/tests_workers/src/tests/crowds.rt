//! As many workers as a plan has.

use super::cases::{plan_for, ran};
use std::alloc::Global;
use std::hint::spin_loop;
use std::process::Abort;
use std::sync::Wait;
use std::sync::atomic::{AtomicU64, Ordering};
use std::test::Fail;
use std::thread::Threads;
use tests_machine::Case;
use tests_services::hall;
use wave_base::{OutOfMemory, Path, Seq, Ticket};
use wave_io::{Gate, MemSink};

// How often a gate looks at what it waits for. The threads that wait hold the processors meanwhile.
const TURNS: u32 = 100_000_000;

// Holds each event at the hall of its own ticket until all of them have come to theirs.
#[derive(Drop)]
struct Crowd {
    many: u64,
    come: AtomicU64,
    missed: AtomicU64,
}

impl Gate for Crowd {
    fn reach(&self, ticket: Ticket, path: &Path) {
        if *path == hall(i64::from(ticket.0)) {
            self.come.fetch_add(1, Ordering::SeqCst);
            for _ in 0..TURNS {
                if self.come.load(Ordering::SeqCst) == self.many {
                    return;
                }
                spin_loop();
            }
            self.missed.store(1, Ordering::SeqCst);
        }
    }
}

// An event enters one hall, so that each but its last segment is at the root.
const SIXTEEN_HALLS: Case = Case {
    service: b"service Halls { context Hall[int] { var n: int = 0; } event enter(h: int) { down Hall[h] { n = n + 1; } } }
",
    script: b"request enter(1)
request enter(2)
request enter(3)
request enter(4)
request enter(5)
request enter(6)
request enter(7)
request enter(8)
request enter(9)
request enter(10)
request enter(11)
request enter(12)
request enter(13)
request enter(14)
request enter(15)
request enter(16)
",
    workers: 16,
};

// Whether they missed each other, and how many came.
fn meets<R: Threads + Wait + Sync + Abort>(
    rt: &R,
    alloc: Global,
    case: &Case,
) -> Result<(u64, u64), OutOfMemory> {
    let plan = plan_for(rt, alloc, case);
    let gate = Crowd {
        many: u64::from(case.workers),
        come: AtomicU64::new(0),
        missed: AtomicU64::new(0),
    };
    let mut sink = MemSink::new(alloc, 1000, 100, Seq::new(alloc))?;
    assert!(rt; ran(rt, alloc, &plan, &gate, &mut sink).is_ok());
    let missed = gate.missed.load(Ordering::SeqCst);
    Ok((missed, gate.come.load(Ordering::SeqCst)))
}

#[test]
fn sixteen_workers_are_out_at_once(rt: HostRuntime) -> Result<(), Fail> {
    assert_eq!(rt; meets(&rt, rt.alloc(), &SIXTEEN_HALLS)?, (0, 16));
    Ok(())
}
