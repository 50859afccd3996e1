//! Each segment comes to the gate once.

use super::cases::{plan_for, ran};
use std::alloc::Global;
use std::process::Abort;
use std::sync::Wait;
use std::sync::atomic::{AtomicU64, Ordering};
use std::test::Fail;
use std::thread::Threads;
use tests_machine::Case;
use tests_services::{MARKET, MOVES, hall};
use wave_base::{OutOfMemory, Path, Seq, Ticket};
use wave_io::{Gate, MemSink};

// Counts its calls: in all, those of ticket 4, and those of ticket 4 at the hall.
#[derive(Drop)]
struct Counting {
    all: AtomicU64,
    last: AtomicU64,
    in_hall: AtomicU64,
}

impl Gate for Counting {
    fn reach(&self, ticket: Ticket, path: &Path) {
        self.all.fetch_add(1, Ordering::SeqCst);
        if ticket.0 == 4 {
            self.last.fetch_add(1, Ordering::SeqCst);
            if *path == hall(1) {
                self.in_hall.fetch_add(1, Ordering::SeqCst);
            }
        }
    }
}

// A run by so many workers has fourteen segments, six of them ticket 4's, and three of these at the hall.
fn counts<R: Threads + Wait + Sync + Abort>(
    rt: &R,
    alloc: Global,
    workers: u8,
) -> Result<(), OutOfMemory> {
    let case = Case {
        service: MARKET,
        script: MOVES,
        workers,
    };
    let plan = plan_for(rt, alloc, &case);
    let gate = Counting {
        all: AtomicU64::new(0),
        last: AtomicU64::new(0),
        in_hall: AtomicU64::new(0),
    };
    let mut sink = MemSink::new(alloc, 1000, 100, Seq::new(alloc))?;
    assert!(rt; ran(rt, alloc, &plan, &gate, &mut sink).is_ok());
    assert_eq!(rt; gate.all.load(Ordering::SeqCst), 14);
    assert_eq!(rt; gate.last.load(Ordering::SeqCst), 6);
    assert_eq!(rt; gate.in_hall.load(Ordering::SeqCst), 3);
    Ok(())
}

#[test]
fn each_segment_comes_to_the_gate_once(rt: HostRuntime) -> Result<(), Fail> {
    let alloc = rt.alloc();
    counts(&rt, alloc, 1)?;
    counts(&rt, alloc, 4)?;
    counts(&rt, alloc, 16)?;
    Ok(())
}
