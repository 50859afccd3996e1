//! Gates that hold events, or count them.

use super::crews::MOVED;
use super::rows::{join, ran_on};
use std::alloc::Global;
use std::hint::spin_loop;
use std::sync::Wait;
use std::sync::atomic::{AtomicU64, Ordering};
use std::test::Fail;
use std::thread::Threads;
use tests_services::{MARKET, MOVES, Meeting, hall, stall};
use wave_base::{OutOfMemory, Path, Ticket};
use wave_io::Gate;

// How often a gate looks at what it waits for.
const TURNS: u32 = 10_000_000;

// Holds each of the first events at its stall until all of them have come to theirs: so many segments are out at once.
#[derive(Drop)]
struct Crowd {
    many: u32,
    come: AtomicU64,
    missed: AtomicU64,
}

impl Gate for Crowd {
    fn reach(&self, ticket: Ticket, path: &Path) {
        if ticket.0 <= self.many && *path == stall(1, i64::from(ticket.0)) {
            self.come.fetch_add(1, Ordering::SeqCst);
            for _ in 0..TURNS {
                if self.come.load(Ordering::SeqCst) == u64::from(self.many) {
                    return;
                }
                spin_loop();
            }
            self.missed.store(1, Ordering::SeqCst);
        }
    }
}

const FOUR: &[u8] =
    b"request buy(1,1,1)\nrequest buy(1,2,1)\nrequest buy(1,3,1)\nrequest buy(1,4,1)\n";

/// The same, and a policy.
const FOUR_AND_POLICY: &[u8] = b"request buy(1,1,1)
request buy(1,2,1)
request buy(1,3,1)
request buy(1,4,1)
settle
balance by 1
";

// Whether four events that buy at four stalls miss each other, and how many came: by workers they meet.
fn four_buy<R: Threads + Wait + Sync>(
    rt: &R,
    alloc: Global,
    words: &str,
    script: &[u8],
) -> Result<(u64, u64), OutOfMemory> {
    let input = join(alloc, MARKET, script)?;
    let gate = Crowd {
        many: 4,
        come: AtomicU64::new(0),
        missed: AtomicU64::new(0),
    };
    ran_on(rt, alloc, words, input.as_slice(), &gate)?;
    let missed = gate.missed.load(Ordering::SeqCst);
    Ok((missed, gate.come.load(Ordering::SeqCst)))
}

#[test]
fn four_segments_are_out_at_once(rt: HostRuntime) -> Result<(), Fail> {
    let alloc = rt.alloc();
    for words in [
        "run --workers 4",
        "run --workers 16",
        "run",
        "trace --workers 16",
    ] {
        assert_eq!(rt; four_buy(&rt, alloc, words, FOUR)?, (0, 4));
    }
    for words in ["run --workers 4", "run --workers 16"] {
        assert_eq!(rt; four_buy(&rt, alloc, words, FOUR_AND_POLICY)?, (0, 4));
    }
    Ok(())
}

/// No worker runs a script that has a schedule, or that the evaluator runs: nothing comes to the gate.
#[test]
fn a_schedule_has_no_workers(rt: HostRuntime) -> Result<(), Fail> {
    let alloc = rt.alloc();
    for words in [
        "seq",
        "run --schedule 5",
        "run --workers 16 --schedule newest",
        "trace --schedule 5",
    ] {
        assert_eq!(rt; four_buy(&rt, alloc, words, FOUR)?, (0, 0));
    }
    Ok(())
}

// Where a text has these bytes first.
fn place_of(text: &[u8], part: &[u8]) -> Option<usize> {
    text.windows(part.len().max(1))
        .position(|piece| piece == part)
}

// How often a text has these bytes.
fn times_in(text: &[u8], part: &[u8]) -> usize {
    text.windows(part.len().max(1))
        .filter(|piece| *piece == part)
        .count()
}

#[test]
fn two_segments_are_out_at_once(rt: HostRuntime) -> Result<(), Fail> {
    let alloc = rt.alloc();
    let input = join(alloc, MARKET, b"request buy(1,1,1)\nrequest buy(1,2,1)\n")?;
    for words in ["run --workers 2", "trace --workers 2"] {
        let gate = Meeting::at(stall(1, 1), stall(1, 2));
        let (status, out) = ran_on(&rt, alloc, words, input.as_slice(), &gate)?;
        assert_eq!(rt; status, 0);
        assert!(rt; !gate.has_missed());
        if words.starts_with("trace") {
            for started in [
                b"Start #1 /Hall[1]/Stall[1]\n",
                b"Start #2 /Hall[1]/Stall[2]\n",
            ] {
                for stopped in [
                    b"Stop #1 /Hall[1]/Stall[1]\n",
                    b"Stop #2 /Hall[1]/Stall[2]\n",
                ] {
                    let start = place_of(out.bytes(), started).ok_or("no Start")?;
                    let stop = place_of(out.bytes(), stopped).ok_or("no Stop")?;
                    assert!(rt; start < stop);
                }
            }
        }
    }
    Ok(())
}

// A context that an event comes to: how a journal tells it, how often that is due, and how often it came.
#[derive(Drop)]
struct Stop {
    ticket: Ticket,
    path: Path,
    start: &'static [u8],
    due: u64,
    times: AtomicU64,
}

fn stop_at(ticket: u32, path: Path, start: &'static [u8], due: u64) -> Stop {
    Stop {
        ticket: Ticket(ticket),
        path,
        start,
        due,
        times: AtomicU64::new(0),
    }
}

// Counts its calls, in all and by ticket and path.
#[derive(Drop)]
struct Counting {
    all: AtomicU64,
    each: Vec<Stop>,
}

impl Counting {
    fn new(alloc: Global) -> Result<Counting, OutOfMemory> {
        let root = Path::root();
        let each = vec![in alloc;
            stop_at(1, root, b"Start #1 /\n", 1),
            stop_at(1, hall(1), b"Start #1 /Hall[1]\n", 1),
            stop_at(1, stall(1, 1), b"Start #1 /Hall[1]/Stall[1]\n", 1),
            stop_at(2, root, b"Start #2 /\n", 1),
            stop_at(2, hall(1), b"Start #2 /Hall[1]\n", 1),
            stop_at(3, root, b"Start #3 /\n", 1),
            stop_at(3, hall(1), b"Start #3 /Hall[1]\n", 1),
            stop_at(3, stall(1, 2), b"Start #3 /Hall[1]/Stall[2]\n", 1),
            stop_at(4, root, b"Start #4 /\n", 1),
            stop_at(4, hall(1), b"Start #4 /Hall[1]\n", 3),
            stop_at(4, stall(1, 1), b"Start #4 /Hall[1]/Stall[1]\n", 1),
            stop_at(4, stall(1, 2), b"Start #4 /Hall[1]/Stall[2]\n", 1),
        ]?;
        Ok(Counting {
            all: AtomicU64::new(0),
            each,
        })
    }
}

impl Gate for Counting {
    fn reach(&self, ticket: Ticket, path: &Path) {
        self.all.fetch_add(1, Ordering::SeqCst);
        for stop in &self.each {
            if stop.ticket == ticket && stop.path == *path {
                stop.times.fetch_add(1, Ordering::SeqCst);
            }
        }
    }
}

#[test]
fn each_segment_comes_to_the_gate_once(rt: HostRuntime) -> Result<(), Fail> {
    let alloc = rt.alloc();
    let input = join(alloc, MARKET, MOVES)?;
    for words in [
        "run --map --workers 1",
        "run --map --workers 4",
        "run --map --workers 16",
        "trace --map --workers 1",
        "trace --map --workers 4",
        "trace --map --workers 16",
    ] {
        let gate = Counting::new(alloc)?;
        let (status, out) = ran_on(&rt, alloc, words, input.as_slice(), &gate)?;
        assert_eq!(rt; status, 0);
        assert!(rt; out.bytes().starts_with(MOVED));
        assert_eq!(rt; gate.all.load(Ordering::SeqCst), 14);
        for stop in &gate.each {
            assert_eq!(rt; stop.times.load(Ordering::SeqCst), stop.due);
            if words.starts_with("trace") {
                assert_eq!(rt; times_in(out.bytes(), stop.start) as u64, stop.due);
            }
        }
    }
    Ok(())
}
