//! Drives from the first Start and from another one.

use super::cases::{draw_run, drawn_at};
use super::wants::{comes_to, place, places_are, reply};
use crate::Case;
use std::test::Fail;
use tests_services::{TICK, label, one_event};
use wave_base::{Host, Outcome, Path, Span, Ticket, Trap, TrapKind};
use wave_labels::Act;

const ONE_HIT: Case = Case {
    service: TICK,
    script: b"request hit()\n",
    workers: 4,
};

#[test]
fn one_event_is_seven_labels(rt: HostRuntime) -> Result<(), Fail> {
    let (finished, labels) = draw_run(&rt, rt.alloc(), &ONE_HIT, 0)?;
    assert!(rt; labels.as_slice() == one_event().as_slice());
    comes_to(&rt, &finished, &[reply(1)]);
    Ok(())
}

const TURNS: &[u8] = b"service Turns {
  event turns(k: int): int { here { let s = 0;
    for i in 0 to k { s = s + i; } } reply s; }
}
";

const MANY_TURNS: Case = Case {
    service: TURNS,
    script: b"request turns(100000)
request turns(100001)
",
    workers: 2,
};

fn out_of_ticks(line: u32, col: u32) -> Outcome {
    let kind = TrapKind::Ticks;
    let at = Span { line, col };
    Outcome::Trapped(Trap { kind, at })
}

// A hundred thousand turns are as many as an event may take.
#[test]
fn a_loop_runs_out_of_ticks(rt: HostRuntime) -> Result<(), Fail> {
    let (finished, _) = draw_run(&rt, rt.alloc(), &MANY_TURNS, 7)?;
    comes_to(&rt, &finished, &[reply(4999950000), out_of_ticks(3, 5)]);
    Ok(())
}

const TWO_HITS: Case = Case {
    service: TICK,
    script: b"hosts 2
request hit()
request hit()
",
    workers: 1,
};

// The segment of ticket 9 begins where the root is.
// A run goes on where another ended: the root is on host 1, and seven tickets went before.
#[test]
fn a_start_has_the_root_elsewhere(rt: HostRuntime) -> Result<(), Fail> {
    let (finished, labels) = drawn_at(&rt, rt.alloc(), &TWO_HITS, Host(1), Ticket(8), 0)?;
    comes_to(&rt, &finished, &[reply(1), reply(2)]);
    places_are(&rt, &finished, &[place(Path::root(), 1)]);
    let second = label(0, 1, Act::Start(Ticket(9), Path::root()));
    assert!(rt; labels.as_slice().contains(&second));
    Ok(())
}
