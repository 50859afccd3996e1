//! Tickets as the head of a script gives them.

ghost use Rattle.std.specs.Prelude.{◌≡◌, ◌∷◌, [], List, length, IfOk};
ghost use Rattle.wave_base.specs.declared.script.Line.{Line};

use head_tickets::{Head, Job};
use std::alloc::Global;
use std::process::Abort;
use std::test::Fail;
use wave_base::{Call, Line, OutOfMemory, Script, Seq, Ticket};

fn call(alloc: Global, event: u16) -> Call {
    Call {
        event,
        args: Seq::new(alloc),
        generation: 0,
    }
}

// An event, and then a snapshot in a batch of its own.
fn two_batches(alloc: Global) -> Result<Script, OutOfMemory>
    ensures { IfOk result (λ s. (b : List Line) × (s.batches ≡ b ∷ (Line.Snapshot ∷ []) ∷ []) × (length b ≡ 1)) }
{
    let first = Seq::from_vec(vec![in alloc; Line::Request(call(alloc, 0))]?);
    let last = Seq::from_vec(vec![in alloc; Line::Snapshot]?);
    let batches = Seq::from_vec(vec![in alloc; first, last]?);
    Ok(Script { hosts: 1, batches })
}

// An event was admitted, under this ticket.
fn is_event(rt: &impl Abort, alloc: Global, admitted: &(Ticket, Job), ticket: u32, event: u16) {
    let wanted = (Ticket(ticket), Job::Event(call(alloc, event)));
    assert!(rt; *admitted == wanted);
}

#[test]
fn a_created_call_comes_after_what_is_known(rt: HostRuntime) -> Result<(), Fail> {
    let alloc = rt.alloc();
    let mut head = Head::new(alloc, two_batches(alloc)?);
    assert!(rt; head.upcoming() == Some(&Line::Request(call(alloc, 0))));
    assert!(rt; head.next() == Some(Ticket(1)));
    let _ = head.admit();
    assert!(rt; head.reserve(1).is_ok());
    let calls = Seq::from_vec(vec![in alloc; call(alloc, 1)]?);
    assert!(rt; head.add_created(calls).as_slice() == [Ticket(2)].as_slice());
    assert!(rt; head.next() == Some(Ticket(2)));
    is_event(&rt, alloc, &head.admit(), 2, 1);
    assert!(rt; head.next().is_none());
    Ok(())
}

#[test]
fn the_next_batch_comes_when_all_is_done(rt: HostRuntime) -> Result<(), Fail> {
    let alloc = rt.alloc();
    let mut head = Head::new_at(alloc, two_batches(alloc)?, Ticket(7));
    is_event(&rt, alloc, &head.admit(), 7, 0);
    assert!(rt; head.next().is_none());
    assert!(rt; head.add_created(Seq::new(alloc)).is_empty());
    assert!(rt; head.batch_done());
    assert!(rt; head.next() == Some(Ticket(8)));
    assert!(rt; head.admit() == (Ticket(8), Job::Snapshot));
    Ok(())
}
