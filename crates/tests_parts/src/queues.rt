//! The line of a context, and those that hold it.

use context_queue::*;
use std::alloc::Global;
use std::process::Abort;
use std::test::Fail;
use wave_base::{Children, Record, Seq, Ticket};

fn entry(alloc: Global) -> Entry {
    let body = Record {
        fields: Seq::new(alloc),
        children: Children::new(alloc),
    };
    Entry::new(alloc, body)
}

// A ticket joins the line under a number. What a line promises is read in these three alone, not in each test.
fn queue(rt: &impl Abort, entry: &mut Entry, number: u64, ticket: u32, peek: bool) {
    assert!(rt; entry.reserve(1).is_ok());
    entry.queue(number, Ticket(ticket), peek);
}

// Who gets in.
fn grant(rt: &impl Abort, entry: &mut Entry) -> Option<Ticket> {
    assert!(rt; entry.reserve_peek().is_ok());
    entry.grant()
}

// A ticket lets go, or holds nothing.
fn free(entry: &mut Entry, ticket: u32) {
    entry.free(Ticket(ticket));
}

#[test]
fn tickets_get_in_by_their_numbers(rt: HostRuntime) -> Result<(), Fail> {
    let mut entry = entry(rt.alloc());
    queue(&rt, &mut entry, 2, 9, false);
    assert!(rt; entry.upcoming().is_none());
    queue(&rt, &mut entry, 1, 7, false);
    assert!(rt; grant(&rt, &mut entry) == Some(Ticket(7)));
    assert!(rt; grant(&rt, &mut entry).is_none());
    free(&mut entry, 9);
    assert!(rt; grant(&rt, &mut entry).is_none());
    free(&mut entry, 7);
    assert!(rt; grant(&rt, &mut entry) == Some(Ticket(9)));
    assert!(rt; entry.served == 2);
    assert!(rt; entry.waiting.len() == 0);
    Ok(())
}

#[test]
fn those_that_look_hold_together(rt: HostRuntime) -> Result<(), Fail> {
    let mut entry = entry(rt.alloc());
    queue(&rt, &mut entry, 1, 3, true);
    queue(&rt, &mut entry, 2, 4, true);
    queue(&rt, &mut entry, 3, 5, false);
    assert!(rt; grant(&rt, &mut entry) == Some(Ticket(3)));
    assert!(rt; grant(&rt, &mut entry) == Some(Ticket(4)));
    assert!(rt; grant(&rt, &mut entry).is_none());
    free(&mut entry, 3);
    assert!(rt; entry.peeks.contains(Ticket(4)) && !entry.peeks.contains(Ticket(3)));
    assert!(rt; grant(&rt, &mut entry).is_none());
    free(&mut entry, 4);
    assert!(rt; grant(&rt, &mut entry) == Some(Ticket(5)));
    entry.free_all();
    assert!(rt; entry.holder.is_none());
    Ok(())
}
