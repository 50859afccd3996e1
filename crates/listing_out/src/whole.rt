//! A whole listing as a text.

ghost use Rattle.std.specs.Prelude.{◌≡◌, ◌++◌, ◌+◌, ◌-◌, ◌^◌, ◌≤◌, ◌<◌, length, option_copied, IfOk, OnOk};
ghost use Rattle.std.specs.List.{concat};
ghost use Rattle.listing_out.specs.Listing.{name_at, made_at, places_of, last_ticket, listing};

use crate::lines::{end_lines, put_result};
use std::alloc::Global;
use wave_base::{Finished, OutOfMemory, Place, Seq, Shape, Ticket};
use wave_text::put_bytes;

/// The event's number at place `i`, where it is one of the service's.
pub(crate) fn name_at(done: &Finished, i: usize) -> Option<u16>
    ensures { result ≡ name_at done.now i }
{
    match done.names.get(i) {
        Some(name) => *name,
        None => None,
    }
}

/// The tickets of what the event at place `i` created.
pub(crate) fn made_at(done: &Finished, i: usize) -> &[Ticket]
    ensures { result.now ≡ made_at done.now i }
{
    match done.made.get(i) {
        Some(made) => made.as_slice(),
        None => &[],
    }
}

/// The hosts of the contexts, if they are to be told.
pub(crate) fn places_of(done: &Finished, map: bool) -> Option<&Seq<Place>>
    ensures { option_copied result ≡ places_of done.now map }
{
    if map { Some(&done.places) } else { None }
}

/// The last ticket of a run; without tickets, the one before the first.
pub(crate) fn last_ticket(first: Ticket, done: &Finished) -> u64
    requires first { 1 ≤ first.0 }
    requires few { length done.now.results ≤ 2 ^ 32 - 1 }
    ensures { result ≡ last_ticket first.0 done.now }
{
    u64::from(first.0) + done.results.len() as u64 - 1
}

// The ticket of the result at place `i`.
pub(crate) fn ticket_at(first: Ticket, i: usize) -> u64
    requires { i < 2 ^ 32 }
    ensures { result ≡ first.0 + i }
{
    u64::from(first.0) + i as u64
}

/// Appends lines.
pub(crate) fn put_lines(out: &mut Vec<u8>, lines: &[Seq<u8>]) -> Result<(), OutOfMemory>
    ensures { OnOk result (out.new.items ≡ out.old.items ++ concat lines.now) }
{
    for line in lines {
        put_bytes(out, line.as_slice())?;
    }
    Ok(())
}

/// The listing of a run whose first ticket is `first`, with the hosts of its contexts where `map` says so. A run without
/// tickets names in its last line the ticket before the first.
pub fn listing(
    alloc: Global,
    shape: &Shape,
    first: Ticket,
    done: &Finished,
    map: bool,
) -> Result<Seq<u8>, OutOfMemory>
    requires first { 1 ≤ first.0 }
    requires few { length done.now.results ≤ 2 ^ 32 - 1 }
    ensures { IfOk result (λ text. text ≡ listing shape.now first.0 done.now map) }
{
    let mut out = Vec::new(alloc);
    for (i, result_) in done.results.as_slice().iter().enumerate() {
        let n = ticket_at(first, i);
        put_result(
            alloc,
            &mut out,
            shape,
            n,
            name_at(done, i),
            result_,
            made_at(done, i),
        )?;
    }
    let last = last_ticket(first, done);
    let lines = end_lines(alloc, shape, places_of(done, map), last)?;
    put_lines(&mut out, lines.as_slice())?;
    Ok(Seq::from_vec(out))
}
