//! A listing that is written while its run goes on, part by part.

ghost use Rattle.std.specs.Prelude.{◌≡◌, ◌+◌, ◌-◌, ◌^◌, ◌≤◌, length, option_copied, IfOk, OnOk, OnErr, IsErrOf};
ghost use Rattle.std.specs.List.{concat};
ghost use Rattle.std.specs.Io.KnownBytes.{Appends};
ghost use Rattle.wave_io.specs.Causes.{Rose};
ghost use Rattle.wave_io.specs.Streams.{AppendsFront};
ghost use Rattle.listing_out.specs.Listing.{lines_from, shown_of, end_lines, listing};

use crate::lines::{end_lines, put_result};
use crate::whole::{last_ticket, made_at, name_at, places_of, put_lines, ticket_at};
use std::alloc::Global;
use thiserror::Error;
use wave_base::{Finished, OutOfMemory, Place, Seq, Shape, Shown, Ticket};
use wave_io::{Failed, HeldBytes, Sink, write_all};

/// Why a listing was not written whole. A front of it was.
#[derive(Clone, Copy, Debug, PartialEq, Eq, Error)]
pub enum ListError {
    /// The sink failed.
    #[error("a write failed")]
    WriteFault,
    /// Memory was wanting.
    #[error("out of memory")]
    OutOfMemory(OutOfMemory),
}

impl From<OutOfMemory> for ListError {
    ghost use Rattle.std.specs.Prelude.{◌≡◌};
    ghost use Rattle.listing_out.specs.declared.write.ListError.TheVariants as error;

    ghost from_gives = { λ refused e. e ≡ error.OutOfMemory refused };

    fn from(refused: OutOfMemory) -> ListError {
        ListError::OutOfMemory(refused)
    }
}

impl From<Failed> for ListError {
    ghost use Rattle.std.specs.Prelude.{◌≡◌};
    ghost use Rattle.listing_out.specs.declared.write.ListError.TheVariants as error;

    ghost from_gives = { λ _ e. e ≡ error.WriteFault };

    fn from(_e: Failed) -> ListError {
        ListError::WriteFault
    }
}

// The lines of tickets, of which the first is `from`, as bytes.
fn lines_in_one(
    alloc: Global,
    shape: &Shape,
    from: Ticket,
    part: &Seq<Shown>,
) -> Result<Vec<u8>, OutOfMemory>
    requires { from.0 + length part.now ≤ 2 ^ 32 }
    ensures { IfOk result (λ bytes. bytes.items ≡ concat (lines_from shape.now from.0 part.now)) }
{
    let mut bytes = Vec::new(alloc);
    for (i, shown) in part.as_slice().iter().enumerate() {
        let n = ticket_at(from, i);
        let made = shown.made.as_slice();
        put_result(alloc, &mut bytes, shape, n, shown.name, &shown.result, made)?;
    }
    Ok(bytes)
}

/// Writes the lines of tickets, of which the first is `from`, as one text: a sink that takes all that it is given is called once.
/// Where memory for the text is wanting, nothing is written.
pub fn write_lines<K: Sink>(
    alloc: Global,
    sink: &mut K,
    shape: &Shape,
    from: Ticket,
    part: &Seq<Shown>,
) -> Result<(), ListError>
    requires last { from.0 + length part.now ≤ 2 ^ 32 }
    ensures ok { OnOk result (Appends (K.written sink.old) (K.written sink.new) (concat (lines_from shape.now from.0 part.now))) }
    ensures err { OnErr result (AppendsFront (K.written sink.old) (K.written sink.new) (concat (lines_from shape.now from.0 part.now))) }
    ensures fault { IsErrOf result ListError.WriteFault → Rose (K.faults sink.old) (K.faults sink.new) }
    ensures later { K.faults sink.old ≤ K.faults sink.new }
{
    let bytes = lines_in_one(alloc, shape, from, part)?;
    write_all(sink, bytes.as_slice())?;
    Ok(())
}

// Writes the last lines, as one text.
fn write_last<K: Sink>(
    alloc: Global,
    sink: &mut K,
    shape: &Shape,
    places: Option<&Seq<Place>>,
    last: u64,
) -> Result<(), ListError>
    ensures ok { OnOk result (Appends (K.written sink.old) (K.written sink.new) (concat (end_lines shape.now (option_copied places.entry) last))) }
    ensures err { OnErr result (AppendsFront (K.written sink.old) (K.written sink.new) (concat (end_lines shape.now (option_copied places.entry) last))) }
    ensures fault { IsErrOf result ListError.WriteFault → Rose (K.faults sink.old) (K.faults sink.new) }
    ensures later { K.faults sink.old ≤ K.faults sink.new }
{
    let lines = end_lines(alloc, shape, places, last)?;
    let mut text = Vec::new(alloc);
    put_lines(&mut text, lines.as_slice())?;
    write_all(sink, text.as_slice())?;
    Ok(())
}

/// Writes what stands behind the lines of the tickets: the hosts of the contexts, if there are any, and the last line, which names
/// the last ticket.
pub fn write_end<K: Sink>(
    alloc: Global,
    sink: &mut K,
    shape: &Shape,
    places: Option<&Seq<Place>>,
    last: u32,
) -> Result<(), ListError>
    ensures ok { OnOk result (Appends (K.written sink.old) (K.written sink.new) (concat (end_lines shape.now (option_copied places.entry) last))) }
    ensures err { OnErr result (AppendsFront (K.written sink.old) (K.written sink.new) (concat (end_lines shape.now (option_copied places.entry) last))) }
    ensures fault { IsErrOf result ListError.WriteFault → Rose (K.faults sink.old) (K.faults sink.new) }
    ensures later { K.faults sink.old ≤ K.faults sink.new }
{
    write_last(alloc, sink, shape, places, u64::from(last))
}

/// Writes the lines of all tickets of a run, of which the first is `first`, many in one write; what stands behind them is left to
/// `write_end`.
pub fn write_results<K: Sink>(
    alloc: Global,
    sink: &mut K,
    shape: &Shape,
    first: Ticket,
    done: &Finished,
) -> Result<(), ListError>
    requires first { 1 ≤ first.0 }
    requires few { length done.now.results ≤ 2 ^ 32 - 1 }
    ensures ok { OnOk result (Appends (K.written sink.old) (K.written sink.new) (concat (lines_from shape.now first.0 (shown_of done.now)))) }
    ensures err { OnErr result (AppendsFront (K.written sink.old) (K.written sink.new) (concat (lines_from shape.now first.0 (shown_of done.now)))) }
    ensures fault { IsErrOf result ListError.WriteFault → Rose (K.faults sink.old) (K.faults sink.new) }
    ensures later { K.faults sink.old ≤ K.faults sink.new }
{
    let mut held = HeldBytes::new(alloc)?;
    let mut text = Vec::new(alloc);
    for (i, result_) in done.results.as_slice().iter().enumerate() {
        let n = ticket_at(first, i);
        text.clear();
        put_result(
            alloc,
            &mut text,
            shape,
            n,
            name_at(done, i),
            result_,
            made_at(done, i),
        )?;
        held.write_all(sink, text.as_slice())?;
    }
    held.flush(sink)?;
    Ok(())
}

/// Writes the listing of a run whose first ticket is `first`, many lines in one write.
pub fn write_listing_at<K: Sink>(
    alloc: Global,
    sink: &mut K,
    shape: &Shape,
    first: Ticket,
    done: &Finished,
    map: bool,
) -> Result<(), ListError>
    requires first { 1 ≤ first.0 }
    requires few { length done.now.results ≤ 2 ^ 32 - 1 }
    ensures ok { OnOk result (Appends (K.written sink.old) (K.written sink.new) (listing shape.now first.0 done.now map)) }
    ensures err { OnErr result (AppendsFront (K.written sink.old) (K.written sink.new) (listing shape.now first.0 done.now map)) }
    ensures fault { IsErrOf result ListError.WriteFault → Rose (K.faults sink.old) (K.faults sink.new) }
    ensures later { K.faults sink.old ≤ K.faults sink.new }
{
    match write_results(alloc, sink, shape, first, done) {
        Ok(()) => {
            let last = last_ticket(first, done);
            write_last(alloc, sink, shape, places_of(done, map), last)
        }
        Err(error) => Err(error),
    }
}

/// Writes the listing of a run that begins with ticket 1, many lines in one write.
pub fn write_listing<K: Sink>(
    alloc: Global,
    sink: &mut K,
    shape: &Shape,
    done: &Finished,
    map: bool,
) -> Result<(), ListError>
    requires { length done.now.results ≤ 2 ^ 32 - 1 }
    ensures ok { OnOk result (Appends (K.written sink.old) (K.written sink.new) (listing shape.now 1 done.now map)) }
    ensures err { OnErr result (AppendsFront (K.written sink.old) (K.written sink.new) (listing shape.now 1 done.now map)) }
    ensures fault { IsErrOf result ListError.WriteFault → Rose (K.faults sink.old) (K.faults sink.new) }
    ensures later { K.faults sink.old ≤ K.faults sink.new }
{
    write_listing_at(alloc, sink, shape, Ticket(1), done, map)
}
