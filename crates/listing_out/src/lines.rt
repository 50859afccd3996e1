//! The lines of a ticket, and those at the end of a listing.

ghost use Rattle.std.specs.Prelude.{◌≡◌, ◌++◌, map, option_copied, OnOk, IfOk};
ghost use Rattle.std.specs.List.{concat};
ghost use Rattle.path_text.specs.ShotTexts.{shot_text};
ghost use Rattle.listing_out.specs.LineTexts.{message_text, made_text, ticket_line, place_line};
ghost use Rattle.listing_out.specs.Listing.{shots_in, result_lines, end_lines};

use crate::line_texts::{
    done_line, place_line, put_made_line, put_message_line, put_outcome_line, put_shot_line,
};
use std::alloc::Global;
use wave_base::{EventResult, Message, OutOfMemory, Outcome, Place, Seq, Shape, Shot, Ticket};

fn shots_in(outcome: &Outcome) -> &[Shot]
    ensures { result.now ≡ shots_in outcome.now }
{
    match outcome {
        Outcome::Shots(shots) => shots.as_slice(),
        _ => &[],
    }
}

fn put_shots(
    alloc: Global,
    out: &mut Vec<u8>,
    shape: &Shape,
    n: u64,
    shots: &[Shot],
) -> Result<(), OutOfMemory>
    ensures { OnOk result (out.new.items ≡ out.old.items ++ concat (map (λ s. ticket_line n (shot_text shape.now s)) shots.now)) }
{
    for shot in shots {
        put_shot_line(alloc, out, shape, n, shot)?;
    }
    Ok(())
}

fn put_messages(
    alloc: Global,
    out: &mut Vec<u8>,
    n: u64,
    messages: &[Message],
) -> Result<(), OutOfMemory>
    ensures { OnOk result (out.new.items ≡ out.old.items ++ concat (map (λ m. ticket_line n (message_text m)) messages.now)) }
{
    for message in messages {
        put_message_line(alloc, out, n, message)?;
    }
    Ok(())
}

fn put_made(alloc: Global, out: &mut Vec<u8>, n: u64, made: &[Ticket]) -> Result<(), OutOfMemory>
    ensures { OnOk result (out.new.items ≡ out.old.items ++ concat (map (λ t. ticket_line n (made_text t)) made.now)) }
{
    for ticket in made {
        put_made_line(alloc, out, n, *ticket)?;
    }
    Ok(())
}

/// Appends the lines of one ticket, each with its line feed.
pub(crate) fn put_result(
    alloc: Global,
    out: &mut Vec<u8>,
    shape: &Shape,
    n: u64,
    name: Option<u16>,
    result_: &EventResult,
    made: &[Ticket],
) -> Result<(), OutOfMemory>
    ensures { OnOk result (out.new.items ≡ out.old.items ++ concat (result_lines shape.now n name result_.now made.now)) }
{
    put_outcome_line(alloc, out, shape, n, name, &result_.outcome)?;
    put_shots(alloc, out, shape, n, shots_in(&result_.outcome))?;
    put_messages(alloc, out, n, result_.messages.as_slice())?;
    put_made(alloc, out, n, made)
}

fn add_places(
    alloc: Global,
    lines: &mut Vec<Seq<u8>>,
    shape: &Shape,
    places: &[Place],
) -> Result<(), OutOfMemory>
    ensures { OnOk result (lines.new.items ≡ lines.old.items ++ map (place_line shape.now) places.now) }
{
    for place in places {
        lines.push(place_line(alloc, shape, place)?)?;
    }
    Ok(())
}

/// The lines behind those of the tickets, each with its line feed.
pub(crate) fn end_lines(
    alloc: Global,
    shape: &Shape,
    places: Option<&Seq<Place>>,
    last: u64,
) -> Result<Vec<Seq<u8>>, OutOfMemory>
    ensures { IfOk result (λ lines. lines.items ≡ end_lines shape.now (option_copied places.entry) last) }
{
    let mut lines = Vec::new(alloc);
    if let Some(places) = places {
        add_places(alloc, &mut lines, shape, places.as_slice())?;
    }
    lines.push(done_line(alloc, last)?)?;
    Ok(lines)
}
