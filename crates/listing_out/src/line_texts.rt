//! The lines of a listing, each by itself.

ghost use Rattle.std.specs.Prelude.{◌≡◌, ◌++◌, ◌∷◌, [], OnOk, IfOk, codes};
ghost use Rattle.std.specs.Fmt.{decimal};
ghost use Rattle.wave_text.specs.Places.{place_text};
ghost use Rattle.path_text.specs.ShotTexts.{shot_text};
ghost use Rattle.listing_out.specs.LineTexts.{trap_name, event_name, outcome_text, message_text, made_text, ticket_line, place_line, done_line};

use path_text::{put_path, put_shot};
use std::alloc::Global;
use wave_base::{Message, OutOfMemory, Outcome, Place, Seq, Shape, Shot, Ticket, Trap, TrapKind};
use wave_text::{put_bytes, put_number, put_place, put_quoted, put_value};

fn trap_name(kind: TrapKind) -> &'static [u8]
    ensures { result.now ≡ trap_name kind }
{
    match kind {
        TrapKind::Overflow => b"Overflow",
        TrapKind::DivZero => b"DivZero",
        TrapKind::Absent => b"Absent",
        TrapKind::Full => b"Full",
        TrapKind::TooLong => b"TooLong",
        TrapKind::Require => b"Require",
        TrapKind::Ticks => b"Ticks",
        TrapKind::Sends => b"Sends",
        TrapKind::Spawns => b"Spawns",
        TrapKind::Generation => b"Generation",
        TrapKind::Reach => b"Reach",
    }
}

fn event_name(shape: &Shape, name: Option<u16>) -> &[u8]
    ensures { result.now ≡ event_name shape.now name }
{
    match name {
        None => &[],
        Some(event) => match shape.events.get(usize::from(event)) {
            Some(info) => info.name.bytes(),
            None => &[],
        },
    }
}

fn put_trap(alloc: Global, out: &mut Vec<u8>, trap: Trap) -> Result<(), OutOfMemory>
    ensures { OnOk result (out.new.items ≡ out.old.items ++ (codes " trap " ++ trap_name trap.kind ++ codes " at " ++ place_text trap.at)) }
{
    put_bytes(out, b" trap ")?;
    put_bytes(out, trap_name(trap.kind))?;
    put_bytes(out, b" at ")?;
    put_place(alloc, out, trap.at)
}

// Appends what became of a ticket.
fn put_outcome(
    alloc: Global,
    out: &mut Vec<u8>,
    shape: &Shape,
    name: Option<u16>,
    outcome: &Outcome,
) -> Result<(), OutOfMemory>
    ensures { OnOk result (out.new.items ≡ out.old.items ++ outcome_text shape.now name outcome.now) }
{
    match outcome {
        Outcome::Done => {
            put_bytes(out, event_name(shape, name))?;
            put_bytes(out, b" ok")
        }
        Outcome::Reply(value) => {
            put_bytes(out, event_name(shape, name))?;
            put_bytes(out, b" = ")?;
            put_value(alloc, out, value)
        }
        Outcome::Trapped(trap) => {
            put_bytes(out, event_name(shape, name))?;
            put_trap(alloc, out, *trap)
        }
        Outcome::Moved(path, to) => {
            put_bytes(out, b"moved ")?;
            put_path(alloc, out, shape, path)?;
            put_bytes(out, b" to ")?;
            put_number(alloc, out, u64::from(to.0))
        }
        Outcome::Absent(path) => {
            put_bytes(out, b"absent ")?;
            put_path(alloc, out, shape, path)
        }
        Outcome::Shots(shots) => {
            put_bytes(out, b"snapshot ")?;
            put_number(alloc, out, shots.len() as u64)
        }
    }
}

// Appends what begins each line of a ticket.
fn put_front(alloc: Global, out: &mut Vec<u8>, n: u64) -> Result<(), OutOfMemory>
    ensures { OnOk result (out.new.items ≡ out.old.items ++ (codes "#" ++ decimal n ++ codes " ")) }
{
    put_bytes(out, b"#")?;
    put_number(alloc, out, n)?;
    put_bytes(out, b" ")
}

/// Appends the line of how a ticket's job ended.
pub(crate) fn put_outcome_line(
    alloc: Global,
    out: &mut Vec<u8>,
    shape: &Shape,
    n: u64,
    name: Option<u16>,
    outcome: &Outcome,
) -> Result<(), OutOfMemory>
    ensures { OnOk result (out.new.items ≡ out.old.items ++ ticket_line n (outcome_text shape.now name outcome.now)) }
{
    put_front(alloc, out, n)?;
    put_outcome(alloc, out, shape, name, outcome)?;
    put_bytes(out, b"\n")
}

/// Appends the line of a context with its fields, as a snapshot of a ticket has it.
pub(crate) fn put_shot_line(
    alloc: Global,
    out: &mut Vec<u8>,
    shape: &Shape,
    n: u64,
    shot: &Shot,
) -> Result<(), OutOfMemory>
    ensures { OnOk result (out.new.items ≡ out.old.items ++ ticket_line n (shot_text shape.now shot.now)) }
{
    put_front(alloc, out, n)?;
    put_shot(alloc, out, shape, shot)?;
    put_bytes(out, b"\n")
}

/// Appends the line of a message that a ticket's event sent.
pub(crate) fn put_message_line(
    alloc: Global,
    out: &mut Vec<u8>,
    n: u64,
    message: &Message,
) -> Result<(), OutOfMemory>
    ensures { OnOk result (out.new.items ≡ out.old.items ++ ticket_line n (message_text message.now)) }
{
    put_front(alloc, out, n)?;
    put_bytes(out, b"send ")?;
    put_quoted(out, message.label.bytes())?;
    put_bytes(out, b" ")?;
    put_value(alloc, out, &message.value)?;
    put_bytes(out, b"\n")
}

/// Appends the line of a ticket that a ticket's event created.
pub(crate) fn put_made_line(
    alloc: Global,
    out: &mut Vec<u8>,
    n: u64,
    made: Ticket,
) -> Result<(), OutOfMemory>
    ensures { OnOk result (out.new.items ≡ out.old.items ++ ticket_line n (made_text made)) }
{
    put_front(alloc, out, n)?;
    put_bytes(out, b"made #")?;
    put_number(alloc, out, u64::from(made.0))?;
    put_bytes(out, b"\n")
}

/// The line of a context's host.
pub(crate) fn place_line(
    alloc: Global,
    shape: &Shape,
    place: &Place,
) -> Result<Seq<u8>, OutOfMemory>
    ensures { IfOk result (λ line. line ≡ place_line shape.now place.now) }
{
    let mut line = Vec::new(alloc);
    put_bytes(&mut line, b"place ")?;
    put_path(alloc, &mut line, shape, &place.path)?;
    put_bytes(&mut line, b" ")?;
    put_number(alloc, &mut line, u64::from(place.host.0))?;
    put_bytes(&mut line, b"\n")?;
    Ok(Seq::from_vec(line))
}

/// The last line, which names the last ticket of the run.
pub(crate) fn done_line(alloc: Global, last: u64) -> Result<Seq<u8>, OutOfMemory>
    ensures { IfOk result (λ line. line ≡ done_line last) }
{
    let mut line = Vec::new(alloc);
    put_bytes(&mut line, b"done ")?;
    put_number(alloc, &mut line, last)?;
    put_bytes(&mut line, b"\n")?;
    Ok(Seq::from_vec(line))
}
