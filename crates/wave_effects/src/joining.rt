//! A ticket that comes to a context.

ghost use Rattle.std.specs.FinMap as table;
ghost use Rattle.wave_effects.specs.Rooms.{RoomInLine};
ghost use Rattle.wave_effects.specs.inner.Joins.{LinesUp};

use context_queue::Entry;
use host_map::HostStore;
use wave_base::{Path, Ticket};

// A ticket joins the line of a context that is here, or is born here.
pub(crate) fn line_up(
    store: &mut HostStore,
    path: Path,
    born: Option<Entry>,
    number: u64,
    ticket: Ticket,
    peek: bool,
)
    requires { RoomInLine store.old (table.get store.old.store path) born }
    ensures { LinesUp store.old store.new path born number (record { ticket = ticket.0; peek = peek }) }
{
    match born {
        Some(mut entry) => {
            entry.queue(number, ticket, peek);
            store.birth(path, entry);
        }
        None => store.entry_mut(&path).queue(number, ticket, peek),
    }
}
