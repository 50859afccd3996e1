//! What is looked at of a ticket and of the line of a context.

ghost use Rattle.std.specs.Prelude.{◌≡◌, ◌+◌, [], Some, option_copied, option_map, slice_get};
ghost use Rattle.wave_labels.specs.Labels.{act_of};
ghost use Rattle.wave_states.specs.Labels.{path_of};
ghost use Rattle.wave_effects.specs.Keeping.{kept_of};
ghost use Rattle.wave_machine.specs.inner.Index.{asks_at, asks_in, cell_at, held_at, is_enter, is_enter_letter, sent_at, share_at, share_of};
ghost use Rattle.wave_machine.specs.inner.Updating.{has_at, next_at, next_of};

use crate::asking::store_at;
use context_queue::{Entry, entries_stand};
use event_cells::{Cell, Envelope, Status};
use host_map::HostStore;
use migration_core::Letter;
use wave_base::{Host, Path, Ticket};
use wave_effects::{Actor, Engine};
use wave_labels::Act;

// Whether a host has the entry of a context, and the ticket that is next in its line there, where one gets in.
pub(crate) fn line_at(engine: &Engine, host: Host, path: &Path) -> (bool, Option<Ticket>)
    ensures here { result.0 ≡ has_at path.now (slice_get engine.now.stores.items host.0) }
    ensures next { option_map (λ t. t.0) result.1 ≡ next_at path.now (slice_get engine.now.stores.items host.0) }
{
    match store_at(engine, host) {
        Some(store) => line_in(store, path),
        None => (false, None),
    }
}

// Whether a host has the entry of a context.
pub(crate) fn has_at(engine: &Engine, host: Host, path: &Path) -> bool
    ensures { result ≡ has_at path.now (slice_get engine.now.stores.items host.0) }
{
    match store_at(engine, host) {
        Some(store) => store.has(path),
        None => false,
    }
}

// How many entries the index may have for a ticket: one for its status and one for each mail; none where it is done.
pub(crate) fn share_at(engine: &Engine, ticket: Ticket) -> usize
    ensures { result ≡ share_at (kept_of engine.now) ticket.0 }
{
    match cell_at(engine, ticket) {
        Some(cell) => share_of(cell),
        None => 0,
    }
}

// How many mails a ticket has sent.
pub(crate) fn sent_at(engine: &Engine, ticket: Ticket) -> u32
    ensures { result ≡ sent_at (kept_of engine.now) ticket.0 }
{
    match cell_at(engine, ticket) {
        Some(cell) => cell.sent_count(),
        None => 0,
    }
}

// Whether the status of a ticket may ask for something.
pub(crate) fn asks_at(engine: &Engine, ticket: Ticket) -> bool
    ensures { result ≡ asks_at (kept_of engine.now) ticket.0 }
{
    match cell_at(engine, ticket) {
        Some(cell) => asks_in(&cell.status()),
        None => false,
    }
}

// Whether a status may ask for something: one that waits, or is ready.
fn asks_in(status: &Status) -> bool
    ensures { result ≡ asks_in status.now }
{
    match status {
        Status::Waiting(_) | Status::Ready(_) => true,
        Status::Travelling | Status::Running(_) | Status::Ended => false,
    }
}

// How many mails a Stop of a ticket may add: one, and a Release for each context that it holds.
pub(crate) fn may_leave(engine: &Engine, ticket: Ticket) -> usize
    ensures { result ≡ 1 + held_at (kept_of engine.now) ticket.0 }
{
    match cell_at(engine, ticket) {
        Some(cell) => 1 + cell.holds().len(),
        None => 1,
    }
}

// The cell of a ticket, where it was admitted.
pub(crate) fn cell_at<'a>(engine: &'a Engine, ticket: Ticket) -> Option<&'a Cell<Actor>>
    ensures { option_copied result ≡ cell_at (kept_of engine.now) ticket.0 }
{
    if ticket.0 < engine.first {
        return None;
    }
    engine.cells.get((ticket.0 - engine.first) as usize)
}

// The context that a label is on, where it stands in the act; `root`, which is the root's, where it is on none.
pub(crate) fn path_in<'a>(act: &'a Act, root: &'a Path) -> &'a Path
    requires { root.now ≡ [] }
    ensures { result.now ≡ path_of (act_of act.now) }
{
    match act {
        Act::Admit(_) | Act::Commit(_) => root,
        Act::Grant(_, path) | Act::Start(_, path) | Act::Stop(_, path) => path,
        Act::Queue(_, path) | Act::Visit(_, path) | Act::Free(_, path) => path,
        Act::Pass(_, path, _) | Act::Land(_, path) => path,
    }
}

// Whether a mail is an Enter to a context at a host.
pub(crate) fn is_enter(envelope: &Envelope, host: Host, path: &Path) -> bool
    ensures { result ≡ is_enter host.0 path.now (Some envelope.now) }
{
    envelope.to == host && (envelope.path == *path && is_entering(&envelope.letter))
}

fn is_entering(letter: &Letter) -> bool
    ensures { result ≡ is_enter_letter letter.now }
{
    matches!(letter, Letter::Enter { .. })
}

// How many entries the index may have for a cell.
fn share_of(cell: &Cell<Actor>) -> usize
    ensures { result ≡ share_of cell.now }
{
    if cell.is_done() {
        0
    } else {
        1 + cell.mails().len()
    }
}

// Whether a store has the entry of a context, and the ticket that is next in its line.
fn line_in(store: &HostStore, path: &Path) -> (bool, Option<Ticket>)
    ensures here { result.0 ≡ has_at path.now (Some store.now) }
    ensures next { option_map (λ t. t.0) result.1 ≡ next_at path.now (Some store.now) }
{
    match store.entry(path) {
        Some(entry) => (true, next_of(entry)),
        None => (false, None),
    }
}

// The ticket that is next in the line of an entry.
fn next_of(entry: &Entry) -> Option<Ticket>
    ensures { option_map (λ t. t.0) result ≡ next_of (Some entry.now) }
{
    entries_stand();
    match entry.upcoming() {
        Some(claim) => Some(claim.ticket),
        None => None,
    }
}
