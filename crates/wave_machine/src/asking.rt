//! What is asked for, label by label.

ghost use Rattle.std.specs.Prelude.{◌≡◌, ◌≤◌, ◌<◌, ◌+◌, ◌^◌, true, length, is_some, Some, option_copied, option_map, slice_get};
ghost use Rattle.commit_order.specs.Commits.{ready_result};
ghost use Rattle.wave_labels.specs.Labels.{act_of};
ghost use Rattle.context_queue.specs.Entries.{entry_of, next_in};
ghost use Rattle.migration_core.specs.Letters.{route_of};
ghost use Rattle.wave_machine.specs.inner.Asking.{labels_in, enter_act, route_at, is_claim, is_next, runs_out, mail_labels, grant_labels, start_labels, status_labels, stop_if, admit_labels, commit_labels};
ghost use Rattle.wave_effects.specs.Keeping.{place_in};

use context_queue::{Entry, entries_stand};
use event_cells::{Envelope, Status};
use host_map::{HostStore, place_of, stores_stand};
use migration_core::{Letter, Route, route_at};
use wave_base::{Host, Path, Ticket, Worker};
use wave_effects::{Engine, Out};
use wave_labels::{Act, Label, MailId};

pub(crate) fn admit_label(engine: &Engine, worker: Worker) -> Option<Label>
    ensures { labels_in result ≡ admit_labels worker.0 engine.now.head }
{
    match engine.head.next() {
        Some(ticket) => Some(Label {
            worker,
            host: Host(0),
            act: Act::Admit(ticket),
        }),
        None => None,
    }
}

pub(crate) fn commit_label(engine: &Engine, worker: Worker) -> Option<Label>
    requires { is_some (ready_result engine.now.commits) ≡ true → engine.now.first + length engine.now.settled.items < 2 ^ 32 }
    ensures { labels_in result ≡ commit_labels worker.0 (engine.now.first + length engine.now.settled.items) engine.now.commits }
{
    match engine.commits.ready() {
        Some(_) => Some(Label {
            worker,
            host: Host(0),
            act: Act::Commit(Ticket(engine.first + engine.settled.len() as u32)),
        }),
        None => None,
    }
}

pub(crate) fn status_label(
    engine: &Engine,
    worker: Worker,
    ticket: Ticket,
    status: &Status,
) -> Option<Label>
    requires { length engine.now.stores.items ≤ 8 }
    ensures { labels_in result ≡ status_labels engine.now.stores.items worker.0 ticket.0 status.now }
{
    match status {
        Status::Waiting(path) => grant_label(engine, worker, ticket, path),
        Status::Ready(path) => start_label(engine, worker, ticket, path),
        Status::Travelling | Status::Running(_) | Status::Ended => None,
    }
}

// One that waits gets in where it is the next in line.
fn grant_label(engine: &Engine, worker: Worker, ticket: Ticket, path: &Path) -> Option<Label>
    requires { length engine.now.stores.items ≤ 8 }
    ensures { labels_in result ≡ grant_labels engine.now.stores.items worker.0 ticket.0 path.now (place_in engine.now.stores.items path.now) }
{
    let host = place_of(&engine.stores, path)?;
    let store = store_at(engine, host)?;
    if !is_next(store, ticket, path) {
        return None;
    }
    Some(Label {
        worker,
        host,
        act: Act::Grant(ticket, *path),
    })
}

pub(crate) fn store_at<'a>(engine: &'a Engine, host: Host) -> Option<&'a HostStore>
    ensures { option_copied result ≡ slice_get engine.now.stores.items host.0 }
{
    engine.stores.get(host.0 as usize)
}

fn start_label(engine: &Engine, worker: Worker, ticket: Ticket, path: &Path) -> Option<Label>
    requires { length engine.now.stores.items ≤ 8 }
    ensures { labels_in result ≡ start_labels engine.now.stores.items worker.0 ticket.0 path.now (place_in engine.now.stores.items path.now) }
{
    let host = place_of(&engine.stores, path)?;
    Some(Label {
        worker,
        host,
        act: Act::Start(ticket, *path),
    })
}

pub(crate) fn mail_label(
    engine: &Engine,
    worker: Worker,
    id: MailId,
    envelope: &Envelope,
) -> Option<Label>
    ensures { labels_in result ≡ mail_labels engine.now.stores.items worker.0 id.ticket.0 id.number (Some envelope.now) }
{
    let path = &envelope.path;
    let act = match envelope.letter {
        Letter::Enter { followed, .. } => {
            enter_act(id, path, way(engine, envelope.to, path, followed))?
        }
        Letter::Visit | Letter::Back => Act::Visit(id, *path),
        Letter::Release => Act::Free(id, *path),
        Letter::Transfer(_) => Act::Land(id, *path),
    };
    Some(Label {
        worker,
        host: envelope.to,
        act,
    })
}

// Where an Enter goes from a host, which has followed the mark of this number.
fn way(engine: &Engine, to: Host, path: &Path, followed: u64) -> Route
    ensures { route_of result ≡ route_at (slice_get engine.now.stores.items to.0) path.now followed }
{
    stores_stand();
    match store_at(engine, to) {
        Some(store) => route_at(store, path, followed),
        None => Route::Wait,
    }
}

pub(crate) fn stop_label(engine: &Engine, worker: Worker, host: Host, out: &Out) -> Option<Label>
    ensures { labels_in result ≡ stop_if (runs_out (slice_get engine.now.hands.items worker.0) out.now.ticket.0 out.now.path) worker.0 host.0 out.now.ticket.0 out.now.path }
{
    if !has_out(engine, worker, out) {
        return None;
    }
    Some(Label {
        worker,
        host,
        act: Act::Stop(out.ticket, out.path),
    })
}

// Whether a worker has this segment out.
fn has_out(engine: &Engine, worker: Worker, out: &Out) -> bool
    ensures { result ≡ runs_out (slice_get engine.now.hands.items worker.0) out.now.ticket.0 out.now.path }
{
    match engine.hands.get(worker.0 as usize) {
        Some(Some(held)) => held.ticket == out.ticket && held.path == out.path,
        Some(None) | None => false,
    }
}

// What an Enter can do, by its route.
fn enter_act(id: MailId, path: &Path, way: Route) -> Option<Act>
    ensures { option_map act_of result ≡ enter_act id.ticket.0 id.number path.now (route_of way) }
{
    match way {
        Route::Deliver | Route::Born => Some(Act::Queue(id, *path)),
        Route::Forward(host) => Some(Act::Pass(id, *path, host)),
        Route::Wait => None,
    }
}

// Whether a ticket is the next in the line of a context, and gets in.
fn is_next(store: &HostStore, ticket: Ticket, path: &Path) -> bool
    ensures { result ≡ is_next ticket.0 path.now (Some store.now) }
{
    match store.entry(path) {
        Some(entry) => gets_in(entry, ticket),
        None => false,
    }
}

fn gets_in(entry: &Entry, ticket: Ticket) -> bool
    ensures { result ≡ is_claim ticket.0 (next_in (entry_of entry.now)) }
{
    entries_stand();
    match entry.upcoming() {
        Some(claim) => claim.ticket.0 == ticket.0,
        None => false,
    }
}
