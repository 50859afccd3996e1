//! How a Stop leaves a context and its event, by the pause of its segment. What wants memory comes first, by `aim`.

ghost use Rattle.std.specs.Prelude.{ℕ, suc, Bool, ◌≡◌, ◌≢◌, ◌≤◌, ◌<◌, ◌+◌, ◌^◌, ◌++◌, ◌∷◌, [], true, false, List, length, Option, Some, None, IfOk, OnErr, nat_eq, option_map, is_some};
ghost use Rattle.std.specs.FinMap as map;
ghost use Rattle.code_actor.specs.CodeActors.{Fields, pause_of};
ghost use Rattle.context_queue.specs.Entries.{record_of};
ghost use Rattle.context_queue.specs.declared.entry.Entry.{Entry};
ghost use Rattle.event_cells.specs.Cells.{StandsFor, IsEnvelope, is_over, with_actor};
ghost use Rattle.event_cells.specs.declared.outbox.Envelope as declared;
ghost use Rattle.host_map.specs.Stores.{IsAt, has};
ghost use Rattle.wave_base.specs.Kids.{child_at, with_child};
ghost use Rattle.wave_base.specs.Places.{move_of};
ghost use Rattle.wave_base.specs.declared.children.Child as kids;
ghost use Rattle.wave_base.specs.declared.outcome.EventResult as results;
ghost use Rattle.wave_base.specs.declared.path.Path as paths;
ghost use Rattle.wave_base.specs.declared.record.Record as records;
ghost use Rattle.wave_states.specs.Actors.{Over};
ghost use Rattle.wave_states.specs.States as theory;
ghost use Rattle.wave_states.specs.States.{hold_at, holds_as_peek, set, Column, Mail};
ghost use Rattle.wave_states.specs.Desks.{Desk, send};
ghost use Rattle.wave_states.specs.Steps.{Part, column_left, host_or, with_body, with_entry};
ghost use Rattle.wave_base.specs.Paths.{parent_of};
ghost use Rattle.wave_effects.specs.declared.actor.Actor as actors;
ghost use Rattle.wave_effects.specs.inner.Leaving.{CanGoOn, HasLeft, HasMail, IsNear, Tells, away_from, into, onward, raised_child, sent_off, stopped_by};

use crate::actor::Actor;
use crate::lease::Lease;
use crate::records::only_looks;
use commit_order::Commits;
use event_cells::{Cell, Envelope};
use host_map::HostStore;
use migration_core::{Letter, depart};
use wave_base::{
    Child, Children, EventResult, Host, OutOfMemory, Outcome, Path, Pause, Record, Step, Ticket,
};

// Where an actor goes from a context: the mail that brings it there, and none of what is over. A number that it takes for a child is
// given in the record.
pub(crate) fn aim(
    cell: &Cell<Actor>,
    host: Host,
    path: &Path,
    body: &mut Record,
    peek: bool,
    pause: &Pause,
) -> Result<Option<Envelope>, OutOfMemory>
    requires { CanGoOn path.now body.old.children pause.now }
    ensures ok { IfOk result (λ mail. (d : Desk actors.Actor Fields) → StandsFor cell.now d → Tells (onward host.0 path.now (record_of body.old) d.event.held peek pause.now) body.old mail body.new) }
    ensures err { OnErr result (body.new ≡ body.old) }
{
    match pause {
        Pause::Go(step) => Ok(Some(into(cell, host, path, body, *step, peek)?)),
        Pause::Down(step) => Ok(Some(into(cell, host, path, body, *step, false)?)),
        Pause::Back => Ok(Some(back(cell, host, path))),
        Pause::Over(_) => Ok(None),
    }
}

// Into a child: a Visit where it is held, else an Enter to where it was born, with the next number that is given for it.
fn into(
    cell: &Cell<Actor>,
    host: Host,
    path: &Path,
    body: &mut Record,
    step: Step,
    peek: bool,
) -> Result<Envelope, OutOfMemory>
    requires { IsNear path.now body.old.children step }
    ensures ok { IfOk result (λ mail. (d : Desk actors.Actor Fields) → StandsFor cell.now d → Tells (Some (into host.0 path.now (record_of body.old) step peek (hold_at d.event.held (path.now ++ step ∷ [])))) body.old (Some mail) body.new) }
    ensures err { OnErr result (body.new ≡ body.old) }
{
    let child = path.child(step);
    if let Some(hold) = cell.hold(&child) {
        return Ok(Envelope {
            to: hold.host,
            path: child,
            letter: Letter::Visit,
        });
    }
    let kid = raise(&mut body.children, step, host)?;
    Ok(Envelope {
        to: kid.birth,
        path: child,
        letter: Letter::Enter {
            number: kid.given,
            followed: 0,
            peek,
        },
    })
}

// Gives the next number for a child, which is born at this host where it is new.
fn raise(children: &mut Children, step: Step, host: Host) -> Result<Child, OutOfMemory>
    requires { (c : kids.Child) → child_at children.old step ≡ Some c → c.given + 1 < 2 ^ 64 }
    ensures child { IfOk result (λ c. c ≡ raised_child (child_at children.old step) host.0) }
    ensures ok { IfOk result (λ c. children.new ≡ with_child children.old step c) }
    ensures err { OnErr result (children.new ≡ children.old) }
{
    let child = match children.get(&step) {
        Some(child) => Child {
            given: child.given + 1,
            birth: child.birth,
        },
        None => Child {
            given: 1,
            birth: host,
        },
    };
    children.put(step, child)?;
    Ok(child)
}

// Back to the parent.
fn back(cell: &Cell<Actor>, host: Host, path: &Path) -> Envelope
    ensures { (d : Desk actors.Actor Fields) → StandsFor cell.now d → IsEnvelope result (record { host = host_or (hold_at d.event.held (parent_of path.now)) host.0; path = parent_of path.now; letter = theory.Back }) }
{
    let parent = parent_of(path);
    let to = match cell.hold(&parent) {
        Some(hold) => hold.host,
        None => host,
    };
    Envelope {
        to,
        path: parent,
        letter: Letter::Back,
    }
}

// The path without its last step; the root's is the root's.
fn parent_of(path: &Path) -> Path
    ensures { result ≡ parent_of path.now }
{
    match path.parent() {
        Some(parent) => parent,
        None => Path::root(),
    }
}

// Where a result sends its context, other than this host.
fn moved_to(ended: &EventResult, host: Host) -> Option<Host>
    ensures { option_map (λ h. h.0) result ≡ away_from host.0 (move_of ended.now) }
{
    match &ended.outcome {
        Outcome::Moved(_, to) => { if to.0 == host.0 { None } else { Some(*to) } }
        _ => None,
    }
}

// The record comes back to its context.
fn put_back(store: &mut HostStore, path: &Path, body: Record)
    requires { has path.now store.old ≡ true }
    ensures here { (c : Column Fields) (host : ℕ) (en : theory.Entry Fields) → IsAt store.old path.now c host → c.store host ≡ Some en → IsAt store.new path.now (with_entry c host (Some (with_body en (Some (record_of body))))) host }
    ensures has { has path.now store.new ≡ true }
    ensures moves { (e f : Entry) → map.get store.old.store path.now ≡ Some e → map.get store.new.store path.now ≡ Some f → f.moves ≡ e.moves }
    ensures store { (q : paths.Path) → q ≢ path.now → map.get store.new.store q ≡ map.get store.old.store q }
    ensures gone { store.new.gone ≡ store.old.gone }
    ensures mark_room { store.new.mark_room ≡ store.old.mark_room }
{
    let entry = store.entry_mut(path);
    entry.body = Some(body);
}

// An actor goes on: its record comes back, and its mail is sent. Answers the context to which it goes.
fn go_on(
    cell: &mut Cell<Actor>,
    store: &mut HostStore,
    path: &Path,
    body: Record,
    mail: Option<Envelope>,
) -> Path
    requires there { has path.now store.old ≡ true }
    requires mail { is_some mail ≡ true }
    requires room { 1 + length cell.old.held.holds ≤ cell.old.outbox.room }
    requires numbers { cell.old.outbox.sent + length cell.old.held.holds + 1 < 2 ^ 32 }
    ensures desk { (e : declared.Envelope) (d : Desk actors.Actor Fields) (m : Mail Fields) → mail ≡ Some e → StandsFor cell.old d → IsEnvelope e m → StandsFor cell.new (send d m) × (result ≡ m.path) }
    ensures room { length cell.new.held.holds ≤ cell.new.outbox.room }
    ensures numbers { cell.new.outbox.sent + length cell.new.held.holds < 2 ^ 32 }
    ensures one_mail_more { length cell.new.outbox.mails ≡ length cell.old.outbox.mails + 1 }
    ensures held { cell.new.held ≡ cell.old.held }
    ensures actor { cell.new.actor ≡ cell.old.actor }
    ensures here { (c : Column Fields) (host : ℕ) (en : theory.Entry Fields) → IsAt store.old path.now c host → c.store host ≡ Some en → IsAt store.new path.now (with_entry c host (Some (with_body en (Some (record_of body))))) host }
    ensures store { (q : paths.Path) → q ≢ path.now → map.get store.new.store q ≡ map.get store.old.store q }
    ensures gone { (q : paths.Path) → q ≢ path.now → map.get store.new.gone q ≡ map.get store.old.gone q }
{
    put_back(store, path, body);
    let mail = mail.unwrap();
    let to = mail.path;
    cell.send(mail);
    to
}

// A context departs: its entry goes with a Transfer, and the event no longer holds it.
fn send_away(cell: &mut Cell<Actor>, store: &mut HostStore, path: &Path, to: Host)
    requires there { has path.now store.old ≡ true }
    requires counted { (e : Entry) → map.get store.old.store path.now ≡ Some e → e.moves + 1 < 2 ^ 64 }
    requires marks { 1 ≤ store.old.mark_room }
    requires room { 1 + length cell.old.held.holds ≤ cell.old.outbox.room }
    requires numbers { cell.old.outbox.sent + length cell.old.held.holds + 1 < 2 ^ 32 }
    ensures desk { (d : Desk actors.Actor Fields) (c : Column Fields) (host : ℕ) (en : theory.Entry Fields) → StandsFor cell.old d → IsAt store.old path.now c host → c.store host ≡ Some en → StandsFor cell.new (sent_off d path.now to.0 en) }
    ensures room { length cell.new.held.holds ≤ cell.new.outbox.room }
    ensures numbers { cell.new.outbox.sent + length cell.new.held.holds < 2 ^ 32 }
    ensures one_mail_more { length cell.new.outbox.mails ≡ length cell.old.outbox.mails + 1 }
    ensures fewer { length cell.new.held.holds ≤ length cell.old.held.holds }
    ensures here { (c : Column Fields) (host : ℕ) (en : theory.Entry Fields) → IsAt store.old path.now c host → c.store host ≡ Some en → IsAt store.new path.now (column_left c host to.0 (suc en.moves)) host }
    ensures store { (q : paths.Path) → q ≢ path.now → map.get store.new.store q ≡ map.get store.old.store q }
    ensures gone { (q : paths.Path) → q ≢ path.now → map.get store.new.gone q ≡ map.get store.old.gone q }
{
    let entry = depart(store, path, to);
    cell.let_go(path);
    cell.send(Envelope {
        to,
        path: *path,
        letter: Letter::Transfer(entry),
    });
}

// What is over: what only looked puts nothing back, a context that moves departs, and all else that is held is released.
fn over(
    cell: &mut Cell<Actor>,
    store: &mut HostStore,
    host: Host,
    path: &Path,
    body: Record,
    to: Option<Host>,
)
    requires there { has path.now store.old ≡ true }
    requires counted { (e : Entry) → map.get store.old.store path.now ≡ Some e → e.moves + 1 < 2 ^ 64 }
    requires marks { 1 ≤ store.old.mark_room }
    requires room { 1 + length cell.old.held.holds ≤ cell.old.outbox.room }
    requires numbers { cell.old.outbox.sent + length cell.old.held.holds + 1 < 2 ^ 32 }
    ensures part { (d : Desk actors.Actor Fields) (x y : Part actors.Actor Fields results.EventResult) (en : theory.Entry Fields) (r : results.EventResult) (peek : Bool) → StandsFor cell.old d → IsAt store.old path.now x.column host.0 → x.column.store host.0 ≡ Some en
        → option_map (λ h. h.0) to ≡ away_from host.0 (move_of r) → stopped_by move_of path.now host.0 x d en (record_of body) peek (Over r) (holds_as_peek d.event.held path.now) ≡ Some y → HasLeft cell.new store.new path.now host.0 (Some r) y }
    ensures few_mails { length cell.new.outbox.mails ≤ 1 + length cell.old.held.holds + length cell.old.outbox.mails }
    ensures actor { cell.new.actor ≡ None }
    ensures store { (q : paths.Path) → q ≢ path.now → map.get store.new.store q ≡ map.get store.old.store q }
    ensures gone { (q : paths.Path) → q ≢ path.now → map.get store.new.gone q ≡ map.get store.old.gone q }
{
    if only_looks(cell, path) {
        cell.end();
        return;
    }
    put_back(store, path, body);
    match to {
        Some(to) => {
            send_away(cell, store, path, to);
            cell.end();
        }
        None => cell.end(),
    }
}

// The actor comes back, and what follows goes by its pause: the record comes back too and the actor's mail is sent, and with a Go all
// is released that is held elsewhere; or it is over. Answers the result, if there is one.
pub(crate) fn leave(
    cell: &mut Cell<Actor>,
    store: &mut HostStore,
    host: Host,
    lease: Lease,
    pause: Pause,
    mail: Option<Envelope>,
) -> Option<EventResult>
    requires goes_on { is_over cell.old.status ≡ false }
    requires there { has lease.path store.old ≡ true }
    requires counted { (e : Entry) → map.get store.old.store lease.path ≡ Some e → e.moves + 1 < 2 ^ 64 }
    requires marks { 1 ≤ store.old.mark_room }
    requires room { 1 + length cell.old.held.holds ≤ cell.old.outbox.room }
    requires numbers { cell.old.outbox.sent + length cell.old.held.holds + 1 < 2 ^ 32 }
    requires mail { HasMail pause mail }
    ensures part { (d : Desk actors.Actor Fields) (x y : Part actors.Actor Fields results.EventResult) (en : theory.Entry Fields) (r : records.Record) (peek : Bool) → StandsFor cell.old d → IsAt store.old lease.path x.column host.0 → x.column.store host.0 ≡ Some en → x.cell.result ≡ None
        → Tells (onward host.0 lease.path (record_of r) d.event.held peek pause) r mail lease.body
        → stopped_by move_of lease.path host.0 x (with_actor d (Some lease.actor) theory.Travelling) en (record_of r) peek (pause_of pause) (holds_as_peek d.event.held lease.path) ≡ Some y → HasLeft cell.new store.new lease.path host.0 result y }
    ensures few_mails { length cell.new.outbox.mails ≤ 1 + length cell.old.held.holds + length cell.old.outbox.mails }
    ensures actor { (a : actors.Actor) → cell.new.actor ≡ Some a → a ≡ lease.actor }
    ensures store { (q : paths.Path) → q ≢ lease.path → map.get store.new.store q ≡ map.get store.old.store q }
    ensures gone { (q : paths.Path) → q ≢ lease.path → map.get store.new.gone q ≡ map.get store.old.gone q }
{
    let Lease {
        path,
        actor,
        body,
        ..
    } = lease;
    cell.put_back(actor);
    match pause {
        Pause::Over(result) => {
            let to = moved_to(&result, host);
            over(cell, store, host, &path, body, to);
            Some(result)
        }
        Pause::Go(_) => {
            let top = go_on(cell, store, &path, body, mail);
            cell.release_outside(&top);
            None
        }
        Pause::Down(_) => {
            let _ = go_on(cell, store, &path, body, mail);
            None
        }
        Pause::Back => {
            let _ = go_on(cell, store, &path, body, mail);
            None
        }
    }
}

// What is over has a result, which is to be committed in its turn.
pub(crate) fn settle(commits: &mut Commits, ticket: Ticket, result_of: Option<EventResult>)
    requires room { 1 ≤ commits.old.room }
    requires above { commits.old.committed < ticket.0 }
    requires fresh { map.get commits.old.results ticket.0 ≡ None }
    ensures committed { commits.new.committed ≡ commits.old.committed }
    ensures results { (u : ℕ) → map.get commits.new.results u ≡ set nat_eq (map.get commits.old.results) ticket.0 result_of u }
{
    match result_of {
        Some(ended) => commits.add_result(ticket, ended),
        None => {}
    }
}
