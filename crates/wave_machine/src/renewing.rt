//! What the index has of a ticket, of those that enter a context, and of the head, listed anew.

ghost use Rattle.std.specs.Prelude.{not, ◌≡◌, false, ◌↔◌, ◌≤◌, ◌<◌, ◌+◌, ◌++◌, ◌^◌, ◌||◌, ℕ, IsTrue, List, Option, Some, true, drop, flat_map, length, map, is_some, option_map, slice_get, take, vec_len, vec_capacity};
ghost use Rattle.std.specs.List.{AllByRecursion};
ghost use Rattle.std.specs.List.Sorted.{IsStrictlySortedBy};
ghost use Rattle.std.specs.Map.{keys_of};
ghost use Rattle.std.specs.Ordering.{nat_cmp};
ghost use Rattle.commit_order.specs.Commits.{ready_result};
ghost use Rattle.head_tickets.specs.Heads.{next_ticket};
ghost use Rattle.wave_labels.specs.Labels.{act_of, label_of};
ghost use Rattle.wave_states.specs.Labels as theory;
ghost use Rattle.wave_states.specs.Labels.{path_of, ticket_of};
ghost use Rattle.wave_effects.specs.Machines.{Kept};
ghost use Rattle.wave_machine.specs.inner.Asking.{admit_labels, in_order, label_at, labels_in, mail_labels};
ghost use Rattle.wave_effects.specs.Sized.{IsListable};
ghost use Rattle.wave_machine.specs.inner.Done.{AreDone};
ghost use Rattle.wave_machine.specs.inner.Others.{but};
ghost use Rattle.wave_machine.specs.inner.Index.{IsAmong, IsEntering, IsHead, IsInner, Lists, ListsNew, Relists, RelistsBoth, RelistsNear, RelistsNext, RelistsOwn, RelistsStatus, Renews, asked_as, asked_at, asks_at, by_none, by_part, head_in, is_admit, is_enter, mail_at, act_number, weight_of};
ghost use Rattle.wave_machine.specs.inner.Updating.{Taken, is_queue, next_at};
ghost use Rattle.wave_effects.specs.Keeping.{kept_of};

use crate::asking::{admit_label, commit_label, mail_label, status_label};
use crate::index::{
    act_number, cut_admit, cut_commit, cut_slot, is_at, is_queue, put_some, ticket_of,
};
use crate::listed::Seen;
use crate::looks::{asks_at, cell_at, is_enter, line_at, path_in};
use crate::order::{ADMIT, GRANT, QUEUE, kind_rank};
use crate::ready::Ready;
use event_cells::{Cell, Envelope};
use wave_base::{Host, Path, Ticket, Worker};
use wave_effects::{Actor, Engine};
use wave_labels::{Act, Label, MailId};

// Lists anew what any label changes: what the ticket's status asks for and the label's mail, the mails that it sent, and who was next in
// the line of the context, and who is, where they are others.
fn relist_near(
    engine: &Engine,
    label: &Label,
    seen: Seen,
    next: Option<Ticket>,
    index: &mut Vec<Ready>,
)
    requires listable { IsListable (kept_of engine.now) }
    requires next { option_map (λ t. t.0) next ≡ next_at (path_of (act_of label.now.act)) (slice_get engine.now.stores.items label.now.host.0) }
    requires room { vec_len index.old + (4 + weight_of engine.now.cells.items) ≤ vec_capacity index.old }
    ensures relists { RelistsNear (kept_of engine.now) (ticket_of (act_of label.now.act)) (act_number (act_of label.now.act)) seen.sent seen.asked (option_map (λ t. t.0) seen.next) (next_at (path_of (act_of label.now.act)) (slice_get engine.now.stores.items label.now.host.0)) index.old.items index.new.items }
    ensures len { vec_len index.new ≤ vec_len index.old + (4 + weight_of engine.now.cells.items) }
    ensures capacity { vec_capacity index.new ≡ vec_capacity index.old }
{
    let ticket = ticket_of(&label.act);
    let likely = kind_rank(&label.act);
    relist_own(
        engine,
        ticket,
        act_number(&label.act),
        likely,
        seen.asked,
        index,
    );
    list_new(engine, ticket, seen.sent, index);
    relist_both(engine, other(seen.next, ticket), other(next, ticket), index);
}

// Lists anew what the status of a ticket asks for, and one of its mails; number 0 where there is none. What they asked for is likely of
// this kind.
fn relist_own(
    engine: &Engine,
    ticket: Ticket,
    number: u32,
    likely: u8,
    asked: bool,
    index: &mut Vec<Ready>,
)
    requires listable { IsListable (kept_of engine.now) }
    requires room { vec_len index.old + 2 ≤ vec_capacity index.old }
    ensures relists { RelistsOwn (kept_of engine.now) ticket.0 number asked index.old.items index.new.items }
    ensures len { vec_len index.new ≤ vec_len index.old + 2 }
    ensures capacity { vec_capacity index.new ≡ vec_capacity index.old }
{
    relist_status(engine, ticket, likely, asked, index);
    if number != 0 {
        relist_slot(engine, ticket, number, likely, index);
    }
}

// Lists anew what the status of a ticket asks for. It had nothing in the list where it was not asked.
fn relist_status(engine: &Engine, ticket: Ticket, likely: u8, asked: bool, index: &mut Vec<Ready>)
    requires listable { IsListable (kept_of engine.now) }
    requires room { vec_len index.old < vec_capacity index.old }
    ensures relists { RelistsStatus (kept_of engine.now) ticket.0 asked index.old.items index.new.items }
    ensures len { vec_len index.new ≤ vec_len index.old + 1 }
    ensures capacity { vec_capacity index.new ≡ vec_capacity index.old }
{
    if asked {
        relist_slot(engine, ticket, 0, likely, index);
    } else if asks_at(engine, ticket) {
        list_status(engine, ticket, index);
    }
}

// Lists what the status of a ticket asks for, which has nothing in the list.
fn list_status(engine: &Engine, ticket: Ticket, index: &mut Vec<Ready>)
    requires listable { IsListable (kept_of engine.now) }
    requires room { vec_len index.old < vec_capacity index.old }
    ensures relists { RelistsStatus (kept_of engine.now) ticket.0 false index.old.items index.new.items }
    ensures len { vec_len index.new ≤ vec_len index.old + 1 }
    ensures capacity { vec_capacity index.new ≡ vec_capacity index.old }
{
    match cell_at(engine, ticket) {
        Some(cell) => put_some(
            index,
            status_label(engine, Worker(0), ticket, &cell.status()),
        ),
        None => (),
    }
}

// Lists anew what a number of a ticket asks for. What it asked for is likely of this kind.
fn relist_slot(engine: &Engine, ticket: Ticket, number: u32, likely: u8, index: &mut Vec<Ready>)
    requires listable { IsListable (kept_of engine.now) }
    requires room { vec_len index.old < vec_capacity index.old }
    ensures relists { Relists (kept_of engine.now) ticket.0 number index.old.items index.new.items }
    ensures len { vec_len index.new ≤ vec_len index.old + 1 }
    ensures capacity { vec_capacity index.new ≡ vec_capacity index.old }
{
    match cell_at(engine, ticket) {
        Some(cell) => {
            cut_slot(index, ticket, number, likely);
            put_some(index, slot_label(engine, ticket, number, cell));
        }
        None => (),
    }
}

// What a number of a ticket asks for: 0 is its status, the others are its mails.
fn slot_label(engine: &Engine, ticket: Ticket, number: u32, cell: &Cell<Actor>) -> Option<Label>
    requires { length engine.now.stores.items ≤ 8 }
    ensures { labels_in result ≡ asked_as engine.now.stores.items ticket.0 cell.now number }
{
    if number == 0 {
        return status_label(engine, Worker(0), ticket, &cell.status());
    }
    match cell.mail(number) {
        Some(envelope) => mail_label(engine, Worker(0), MailId { ticket, number }, envelope),
        None => None,
    }
}

// Lists anew what the status of the next in a line asks for, where there is one.
fn relist_next(engine: &Engine, next: Option<Ticket>, index: &mut Vec<Ready>)
    requires listable { IsListable (kept_of engine.now) }
    requires room { vec_len index.old < vec_capacity index.old }
    ensures relists { RelistsNext (kept_of engine.now) (option_map (λ t. t.0) next) index.old.items index.new.items }
    ensures len { vec_len index.new ≤ vec_len index.old + 1 }
    ensures capacity { vec_capacity index.new ≡ vec_capacity index.old }
{
    match next {
        Some(ticket) => relist_slot(engine, ticket, 0, GRANT, index),
        None => (),
    }
}

// Lists anew what the statuses of who was next in a line and of who is now ask for; once, where they are the same.
fn relist_both(
    engine: &Engine,
    before: Option<Ticket>,
    after: Option<Ticket>,
    index: &mut Vec<Ready>,
)
    requires listable { IsListable (kept_of engine.now) }
    requires room { vec_len index.old + 2 ≤ vec_capacity index.old }
    ensures relists { RelistsBoth (kept_of engine.now) (option_map (λ t. t.0) before) (option_map (λ t. t.0) after) index.old.items index.new.items }
    ensures len { vec_len index.new ≤ vec_len index.old + 2 }
    ensures capacity { vec_capacity index.new ≡ vec_capacity index.old }
{
    relist_next(engine, before, index);
    if after != before {
        relist_next(engine, after, index);
    }
}

// Lists the mails of a ticket whose numbers are above one, which have nothing in the list.
fn list_new(engine: &Engine, ticket: Ticket, sent: u32, index: &mut Vec<Ready>)
    requires listable { IsListable (kept_of engine.now) }
    requires room { vec_len index.old + weight_of engine.now.cells.items ≤ vec_capacity index.old }
    ensures lists { ListsNew (kept_of engine.now) ticket.0 sent index.old.items index.new.items }
    ensures len { vec_len index.new ≤ vec_len index.old + weight_of engine.now.cells.items }
    ensures capacity { vec_capacity index.new ≡ vec_capacity index.old }
{
    match cell_at(engine, ticket) {
        Some(cell) => {
            let mails = cell.mails();
            list_mails(engine, ticket, &mails[first_above(mails, sent)..], index);
        }
        None => (),
    }
}

// Lists anew what a label that was taken has changed, and where its context landed or left, the Enters to it. The first tickets, so many,
// are done.
pub(crate) fn relist_after(
    engine: &Engine,
    label: &Label,
    seen: Seen,
    done: usize,
    index: &mut Vec<Ready>,
)
    requires listable { IsListable (kept_of engine.now) }
    requires done { AreDone (kept_of engine.now) done }
    requires room { vec_len index.old + (4 + (weight_of engine.now.cells.items + weight_of engine.now.cells.items)) ≤ vec_capacity index.old }
    ensures all { (m : Kept) (more : ℕ) (h : List theory.Label) → Taken m (kept_of engine.now) (label_of label.now) seen more → IsHead h → map by_none index.old.items ≡ in_order (h ++ by_part m (asked_at m))
        → map by_none index.new.items ≡ in_order (h ++ by_part (kept_of engine.now) (asked_at (kept_of engine.now))) }
    ensures len { vec_len index.new ≤ vec_len index.old + (4 + (weight_of engine.now.cells.items + weight_of engine.now.cells.items)) }
    ensures capacity { vec_capacity index.new ≡ vec_capacity index.old }
{
    let root = Path::root();
    let (here, next) = line_at(engine, label.host, path_in(&label.act, &root));
    relist_near(engine, label, seen, next, index);
    relist_moved(
        engine,
        label,
        has_moved(is_same(here, seen.here), &label.act),
        done,
        index,
    );
}

// Lists anew the Enters to the context of a label, where it moved. The first tickets, so many, are done.
fn relist_moved(engine: &Engine, label: &Label, moved: bool, done: usize, index: &mut Vec<Ready>)
    requires listable { IsListable (kept_of engine.now) }
    requires done { AreDone (kept_of engine.now) done }
    requires room { vec_len index.old + weight_of engine.now.cells.items ≤ vec_capacity index.old }
    ensures renews { Renews (kept_of engine.now) (IsEntering (kept_of engine.now) (label_of label.now) moved) index.old.items index.new.items }
    ensures len { vec_len index.new ≤ vec_len index.old + weight_of engine.now.cells.items }
    ensures capacity { vec_capacity index.new ≡ vec_capacity index.old }
{
    if moved {
        let root = Path::root();
        relist_enters(engine, label.host, path_in(&label.act, &root), done, index);
    }
}

// Lists anew the Enters to a context at a host. The first tickets, so many, are done.
fn relist_enters(engine: &Engine, host: Host, path: &Path, done: usize, index: &mut Vec<Ready>)
    requires listable { IsListable (kept_of engine.now) }
    requires done { AreDone (kept_of engine.now) done }
    requires room { vec_len index.old + weight_of engine.now.cells.items ≤ vec_capacity index.old }
    ensures renews { Renews (kept_of engine.now) (λ u j. is_enter host.0 path.now (mail_at (kept_of engine.now) u j) ≡ true) index.old.items index.new.items }
    ensures len { vec_len index.new ≤ vec_len index.old + weight_of engine.now.cells.items }
    ensures capacity { vec_capacity index.new ≡ vec_capacity index.old }
{
    for i in done..engine.cells.len() {
        let ticket = Ticket(engine.first + i as u32);
        relist_entering(engine, ticket, engine.cells[i].mails(), host, path, index);
    }
}

// The same of the mails of one ticket.
fn relist_entering(
    engine: &Engine,
    ticket: Ticket,
    mails: &[(u32, Envelope)],
    host: Host,
    path: &Path,
    index: &mut Vec<Ready>,
)
    requires listable { IsListable (kept_of engine.now) }
    requires room { vec_len index.old + length mails.now ≤ vec_capacity index.old }
    ensures renews { Renews (kept_of engine.now) (λ u j. (u ≡ ticket.0) × IsAmong host.0 path.now mails.now (length mails.now) j) index.old.items index.new.items }
    ensures len { vec_len index.new ≤ vec_len index.old + length mails.now }
    ensures capacity { vec_capacity index.new ≡ vec_capacity index.old }
{
    for mail in mails {
        relist_if(engine, ticket, mail.0, is_enter(&mail.1, host, path), index);
    }
}

// Lists anew what a number of a ticket asks for, where it is wanted.
fn relist_if(engine: &Engine, ticket: Ticket, number: u32, wanted: bool, index: &mut Vec<Ready>)
    requires listable { IsListable (kept_of engine.now) }
    requires room { vec_len index.old < vec_capacity index.old }
    ensures renews { Renews (kept_of engine.now) (λ u j. (wanted ≡ true) × ((u ≡ ticket.0) × (j ≡ number))) index.old.items index.new.items }
    ensures len { vec_len index.new ≤ vec_len index.old + 1 }
    ensures capacity { vec_capacity index.new ≡ vec_capacity index.old }
{
    if wanted {
        relist_slot(engine, ticket, number, QUEUE, index);
    }
}

// Lists the mails of a ticket, in ascending order.
fn list_mails(engine: &Engine, ticket: Ticket, mails: &[(u32, Envelope)], index: &mut Vec<Ready>)
    requires room { vec_len index.old + length mails.now ≤ vec_capacity index.old }
    requires ordered { IsStrictlySortedBy nat_cmp (keys_of mails.now) }
    ensures lists { (low : ℕ) → AllByRecursion (λ m. low < m.0) mails.now → Lists ticket.0 (low + 1) index.old.items index.new.items (flat_map (λ m. mail_labels engine.now.stores.items 0 ticket.0 m.0 (Some m.1)) mails.now) }
    ensures len { vec_len index.new ≤ vec_len index.old + length mails.now }
    ensures capacity { vec_capacity index.new ≡ vec_capacity index.old }
{
    for mail in mails {
        let number = mail.0;
        let id = MailId { ticket, number };
        put_some(index, mail_label(engine, Worker(0), id, &mail.1));
    }
}

// Lists anew what the head asks for, where that may have changed.
pub(crate) fn renew_head(engine: &Engine, changed: bool, index: &mut Vec<Ready>)
    requires commits { is_some (ready_result engine.now.commits) ≡ true → engine.now.first + length engine.now.settled.items < 2 ^ 32 }
    requires room { vec_len index.old + 2 ≤ vec_capacity index.old }
    ensures parts { (h b : List theory.Label) → IsHead h → (changed ≡ false → h ≡ head_in (kept_of engine.now)) → AllByRecursion IsInner b → map by_none index.old.items ≡ in_order (h ++ b) → map by_none index.new.items ≡ in_order (head_in (kept_of engine.now) ++ b) }
    ensures capacity { vec_capacity index.new ≡ vec_capacity index.old }
{
    if changed {
        relist_head(engine, index);
    }
}

// Lists anew the next ticket that can be admitted, and the next that can be committed.
pub(crate) fn relist_head(engine: &Engine, index: &mut Vec<Ready>)
    requires commits { is_some (ready_result engine.now.commits) ≡ true → engine.now.first + length engine.now.settled.items < 2 ^ 32 }
    requires room { vec_len index.old + 2 ≤ vec_capacity index.old }
    ensures parts { (h b : List theory.Label) → IsHead h → AllByRecursion IsInner b → map by_none index.old.items ≡ in_order (h ++ b) → map by_none index.new.items ≡ in_order (head_in (kept_of engine.now) ++ b) }
    ensures capacity { vec_capacity index.new ≡ vec_capacity index.old }
{
    cut_commit(index);
    relist_admit(engine, index);
    put_some(index, commit_label(engine, Worker(0)));
}

// Lists anew the next ticket that can be admitted. It is the first of the list, and stays where it stands already, so that nothing
// behind it has to move.
fn relist_admit(engine: &Engine, index: &mut Vec<Ready>)
    requires room { vec_len index.old < vec_capacity index.old }
    ensures parts { (o : Option ℕ) (b : List theory.Label) → AllByRecursion IsInner b → map by_none index.old.items ≡ in_order (label_at 0 0 (option_map (λ t. theory.Admit t) o) ++ b) → map by_none index.new.items ≡ in_order (admit_labels 0 engine.now.head ++ b) }
    ensures len { vec_len index.new ≤ vec_len index.old + 1 }
    ensures capacity { vec_capacity index.new ≡ vec_capacity index.old }
{
    if has_admit(engine, index) {
        return;
    }
    cut_admit(index);
    put_some(index, admit_label(engine, Worker(0)));
}

// Whether the next ticket that can be admitted stands in the list.
fn has_admit(engine: &Engine, index: &[Ready]) -> bool
    ensures { result ≡ is_admit (next_ticket engine.now.head) (slice_get index.now 0) }
{
    match engine.head.next() {
        Some(ticket) => is_at(index, 0, ADMIT, ticket, 0),
        None => false,
    }
}

// The place of the first mail whose number is above one. They are few, and at the end.
fn first_above(mails: &[(u32, Envelope)], number: u32) -> usize
    ensures within { result ≤ length mails.now }
    ensures above { AllByRecursion (λ m. number < m.0) (drop result mails.now) }
    ensures below { IsStrictlySortedBy nat_cmp (keys_of mails.now) → AllByRecursion (λ m. m.0 ≤ number) (take result mails.now) }
{
    let mut first = mails.len();
    while first > 0 {
        if mails[first - 1].0 <= number {
            return first;
        }
        first -= 1;
    }
    first
}

// Who is next, where that is another ticket than this one.
fn other(next: Option<Ticket>, ticket: Ticket) -> Option<Ticket>
    ensures { option_map (λ t. t.0) result ≡ but ticket.0 (option_map (λ t. t.0) next) }
{
    match next {
        Some(one) => { if one.0 == ticket.0 { None } else { Some(one) } }
        None => None,
    }
}

// Whether Enters may go another way after a label: its context neither stays, nor stays away, and is none that is born, which was
// nowhere.
fn has_moved(same: bool, act: &Act) -> bool
    ensures { result ≡ not (same || is_queue (act_of act.now)) }
{
    !(same || is_queue(act))
}

// Whether two tests say the same.
fn is_same(one: bool, other: bool) -> bool
    ensures { IsTrue result ↔ (one ≡ other) }
{
    one == other
}
