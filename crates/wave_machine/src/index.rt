//! The list of what can be done: by kind, those of a kind by ticket, and those of a ticket by the number of their mail. A ticket and a
//! number are a slot, which has one entry at most. A place is searched by halves.

ghost use Rattle.std.specs.Prelude.{◌≡◌, ◌≤◌, ◌<◌, ◌+◌, ◌++◌, ◌∷◌, List, IsFalse, IsSome, IsTrue, drop, length, map, slice_get, vec_len, vec_capacity};
ghost use Rattle.std.specs.List.{AllByRecursion};
ghost use Rattle.wave_labels.specs.Labels.{act_of};
ghost use Rattle.wave_states.specs.Labels as theory;
ghost use Rattle.wave_states.specs.Labels.{ticket_of};
ghost use Rattle.wave_theory.specs.Listed.{kind_rank};
ghost use Rattle.wave_effects.specs.Apart.{on_head};
ghost use Rattle.wave_machine.specs.inner.Asking.{in_order, labels_in};
ghost use Rattle.wave_machine.specs.inner.Index.{Cuts, CutsKind, Goes, IsInner, Parted, by_none, is_before, is_of, kinds_at, act_number, under};
ghost use Rattle.wave_machine.specs.inner.Updating.{is_queue};

use crate::order::{COMMIT, FREE, GRANT, LAND, PASS, QUEUE, START, VISIT, kind_rank};
use crate::ready::Ready;
use wave_base::Ticket;
use wave_labels::{Act, Label};

// How many come before those of a kind whose slots are from this one on.
pub(crate) fn place(index: &[Ready], kind: u8, ticket: Ticket, number: u32) -> usize
    ensures within { result ≤ length index.now }
    ensures place { (low high : List theory.Label) → Parted (map by_none index.now) kind ticket.0 number low high → result ≡ length low }
{
    let mut low = 0;
    let mut high = index.len();
    while low < high {
        let middle = low + (high - low) / 2;
        if is_under(&index[middle].act, kind, ticket, number) {
            low = middle + 1;
        } else {
            high = middle;
        }
    }
    low
}

// Whether it comes before those of a kind whose slots are from this one on.
fn is_under(act: &Act, kind: u8, ticket: Ticket, number: u32) -> bool
    ensures { result ≡ under kind ticket.0 number (act_of act.now) }
{
    let own = kind_rank(act);
    own < kind || own == kind && is_before(act, ticket, number)
}

// Whether its slot comes before another: by ticket, and of a ticket by number.
fn is_before(act: &Act, ticket: Ticket, number: u32) -> bool
    ensures { result ≡ is_before (ticket_of (act_of act.now)) (act_number (act_of act.now)) ticket.0 number }
{
    let own = ticket_of(act);
    own.0 < ticket.0 || own.0 == ticket.0 && act_number(act) < number
}

// The ticket of a label: that of its mail, where it has one.
pub(crate) fn ticket_of(act: &Act) -> Ticket
    ensures { result.0 ≡ ticket_of (act_of act.now) }
{
    match act {
        Act::Admit(ticket) | Act::Commit(ticket) => *ticket,
        Act::Grant(ticket, _) | Act::Start(ticket, _) | Act::Stop(ticket, _) => *ticket,
        Act::Queue(mail, _) | Act::Visit(mail, _) | Act::Free(mail, _) => mail.ticket,
        Act::Pass(mail, _, _) | Act::Land(mail, _) => mail.ticket,
    }
}

// Whether a label may change what the head asks for: one on the head, and a Stop, which may leave a result.
pub(crate) fn is_on_head(act: &Act) -> bool
    ensures { result ≡ on_head (act_of act.now) }
{
    matches!(act, Act::Admit(_) | Act::Commit(_) | Act::Stop(_, _))
}

// Whether a context may be born by a label.
pub(crate) fn is_queue(act: &Act) -> bool
    ensures { result ≡ is_queue (act_of act.now) }
{
    matches!(act, Act::Queue(_, _))
}

// The number of a label's mail; 0 where it has none.
pub(crate) fn act_number(act: &Act) -> u32
    ensures { result ≡ act_number (act_of act.now) }
{
    match act {
        Act::Queue(mail, _) | Act::Visit(mail, _) | Act::Free(mail, _) => mail.number,
        Act::Pass(mail, _, _) | Act::Land(mail, _) => mail.number,
        _ => 0,
    }
}

// Puts it where it belongs, before any of its kind and its slot.
fn put(index: &mut Vec<Ready>, ready: Ready)
    requires { vec_len index.old < vec_capacity index.old }
    ensures parts { (low high : List theory.Label) → Parted (map by_none index.old.items) (kind_rank (act_of ready.act)) (ticket_of (act_of ready.act)) (act_number (act_of ready.act)) low high → map by_none index.new.items ≡ low ++ by_none ready ∷ high }
    ensures len { vec_len index.new ≡ vec_len index.old + 1 }
    ensures capacity { vec_capacity index.new ≡ vec_capacity index.old }
{
    let (kind, ticket, number) = (
        kind_rank(&ready.act),
        ticket_of(&ready.act),
        act_number(&ready.act),
    );
    let at = place(index, kind, ticket, number);
    let _ = index.insert(at, ready);
}

// Puts what a label does, where there is one.
pub(crate) fn put_some(index: &mut Vec<Ready>, label: Option<Label>)
    requires { IsSome label → vec_len index.old < vec_capacity index.old }
    ensures parts { (u v : List theory.Label) → Goes (labels_in label) u v → map by_none index.old.items ≡ in_order (u ++ v) → map by_none index.new.items ≡ in_order ((u ++ labels_in label) ++ v) }
    ensures len { vec_len index.new ≤ vec_len index.old + length (labels_in label) }
    ensures capacity { vec_capacity index.new ≡ vec_capacity index.old }
{
    match label {
        Some(
            Label {
                worker: _,
                host,
                act,
            },
        ) => put(index, Ready { host, act }),
        None => (),
    }
}

// Takes out what a slot asked for, where it did: it has one kind at most, which is mostly the likely one.
pub(crate) fn cut_slot(index: &mut Vec<Ready>, ticket: Ticket, number: u32, likely: u8)
    ensures cuts { Cuts ticket.0 number index.old.items index.new.items }
    ensures len { vec_len index.new ≤ vec_len index.old }
    ensures capacity { vec_capacity index.new ≡ vec_capacity index.old }
{
    if !cut_likely(index, likely, ticket, number) {
        cut_each(index, ticket, number);
    }
}

// Takes out that of a slot, where its kind is this one. Answers whether it was.
fn cut_likely(index: &mut Vec<Ready>, kind: u8, ticket: Ticket, number: u32) -> bool
    ensures found { IsTrue result → Cuts ticket.0 number index.old.items index.new.items }
    ensures same { IsFalse result → index.new.items ≡ index.old.items }
    ensures len { vec_len index.new ≤ vec_len index.old }
    ensures capacity { vec_capacity index.new ≡ vec_capacity index.old }
{
    is_kind_at(number, kind) && cut_kind(index, kind, ticket, number)
}

// Whether a number of a ticket may ask for a kind.
fn is_kind_at(number: u32, kind: u8) -> bool
    ensures { IsTrue result → (1 ≤ kind) × (kind ≤ 8) }
{
    if number == 0 {
        kind == GRANT || kind == START
    } else {
        QUEUE <= kind && kind <= LAND
    }
}

// Takes out what a slot asked for, kind by kind.
fn cut_each(index: &mut Vec<Ready>, ticket: Ticket, number: u32)
    ensures cuts { Cuts ticket.0 number index.old.items index.new.items }
    ensures len { vec_len index.new ≤ vec_len index.old }
    ensures capacity { vec_capacity index.new ≡ vec_capacity index.old }
{
    for kind in kinds_at(number) {
        let _ = cut_kind(index, *kind, ticket, number);
    }
}

// The kinds that a status asks for, and those that a mail asks for.
fn kinds_at(number: u32) -> &'static [u8]
    ensures { result.now ≡ kinds_at number }
{
    if number == 0 {
        &[GRANT, START]
    } else {
        &[QUEUE, VISIT, FREE, PASS, LAND]
    }
}

// Takes out that of a kind and a slot, where there is one. Answers whether there was.
fn cut_kind(index: &mut Vec<Ready>, kind: u8, ticket: Ticket, number: u32) -> bool
    ensures cuts { 1 ≤ kind → kind ≤ 8 → CutsKind kind ticket.0 number index.old.items index.new.items }
    ensures found { IsTrue result → 1 ≤ kind → kind ≤ 8 → Cuts ticket.0 number index.old.items index.new.items }
    ensures same { IsFalse result → index.new.items ≡ index.old.items }
    ensures len { vec_len index.new ≤ vec_len index.old }
    ensures capacity { vec_capacity index.new ≡ vec_capacity index.old }
{
    let at = place(index, kind, ticket, number);
    if is_at(index, at, kind, ticket, number) {
        let _ = index.remove(at);
        true
    } else {
        false
    }
}

// Whether that of a kind and a slot stands there.
pub(crate) fn is_at(index: &[Ready], at: usize, kind: u8, ticket: Ticket, number: u32) -> bool
    ensures { result ≡ is_of kind ticket.0 number (slice_get index.now at) }
{
    match index.get(at) {
        Some(ready) => {
            kind_rank(&ready.act) == kind
                && ticket_of(&ready.act) == ticket
                && act_number(&ready.act) == number
        }
        None => false,
    }
}

// Takes out the Commit that the head asked for, which is the last.
pub(crate) fn cut_commit(index: &mut Vec<Ready>)
    ensures parts { (a c b : List theory.Label) → AllByRecursion (λ (l : theory.Label). kind_rank l.act ≡ 0) a → AllByRecursion (λ (l : theory.Label). kind_rank l.act ≡ 9) c → AllByRecursion IsInner b → map by_none index.old.items ≡ in_order ((a ++ c) ++ b) → map by_none index.new.items ≡ in_order (a ++ b) }
    ensures len { vec_len index.new ≤ vec_len index.old }
    ensures capacity { vec_capacity index.new ≡ vec_capacity index.old }
{
    let last = first_commit(index);
    index.truncate(last);
}

// How many come before the Commits.
fn first_commit(index: &[Ready]) -> usize
    ensures within { result ≤ length index.now }
    ensures place { (low high : List theory.Label) → Parted (map by_none index.now) COMMIT 0 0 low high → result ≡ length low }
{
    match index.last() {
        Some(last) if kind_rank(&last.act) < COMMIT => index.len(),
        _ => place(index, COMMIT, Ticket(0), 0),
    }
}

// Takes out the Admit that the head asked for, which is the first.
pub(crate) fn cut_admit(index: &mut Vec<Ready>)
    ensures parts { (a b : List theory.Label) → AllByRecursion (λ (l : theory.Label). kind_rank l.act ≡ 0) a → AllByRecursion IsInner b → map by_none index.old.items ≡ in_order (a ++ b) → map by_none index.new.items ≡ in_order b }
    ensures len { vec_len index.new ≤ vec_len index.old }
    ensures capacity { vec_capacity index.new ≡ vec_capacity index.old }
{
    let first = place(index, QUEUE, Ticket(0), 0);
    cut_first(index, first);
}

// Takes out so many of the first.
fn cut_first(index: &mut Vec<Ready>, many: usize)
    requires { many ≤ vec_len index.old }
    ensures items { index.new.items ≡ drop many index.old.items }
    ensures len { vec_len index.new ≤ vec_len index.old }
    ensures capacity { vec_capacity index.new ≡ vec_capacity index.old }
{
    for _ in 0..many {
        let _ = index.remove(0);
    }
}
