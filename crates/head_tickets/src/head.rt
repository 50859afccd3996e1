//! The jobs that are not admitted yet, and the tickets that they get.

ghost use Rattle.std.specs.Prelude.{◌≡◌, ◌+◌, ◌≤◌, ◌<◌, ◌^◌, [], ◌∷◌, ◌++◌, List, map, length, Some, IsTrue, ◌↔◌, IsNone, vec_len, vec_capacity, IsSome, OnOk, IfOk, option_copied, slice_get};
ghost use Rattle.std.specs.VecDeque.{deque_len, deque_capacity};
ghost use Rattle.wave_base.specs.Fold.{first_head, next_batch, with_done, tickets_of, tickets_from};
ghost use Rattle.wave_base.specs.declared.script.Line.{Line};
ghost use Rattle.head_tickets.specs.Heads.{head_of, next_line, next_ticket, last_known, line_count, line_of, requests};

use crate::job::Job;
use std::alloc::Global;
use std::collections::VecDeque;
use std::marker::Model;
use wave_base::{Call, Line, OutOfMemory, Script, Seq, Ticket};

/// The jobs that have a ticket and were not admitted, and the batches that have not begun.
#[derive(Drop)]
pub struct Head {
    first: u32,
    admitted: u32,
    waiting: VecDeque<Line>,
    later: VecDeque<Seq<Line>>,
    done: u32,
    answer: Vec<Ticket>,
    alloc: Global,
}

impl Model for Head {
    ghost use Rattle.head_tickets.specs.Heads.{Heading};

    ghost Value = { Heading };

    ghost use Rattle.head_tickets.specs.HeadFields.{room_of, IsHead};

    ghost view = { λ a. record { first = a.first; admitted = a.admitted; waiting = a.waiting.items; later = a.later.items; done = a.done; room = room_of a } };

    ghost invariant = { IsHead };
}

impl Head {
    /// The lines of the first batch are known, and the first of them has ticket 1.
    pub fn new(alloc: Global, script: Script) -> Head
        requires { 1 + line_count script.batches < 2 ^ 32 }
        ensures fold { head_of [] result ≡ first_head script.batches }
        ensures first { result.first ≡ 1 }
        ensures counts { (result.admitted ≡ 0) × (result.done ≡ 0) }
    {
        Head::new_at(alloc, script, Ticket(1))
    }

    /// The lines of the first batch are known, and the first of them has the ticket `next`.
    pub fn new_at(alloc: Global, script: Script, next: Ticket) -> Head
        requires some { 1 ≤ next.0 }
        requires room { next.0 + line_count script.batches < 2 ^ 32 }
        ensures fold { head_of [] result ≡ first_head script.batches }
        ensures first { result.first ≡ next.0 }
        ensures counts { (result.admitted ≡ 0) × (result.done ≡ 0) }
    {
        let mut later = VecDeque::from_vec(script.batches.into_vec());
        let waiting = match later.pop_front() {
            Some(batch) => VecDeque::from_vec(batch.into_vec()),
            None => VecDeque::new(alloc),
        };
        Head {
            first: next.0,
            admitted: 0,
            waiting,
            later,
            done: 0,
            answer: Vec::new(alloc),
            alloc,
        }
    }

    /// The ticket of the job that is admitted next; none where every known job was admitted.
    pub fn next(&self) -> Option<Ticket>
        ensures { result ≡ next_ticket self.now }
    {
        if self.waiting.is_empty() {
            return None;
        }
        Some(Ticket(self.first + self.admitted))
    }

    /// The line that the next `admit` takes, a created call as a request.
    pub fn upcoming(&self) -> Option<&Line>
        ensures { option_copied result ≡ next_line self.now }
    {
        self.waiting.front()
    }

    /// Admits the next job.
    pub fn admit(&mut self) -> (Ticket, Job)
        requires { IsSome (next_ticket self.old) }
        ensures ticket { next_ticket self.old ≡ Some result.0 }
        ensures job { (admitted : List Line) → length admitted ≡ self.old.admitted → slice_get (head_of admitted self.old).known self.old.admitted ≡ Some (line_of result.1) }
        ensures fold { (admitted : List Line) → head_of (admitted ++ line_of result.1 ∷ []) self.new ≡ head_of admitted self.old }
        ensures known { (self.old.waiting ≡ line_of result.1 ∷ self.new.waiting) × (self.new.later ≡ self.old.later) }
        ensures first { self.new.first ≡ self.old.first }
        ensures counts { (self.new.admitted ≡ self.old.admitted + 1) × (self.new.done ≡ self.old.done) }
        ensures room { self.old.room ≤ self.new.room }
    {
        let ticket = Ticket(self.first + self.admitted);
        let line = self.waiting.pop_front().unwrap();
        self.admitted += 1;
        (ticket, Job::of_line(line))
    }

    /// Makes room for so many created calls, and for the answer of `created`.
    pub fn reserve(&mut self, calls: usize) -> Result<(), OutOfMemory>
        ensures ok { OnOk result (calls ≤ self.new.room) }
        ensures known { (self.new.waiting ≡ self.old.waiting) × (self.new.later ≡ self.old.later) }
        ensures first { self.new.first ≡ self.old.first }
        ensures counts { (self.new.admitted ≡ self.old.admitted) × (self.new.done ≡ self.old.done) }
        ensures room { self.old.room ≤ self.new.room }
    {
        self.waiting.reserve(calls)?;
        self.answer.reserve(calls)?;
        Ok(())
    }

    /// One job more is done, the first that was admitted and not done. Gives the tickets of what it created.
    pub fn add_created(&mut self, calls: Seq<Call>) -> Seq<Ticket>
        requires room { length calls ≤ self.old.room }
        requires tickets { last_known self.old + length calls + line_count self.old.later < 2 ^ 32 }
        requires order { self.old.done < self.old.admitted }
        ensures tickets { (admitted : List Line) → length admitted ≡ self.old.admitted → map (λ t. t.0) result ≡ tickets_of self.old.first (head_of admitted self.old) (requests calls) }
        ensures fold { (admitted : List Line) → length admitted ≡ self.old.admitted → next_batch (head_of admitted self.new) ≡ with_done (head_of admitted self.old) (requests calls) }
        ensures first { self.new.first ≡ self.old.first }
        ensures known { (self.new.waiting ≡ self.old.waiting ++ requests calls) × (self.new.later ≡ self.old.later) }
        ensures counts { (self.new.admitted ≡ self.old.admitted) × (self.new.done ≡ self.old.done + 1) }
    {
        let mut tickets = std::mem::replace(&mut self.answer, Vec::new(self.alloc));
        let known = u64::from(self.admitted) + self.waiting.len() as u64;
        let next = u64::from(self.first) + known;
        append(&mut self.waiting, &mut tickets, next, calls.into_vec());
        self.done += 1;
        Seq::from_vec(tickets)
    }

    /// Begins the next batch, where one is left, and says whether it did.
    pub fn batch_done(&mut self) -> bool
        requires known { IsNone (next_ticket self.old) }
        requires done { self.old.done ≡ self.old.admitted }
        ensures left { IsTrue result ↔ (0 < length self.old.later) }
        ensures fold { (admitted : List Line) → length admitted ≡ self.old.admitted → head_of admitted self.new ≡ next_batch (head_of admitted self.old) }
        ensures first { self.new.first ≡ self.old.first }
        ensures counts { (self.new.admitted ≡ self.old.admitted) × (self.new.done ≡ self.old.done) }
    {
        match self.later.pop_front() {
            Some(batch) => {
                self.waiting = VecDeque::from_vec(batch.into_vec());
                true
            }
            None => false,
        }
    }
}

// Adds calls to those that wait, with tickets from `next` on.
fn append(waiting: &mut VecDeque<Line>, tickets: &mut Vec<Ticket>, next: u64, calls: Vec<Call>)
    requires room { deque_len waiting.old + length calls.items ≤ deque_capacity waiting.old }
    requires answer { vec_len tickets.old + length calls.items ≤ vec_capacity tickets.old }
    requires below { next + length calls.items ≤ 2 ^ 32 }
    ensures waiting { waiting.new.items ≡ waiting.old.items ++ requests calls.items }
    ensures tickets { map (λ t. t.0) tickets.new.items ≡ map (λ t. t.0) tickets.old.items ++ tickets_from next (length calls.items) }
    ensures capacity { deque_capacity waiting.new ≡ deque_capacity waiting.old }
{
    let mut ticket = next;
    for call in calls {
        tickets.push_reserved(Ticket(ticket as u32));
        waiting.push_back_reserved(Line::Request(call));
        ticket += 1;
    }
}
