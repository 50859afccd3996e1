//! A context at its host: its record, who holds it and who waits for it.

ghost use Rattle.std.specs.Prelude.{◌≡◌, ◌≤◌, ◌+◌, ◌<◌, ◌^◌, List, [], Some, None, IsNone, IsSome, IfSome, OnOk, is_none, option_map, true, false};
ghost use Rattle.std.specs.FinMap as map;
ghost use Rattle.std.specs.FinSet as set;
ghost use Rattle.wave_base.specs.Kids.{child_at, with_child};
ghost use Rattle.wave_base.specs.declared.value.Value.{Value};
ghost use Rattle.wave_states.specs.States as theory;
ghost use Rattle.context_queue.specs.inner.Admits.{is_either, admits};
ghost use Rattle.wave_states.specs.Steps.{in_line, others, with_body, with_holders};

use crate::peeks::Peeks;
use crate::waiting::{Claim, Waiting};
use std::alloc::Global;
use wave_base::{Child, OutOfMemory, Record, Step, Ticket};

/// What a host keeps of a context.
#[derive(Drop)]
pub struct Entry {
    /// The record, which is away while a worker has it.
    pub body: Option<Record>,
    /// The ticket that holds the context alone.
    pub holder: Option<Ticket>,
    /// Those that hold it together.
    pub peeks: Peeks,
    /// How many tickets were let in.
    pub served: u64,
    /// Those that wait, under their entry numbers.
    pub waiting: Waiting,
    /// How often the context moved to another host.
    pub moves: u64,
    ghost either: { is_either holder peeks.tickets ≡ true },
}

impl Entry {
    ghost use Rattle.context_queue.specs.Entries.{StandsFor, SameButRooms, claim_of, has_child, is_holder, next_in, with_counts, with_next};

    /// The entry of a new context with this record.
    pub fn new(alloc: Global, body: Record) -> Entry
        ensures body { result.body ≡ Some body }
        ensures holder { result.holder ≡ None }
        ensures peeks { result.peeks.tickets ≡ set.empty }
        ensures served { result.served ≡ 0 }
        ensures waiting { result.waiting.claims ≡ map.empty }
        ensures moves { result.moves ≡ 0 }
    {
        Entry {
            body: Some(body),
            holder: None,
            peeks: Peeks::new(alloc),
            served: 0,
            waiting: Waiting::new(alloc),
            moves: 0,
        }
    }

    /// Makes room for so many more that wait.
    pub fn reserve(&mut self, more: usize) -> Result<(), OutOfMemory>
        ensures waiting { OnOk result (more ≤ self.new.waiting.room) }
        ensures waiting_room { self.old.waiting.room ≤ self.new.waiting.room }
        ensures peeks_room { self.new.peeks.room ≡ self.old.peeks.room }
        ensures same { SameButRooms self.old self.new }
    {
        self.waiting.reserve(more)
    }

    /// Makes room for one more that only looks, so that whoever is next can be let in.
    pub fn reserve_peek(&mut self) -> Result<(), OutOfMemory>
        ensures peeks { OnOk result (1 ≤ self.new.peeks.room) }
        ensures waiting_room { self.new.waiting.room ≡ self.old.waiting.room }
        ensures peeks_room { self.old.peeks.room ≤ self.new.peeks.room }
        ensures same { SameButRooms self.old self.new }
    {
        self.peeks.reserve(1)
    }

    /// A ticket joins the line under its entry number, which is above those served.
    pub fn queue(&mut self, number: u64, ticket: Ticket, peek: bool)
        requires room { 1 ≤ self.old.waiting.room }
        ensures entry { (en : theory.Entry (List Value)) → StandsFor self.old en → StandsFor self.new (in_line en number (record { ticket = ticket.0; peek = peek })) }
        ensures waiting_room { self.old.waiting.room ≤ self.new.waiting.room + 1 }
        ensures peeks_room { self.new.peeks.room ≡ self.old.peeks.room }
    {
        self.waiting.join(number, Claim { ticket, peek });
    }

    /// Who gets in by the next `grant`.
    pub fn upcoming(&self) -> Option<Claim>
        ensures claim { (en : theory.Entry (List Value)) → StandsFor self.now en → option_map claim_of result ≡ next_in en }
        ensures waits { IfSome result (λ c. map.get self.now.waiting.claims (self.now.served + 1) ≡ Some c) }
        ensures counted { IfSome result (λ _. self.now.served + 1 < 2 ^ 64) }
        ensures admitted { IfSome result (λ c. admits self.now.holder self.now.peeks.tickets c.peek ≡ true) }
    {
        let claim = self.waiting.after(self.served)?;
        if self.admits(claim.peek) {
            Some(claim)
        } else {
            None
        }
    }

    // Whether one may join those that hold the context.
    fn admits(&self, peek: bool) -> bool
        ensures { result ≡ admits self.now.holder self.now.peeks.tickets peek }
    {
        self.holder.is_none() && (peek || self.peeks.is_empty())
    }

    /// Lets in the one that waits under the next number, where it may join those that hold the context.
    pub fn grant(&mut self) -> Option<Ticket>
        requires { (c : Claim) → map.get self.old.waiting.claims (self.old.served + 1) ≡ Some c → c.peek ≡ true → 1 ≤ self.old.peeks.room }
        ensures ticket { (en : theory.Entry (List Value)) → StandsFor self.old en → option_map (λ t. t.0) result ≡ option_map (λ c. c.ticket) (next_in en) }
        ensures entry { (en : theory.Entry (List Value)) → StandsFor self.old en → StandsFor self.new (with_next en (next_in en)) }
        ensures none { IsNone result → self.new ≡ self.old }
        ensures waiting_room { self.old.waiting.room ≤ self.new.waiting.room }
        ensures peeks_room { self.old.peeks.room ≤ self.new.peeks.room + 1 }
        ensures alone { (c : Claim) → map.get self.old.waiting.claims (self.old.served + 1) ≡ Some c → c.peek ≡ false → self.new.peeks.room ≡ self.old.peeks.room }
    {
        let claim = self.upcoming()?;
        if claim.peek {
            self.peeks.join(claim.ticket);
        } else {
            self.holder = Some(claim.ticket);
        }
        self.served += 1;
        self.waiting.leave(self.served);
        Some(claim.ticket)
    }

    /// A ticket no longer holds the context.
    pub fn free(&mut self, ticket: Ticket)
        ensures entry { (en : theory.Entry (List Value)) → StandsFor self.old en → StandsFor self.new (with_holders en (others ticket.0 en.holders)) }
        ensures waiting_room { self.new.waiting.room ≡ self.old.waiting.room }
        ensures peeks_room { self.old.peeks.room ≤ self.new.peeks.room }
    {
        if self.is_held_by(ticket) {
            self.holder = None;
        }
        self.peeks.leave(ticket);
    }

    // Whether a ticket holds the context alone.
    fn is_held_by(&self, ticket: Ticket) -> bool
        ensures { result ≡ is_holder self.now.holder ticket.0 }
    {
        match self.holder {
            Some(holder) => holder.0 == ticket.0,
            None => false,
        }
    }

    /// Nobody holds the context any more.
    pub fn free_all(&mut self)
        ensures entry { (en : theory.Entry (List Value)) → StandsFor self.old en → StandsFor self.new (with_holders en []) }
        ensures waiting_room { self.new.waiting.room ≡ self.old.waiting.room }
        ensures peeks_room { self.old.peeks.room ≤ self.new.peeks.room }
    {
        self.holder = None;
        self.peeks.clear();
    }
    /// Counts anew: so many tickets were let in, and so often the context moved. Whoever holds the context or waits stays.
    pub fn recount(&mut self, served: u64, moves: u64)
        ensures entry { (en : theory.Entry (List Value)) → StandsFor self.old en → StandsFor self.new (with_counts en served moves) }
        ensures waiting_room { self.new.waiting.room ≡ self.old.waiting.room }
        ensures peeks_room { self.new.peeks.room ≡ self.old.peeks.room }
    {
        self.served = served;
        self.moves = moves;
    }

    /// Sets what the record keeps of a child that it has, without memory.
    pub fn put_child(&mut self, step: Step, child: Child)
        requires { has_child self.old.body step ≡ true }
        ensures entry { (en : theory.Entry (List Value)) (r : theory.Record (List Value)) → StandsFor self.old en → en.body ≡ Some r → StandsFor self.new (with_body en (Some (record { fields = r.fields; children = with_child r.children step child }))) }
        ensures waiting_room { self.new.waiting.room ≡ self.old.waiting.room }
        ensures peeks_room { self.new.peeks.room ≡ self.old.peeks.room }
    {
        if let Some(body) = &mut self.body {
            let _ = body.children.put(step, child);
        }
    }
}
