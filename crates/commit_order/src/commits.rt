//! Results that came in any order, given out in the order of their tickets.

ghost use Rattle.std.specs.Prelude.{◌≡◌, ◌+◌, ◌≤◌, ◌<◌, None, OnOk, is_some, option_copied, option_map, if◌then◌else◌};
ghost use Rattle.std.specs.FinMap as map;
ghost use Rattle.commit_order.specs.Commits.{ready_result, next_committed};

use std::alloc::Global;
use std::collections::HashMap;
use std::marker::Model;
use wave_base::{EventResult, OutOfMemory, Ticket};

/// The results of tickets that have ended and are not committed, and the last ticket that was committed.
#[derive(Drop)]
pub struct Commits {
    committed: u32,
    results: HashMap<u64, EventResult>,
}

/// A ticket that is committed, with its result.
#[derive(PartialEq, Eq, Debug, Drop)]
pub struct Committed {
    /// The ticket.
    pub ticket: Ticket,
    /// What its job came to.
    pub result: EventResult,
}

impl Model for Commits {
    ghost use Rattle.std.specs.Prelude.{◌≡◌, ◌^◌, None, nat_eq};
    ghost use Rattle.std.specs.Map.{lookup};
    ghost use Rattle.std.specs.FinMap as map;
    ghost use Rattle.std.specs.HashMap.{spare};
    ghost use Rattle.commit_order.specs.Commits.{Committing};
    ghost use Rattle.commit_order.specs.inner.Coding.{committing_code};

    ghost Value = { Committing };

    ghost coded = { committing_code };

    ghost view = { λ a. record { committed = a.committed; results = map.from_entries a.results.entries; room = spare a.results } };

    ghost invariant = { λ a. lookup (nat_eq (2 ^ 32)) a.results.entries ≡ None };
}

impl Commits {
    /// Nothing has ended, and `next` is the first ticket to be committed.
    pub fn new(alloc: Global, next: Ticket) -> Commits
        requires { 1 ≤ next.0 }
        ensures committed { result.committed + 1 ≡ next.0 }
        ensures results { result.results ≡ map.empty }
    {
        Commits {
            committed: next.0 - 1,
            results: HashMap::new(alloc),
        }
    }

    /// Makes room for one more result.
    pub fn reserve(&mut self) -> Result<(), OutOfMemory>
        ensures ok { OnOk result (1 ≤ self.new.room) }
        ensures room { self.old.room ≤ self.new.room }
        ensures committed { self.new.committed ≡ self.old.committed }
        ensures results { self.new.results ≡ self.old.results }
    {
        self.results.reserve(1)?;
        Ok(())
    }

    /// The event of this ticket has ended.
    pub fn add_result(&mut self, ticket: Ticket, ended: EventResult)
        requires room { 1 ≤ self.old.room }
        requires above { self.old.committed < ticket.0 }
        requires fresh { map.get self.old.results ticket.0 ≡ None }
        ensures committed { self.new.committed ≡ self.old.committed }
        ensures results { self.new.results ≡ map.insert self.old.results ticket.0 ended }
        ensures room { self.old.room ≤ self.new.room + 1 }
    {
        let _ = self.results.insert(u64::from(ticket.0), ended);
    }

    /// The result that `commit_next` gives next.
    pub fn ready(&self) -> Option<&EventResult>
        ensures { option_copied result ≡ ready_result self.now }
    {
        if self.results.is_empty() {
            return None;
        }
        let ticket = u64::from(self.committed) + 1;
        self.results.get(&ticket)
    }

    /// Commits the ticket after the last committed one, where it has a result.
    pub fn commit_next(&mut self) -> Option<Committed>
        ensures gives { result ≡ next_committed self.old }
        ensures committed { self.new.committed ≡ self.old.committed + (if is_some result then 1 else 0) }
        ensures results { self.new.results ≡ map.remove self.old.results (self.old.committed + 1) }
        ensures room { self.old.room ≤ self.new.room }
    {
        let next = u64::from(self.committed) + 1;
        let result = self.results.remove(&next)?;
        self.committed = next as u32;
        let ticket = Ticket(self.committed);
        Some(Committed { ticket, result })
    }
}
