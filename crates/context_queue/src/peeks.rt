//! Those who hold a context beside one another.

ghost use Rattle.std.specs.Prelude.{◌≡◌, ◌≤◌, ◌+◌, [], IfOk, OnOk};
ghost use Rattle.std.specs.FinSet as set;
ghost use Rattle.std.specs.HashSet.{spare};
ghost use Rattle.std.specs.Ordering.{nat_cmp};
ghost use Rattle.context_queue.specs.Lines.{is_nobody};

use std::alloc::Global;
use std::collections::HashSet;
use std::marker::Model;
use wave_base::{OutOfMemory, Ticket};

/// The tickets that hold a context together, since they only look. One alone takes no memory; for more there is a table in a box, so that
/// an entry stays small.
#[derive(Drop)]
pub struct Peeks {
    alloc: Global,
    tickets: Tickets,
}

/// Those who look.
#[derive(Drop)]
pub(crate) enum Tickets {
    /// Nobody.
    Nobody,
    /// One alone.
    One(u32),
    /// Those in the table.
    Many(Box<HashSet<u32>>),
}

impl Model for Peeks {
    ghost use Rattle.context_queue.specs.Lines.{Group, group_code};
    ghost use Rattle.context_queue.specs.inner.Kept.{group_of};

    ghost Value = { Group };

    ghost coded = { group_code };

    ghost view = { λ a. group_of a.tickets };
}

impl Peeks {
    /// No tickets, and room for one.
    pub fn new(alloc: Global) -> Peeks
        ensures tickets { result.tickets ≡ set.empty }
        ensures room { 1 ≤ result.room }
    {
        Peeks {
            alloc,
            tickets: Tickets::Nobody,
        }
    }

    /// Whether a ticket is among them.
    pub fn contains(&self, ticket: Ticket) -> bool
        ensures { result ≡ set.contains self.now.tickets ticket.0 }
    {
        match &self.tickets {
            Tickets::Nobody => false,
            Tickets::One(own) => ticket.0 == *own,
            Tickets::Many(tickets) => tickets.contains(&ticket.0),
        }
    }

    /// Whether nobody is among them.
    pub fn is_empty(&self) -> bool
        ensures { result ≡ is_nobody self.now.tickets }
    {
        match &self.tickets {
            Tickets::Nobody => true,
            Tickets::One(_) => false,
            Tickets::Many(tickets) => tickets.len() == 0,
        }
    }

    /// Makes room for so many more.
    pub fn reserve(&mut self, more: usize) -> Result<(), OutOfMemory>
        ensures ok { OnOk result (more ≤ self.new.room) }
        ensures room { self.old.room ≤ self.new.room }
        ensures tickets { self.new.tickets ≡ self.old.tickets }
    {
        match &mut self.tickets {
            Tickets::Nobody => {
                if more > 1 {
                    self.tickets = Tickets::Many(new_tickets(self.alloc, more)?);
                }
            }
            Tickets::One(own) => {
                if more > 0 {
                    let tickets = tickets_of(self.alloc, *own, more)?;
                    self.tickets = Tickets::Many(tickets);
                }
            }
            Tickets::Many(tickets) => tickets.reserve(more)?,
        }
        Ok(())
    }

    /// A ticket joins.
    pub fn join(&mut self, ticket: Ticket)
        requires { 1 ≤ self.old.room }
        ensures tickets { self.new.tickets ≡ set.insert self.old.tickets ticket.0 }
        ensures room { self.old.room ≤ self.new.room + 1 }
    {
        match &mut self.tickets {
            Tickets::Nobody => self.tickets = Tickets::One(ticket.0),
            Tickets::One(_) => {}
            Tickets::Many(tickets) => {
                let _ = tickets.insert(ticket.0);
            }
        }
    }

    /// A ticket leaves.
    pub fn leave(&mut self, ticket: Ticket)
        ensures tickets { self.new.tickets ≡ set.remove self.old.tickets ticket.0 }
        ensures room { self.old.room ≤ self.new.room }
    {
        match &mut self.tickets {
            Tickets::Nobody => {}
            Tickets::One(own) => {
                if ticket.0 == *own {
                    self.tickets = Tickets::Nobody;
                }
            }
            Tickets::Many(tickets) => {
                let _ = tickets.remove(&ticket.0);
            }
        }
    }

    /// All leave.
    pub fn clear(&mut self)
        ensures tickets { self.new.tickets ≡ set.empty }
        ensures room { self.old.room ≤ self.new.room }
    {
        match &mut self.tickets {
            Tickets::Nobody => {}
            Tickets::One(_) => self.tickets = Tickets::Nobody,
            Tickets::Many(tickets) => tickets.clear(),
        }
    }
}

// A box for tickets, with room for so many.
fn new_tickets(alloc: Global, more: usize) -> Result<Box<HashSet<u32>>, OutOfMemory>
    ensures none { IfOk result (λ b. b.value.keys ≡ []) }
    ensures room { IfOk result (λ b. more ≤ spare b.value) }
{
    let mut tickets = HashSet::new(alloc);
    tickets.reserve(more)?;
    Ok(Box::new(alloc, tickets)?)
}

// A box for tickets with this one, and room for so many more.
fn tickets_of(alloc: Global, own: u32, more: usize) -> Result<Box<HashSet<u32>>, OutOfMemory>
    ensures one { IfOk result (λ b. set.from_list {R = nat_cmp} b.value.keys ≡ set.insert set.empty own) }
    ensures room { IfOk result (λ b. more ≤ spare b.value) }
{
    let mut tickets = HashSet::new(alloc);
    tickets.insert(own)?;
    tickets.reserve(more)?;
    Ok(Box::new(alloc, tickets)?)
}
