//! The mails of an event that are under way.

ghost use Rattle.std.specs.Prelude.{◌≡◌, ◌≤◌, ◌<◌, ◌+◌, ◌^◌, [], ℕ, length, OnOk, Some, None, nat_eq, if◌then◌else◌, option_copied, IsSome};
ghost use Rattle.std.specs.BTreeMap.{insert_entry};
ghost use Rattle.std.specs.Ordering.{nat_cmp};
ghost use Rattle.std.specs.List.Sorted.{IsStrictlySortedBy};
ghost use Rattle.std.specs.Map.{keys_of};
ghost use Rattle.event_cells.specs.Keeps.{mail_in, without_in};
ghost use Rattle.event_cells.specs.inner.Places.{IsPlace};

use migration_core::Letter;
use std::alloc::Global;
use std::marker::Model;
use wave_base::{Host, OutOfMemory, Path};

/// A mail under way: to a host, for a context.
#[derive(Drop)]
pub struct Envelope {
    /// The host to which it is on its way.
    pub to: Host,
    /// The context that it is for.
    pub path: Path,
    /// What it is for.
    pub letter: Letter,
}

/// The mails of an event. They are numbered from 1 as they are sent; those under way are kept in ascending order, and a number is
/// searched by halves.
#[derive(Drop)]
pub struct Outbox {
    sent: u32,
    mails: Vec<(u32, Envelope)>,
}

impl Model for Outbox {
    ghost use Rattle.event_cells.specs.Keeps.{Sending, sending_code};

    ghost Value = { Sending };

    ghost coded = { sending_code };

    ghost use Rattle.event_cells.specs.inner.Boxes.{sending_of, IsOutbox};

    ghost view = { sending_of };

    ghost invariant = { IsOutbox };
}

impl Outbox {
    /// No mail was sent.
    pub fn new(alloc: Global) -> Outbox
        ensures sent { result.sent ≡ 0 }
        ensures mails { result.mails ≡ [] }
    {
        Outbox {
            sent: 0,
            mails: Vec::new(alloc),
        }
    }

    /// How many mails were sent.
    pub fn sent_count(&self) -> u32
        ensures { result ≡ self.now.sent }
    {
        self.sent
    }

    /// The mails under way by their numbers, in ascending order.
    pub fn as_slice(&self) -> &[(u32, Envelope)]
        ensures mails { result.now ≡ self.now.mails }
        ensures ordered { IsStrictlySortedBy nat_cmp (keys_of result.now) }
    {
        self.mails.as_slice()
    }

    // The place of a number, or the place where it belongs.
    fn place(&self, number: u32) -> Result<usize, usize>
        ensures { IsPlace nat_cmp self.now.mails number result }
    {
        self.as_slice().binary_search_by_key(&number, |mail| mail.0)
    }

    /// The mail of a number.
    pub fn get(&self, number: u32) -> Option<&Envelope>
        ensures { option_copied result ≡ mail_in self.now.mails number }
    {
        match self.place(number) {
            Ok(i) => Some(&self.mails[i].1),
            Err(_) => None,
        }
    }

    /// Makes room for so many more mails.
    pub fn reserve(&mut self, more: usize) -> Result<(), OutOfMemory>
        ensures ok { OnOk result (more ≤ self.new.room) }
        ensures room { self.old.room ≤ self.new.room }
        ensures sent { self.new.sent ≡ self.old.sent }
        ensures mails { self.new.mails ≡ self.old.mails }
    {
        self.mails.reserve(more)?;
        Ok(())
    }

    /// Sends a mail, under the next number.
    pub fn send(&mut self, envelope: Envelope)
        requires room { 1 ≤ self.old.room }
        requires number { self.old.sent + 1 < 2 ^ 32 }
        ensures sent { self.new.sent ≡ self.old.sent + 1 }
        ensures mails { self.new.mails ≡ insert_entry nat_cmp self.old.mails (self.old.sent + 1) envelope }
        ensures one_more { length self.new.mails ≡ length self.old.mails + 1 }
        ensures room { self.old.room ≤ self.new.room + 1 }
    {
        self.sent += 1;
        self.mails.push_reserved((self.sent, envelope));
    }

    /// Takes a mail out.
    pub fn take(&mut self, number: u32) -> Option<Envelope>
        ensures mail { result ≡ mail_in self.old.mails number }
        ensures sent { self.new.sent ≡ self.old.sent }
        ensures mails { self.new.mails ≡ without_in self.old.mails number }
        ensures fewer { length self.new.mails ≤ length self.old.mails }
        ensures others { (k : ℕ) → mail_in self.new.mails k ≡ (if nat_eq number k then None else mail_in self.old.mails k) }
        ensures room { self.old.room ≤ self.new.room }
    {
        match self.place(number) {
            Ok(i) => {
                let (_, envelope) = self.mails.remove(i);
                Some(envelope)
            }
            Err(_) => None,
        }
    }

    /// Puts another mail in the place of one that is under way.
    pub fn replace(&mut self, number: u32, envelope: Envelope)
        requires { IsSome (mail_in self.old.mails number) }
        ensures sent { self.new.sent ≡ self.old.sent }
        ensures mails { self.new.mails ≡ insert_entry nat_cmp self.old.mails number envelope }
        ensures as_many { length self.new.mails ≡ length self.old.mails }
        ensures room { self.old.room ≤ self.new.room }
    {
        let i = self.place(number).unwrap();
        self.mails[i] = (number, envelope);
    }
}
