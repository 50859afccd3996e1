//! Those who wait at a context.

ghost use Rattle.std.specs.Prelude.{◌≡◌, ◌≤◌, ◌<◌, ◌+◌, ◌^◌, [], IfOk, OnOk, IfSome};
ghost use Rattle.std.specs.FinMap as map;
ghost use Rattle.std.specs.HashMap.{spare};
ghost use Rattle.std.specs.Ordering.{nat_cmp};

use std::alloc::Global;
use std::collections::HashMap;
use std::marker::Model;
use wave_base::{OutOfMemory, Ticket};

/// A ticket that waits at a context, and whether it only looks, so that it may hold the context beside others that do.
#[derive(Clone, Copy, Debug, PartialEq, Eq)]
pub struct Claim {
    /// The ticket that waits.
    pub ticket: Ticket,
    /// Whether it only looks.
    pub peek: bool,
}

/// The line of a context: the tickets that wait, each under its entry number. One that waits alone takes no memory; for more there is a
/// table in a box, so that an entry stays small.
#[derive(Drop)]
pub struct Waiting {
    alloc: Global,
    claims: Claims,
}

/// Those who wait.
#[derive(Drop)]
pub(crate) enum Claims {
    /// Nobody.
    Nobody,
    /// One alone, under this number.
    One(u64, Claim),
    /// Those in the table.
    Many(Box<HashMap<u64, Claim>>),
}

impl Model for Waiting {
    ghost use Rattle.std.specs.Prelude.{◌≡◌, ◌^◌, None, nat_eq};
    ghost use Rattle.std.specs.Map.{lookup};
    ghost use Rattle.context_queue.specs.Lines.{Line, line_code};
    ghost use Rattle.context_queue.specs.inner.Kept.{entries_in, line_in};

    ghost Value = { Line };

    ghost coded = { line_code };

    ghost view = { λ a. line_in a.claims };

    ghost invariant = { λ a. lookup (nat_eq (2 ^ 64)) (entries_in a.claims) ≡ None };
}

impl Waiting {
    /// Nobody waits, and there is room for one.
    pub fn new(alloc: Global) -> Waiting
        ensures claims { result.claims ≡ map.empty }
        ensures room { 1 ≤ result.room }
    {
        Waiting {
            alloc,
            claims: Claims::Nobody,
        }
    }

    /// How many wait.
    pub fn len(&self) -> usize
        ensures { result ≡ map.len self.now.claims }
    {
        match &self.claims {
            Claims::Nobody => 0,
            Claims::One(_, _) => 1,
            Claims::Many(claims) => claims.len(),
        }
    }

    /// Who waits under an entry number.
    pub fn get(&self, number: u64) -> Option<Claim>
        ensures { result ≡ map.get self.now.claims number }
    {
        match &self.claims {
            Claims::Nobody => None,
            Claims::One(own, claim) => { if number == *own { Some(*claim) } else { None } }
            Claims::Many(claims) => claims.get(&number).copied(),
        }
    }

    /// Who waits under the number after this one.
    pub fn after(&self, number: u64) -> Option<Claim>
        ensures claim { result ≡ map.get self.now.claims (number + 1) }
        ensures counted { IfSome result (λ _. number + 1 < 2 ^ 64) }
    {
        // none waits under 2^64
        let _ = &self.claims;
        match number.checked_add(1) {
            Some(next) => self.get(next),
            None => None,
        }
    }

    /// Makes room for so many more. Then those and the ones that wait are together no more than a number counts.
    pub fn reserve(&mut self, more: usize) -> Result<(), OutOfMemory>
        ensures ok { OnOk result (more ≤ self.new.room) }
        ensures counted { OnOk result (map.len self.new.claims + more < 2 ^ 64) }
        ensures room { self.old.room ≤ self.new.room }
        ensures claims { self.new.claims ≡ self.old.claims }
    {
        match &mut self.claims {
            Claims::Nobody => {
                if more > 1 {
                    self.claims = Claims::Many(new_claims(self.alloc, more)?);
                }
            }
            Claims::One(number, claim) => {
                if more > 0 {
                    let claims = claims_of(self.alloc, *number, *claim, more)?;
                    self.claims = Claims::Many(claims);
                }
            }
            Claims::Many(claims) => {
                claims.reserve(more)?;
                // a number, which counts those that are there and for how many more there is room
                let _places = claims.capacity();
            }
        }
        Ok(())
    }

    /// A claim joins under an entry number.
    pub fn join(&mut self, number: u64, claim: Claim)
        requires { 1 ≤ self.old.room }
        ensures claims { self.new.claims ≡ map.insert self.old.claims number claim }
        ensures room { self.old.room ≤ self.new.room + 1 }
    {
        match &mut self.claims {
            Claims::Nobody => self.claims = Claims::One(number, claim),
            Claims::One(_, _) => {}
            Claims::Many(claims) => {
                let _ = claims.insert(number, claim);
            }
        }
    }

    /// The claim under an entry number leaves.
    pub fn leave(&mut self, number: u64)
        ensures claims { self.new.claims ≡ map.remove self.old.claims number }
        ensures room { self.old.room ≤ self.new.room }
    {
        match &mut self.claims {
            Claims::Nobody => {}
            Claims::One(own, _) => {
                if number == *own {
                    self.claims = Claims::Nobody;
                }
            }
            Claims::Many(claims) => {
                let _ = claims.remove(&number);
            }
        }
    }
}

// A box for claims, with room for so many.
fn new_claims(alloc: Global, more: usize) -> Result<Box<HashMap<u64, Claim>>, OutOfMemory>
    ensures none { IfOk result (λ b. b.value.entries ≡ []) }
    ensures room { IfOk result (λ b. more ≤ spare b.value) }
{
    let mut claims = HashMap::new(alloc);
    claims.reserve(more)?;
    Ok(Box::new(alloc, claims)?)
}

// A box for claims with this one, and room for so many more.
fn claims_of(
    alloc: Global,
    number: u64,
    claim: Claim,
    more: usize,
) -> Result<Box<HashMap<u64, Claim>>, OutOfMemory>
    ensures one { IfOk result (λ b. map.from_entries {R = nat_cmp} b.value.entries ≡ map.insert map.empty number claim) }
    ensures room { IfOk result (λ b. more ≤ spare b.value) }
    ensures counted { OnOk result (1 + more < 2 ^ 64) }
{
    let mut claims = HashMap::new(alloc);
    claims.insert(number, claim)?;
    claims.reserve(more)?;
    // a number, which counts those that are there and for how many more there is room
    let _places = claims.capacity();
    Ok(Box::new(alloc, claims)?)
}
