//! What is kept of the committed tickets.

ghost use Rattle.std.specs.Prelude.{◌≡◌, ◌≤◌, ◌<◌, ◌++◌, ◌∷◌, [], IfOk, OnOk, Some, length, map, slice_get};

use crate::kept::Settled;
use std::alloc::Global;
use std::marker::Model;
use wave_base::{EventResult, OutOfMemory, Seq, Ticket};

/// What is kept of the committed tickets, in their order. The results lie in one block and the tickets of what they created in another, so
/// that both are handed on at the end of a run as they lie.
#[derive(Drop)]
pub struct Settlements {
    results: Vec<EventResult>,
    made: Vec<Seq<Ticket>>,
}

impl Model for Settlements {
    ghost use Rattle.wave_effects.specs.Settling.{Settling, settling_code};
    ghost use Rattle.wave_effects.specs.inner.Rows.{AreRows, settling_of};

    ghost Value = { Settling };

    ghost coded = { settling_code };

    ghost view = { settling_of };

    ghost invariant = { AreRows };
}

impl Settlements {
    /// No ticket is committed.
    pub fn new(alloc: Global) -> Settlements
        ensures { result.items ≡ [] }
    {
        Settlements {
            results: Vec::new(alloc),
            made: Vec::new(alloc),
        }
    }

    /// The number of committed tickets.
    pub fn len(&self) -> usize
        ensures { result ≡ length self.now.items }
    {
        self.results.len()
    }

    /// A copy of what is kept of the one at place `i`.
    pub fn copy(&self, alloc: Global, i: usize) -> Result<Settled, OutOfMemory>
        requires { i < length self.now.items }
        ensures { IfOk result (λ x. slice_get self.now.items i ≡ Some x) }
    {
        Ok(Settled {
            result: self.results[i].copy(alloc)?,
            made: self.made[i].copy(alloc)?,
        })
    }

    /// Makes room for one more.
    pub fn reserve(&mut self) -> Result<(), OutOfMemory>
        ensures room { OnOk result (1 ≤ self.new.room) }
        ensures items { self.new.items ≡ self.old.items }
    {
        self.results.reserve(1)?;
        self.made.reserve(1)?;
        Ok(())
    }

    /// One more ticket is committed.
    pub fn push_reserved(&mut self, settled: Settled)
        requires { 1 ≤ self.old.room }
        ensures { self.new.items ≡ self.old.items ++ settled ∷ [] }
    {
        let Settled { result, made } = settled;
        self.results.push_reserved(result);
        self.made.push_reserved(made);
    }

    /// The results, and the tickets of what each created.
    pub fn into_parts(self) -> (Seq<EventResult>, Seq<Seq<Ticket>>)
        ensures results { result.0 ≡ map (λ x. x.result) self.items }
        ensures made { result.1 ≡ map (λ x. x.made) self.items }
    {
        (Seq::from_vec(self.results), Seq::from_vec(self.made))
    }
}
