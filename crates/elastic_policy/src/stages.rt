//! A script with policies, as it is run.

ghost use Rattle.std.specs.Prelude.{◌≡◌, ◌<◌, ◌≤◌, ◌^◌, ◌∷◌, [], length, IfOk, OnOk};
ghost use Rattle.std.specs.List.{zip};
ghost use Rattle.wave_base.specs.Shapes.{IsShape};
ghost use Rattle.wave_base.specs.declared.limits.TheConstants.{HOSTS};
ghost use Rattle.script_reader.specs.Elastics.{IsElastic};
ghost use Rattle.elastic_policy.specs.Moves.{policy_moves};
ghost use Rattle.elastic_policy.specs.Stages.{first_staged, no_loads, piece_of, stages_left, staged_after, ArePlaced, FitsHosts, IsStaged, MayFollow};

use crate::plan::plan_moves;
use script_reader::{Elastic, Part};
use std::alloc::Global;
use std::collections::VecDeque;
use std::marker::Model;
use wave_base::{Finished, Line, OutOfMemory, Place, Policy, Script, Seq, Shape, Start, Ticket};

/// A script with policies as it is run: piece by piece, each from where the one before it ended, whose lines are all known when it begins.
#[derive(Debug, Drop)]
pub struct Stages {
    /// The number of hosts.
    hosts: u8,
    /// What the next piece begins with.
    start: Start,
    /// How many tickets of the piece before entered each of its contexts.
    loads: Seq<u64>,
    /// What is left to be run.
    left: VecDeque<Part>,
}

impl Model for Stages {
    ghost use Rattle.elastic_policy.specs.Stages.{Staged};

    ghost Value = { Staged };

    ghost view = { λ s. record { hosts = s.hosts; start = s.start; loads = s.loads; left = s.left.items } };
}

// No ticket entered any of so many contexts.
fn no_loads(alloc: Global, count: usize) -> Result<Seq<u64>, OutOfMemory>
    ensures { IfOk result (λ ls. ls ≡ no_loads count) }
{
    Ok(Seq::from_vec(vec![in alloc; 0; count]?))
}

// The moves that a part begins with.
fn policy_moves(
    alloc: Global,
    places: &Seq<Place>,
    loads: &Seq<u64>,
    hosts: u8,
    policy: Option<Policy>,
) -> Result<Seq<Line>, OutOfMemory>
    requires some_host { 1 ≤ hosts }
    requires few_hosts { hosts ≤ HOSTS }
    requires placed { ArePlaced hosts places.now loads.now }
    requires policy { FitsHosts hosts policy }
    ensures { IfOk result (λ ms. ms ≡ policy_moves hosts policy (zip places.now loads.now)) }
{
    match policy {
        Some(policy) => plan_moves(alloc, places, loads, hosts, &policy),
        None => Ok(Seq::new(alloc)),
    }
}

/// A script of one batch.
pub(crate) fn one_batch(alloc: Global, hosts: u8, lines: Seq<Line>) -> Result<Script, OutOfMemory>
    ensures { IfOk result (λ s. s ≡ record { hosts = hosts; batches = lines ∷ [] }) }
{
    let mut batches = Seq::new(alloc);
    batches.add(lines)?;
    Ok(Script { hosts, batches })
}

impl Stages {
    /// Before the first piece.
    pub fn first(alloc: Global, shape: &Shape, elastic: Elastic) -> Result<Stages, OutOfMemory>
        requires shape { IsShape shape.now }
        requires elastic { IsElastic shape.now elastic }
        ensures first { IfOk result (λ s. s ≡ first_staged shape.now elastic) }
        ensures staged { IfOk result IsStaged }
    {
        let start = Start::first(alloc, shape)?;
        let loads = no_loads(alloc, start.places.len())?;
        Ok(Stages {
            hosts: elastic.hosts,
            start,
            loads,
            left: VecDeque::from_vec(elastic.parts.into_vec()),
        })
    }

    /// The number of hosts, what the next piece begins with, and what is left to be run.
    pub(crate) fn into_parts(self) -> (u8, Start, VecDeque<Part>)
        ensures hosts { result.0 ≡ self.hosts }
        ensures start { result.1 ≡ self.start }
        ensures left { result.2.items ≡ self.left }
    {
        (self.hosts, self.start, self.left)
    }

    /// So many hosts, what the next piece begins with, the tickets of the piece before that entered each context, and what is left to be run.
    pub(crate) fn from_parts(
        hosts: u8,
        start: Start,
        loads: Seq<u64>,
        left: VecDeque<Part>,
    ) -> Stages
        ensures { result ≡ record { hosts = hosts; start = start; loads = loads; left = left.items } }
    {
        Stages {
            hosts,
            start,
            loads,
            left,
        }
    }

    /// What the next piece begins with.
    pub fn start(&self) -> &Start
        ensures { result.now ≡ self.now.start }
    {
        &self.start
    }

    /// The next piece, where one is left: the moves that a policy asks for, or a part's batches. What has no line is passed by.
    pub fn next(&mut self, alloc: Global) -> Result<Option<Script>, OutOfMemory>
        requires { IsStaged self.old }
        ensures piece { IfOk result (λ o. o ≡ piece_of self.old) }
        ensures left { OnOk result (self.new ≡ stages_left self.old) }
        ensures staged { OnOk result (IsStaged self.new) }
    {
        while let Some(part) = self.left.pop_front() {
            let Part { policy, batches } = part;
            let moves = policy_moves(alloc, &self.start.places, &self.loads, self.hosts, policy)?;
            if !moves.is_empty() {
                let rest = Part {
                    policy: None,
                    batches,
                };
                self.left.push_front(rest)?;
                return Ok(Some(one_batch(alloc, self.hosts, moves)?));
            }
            if !batches.is_empty() {
                return Ok(Some(Script {
                    hosts: self.hosts,
                    batches,
                }));
            }
            self.loads = no_loads(alloc, self.start.places.len())?;
        }
        Ok(None)
    }

    /// The next piece begins where this run of the last one ended.
    pub fn after(&mut self, done: Finished)
        requires staged { IsStaged self.old }
        requires follows { MayFollow self.old done }
        ensures after { self.new ≡ staged_after self.old done }
        ensures staged { IsStaged self.new }
    {
        let next = Ticket(self.start.next.0 + done.results.len() as u32);
        self.start = Start {
            shots: done.shots,
            places: done.places,
            next,
        };
        self.loads = done.loads;
    }
}
