//! A script with policies, as it is run on one tree of contexts that is changed in place.

ghost use Rattle.std.specs.Prelude.{◌≡◌, ◌≤◌, map, IfOk, OnOk};
ghost use Rattle.std.specs.List.{zip};
ghost use Rattle.std.specs.List.Sorted.{IsStrictlySortedBy};
ghost use Rattle.wave_base.specs.declared.limits.TheConstants.{HOSTS};
ghost use Rattle.wave_base.specs.Paths.{path_cmp};
ghost use Rattle.wave_base.specs.Scripts.{IsPolicy, IsScript};
ghost use Rattle.wave_base.specs.Starts.{IsStart};
ghost use Rattle.script_fold.specs.Lives.{IsTold};
ghost use Rattle.script_fold.specs.Runs.{finished_of};
ghost use Rattle.elastic_policy.specs.Moves.{moves_of, policy_moves};
ghost use Rattle.elastic_policy.specs.Stages.{piece_of, stages_left, staged_after, with_no_loads, ArePlaced, FitsHosts, IsStaged, MayFollow};

use crate::plan::plan_moves;
use crate::stages::{Stages, one_batch};
use script_fold::{LiveStart, Runner, Told};
use script_reader::Part;
use std::alloc::Global;
use std::collections::VecDeque;
use std::marker::Model;
use wave_base::{Finished, Line, OutOfMemory, Policy, Script, Seq, Start, Ticket};

/// A script with policies as it is run piece by piece on a Start that is kept: what a piece costs does not grow with the contexts that it leaves
/// alone.
#[derive(Drop)]
pub struct LiveStages {
    /// The number of hosts.
    hosts: u8,
    /// What the next piece begins with, and how many tickets of the piece before entered each context.
    live: LiveStart,
    /// What is left to be run.
    left: VecDeque<Part>,
}

impl Model for LiveStages {
    ghost use Rattle.elastic_policy.specs.Stages.{Staged};

    ghost Value = { Staged };

    ghost view = { λ s. record { hosts = s.hosts; start = s.live.start; loads = s.live.loads; left = s.left.items } };
}

// The moves that a policy asks for: of the contexts it looks at alone.
fn moves_on(
    alloc: Global,
    live: &LiveStart,
    hosts: u8,
    policy: &Policy,
) -> Result<Seq<Line>, OutOfMemory>
    requires some_host { 1 ≤ hosts }
    requires few_hosts { hosts ≤ HOSTS }
    requires placed { ArePlaced hosts live.now.start.places live.now.loads }
    requires policy { IsPolicy hosts policy.now }
    ensures { IfOk result (λ ms. ms ≡ moves_of hosts policy.now (zip live.now.start.places live.now.loads)) }
{
    match *policy {
        Policy::Balance(_) => {
            let (places, loads) = live.places_with_loads(alloc)?;
            plan_moves(alloc, &places, &loads, hosts, policy)
        }
        Policy::Drain(from, _) => {
            let (places, loads) = live.on_host(alloc, from)?;
            plan_moves(alloc, &places, &loads, hosts, policy)
        }
    }
}

// The moves that a part begins with.
fn part_moves(
    alloc: Global,
    live: &LiveStart,
    hosts: u8,
    policy: Option<Policy>,
) -> Result<Seq<Line>, OutOfMemory>
    requires some_host { 1 ≤ hosts }
    requires few_hosts { hosts ≤ HOSTS }
    requires placed { ArePlaced hosts live.now.start.places live.now.loads }
    requires policy { FitsHosts hosts policy }
    ensures { IfOk result (λ ms. ms ≡ policy_moves hosts policy (zip live.now.start.places live.now.loads)) }
{
    match policy {
        Some(policy) => moves_on(alloc, live, hosts, &policy),
        None => Ok(Seq::new(alloc)),
    }
}

impl LiveStages {
    /// From where these stand, to run what is next: what the piece before loaded is forgotten.
    pub fn begin(alloc: Global, stages: Stages) -> Result<LiveStages, OutOfMemory>
        requires staged { IsStaged stages }
        requires shots { IsStrictlySortedBy path_cmp (map (λ x. x.path) stages.start.shots) }
        ensures same { IfOk result (λ s. s ≡ with_no_loads stages) }
        ensures staged { IfOk result IsStaged }
    {
        let (hosts, start, left) = stages.into_parts();
        Ok(LiveStages {
            hosts,
            live: LiveStart::begin(alloc, &start)?,
            left,
        })
    }

    /// The ticket that the next piece gives first.
    pub fn first_ticket(&self) -> Ticket
        ensures { result ≡ self.now.start.next }
    {
        self.live.next()
    }

    /// The same, where what the piece before loaded is forgotten.
    pub fn forget_loads(self) -> LiveStages
        requires { IsStaged self }
        ensures same { result ≡ with_no_loads self }
        ensures staged { IsStaged result }
    {
        let LiveStages {
            hosts,
            mut live,
            left,
        } = self;
        live.forget_loads();
        LiveStages { hosts, live, left }
    }

    /// The same on a Start of its own.
    pub fn keep(self, alloc: Global) -> Result<Stages, OutOfMemory>
        ensures { IfOk result (λ s. s ≡ self) }
    {
        let LiveStages { hosts, live, left } = self;
        let next = live.next();
        let nothing = Told {
            results: Seq::new(alloc),
            made: Seq::new(alloc),
            names: Seq::new(alloc),
        };
        let Finished {
            results: _,
            made: _,
            names: _,
            places,
            shots,
            loads,
        } = live.finished_run(alloc, nothing)?;
        let start = Start {
            shots,
            places,
            next,
        };
        Ok(Stages::from_parts(hosts, start, loads, left))
    }

    /// The next piece, where one is left: the moves that a policy asks for, or a part's batches. What has no line is passed by.
    pub fn next(&mut self, alloc: Global) -> Result<Option<Script>, OutOfMemory>
        requires { IsStaged self.old }
        ensures piece { IfOk result (λ o. o ≡ piece_of self.old) }
        ensures left { OnOk result (self.new ≡ stages_left self.old) }
        ensures staged { OnOk result (IsStaged self.new) }
    {
        while let Some(part) = self.left.pop_front() {
            let Part { policy, batches } = part;
            let moves = part_moves(alloc, &self.live, self.hosts, policy)?;
            if !moves.is_empty() {
                let rest = Part {
                    policy: None,
                    batches,
                };
                self.left.push_front(rest)?;
                return Ok(Some(one_batch(alloc, self.hosts, moves)?));
            }
            if !batches.is_empty() {
                return Ok(Some(Script {
                    hosts: self.hosts,
                    batches,
                }));
            }
            self.live.forget_loads();
        }
        Ok(None)
    }

    /// Runs a piece. It gives where the next one begins, and what the piece's jobs gave.
    pub fn run<R: Runner>(
        self,
        alloc: Global,
        runner: &R,
        script: Script,
    ) -> Result<(LiveStages, Told), OutOfMemory>
        requires sound { R.sound runner.now }
        requires script { IsScript (R.shape runner.now) script }
        requires start { IsStart (R.shape runner.now) script.hosts self.start }
        requires staged { IsStaged self }
        requires follows { MayFollow self (finished_of (R.meaning runner.now) (R.shape runner.now) self.start script) }
        ensures after { IfOk result (λ r. r.0 ≡ staged_after self (finished_of (R.meaning runner.now) (R.shape runner.now) self.start script)) }
        ensures staged { IfOk result (λ r. IsStaged r.0) }
        ensures told { IfOk result (λ r. IsTold r.1 (finished_of (R.meaning runner.now) (R.shape runner.now) self.start script)) }
    {
        let LiveStages { hosts, live, left } = self;
        let (live, told) = live.run(alloc, runner, script)?;
        Ok((LiveStages { hosts, live, left }, told))
    }
}
