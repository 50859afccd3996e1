//! The labels on the head: the next job is admitted, and the next result committed.

ghost use Rattle.std.specs.Prelude.{ℕ, ◌≡◌, ◌≤◌, ◌↔◌, IsTrue, List, length, IfOk, OnOk};
ghost use Rattle.wave_base.specs.declared.script.Line.{Line};
ghost use Rattle.wave_base.specs.Fold.{next_batch};
ghost use Rattle.head_tickets.specs.Heads.{head_of};
ghost use Rattle.wave_states.specs.Labels.{Admit, Commit};
ghost use Rattle.wave_effects.specs.Heading.{AreCreated, IsNext, RoomToAdmit, RoomToCommit};
ghost use Rattle.wave_effects.specs.Machines.{IsEnabled, Keeps, Takes};
ghost use Rattle.wave_effects.specs.Apart.{AsksTheSame, Moves};

use crate::actor::Actor;
use crate::engine::Engine;
use crate::kept::Settled;
use crate::known::heads_are_known;
use crate::laws::states_are_known;
use crate::makes::{kind_of_job, make};
use event_cells::Cell;
use head_tickets::Head;
use std::alloc::Global;
use wave_base::{Call, OutOfMemory, Seq};

impl<'p> Engine<'p> {
    ghost use Rattle.wave_effects.specs.Keeping.{kept_of};

    // Makes the cell of the job that is admitted next, and room for it.
    pub(crate) fn prepare_admit(&mut self, alloc: Global) -> Result<Cell<Actor>, OutOfMemory>
        requires enabled { (w host t : ℕ) × IsEnabled (kept_of self.old) (record { worker = w; host = host; act = Admit t }) }
        ensures cell { IfOk result (λ c. IsNext (kept_of self.old) c) }
        ensures room { OnOk result (RoomToAdmit self.new) }
        ensures same { kept_of self.new ≡ kept_of self.old }
        ensures asks { AsksTheSame (kept_of self.old) (kept_of self.new) }
        ensures plan { self.new.plan ≡ self.old.plan }
    {
        heads_are_known();
        self.cells.reserve(1)?;
        self.kinds.reserve(1)?;
        let ticket = self.head.next().unwrap();
        let line = self.head.upcoming().unwrap();
        let actor = make(alloc, &self.plan.program, line, ticket)?;
        let peek = actor.peeking();
        Cell::new(alloc, ticket, actor, peek)
    }

    // Admit: the next job has its cell.
    pub(crate) fn admit(&mut self, cell: Cell<Actor>)
        requires enabled { (w host t : ℕ) × IsEnabled (kept_of self.old) (record { worker = w; host = host; act = Admit t }) }
        requires cell { IsNext (kept_of self.old) cell }
        requires room { RoomToAdmit self.old }
        ensures takes { (w host t : ℕ) → Takes (kept_of self.old) (kept_of self.new) (record { worker = w; host = host; act = Admit t }) }
        ensures moves { (w host t : ℕ) → Moves (kept_of self.old) (kept_of self.new) (record { worker = w; host = host; act = Admit t }) 0 }
        ensures plan { self.new.plan ≡ self.old.plan }
    {
        states_are_known();
        let (_, job) = self.head.admit();
        self.kinds.push_reserved(kind_of_job(&job));
        self.cells.push_reserved(cell);
    }

    // Copies the calls that the result creates that is committed next, and makes room for it.
    pub(crate) fn prepare_commit(&mut self, alloc: Global) -> Result<Seq<Call>, OutOfMemory>
        requires enabled { (w host t : ℕ) × IsEnabled (kept_of self.old) (record { worker = w; host = host; act = Commit t }) }
        ensures created { IfOk result (λ calls. AreCreated (kept_of self.new) calls) }
        ensures room { IfOk result (λ calls. RoomToCommit self.new (length calls)) }
        ensures keeps { Keeps (kept_of self.old) (kept_of self.new) }
        ensures asks { AsksTheSame (kept_of self.old) (kept_of self.new) }
        ensures plan { self.new.plan ≡ self.old.plan }
    {
        states_are_known();
        let created = self.commits.ready().unwrap().created.copy(alloc)?;
        self.head.reserve(created.len())?;
        self.settled.reserve()?;
        Ok(created)
    }

    // Commit: the next result is settled, and what it creates has tickets; where all known jobs are done, the next batch begins.
    pub(crate) fn commit(&mut self, created: Seq<Call>)
        requires enabled { (w host t : ℕ) × IsEnabled (kept_of self.old) (record { worker = w; host = host; act = Commit t }) }
        requires created { AreCreated (kept_of self.old) created }
        requires room { RoomToCommit self.old (length created) }
        ensures takes { (w host t : ℕ) → Takes (kept_of self.old) (kept_of self.new) (record { worker = w; host = host; act = Commit t }) }
        ensures moves { (w host t : ℕ) → Moves (kept_of self.old) (kept_of self.new) (record { worker = w; host = host; act = Commit t }) 0 }
        ensures plan { self.new.plan ≡ self.old.plan }
    {
        states_are_known();
        heads_are_known();
        let result = self.commits.commit_next().unwrap().result;
        let made = self.head.add_created(created);
        self.settled.push_reserved(Settled { result, made });
        let all_done = self.settled.len() == self.cells.len();
        begin_batch(&mut self.head, all_done);
    }
}

// The next batch begins where all known jobs are done.
fn begin_batch(head: &mut Head, all_done: bool)
    requires done { IsTrue all_done ↔ (head.old.done ≡ head.old.admitted) }
    requires order { head.old.done ≤ head.old.admitted }
    ensures fold { (admitted : List Line) → length admitted ≡ head.old.admitted → head_of admitted head.new ≡ next_batch (head_of admitted head.old) }
    ensures first { head.new.first ≡ head.old.first }
    ensures counts { (head.new.admitted ≡ head.old.admitted) × (head.new.done ≡ head.old.done) }
{
    if all_done && head.next().is_none() {
        let _ = head.batch_done();
    }
}
