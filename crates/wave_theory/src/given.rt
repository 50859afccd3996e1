//! What a machine's code is given by the theory, step by step.

ghost use Rattle.wave_theory.specs.Agree.{Agree};
ghost use Rattle.wave_theory.specs.Always.{Always, AlwaysBy, AlwaysOf};
ghost use Rattle.wave_theory.specs.Doable.{Doable};
ghost use Rattle.wave_theory.specs.Ends.{Ends, Measured};
ghost use Rattle.wave_theory.specs.Finals.{AllMoves, Loads};
ghost use Rattle.wave_theory.specs.Hands.{HandsStayOver, MayRun, Stoppable};
ghost use Rattle.wave_theory.specs.Holding.{Holders, Holding};
ghost use Rattle.wave_theory.specs.Reads.{Changes, Reads};
ghost use Rattle.wave_theory.specs.Sent.{Sent, Within};

use crate::acting::Acting;

/// A segment that is out can be stopped.
pub fn stoppable<T: Acting>()
    ensures { (c : T.Code) → AlwaysBy (T.kind c) Stoppable }
{}

/// What is in a hand may run: the actor may run a segment there, and the fields fit.
pub fn may_run<T: Acting>()
    ensures { (c : T.Code) → Always (T.kind c) MayRun }
{}

/// What is in a worker's hand stays there until that worker takes a label.
pub fn hands_stay_over<T: Acting>()
    ensures { (c : T.Code) → HandsStayOver (T.kind c).system }
{}

/// Each event is as it is alone, and holds what it holds alone but for what it waits for.
pub fn holding<T: Acting>()
    ensures { (c : T.Code) → AlwaysOf (T.kind c) Holding }
{}

/// What an event holds is held by it, and nothing else is but what it has just given up.
pub fn holders<T: Acting>()
    ensures { (c : T.Code) → Always (T.kind c) Holders }
{}

/// The parts of a state agree: mails with the entries that they go to, results with events, records with who holds them.
pub fn agree<T: Acting>()
    ensures { (c : T.Code) → Always (T.kind c) Agree }
{}

/// How many mails an event sends.
pub fn sends<T: Acting>()
    ensures { (c : T.Code) → Always (T.kind c) Sent }
{}

/// How large the numbers of a state are at most.
pub fn within<T: Acting>()
    ensures { (c : T.Code) → Always (T.kind c) Within }
{}

/// In a finished state each context has served what the fold's jobs entered it.
pub fn loads<T: Acting>()
    ensures { (c : T.Code) → AlwaysBy (T.kind c) Loads }
{}

/// In a finished state the contexts have moved as often as the jobs moved one.
pub fn all_moves<T: Acting>()
    ensures { (c : T.Code) → AlwaysBy (T.kind c) AllMoves }
{}

/// The fold ends, after as many jobs as may come of the batches.
pub fn ends<T: Acting>()
    ensures { (c : T.Code) → Ends (T.kind c) }
{}

/// How many labels a run takes at most, by what may come of the batches.
pub fn label_bounds_by_jobs<T: Acting>()
    ensures { (c : T.Code) → AlwaysOf (T.kind c) Measured }
{}

/// A label reads its ticket's cell, its context's column and its worker's hand alone.
pub fn reads<T: Acting>()
    ensures { (c : T.Code) → Reads (T.kind c).system }
{}

/// A label changes nothing else.
pub fn changes<T: Acting>()
    ensures { (c : T.Code) → Changes (T.kind c).system }
{}

/// What is there to do can be done by any idle worker.
pub fn doable<T: Acting>()
    ensures { (c : T.Code) → AlwaysBy (T.kind c) Doable }
{}
