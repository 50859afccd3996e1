//! The laws of the machine, for each kind of actors.

ghost use Rattle.wave_theory.specs.Always.{Always, AlwaysBy, AlwaysOf};
ghost use Rattle.wave_theory.specs.Bounds.{Bounds};
ghost use Rattle.wave_theory.specs.Came.{Came};
ghost use Rattle.wave_theory.specs.Complete.{Complete};
ghost use Rattle.wave_theory.specs.Counted.{Bounded, Counted};
ghost use Rattle.wave_theory.specs.Drives.{Driven, RulesPick};
ghost use Rattle.wave_theory.specs.Generations.{Families};
ghost use Rattle.wave_theory.specs.Hands.{HandsStay};
ghost use Rattle.wave_theory.specs.Independent.{Independent};
ghost use Rattle.wave_theory.specs.Listed.{EmptyAtEnd, Listed, ListedFor, Sorted};
ghost use Rattle.wave_theory.specs.NeverStuck.{NeverStuck};
ghost use Rattle.wave_theory.specs.Numbers.{Numbers};
ghost use Rattle.wave_theory.specs.OneHost.{OneHost};
ghost use Rattle.wave_theory.specs.Owners.{ByOwners, OneOwner};
ghost use Rattle.wave_theory.specs.Records.{Records};
ghost use Rattle.wave_theory.specs.Releases.{ReleasesRise};
ghost use Rattle.wave_theory.specs.Results.{Results, Tickets};
ghost use Rattle.wave_theory.specs.Trails.{Traced, Trails};

use crate::acting::Acting;

/// What is in a worker's hand changes only by that worker's labels.
pub fn hands_stay<T: Acting>()
    ensures { (c : T.Code) → HandsStay (T.kind c).system }
{}

/// Two labels of different tickets can be taken in either order.
pub fn independent<T: Acting>()
    ensures { (c : T.Code) → Independent (T.kind c).system }
{}

/// The committed results are the first ones of the fold.
pub fn results<T: Acting>()
    ensures { (c : T.Code) → Always (T.kind c) Results }
{}

/// The known jobs and their tickets are those of the fold after the committed results.
pub fn tickets<T: Acting>()
    ensures { (c : T.Code) → Always (T.kind c) Tickets }
{}

/// An entry number is the ticket's place among all tickets that enter the context.
pub fn numbers<T: Acting>()
    ensures { (c : T.Code) → Always (T.kind c) Numbers }
{}

/// A context that nobody changes is as the fold has it after the tickets that came.
pub fn records<T: Acting>()
    ensures { (c : T.Code) → Always (T.kind c) Records }
{}

/// No context has two owners, and none loses its owner.
pub fn one_owner<T: Acting>()
    ensures { (c : T.Code) → AlwaysBy (T.kind c) OneOwner }
{}

/// Each context that has an entry has a trail of hosts, which its marks and the Enters under way keep to.
pub fn trails<T: Acting>()
    ensures { (c : T.Code) → Always (T.kind c) Trails }
{}

/// The maps of a state are None but where its lists say so.
pub fn bounds<T: Acting>()
    ensures { (c : T.Code) → AlwaysBy (T.kind c) Bounds }
{}

/// A younger ticket never keeps an older one from going on.
pub fn never_stuck<T: Acting>()
    ensures { (c : T.Code) → AlwaysBy (T.kind c) NeverStuck }
{}

/// A finished state has committed every job, has nothing under way, and has the contexts of the fold's last tree on the fold's hosts.
pub fn complete<T: Acting>()
    ensures { (c : T.Code) → AlwaysBy (T.kind c) Complete }
{}

/// Each label that acts on a context is taken by the host that owns it.
pub fn by_owners<T: Acting>()
    ensures { (c : T.Code) → AlwaysBy (T.kind c) ByOwners }
{}

/// The canonical list has exactly what is enabled, by the lowest idle worker.
pub fn lists_are_exact<T: Acting>()
    ensures { (c : T.Code) → AlwaysBy (T.kind c) Listed }
{}

/// The list of a worker has exactly what it can take.
pub fn listed_for<T: Acting>()
    ensures { (c : T.Code) → AlwaysBy (T.kind c) ListedFor }
{}

/// The canonical list is empty exactly in a finished state.
pub fn empty_at_end<T: Acting>()
    ensures { (c : T.Code) → AlwaysBy (T.kind c) EmptyAtEnd }
{}

/// On one host nothing is passed on, and nothing lands.
pub fn one_host<T: Acting>()
    ensures { (c : T.Code) → AlwaysBy (T.kind c) OneHost }
{}

/// How many labels a run takes, its Passes aside.
pub fn label_counts<T: Acting>()
    ensures { (c : T.Code) → AlwaysOf (T.kind c) Counted }
{}

/// How many labels a run takes at most.
pub fn label_bounds<T: Acting>()
    ensures { (c : T.Code) → AlwaysOf (T.kind c) Bounded }
{}

/// Who was let in to a context, and whose Enter to it was sent, in the order of the labels.
pub fn arrivals_are_in_order<T: Acting>()
    ensures { (c : T.Code) → AlwaysOf (T.kind c) Came }
{}

/// The labels tell the trail of each context.
pub fn trails_are_told<T: Acting>()
    ensures { (c : T.Code) → AlwaysOf (T.kind c) Traced }
{}

/// The canonical list is in its order, and has no label twice.
pub fn lists_are_sorted<T: Acting>()
    ensures { (c : T.Code) → AlwaysBy (T.kind c) Sorted }
{}

/// The rules of the drives pick one label of each list that has some.
pub fn rules_pick<T: Acting>()
    ensures { RulesPick T.Actor T.Fields T.Outcome T.Job }
{}

/// Each rule that picks has one drive; it is a run, and ends in a finished state.
pub fn drives_end<T: Acting>()
    ensures { (c : T.Code) → Driven (T.kind c) }
{}

/// Of each job a known number of jobs may come, where a job creates few, and each of them has fewer generations to come.
pub fn families<T: Acting>()
    ensures { (c : T.Code) → Families (T.kind c) }
{}

/// The mails of a Stop are numbered: one other mail first, and then the Releases in path order.
pub fn releases_rise<T: Acting>()
    ensures { (c : T.Code) → AlwaysBy (T.kind c) ReleasesRise }
{}
