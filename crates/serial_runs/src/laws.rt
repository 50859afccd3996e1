//! The laws of serial runs: each is the contract of a function that does nothing.

ghost use Rattle.std.specs.Prelude.{◌≡◌, ℕ, List, Some};
ghost use Rattle.wave_states.specs.Labels.{Label};
ghost use Rattle.wave_states.specs.Runs.{run};
ghost use Rattle.wave_states.specs.States.{State};
ghost use Rattle.wave_theory.specs.Always.{Always, AlwaysBy, AlwaysOf};
ghost use Rattle.serial_runs.specs.Journals.{OwnersTake};
ghost use Rattle.serial_runs.specs.Orders.{EitherOrder, NeighboursChange};
ghost use Rattle.serial_runs.specs.Origins.{Origins};
ghost use Rattle.serial_runs.specs.Recorded.{Recorded};
ghost use Rattle.serial_runs.specs.Serial.{OldestIsSerial, OneEnd, Serial};

use wave_theory::{Acting, agree, by_owners, changes, independent, reads, results, tickets};

/// All finished runs of a plan end in one state.
pub fn one_end<T: Acting>()
    ensures { (c : T.Code) → AlwaysOf (T.kind c) OneEnd }
{}

/// The labels that the oldest rule picks are a serial run.
pub fn oldest_is_serial<T: Acting>()
    ensures { (c : T.Code) → OldestIsSerial (T.kind c) }
{}

/// Each finished run ends in the very state to which a serial run of the same plan leads.
pub fn serial<T: Acting>()
    ensures { (c : T.Code) → AlwaysBy (T.kind c) Serial }
{}

/// Each label of a journal, wherever it stands, is taken by a host that owns its context just before it or just after it.
pub fn owners_take<T: Acting>()
    ensures { (c : T.Code) → AlwaysOf (T.kind c) OwnersTake }
{
    by_owners::<T>();
}

/// The record of a context, also while a worker has it in hand, says how many Enters were sent to each child, and where it was born.
pub fn records_agree<T: Acting>()
    ensures { (c : T.Code) → AlwaysOf (T.kind c) Recorded }
{
    agree::<T>();
}

/// Each ticket has one origin: a line of the script, or a call that an earlier ticket created.
pub fn origins<T: Acting>()
    ensures { (c : T.Code) → Always (T.kind c) Origins }
{
    results::<T>();
    tickets::<T>();
}

/// Two enabled labels that stand apart can be taken in either order, which leads to one state.
pub fn either_order<T: Acting>()
    ensures { (c : T.Code) (workers : ℕ) (s : State T.Actor T.Fields T.Outcome T.Job) → EitherOrder (T.kind c).system workers s }
{
    changes::<T>();
    independent::<T>();
    reads::<T>();
}

/// Neighbours of a journal that are strangers may change places: it leads to the same state.
pub fn neighbours_change<T: Acting>()
    ensures { (c : T.Code) (workers : ℕ) (s v : State T.Actor T.Fields T.Outcome T.Job) (labels : List Label) → run (T.kind c).system workers s labels ≡ Some v → NeighboursChange (T.kind c).system workers s labels v }
{
    changes::<T>();
    reads::<T>();
}
