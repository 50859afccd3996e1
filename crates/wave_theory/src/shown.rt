//! The laws, shown at the kinds of actors that stand here.

ghost use Rattle.std.specs.Prelude.{◌≡◌, ℕ, List, None, All};
ghost use Rattle.wave_states.specs.Alone.{job_after};
ghost use Rattle.wave_states.specs.Begins.{Begin};
ghost use Rattle.wave_states.specs.Movers.{Move};
ghost use Rattle.wave_states.specs.Owes.{IsBegin};
ghost use Rattle.wave_theory.specs.Ends.{worth_of};
ghost use Rattle.wave_theory.specs.Movers.{Setting, movers_in};

use crate::counter::Counter;
use crate::given::{
    agree, all_moves, changes, doable, ends, hands_stay_over, holders, holding,
    label_bounds_by_jobs, loads, may_run, reads, sends, stoppable, within,
};
use crate::laws::{
    arrivals_are_in_order, bounds, by_owners, complete, drives_end, empty_at_end, families,
    hands_stay, independent, label_bounds, label_counts, listed_for, lists_are_exact,
    lists_are_sorted, never_stuck, numbers, one_host, one_owner, records, releases_rise, results,
    rules_pick, tickets, trails, trails_are_told,
};
use crate::movers::{Movers, Walkers};

/// The laws, at the counter.
pub fn at_the_counter() {
    hands_stay::<Counter>();
    independent::<Counter>();
    results::<Counter>();
    tickets::<Counter>();
    numbers::<Counter>();
    records::<Counter>();
    one_owner::<Counter>();
    trails::<Counter>();
    trails_are_told::<Counter>();
    arrivals_are_in_order::<Counter>();
    bounds::<Counter>();
    never_stuck::<Counter>();
    complete::<Counter>();
    by_owners::<Counter>();
    label_counts::<Counter>();
    label_bounds::<Counter>();
    lists_are_exact::<Counter>();
    lists_are_sorted::<Counter>();
    listed_for::<Counter>();
    empty_at_end::<Counter>();
    rules_pick::<Counter>();
    drives_end::<Counter>();
    families::<Counter>();
    releases_rise::<Counter>();
    one_host::<Counter>();
}

/// The laws, at movers.
pub fn at_movers() {
    hands_stay::<Movers>();
    independent::<Movers>();
    results::<Movers>();
    tickets::<Movers>();
    numbers::<Movers>();
    records::<Movers>();
    one_owner::<Movers>();
    trails::<Movers>();
    trails_are_told::<Movers>();
    arrivals_are_in_order::<Movers>();
    bounds::<Movers>();
    never_stuck::<Movers>();
    complete::<Movers>();
    by_owners::<Movers>();
    label_counts::<Movers>();
    label_bounds::<Movers>();
    lists_are_exact::<Movers>();
    lists_are_sorted::<Movers>();
    listed_for::<Movers>();
    empty_at_end::<Movers>();
    rules_pick::<Movers>();
    drives_end::<Movers>();
    families::<Movers>();
    releases_rise::<Movers>();
    one_host::<Movers>();
}

/// The laws, at walkers.
pub fn at_walkers() {
    hands_stay::<Walkers>();
    independent::<Walkers>();
    results::<Walkers>();
    tickets::<Walkers>();
    numbers::<Walkers>();
    records::<Walkers>();
    one_owner::<Walkers>();
    trails::<Walkers>();
    trails_are_told::<Walkers>();
    arrivals_are_in_order::<Walkers>();
    bounds::<Walkers>();
    never_stuck::<Walkers>();
    complete::<Walkers>();
    by_owners::<Walkers>();
    label_counts::<Walkers>();
    label_bounds::<Walkers>();
    lists_are_exact::<Walkers>();
    lists_are_sorted::<Walkers>();
    listed_for::<Walkers>();
    empty_at_end::<Walkers>();
    rules_pick::<Walkers>();
    drives_end::<Walkers>();
    families::<Walkers>();
    releases_rise::<Walkers>();
    one_host::<Walkers>();
}

/// What the machine's code is given, at the counter.
pub fn given_at_the_counter() {
    stoppable::<Counter>();
    may_run::<Counter>();
    hands_stay_over::<Counter>();
    holding::<Counter>();
    holders::<Counter>();
    agree::<Counter>();
    sends::<Counter>();
    within::<Counter>();
    loads::<Counter>();
    all_moves::<Counter>();
    ends::<Counter>();
    label_bounds_by_jobs::<Counter>();
    reads::<Counter>();
    changes::<Counter>();
    doable::<Counter>();
}

/// What the machine's code is given, at movers.
pub fn given_at_movers() {
    stoppable::<Movers>();
    may_run::<Movers>();
    hands_stay_over::<Movers>();
    holding::<Movers>();
    holders::<Movers>();
    agree::<Movers>();
    sends::<Movers>();
    within::<Movers>();
    loads::<Movers>();
    all_moves::<Movers>();
    ends::<Movers>();
    label_bounds_by_jobs::<Movers>();
    reads::<Movers>();
    changes::<Movers>();
    doable::<Movers>();
}

/// What the machine's code is given, at walkers.
pub fn given_at_walkers() {
    stoppable::<Walkers>();
    may_run::<Walkers>();
    hands_stay_over::<Walkers>();
    holding::<Walkers>();
    holders::<Walkers>();
    agree::<Walkers>();
    sends::<Walkers>();
    within::<Walkers>();
    loads::<Walkers>();
    all_moves::<Walkers>();
    ends::<Walkers>();
    label_bounds_by_jobs::<Walkers>();
    reads::<Walkers>();
    changes::<Walkers>();
    doable::<Walkers>();
}

/// A plan of moves ends after as many moves as it lists.
pub fn moves_end()
    ensures { (c : Setting) (b : Begin ℕ) (batches : List (List Move)) → IsBegin (movers_in c) b → All (All (movers_in c).is_job) batches →
        job_after (movers_in c).system b batches (worth_of (λ j. 1) batches) ≡ None }
{}
