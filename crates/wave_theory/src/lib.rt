//! The laws of the machine, for all actors, plans, and lists of labels.
#![tactic(auto)]

mod acting;
mod counter;
mod given;
mod laws;
mod movers;
mod shown;

pub use acting::Acting;
pub use counter::Counter;
pub use given::{
    agree, all_moves, changes, doable, ends, hands_stay_over, holders, holding,
    label_bounds_by_jobs, loads, may_run, reads, sends, stoppable, within,
};
pub use laws::{
    arrivals_are_in_order, bounds, by_owners, complete, drives_end, empty_at_end, families,
    hands_stay, independent, label_bounds, label_counts, listed_for, lists_are_exact,
    lists_are_sorted, never_stuck, numbers, one_host, one_owner, records, releases_rise, results,
    rules_pick, tickets, trails, trails_are_told,
};
pub use movers::{Movers, Walkers};
pub use shown::{
    at_movers, at_the_counter, at_walkers, given_at_movers, given_at_the_counter, given_at_walkers,
    moves_end,
};
