//! What labels do. A machine keeps of a plan's run what an [`Engine`] has, which stands for a state of the theory, and each call of the
//! engine is a label: it changes what is kept as the theory's step changes the state.
//!
//! - What is kept: `engine`, `kept`, `settlements`, `plan`, `actor`, `lease`; where a run begins: `begin`.
//! - A label in two steps: what it needs is made (`prepared`, `rooms`, `makes`, `first`), and then it is taken without memory (`acts`).
//! - The labels: on the head (`heading`), on mails and lines (`moves`, `joining`, `finds`), of a segment (`running`, `records`, `leaving`).
//!   A segment runs apart from what is kept (`runs`); `loops` tells whether it may take any number of ticks.
//! - What is shown of a run (`glance`, `shown`), and its end (`finish`, `places`).
//! - Laws, each the contract of a function that does nothing: `laws`, `known`, `hands`, `always`, `lengths`.
//!
//! Which labels can be taken is no matter of this crate: `wave_machine` keeps the list of those.
#![tactic(auto)]

mod actor;
mod acts;
mod always;
mod begin;
mod engine;
mod finds;
mod finish;
mod first;
mod glance;
mod hands;
mod heading;
mod joining;
mod kept;
mod known;
mod laws;
mod lease;
mod leaving;
mod lengths;
mod loops;
mod makes;
mod moves;
mod places;
mod plan;
mod prepared;
mod records;
mod refused;
mod rooms;
mod running;
mod runs;
mod settlements;
mod shown;

pub use actor::Actor;
pub use always::{
    contexts_have_owners, labels_are_apart, machines_come_to_an_end, machines_follow_the_fold,
};
pub use engine::Engine;
pub use glance::Glance;
pub use hands::segments_are_known;
pub use kept::{Out, Settled};
pub use known::heads_are_known;
pub use laws::states_are_known;
pub use lease::Lease;
pub use lengths::{orders_are_alike, runs_are_measured};
pub use plan::Plan;
pub use prepared::Prepared;
pub use refused::Refused;
pub use runs::run_lease;
pub use settlements::Settlements;
