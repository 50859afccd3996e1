//! What a host keeps: the entries of the contexts that are here, and a mark for each context that went from here to another host.
#![tactic(auto)]

mod laws;
mod lends;
mod store;

pub use laws::stores_stand;
pub use store::{Found, HostStore, Mark, place_of};
