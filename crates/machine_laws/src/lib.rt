//! Laws of whole journals, at machines and at boards: who takes each label, and that two calls can be made in either order.
#![tactic(auto)]

mod laws;

pub use laws::{boards_have_owners, machines_have_owners, machines_take_either_order};
