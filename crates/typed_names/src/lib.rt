//! A service that is typed has names that texts can carry.
#![tactic(auto)]

mod laws;

pub use laws::typed_services_have_names;
