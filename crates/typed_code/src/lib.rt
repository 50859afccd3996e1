//! A service that is typed is one that the scheme of the compiler asks for; and its code hangs on what its names stand for alone.
#![tactic(auto)]

mod laws;

pub use laws::{typed_services_have_code, views_tell_code};
