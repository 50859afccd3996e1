//! What a script with policies means for a service, and that its pieces, one behind the other, come to that.
#![tactic(auto)]

mod laws;

pub use laws::{
    expansions_end, pieces_are_fronts, pieces_go_on, plain_scripts_expand_to_themselves,
};
