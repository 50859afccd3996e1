//! The text of a script: its lines, their forms, and the first line that is refused.
#![tactic(auto)]

mod bytes;
mod earlier;
mod elastic;
mod elastic_progress;
mod elastics;
mod error;
mod form;
mod judge;
mod laws;
mod named;
mod piece;
mod pieces;
mod policies;
mod policy_form;
mod policy_spelling;
mod progress;
mod quote;
mod read;
mod refusal;
mod said;
mod spelling;
mod taken;
mod told;
mod worded;

pub use bytes::Bytes;
pub use earlier::Earlier;
pub use elastic::{Elastic, Part};
pub use elastics::read_elastic;
pub use error::{Fault, ScriptError};
pub use form::{Form, Literal};
pub use laws::{plain_scripts_are_elastic, scripts_go_on};
pub use piece::Piece;
pub use policy_form::PolicyForm;
pub use quote::Quote;
pub use read::{read_script, read_script_at};
pub use said::Said;
pub use taken::Taken;
pub use told::Told;
pub use worded::Worded;
