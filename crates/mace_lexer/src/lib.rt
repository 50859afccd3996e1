//! The tokens of a service text.
#![tactic(auto)]

mod cut;
mod entry;
mod fault;
mod keyword;
mod place;
mod quoted;
mod reading;
mod sign;
mod token;

pub use fault::{LexError, LexFault};
pub use keyword::{KEYWORDS, Keyword};
pub use place::text_end;
pub use reading::lex;
pub use sign::{SIGNS, Sign};
pub use token::{Token, Word};
