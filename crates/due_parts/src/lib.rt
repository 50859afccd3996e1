//! What is due for the parts of an input: a service and its code, a script, and what is told of its run.
#![tactic(auto)]

mod accepted;
mod answer;
mod code;
mod parts;
mod refusal;
mod report;
mod runnable;
mod script;
mod service;
mod telling;
mod told;
mod traces;

pub use accepted::accept;
pub use answer::{Answer, refusal_answer, text_answer, too_large};
pub use parts::three_parts;
pub use refusal::Refusal;
pub use report::Report;
pub use runnable::Runnable;
pub use script::{ready, refused_script};
pub use service::service_of_text;
pub use telling::Telling;
pub use told::{point_answer, status_of, summary_answer};
pub use traces::runs_have_paths;
