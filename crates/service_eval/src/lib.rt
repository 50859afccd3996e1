//! The events of a resolved service, run.
#![tactic(auto)]

mod ahead;
mod assignments;
mod block;
mod calls;
mod changes;
mod code;
mod edits;
mod eval;
mod event;
mod fields;
mod finish;
mod given;
mod held;
mod look;
mod loops;
mod machine;
mod operand;
mod parts;
mod plain;
mod rows;
mod run;
mod stop;
mod texts;
mod trace;
mod work;

pub use event::{EventRan, run_event};
