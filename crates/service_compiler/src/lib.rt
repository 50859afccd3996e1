//! The compiler: from a resolved service to its program.
#![tactic(auto)]

mod code;
mod emit;
mod error;
mod functions;
mod heights;
mod loops;
mod operands;
mod program;
mod statements;
mod texts;
mod verified;
mod whole;

pub use error::CompileError;
pub use program::compile;
pub use verified::compile_verified;
