//! The syntax tree of a service.
#![tactic(auto)]

mod context;
mod event;
mod expr;
mod field;
mod method;
mod name;
mod service;
mod stmt;

pub use context::ContextDecl;
pub use event::{EventDecl, Phase};
pub use expr::{BinaryOp, Expr, Node, UnaryOp};
pub use field::{Initial, Literal, VarDecl};
pub use method::{Last, MethodDecl, Param};
pub use name::Name;
pub use service::Service;
pub use stmt::{Action, Stmt, Target};
