//! Events, as they are written.

use crate::expr::Expr;
use crate::method::{Last, Param};
use crate::name::Name;
use crate::stmt::Stmt;
use wave_base::{Kind, Seq, Span, Txt};

/// A phase of an event below the root, with the place of `down`.
#[derive(Debug, Drop)]
pub struct Phase {
    /// Where `down` stands.
    pub at: Span,
    /// The class of the child that the event goes down to.
    pub class: Txt,
    /// The key of that child.
    pub key: Expr,
    /// The statements that run there.
    pub body: Seq<Stmt>,
}

/// An event, with the place of `event`.
#[derive(Debug, Drop)]
pub struct EventDecl {
    /// Where `event` stands.
    pub at: Span,
    /// The name that callers use.
    pub name: Name,
    /// The parameters, in order.
    pub params: Seq<Param>,
    /// The kind of the reply, where there is one.
    pub result: Option<Kind>,
    /// The statements at the root, where `here` is written.
    pub here: Option<Seq<Stmt>>,
    /// The phases below the root, from the top.
    pub phases: Seq<Phase>,
    /// The `reply` at the end.
    pub last: Option<Last>,
}
