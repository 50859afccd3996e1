//! Methods, as they are written.

use crate::expr::Expr;
use crate::name::Name;
use crate::stmt::Stmt;
use wave_base::{Kind, Seq, Span};

/// A parameter of a method or an event.
#[derive(Debug, Drop, PartialEq, Eq)]
pub struct Param {
    /// The name of the parameter.
    pub name: Name,
    /// The kind of its values.
    pub kind: Kind,
}

/// A `return` or `reply` at the end, with the place of that keyword.
#[derive(Debug, Drop)]
pub struct Last {
    /// Where the keyword stands.
    pub at: Span,
    /// What is given back.
    pub value: Expr,
}

/// A method of a context, with the place of `method`.
#[derive(Debug, Drop)]
pub struct MethodDecl {
    /// Where `method` stands.
    pub at: Span,
    /// The name that calls use.
    pub name: Name,
    /// The parameters, in order.
    pub params: Seq<Param>,
    /// The kind of what is given back, where there is something.
    pub result: Option<Kind>,
    /// The statements, without the `return` at the end.
    pub body: Seq<Stmt>,
    /// The `return` at the end, of version 1 alone: in version 2 it is a statement.
    pub last: Option<Last>,
}
