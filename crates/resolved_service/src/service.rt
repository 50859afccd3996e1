//! A whole service with its names resolved.

use crate::expr::Expr;
use crate::stmt::Stmt;
use wave_base::{Class, Kind, Seq, Span, Txt};

/// The value that a method returns or an event replies with; `at` is the place of `return` or `reply`.
#[derive(Debug, Drop)]
pub struct Last {
    /// Where the word `return` or `reply` stands.
    pub at: Span,
    /// What is given.
    pub value: Expr,
}

/// A method of a class. Its locals are its parameters and then all others; `at` is the place of `method`.
#[derive(Debug, Drop)]
pub struct Method {
    /// Where the word `method` stands.
    pub at: Span,
    /// Its name, which only notes tell.
    pub name: Txt,
    /// The class whose contexts it runs at.
    pub class: Class,
    /// The kinds of its parameters, in order.
    pub params: Seq<Kind>,
    /// The kind that it returns, if any.
    pub result: Option<Kind>,
    /// The kinds of all its slots, parameters first.
    pub locals: Seq<Kind>,
    /// Its statements.
    pub body: Seq<Stmt>,
    /// The value that it returns at its end, if any.
    pub last: Option<Last>,
}

/// A downgrade into a child of a class, and what is done there; `at` is the place of `down`.
#[derive(Debug, Drop)]
pub struct Phase {
    /// Where the word `down` stands.
    pub at: Span,
    /// The child's class.
    pub class: Class,
    /// The child's key.
    pub key: Expr,
    /// What is done there.
    pub body: Seq<Stmt>,
}

/// An event. Its locals are its parameters and then all others; `at` is the place of `event`.
#[derive(Debug, Drop)]
pub struct Event {
    /// Where the word `event` stands.
    pub at: Span,
    /// The kinds of all its slots, parameters first.
    pub locals: Seq<Kind>,
    /// What is done at the root.
    pub here: Seq<Stmt>,
    /// What is done further down, one child after the other.
    pub phases: Seq<Phase>,
    /// The value that it replies with at its end, if any.
    pub last: Option<Last>,
}

/// The methods of a service in text order, and its events as in its shape.
#[derive(Debug, Drop)]
pub struct Resolved {
    /// All methods, in text order.
    pub methods: Seq<Method>,
    /// All events, in the order of the shape.
    pub events: Seq<Event>,
}
