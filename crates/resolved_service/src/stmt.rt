//! Statements with their names resolved.

use crate::expr::Expr;
use wave_base::{Span, Txt};

/// A statement, with the place where it starts.
#[derive(Debug, Drop)]
#[cycle(stmt)]
pub struct Stmt {
    /// Where it starts.
    pub at: Span,
    /// What it does.
    pub action: Action,
}

/// Locals go by their slots, fields by their places in their class, events by their places in the shape.
#[derive(Debug, Drop)]
#[cycle(stmt)]
pub enum Action {
    /// Gives a local a value.
    SetLocal(u16, Expr),
    /// Gives a field a value.
    SetField(u16, Expr),
    /// Puts a pair into a local map: the key, and then the value.
    PutLocal(u16, Expr, Expr),
    /// Puts a pair into a field's map: the key, and then the value.
    PutField(u16, Expr, Expr),
    /// Takes a key out of a local map.
    CutLocal(u16, Expr),
    /// Takes a key out of a field's map.
    CutField(u16, Expr),
    /// The first block where the test is true, and else the second, if there is one.
    If(Expr, Vec<Stmt>, Option<Vec<Stmt>>),
    /// The block, as long as the test is true.
    While(Expr, Vec<Stmt>),
    /// Counts from the first number up to the second: the slot of the counter; the bound and the name have the two next ones.
    For(u16, Expr, Expr, Vec<Stmt>),
    /// Ends the event with a trap where it is false.
    Require(Expr),
    /// Sends a message: its label, and its value.
    Send(Txt, Expr),
    /// Creates an event of this number with these arguments.
    Spawn(u16, Vec<Expr>),
    /// A call whose value, if any, is dropped.
    Do(Expr),
    /// Ends the method, with the value that it returns, if any.
    Return(Option<Expr>),
    /// Ends the event, with its reply, if any.
    Finish(Option<Expr>),
}
