//! Expressions with their names resolved.

use wave_base::{Class, Span, Value};

/// An expression, with the place where it starts.
#[derive(Debug, Drop)]
#[cycle(expr)]
pub struct Expr {
    /// Where it starts.
    pub at: Span,
    /// What it is.
    pub node: Node,
}

/// Locals go by their slots, fields by their places in their class, methods by their places among all methods.
#[derive(Debug, Drop)]
#[cycle(expr)]
pub enum Node {
    /// A literal.
    Const(Value),
    /// A local.
    Local(u16),
    /// A field of the context's own.
    Field(u16),
    /// A field of the ancestor at a level, the root's being 0.
    Above(u16, u16),
    /// A row of the operator table with its operands.
    Op(u16, Vec<Expr>),
    /// `&&`: the right operand counts only where the left one is true.
    And(Box<Expr>, Box<Expr>),
    /// `||`: the right operand counts only where the left one is false.
    Or(Box<Expr>, Box<Expr>),
    /// A call of a method of the context's own.
    Call(u16, Vec<Expr>),
    /// A call of a method of a child: the child's class, the method, the key, and the arguments.
    Child(Class, u16, Box<Expr>, Vec<Expr>),
}
