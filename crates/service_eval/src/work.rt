//! What is still to be done in an event.

use resolved_service::{Expr, Stmt};
use wave_base::{Class, Span, Txt, Value};

/// What is done where a test is true, and where it is false.
#[derive(Clone, Copy)]
pub struct Branches<'s> {
    /// The statements where it is true.
    pub body: &'s [Stmt],
    /// The statements where it is false.
    pub other: &'s [Stmt],
}

/// A `while`.
#[derive(Clone, Copy)]
pub struct WhileLoop<'s> {
    /// Where it starts, for the trap of a turn too many.
    pub at: Span,
    /// What is to be true for another turn.
    pub test: &'s Expr,
    /// The statements of a turn.
    pub body: &'s [Stmt],
}

/// A `for`, with its counter's slot.
#[derive(Clone, Copy)]
pub struct ForLoop<'s> {
    /// Where it starts, for its traps.
    pub at: Span,
    /// The slot of the counter; the bound and the name have the two next ones.
    pub counter: u16,
    /// The statements of a turn.
    pub body: &'s [Stmt],
}

/// What statements change: a local by its slot, or a field by its place in its class.
#[derive(Clone, Copy)]
pub enum Variable {
    /// A local of the function that runs.
    Local(usize),
    /// A field of its context.
    Field(u16),
}

/// A method of the children of a class.
#[derive(Clone, Copy)]
pub struct Callee {
    /// The children's class.
    pub class: Class,
    /// The method's place among all methods.
    pub method: u16,
}

/// What a statement does with the values of its expressions.
#[derive(Drop)]
pub enum StatementEnd<'s> {
    /// Gives the variable the value.
    Set(Variable),
    /// Puts a pair into the variable's map: the key, and then what it has.
    Put(Variable),
    /// Takes the key out of the variable's map.
    Cut(Variable),
    /// Goes on with the one block or the other.
    Branch(Branches<'s>),
    /// Ends the event with a trap, where the value is not true.
    Require,
    /// Sends a message with the label.
    Send(&'s Txt),
    /// Creates an event of this number with the values as arguments.
    Spawn(u16),
    /// Drops the value, if any.
    Drop,
    /// Ends the method with the value.
    Return,
    /// Ends the event with the value.
    Finish,
}

/// Where a method returns to: the locals and the values of its caller, and whether it is at the parent.
#[derive(Drop)]
pub struct Caller {
    /// The caller's locals.
    pub locals: Vec<Value>,
    /// The caller's values.
    pub values: Vec<Value>,
    /// Whether the caller is at the parent of the context where the method ran.
    pub up: bool,
    /// The slot where the caller's context may stand.
    pub near: usize,
}

/// A part of what is still to be done. A last number is that of the values that lie below its own ones.
#[derive(Drop)]
pub enum Work<'s> {
    /// An expression is to have its value.
    Eval(&'s Expr),
    /// Expressions are to have their values, one after the other.
    Evals(&'s [Expr]),
    /// A row is to be applied to its operands.
    Apply(Span, u16, usize),
    /// The right operand of `&&`, where the left one's value is there.
    AndThen(&'s Expr, usize),
    /// The right operand of `||`, where the left one's value is there.
    OrElse(&'s Expr, usize),
    /// A call of a method at the same context, with its arguments.
    Invoke(Span, u16, usize),
    /// A call of a method at a child, with the key and the arguments.
    Child(Span, Callee, usize),
    /// Statements, one after the other.
    Block(&'s [Stmt]),
    /// The rest of a statement whose expressions have their values.
    Finish(Span, StatementEnd<'s>, usize),
    /// The turns of a `while`.
    Turns(WhileLoop<'s>),
    /// The same, where the test has its value.
    Check(WhileLoop<'s>, usize),
    /// The turns of a `for`, and whether the counter first goes on by one.
    Counts(ForLoop<'s>, bool),
    /// The caller goes on.
    Return(Caller),
}
