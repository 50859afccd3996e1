//! Statements, as they are written.

ghost use Rattle.std.specs.Prelude.{◌≡◌, map};
ghost use Rattle.std.specs.Option.{option_map};
ghost use Rattle.mace_ast.specs.Exprs.{expr_tree};
ghost use Rattle.mace_ast.specs.Stmts as tree;
ghost use Rattle.mace_ast.specs.Stmts.{stmt_tree, stmts_of, else_of};

use crate::expr::Expr;
use crate::name::Name;
use wave_base::{Seq, Span, Txt};

/// What is written or cut: a local or an own field, or `C.f` with its class in `above`.
#[derive(Debug, Drop, PartialEq, Eq)]
pub struct Target {
    /// The class above, of `C.f`.
    pub above: Option<Txt>,
    /// The name of the local or the field.
    pub name: Txt,
}

/// A statement, with the place of its first token.
#[derive(Debug, Drop)]
#[cycle(stmt)]
pub struct Stmt {
    /// Where its first token stands.
    pub at: Span,
    /// What it does.
    pub action: Action,
}

/// What a statement does, without its place.
#[derive(Debug, Drop)]
#[cycle(stmt)]
pub enum Action {
    /// `let x = e;`
    Let(Name, Expr),
    /// `if e { .. }`, with the statements behind `else` where it is there.
    If(Expr, Vec<Stmt>, Option<Vec<Stmt>>),
    /// `while e { .. }`
    While(Expr, Vec<Stmt>),
    /// The name, the first bound, and the bound above the last turn.
    For(Name, Expr, Expr, Vec<Stmt>),
    /// `require e;`
    Require(Expr),
    /// `send "label", e;`
    Send(Txt, Expr),
    /// `spawn e(..);`
    Spawn(Txt, Seq<Expr>),
    /// `drop x[k];`
    Cut(Target, Expr),
    /// `x = e;`, or `x[k] = e;` with the key in the middle.
    Set(Target, Option<Expr>, Expr),
    /// `f(..);`
    Call(Txt, Seq<Expr>),
    /// `C[k].f(..);`
    ChildCall(Txt, Expr, Txt, Seq<Expr>),
    /// `return;` or `return e;` as a statement, of version 2 alone
    Return(Option<Expr>),
    /// `finish;` or `finish e;`, of version 2 alone
    Finish(Option<Expr>),
}

impl Stmt {
    /// An `if`, with what is done otherwise, if anything.
    pub fn if_else(at: Span, test: Expr, body: Vec<Stmt>, other: Option<Vec<Stmt>>) -> Stmt
        ensures { stmt_tree result ≡ tree.If at (expr_tree test) (stmts_of (map stmt_tree body.items))
            (else_of (option_map (λ b. map stmt_tree b.items) other)) }
    {
        let action = Action::If(test, body, other);
        Stmt { at, action }
    }

    /// A `while`.
    pub fn while_do(at: Span, test: Expr, body: Vec<Stmt>) -> Stmt
        ensures { stmt_tree result ≡ tree.While at (expr_tree test) (stmts_of (map stmt_tree body.items)) }
    {
        let action = Action::While(test, body);
        Stmt { at, action }
    }

    /// A `for`, whose local goes from `low` up to below `high`.
    pub fn for_in(at: Span, name: Name, low: Expr, high: Expr, body: Vec<Stmt>) -> Stmt
        ensures { stmt_tree result ≡ tree.For at name (expr_tree low) (expr_tree high) (stmts_of (map stmt_tree body.items)) }
    {
        let action = Action::For(name, low, high, body);
        Stmt { at, action }
    }
}
