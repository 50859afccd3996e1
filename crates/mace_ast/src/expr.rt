//! Expressions, as they are written.

ghost use Rattle.std.specs.Prelude.{◌≡◌, map, IfOk};
ghost use Rattle.mace_ast.specs.Exprs as tree;
ghost use Rattle.mace_ast.specs.Exprs.{expr_tree, exprs_of, place_of};

use crate::name::Name;
use std::alloc::Global;
use wave_base::{OutOfMemory, Span, Txt};

/// An operator before one operand.
#[derive(Clone, Copy, Debug, PartialEq, Eq)]
pub enum UnaryOp {
    /// `-`
    Neg,
    /// `!`
    Not,
}

/// An operator between two operands.
#[derive(Clone, Copy, Debug, PartialEq, Eq)]
pub enum BinaryOp {
    /// `||`
    Or,
    /// `&&`
    And,
    /// `==`
    Eq,
    /// `!=`
    Ne,
    /// `<`
    Lt,
    /// `<=`
    Le,
    /// `>`
    Gt,
    /// `>=`
    Ge,
    /// `+`
    Add,
    /// `-`
    Sub,
    /// `*`
    Mul,
    /// `/`
    Div,
    /// `%`
    Rem,
}

/// An expression. Its place is the start of its node: the first token, and for a binary node that of the left operand.
/// Parentheses belong to no node.
#[derive(Debug, Drop)]
#[cycle(expr)]
pub struct Expr {
    /// Where it starts.
    pub at: Span,
    /// What it is.
    pub node: Node,
}

/// What an expression is, without its place.
#[derive(Debug, Drop)]
#[cycle(expr)]
pub enum Node {
    /// `n`
    Number(i64),
    /// The bytes that are meant, without quotes and escapes.
    Text(Txt),
    /// `true` or `false`
    Bool(bool),
    /// `empty`, a map with no entry
    Empty,
    /// `x`
    Read(Txt),
    /// `C.f`
    Above(Txt, Txt),
    /// `m[k]`
    Index(Txt, Box<Expr>),
    /// `C.f[k]`
    AboveIndex(Txt, Txt, Box<Expr>),
    /// `f(..)`
    Call(Txt, Vec<Expr>),
    /// `C[k].f(..)`
    ChildCall(Txt, Box<Expr>, Txt, Vec<Expr>),
    /// `-e` or `!e`
    Unary(UnaryOp, Box<Expr>),
    /// Two operands, with the operator that stands between them.
    Binary(BinaryOp, Box<Expr>, Box<Expr>),
}

impl Expr {
    /// A number.
    pub fn number(at: Span, n: i64) -> Expr
        ensures { expr_tree result ≡ tree.Number at n }
    {
        let node = Node::Number(n);
        Expr { at, node }
    }

    /// A text.
    pub fn text(at: Span, text: Txt) -> Expr
        ensures { expr_tree result ≡ tree.Text at text }
    {
        let node = Node::Text(text);
        Expr { at, node }
    }

    /// A truth value.
    pub fn boolean(at: Span, value: bool) -> Expr
        ensures { expr_tree result ≡ tree.Boolean at value }
    {
        let node = Node::Bool(value);
        Expr { at, node }
    }

    /// The empty map.
    pub fn empty(at: Span) -> Expr
        ensures { expr_tree result ≡ tree.Empty at }
    {
        let node = Node::Empty;
        Expr { at, node }
    }

    /// `x`
    pub fn read(name: Name) -> Expr
        ensures { expr_tree result ≡ tree.Read name.at name.text }
    {
        let node = Node::Read(name.text);
        Expr { at: name.at, node }
    }

    /// `C.f`
    pub fn above(class: Name, name: Name) -> Expr
        ensures { expr_tree result ≡ tree.Above class.at class.text name.text }
    {
        let node = Node::Above(class.text, name.text);
        Expr { at: class.at, node }
    }

    /// `m[k]`
    pub fn index(alloc: Global, name: Name, key: Expr) -> Result<Expr, OutOfMemory>
        ensures { IfOk result (λ e. expr_tree e ≡ tree.Index name.at name.text (expr_tree key)) }
    {
        let key = Box::new(alloc, key)?;
        let node = Node::Index(name.text, key);
        Ok(Expr { at: name.at, node })
    }

    /// `C.f[k]`
    pub fn above_index(
        alloc: Global,
        class: Name,
        name: Name,
        key: Expr,
    ) -> Result<Expr, OutOfMemory>
        ensures { IfOk result (λ e. expr_tree e ≡ tree.AboveIndex class.at class.text name.text (expr_tree key)) }
    {
        let key = Box::new(alloc, key)?;
        let node = Node::AboveIndex(class.text, name.text, key);
        Ok(Expr { at: class.at, node })
    }

    /// `f(..)`
    pub fn call(name: Name, args: Vec<Expr>) -> Expr
        ensures { expr_tree result ≡ tree.Call name.at name.text (exprs_of (map expr_tree args.items)) }
    {
        let node = Node::Call(name.text, args);
        Expr { at: name.at, node }
    }

    /// `C[k].f(..)`
    pub fn child_call(
        alloc: Global,
        class: Name,
        key: Expr,
        name: Name,
        args: Vec<Expr>,
    ) -> Result<Expr, OutOfMemory>
        ensures { IfOk result (λ e. expr_tree e ≡ tree.ChildCall class.at class.text (expr_tree key) name.text (exprs_of (map expr_tree args.items))) }
    {
        let key = Box::new(alloc, key)?;
        let node = Node::ChildCall(class.text, key, name.text, args);
        Ok(Expr { at: class.at, node })
    }

    /// An operator and its operand.
    pub fn unary(alloc: Global, at: Span, op: UnaryOp, operand: Expr) -> Result<Expr, OutOfMemory>
        ensures { IfOk result (λ e. expr_tree e ≡ tree.Unary at op (expr_tree operand)) }
    {
        let operand = Box::new(alloc, operand)?;
        let node = Node::Unary(op, operand);
        Ok(Expr { at, node })
    }

    /// A binary node, which starts where its left operand does.
    pub fn binary(alloc: Global, left: Expr, op: BinaryOp, right: Expr) -> Result<Expr, OutOfMemory>
        ensures { IfOk result (λ e. expr_tree e ≡ tree.Binary (place_of (expr_tree left)) op (expr_tree left) (expr_tree right)) }
    {
        let at = left.at;
        let left = Box::new(alloc, left)?;
        let right = Box::new(alloc, right)?;
        let node = Node::Binary(op, left, right);
        Ok(Expr { at, node })
    }
}
