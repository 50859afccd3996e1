// Expressions.

ghost use Rattle.std.specs.Prelude.{◌≡◌, ◌++◌, map, OnOk};
ghost use Rattle.mace_ast.specs.Exprs.{expr_tree};
ghost use Rattle.mace_grammar.specs.Levels.{looser_ones, wanted_looser};
ghost use Rattle.mace_printer.specs.Canon as words;
ghost use Rattle.mace_printer.specs.Canon.{◌⧺◌};
ghost use Rattle.mace_printer.specs.inner.Parts as parts;
ghost use Rattle.mace_printer.specs.Layout.{layout};

use crate::word::{
    boolean_key, put_comma, put_if, put_key, put_name, put_number, put_sign, put_text,
};
use mace_ast::{BinaryOp, Expr, Node, UnaryOp};
use mace_grammar::Level;
use mace_lexer::{Keyword, Sign};
use std::alloc::Global;
use wave_base::{OutOfMemory, Txt};

fn level_of(op: BinaryOp) -> Level
    ensures { looser_ones result ≡ words.level_of op }
{
    match op {
        BinaryOp::Or => Level::Or,
        BinaryOp::And => Level::And,
        BinaryOp::Eq | BinaryOp::Ne => Level::Comparison,
        BinaryOp::Lt | BinaryOp::Le | BinaryOp::Gt | BinaryOp::Ge => Level::Comparison,
        BinaryOp::Add | BinaryOp::Sub => Level::Sum,
        BinaryOp::Mul | BinaryOp::Div | BinaryOp::Rem => Level::Product,
    }
}

// What is wanted of the left operand: chains are grouped to the left, and comparisons don't chain.
fn left_level_of(op: BinaryOp) -> Option<Level>
    ensures { wanted_looser result ≡ words.left_level_of op }
{
    match op {
        BinaryOp::Or | BinaryOp::And => Some(level_of(op)),
        BinaryOp::Eq | BinaryOp::Ne => level_of(op).tighter(),
        BinaryOp::Lt | BinaryOp::Le | BinaryOp::Gt | BinaryOp::Ge => level_of(op).tighter(),
        BinaryOp::Add | BinaryOp::Sub => Some(level_of(op)),
        BinaryOp::Mul | BinaryOp::Div | BinaryOp::Rem => Some(level_of(op)),
    }
}

fn sign_of(op: BinaryOp) -> Sign
    ensures { result ≡ words.sign_of op }
{
    match op {
        BinaryOp::Or => Sign::OrOr,
        BinaryOp::And => Sign::AndAnd,
        BinaryOp::Eq => Sign::EqualsEquals,
        BinaryOp::Ne => Sign::BangEquals,
        BinaryOp::Lt => Sign::Less,
        BinaryOp::Le => Sign::LessEquals,
        BinaryOp::Gt => Sign::Greater,
        BinaryOp::Ge => Sign::GreaterEquals,
        BinaryOp::Add => Sign::Plus,
        BinaryOp::Sub => Sign::Minus,
        BinaryOp::Mul => Sign::Star,
        BinaryOp::Div => Sign::Slash,
        BinaryOp::Rem => Sign::Percent,
    }
}

fn unary_sign_of(op: UnaryOp) -> Sign
    ensures { result ≡ words.unary_sign_of op }
{
    match op {
        UnaryOp::Neg => Sign::Minus,
        UnaryOp::Not => Sign::Bang,
    }
}

/// `C.f`
pub fn put_above(out: &mut Vec<u8>, class: &Txt, name: &Txt) -> Result<(), OutOfMemory>
    ensures { OnOk result (out.new.items ≡ out.old.items ++ layout (parts.above_words class.now name.now)) }
{
    put_name(out, class)?;
    put_sign(out, Sign::Dot)?;
    put_name(out, name)
}

/// An expression where one of this level is wanted, or one with no operator between two operands: with parentheses if it is looser.
#[cycle(expr)]
pub fn put_expr(
    alloc: Global,
    out: &mut Vec<u8>,
    expr: &Expr,
    level: Option<Level>,
) -> Result<(), OutOfMemory>
    ensures { OnOk result (out.new.items ≡ out.old.items ++ layout (words.expr_words (expr_tree expr.now) (wanted_looser level))) }
{
    match &expr.node {
        Node::Number(n) => put_number(alloc, out, *n),
        Node::Text(text) => put_text(out, text),
        Node::Bool(b) => put_key(out, boolean_key(*b)),
        Node::Empty => put_key(out, Keyword::Empty),
        Node::Read(name) => put_name(out, name),
        Node::Above(class, name) => put_above(out, class, name),
        Node::Index(name, key) => put_indexed(alloc, out, name, key),
        Node::AboveIndex(class, name, key) => put_above_indexed(alloc, out, class, name, key),
        Node::Call(name, args) => put_call(alloc, out, name, args),
        Node::ChildCall(class, key, name, args) => {
            put_child_key(alloc, out, class, key)?;
            put_call(alloc, out, name, args)
        }
        Node::Unary(op, operand) => put_unary(alloc, out, *op, operand),
        Node::Binary(op, left, right) => {
            let paren = level_of(*op).is_looser(level);
            put_left(alloc, out, paren, *op, left)?;
            put_right(alloc, out, paren, *op, right)
        }
    }
}

/// `[k]`
#[cycle(expr)]
pub fn put_index(alloc: Global, out: &mut Vec<u8>, key: &Expr) -> Result<(), OutOfMemory>
    ensures { OnOk result (out.new.items ≡ out.old.items ++ layout (words.index_words (expr_tree key.now))) }
{
    put_sign(out, Sign::LeftBracket)?;
    put_expr(alloc, out, key, Some(Level::Or))?;
    put_sign(out, Sign::RightBracket)
}

#[cycle(expr)]
fn put_indexed(alloc: Global, out: &mut Vec<u8>, name: &Txt, key: &Expr) -> Result<(), OutOfMemory>
    ensures { OnOk result (out.new.items ≡ out.old.items ++ layout (words.name name.now ⧺ words.index_words (expr_tree key.now))) }
{
    put_name(out, name)?;
    put_index(alloc, out, key)
}

#[cycle(expr)]
fn put_above_indexed(
    alloc: Global,
    out: &mut Vec<u8>,
    class: &Txt,
    name: &Txt,
    key: &Expr,
) -> Result<(), OutOfMemory>
    ensures { OnOk result (out.new.items ≡ out.old.items ++ layout (parts.above_words class.now name.now ⧺ words.index_words (expr_tree key.now))) }
{
    put_above(out, class, name)?;
    put_index(alloc, out, key)
}

/// `f(..)`
#[cycle(expr)]
pub fn put_call(
    alloc: Global,
    out: &mut Vec<u8>,
    name: &Txt,
    args: &[Expr],
) -> Result<(), OutOfMemory>
    ensures { OnOk result (out.new.items ≡ out.old.items ++ layout (words.call_words name.now (map expr_tree args.now))) }
{
    put_name(out, name)?;
    put_sign(out, Sign::LeftParen)?;
    put_args(alloc, out, args)?;
    put_sign(out, Sign::RightParen)
}

/// `C[k].`
#[cycle(expr)]
pub fn put_child_key(
    alloc: Global,
    out: &mut Vec<u8>,
    class: &Txt,
    key: &Expr,
) -> Result<(), OutOfMemory>
    ensures { OnOk result (out.new.items ≡ out.old.items ++ layout (parts.child_key_words class.now (expr_tree key.now))) }
{
    put_name(out, class)?;
    put_index(alloc, out, key)?;
    put_sign(out, Sign::Dot)
}

#[cycle(expr)]
fn put_unary(
    alloc: Global,
    out: &mut Vec<u8>,
    op: UnaryOp,
    operand: &Expr,
) -> Result<(), OutOfMemory>
    ensures { OnOk result (out.new.items ≡ out.old.items ++ layout (words.sign (words.unary_sign_of op) ⧺ words.expr_words (expr_tree operand.now) 5)) }
{
    put_sign(out, unary_sign_of(op))?;
    put_expr(alloc, out, operand, None)
}

// The left operand and the operator, with a parenthesis before them if the node needs one.
#[cycle(expr)]
fn put_left(
    alloc: Global,
    out: &mut Vec<u8>,
    paren: bool,
    op: BinaryOp,
    left: &Expr,
) -> Result<(), OutOfMemory>
    ensures { OnOk result (out.new.items ≡ out.old.items ++ layout (parts.left_words paren op (expr_tree left.now))) }
{
    put_if(out, paren, Sign::LeftParen)?;
    put_expr(alloc, out, left, left_level_of(op))?;
    put_sign(out, sign_of(op))
}

// The right operand, with a parenthesis behind it if the node needs one.
#[cycle(expr)]
fn put_right(
    alloc: Global,
    out: &mut Vec<u8>,
    paren: bool,
    op: BinaryOp,
    right: &Expr,
) -> Result<(), OutOfMemory>
    ensures { OnOk result (out.new.items ≡ out.old.items ++ layout (parts.right_words paren op (expr_tree right.now))) }
{
    put_expr(alloc, out, right, level_of(op).tighter())?;
    put_if(out, paren, Sign::RightParen)
}

// Arguments, with commas between them.
#[cycle(expr)]
fn put_args(alloc: Global, out: &mut Vec<u8>, args: &[Expr]) -> Result<(), OutOfMemory>
    ensures { OnOk result (out.new.items ≡ out.old.items ++ layout (words.listed_words words.whole_words (map expr_tree args.now))) }
{
    for (i, arg) in args.iter().enumerate() {
        put_comma(out, i)?;
        put_expr(alloc, out, arg, Some(Level::Or))?;
    }
    Ok(())
}
