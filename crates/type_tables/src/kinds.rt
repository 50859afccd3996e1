//! Kinds, and the rows that each sign may mean.

ghost use Rattle.std.specs.Prelude.{◌≡◌, All, ◌<◌};
ghost use Rattle.type_rules.specs.Kinds as rules;
ghost use Rattle.type_tables.specs.Rows.{IsRow};

use mace_ast::{BinaryOp, UnaryOp};
use value_ops::rows::{
    ADD, AT, BEQ, BNE, CAT, DIV, EQ, GE, GT, LE, LT, MUL, NE, NEG, NOT, REM, SUB, TEQ, TLT, TNE,
};
use wave_base::Kind;

/// Whether two kinds are the same.
pub fn same_kind(a: Kind, b: Kind) -> bool
    ensures { result ≡ rules.same_kind a b }
{
    a == b
}

/// Whether there is a kind, and it is this one.
pub fn has_kind(a: Option<Kind>, b: Kind) -> bool
    ensures { result ≡ rules.has_kind a b }
{
    match a {
        None => false,
        Some(a) => same_kind(a, b),
    }
}

/// The rows that are written with a sign between two operands.
pub fn rows_of_sign(op: BinaryOp) -> &'static [u16]
    ensures rows { result.now ≡ rules.rows_of_sign op }
    ensures within { All IsRow result.now }
{
    match op {
        BinaryOp::Or | BinaryOp::And => &[],
        BinaryOp::Eq => &[EQ as u16, BEQ as u16, TEQ as u16],
        BinaryOp::Ne => &[NE as u16, BNE as u16, TNE as u16],
        BinaryOp::Lt => &[LT as u16, TLT as u16],
        BinaryOp::Le => &[LE as u16],
        BinaryOp::Gt => &[GT as u16],
        BinaryOp::Ge => &[GE as u16],
        BinaryOp::Add => &[ADD as u16, CAT as u16],
        BinaryOp::Sub => &[SUB as u16],
        BinaryOp::Mul => &[MUL as u16],
        BinaryOp::Div => &[DIV as u16],
        BinaryOp::Rem => &[REM as u16],
    }
}

/// The rows that are written with a sign before an operand.
pub fn rows_before(op: UnaryOp) -> &'static [u16]
    ensures rows { result.now ≡ rules.rows_before op }
    ensures within { All IsRow result.now }
{
    match op {
        UnaryOp::Neg => &[NEG as u16],
        UnaryOp::Not => &[NOT as u16],
    }
}

/// The rows of `m[k]`.
pub fn rows_of_index() -> &'static [u16]
    ensures rows { result.now ≡ rules.rows_of_index }
    ensures within { All IsRow result.now }
{
    &[AT as u16]
}
