// Operators, by their levels.

ghost use Rattle.std.specs.Prelude.{◌≡◌};
ghost use Rattle.mace_grammar.specs.Levels.{tighter_ones};
ghost use Rattle.mace_grammar.specs.Words as words;
ghost use Rattle.mace_grammar.specs.inner.Readers as reader;
ghost use Rattle.mace_parser.specs.inner.Gives.{Gives};

use crate::fault::{Fault, Read};
use mace_ast::{BinaryOp, UnaryOp};
use mace_grammar::Level;
use mace_lexer::{Sign, Token, Word};
use wave_base::Span;

fn unary_of(sign: Sign) -> Option<UnaryOp>
    ensures { result ≡ words.unary_of sign }
{
    match sign {
        Sign::Minus => Some(UnaryOp::Neg),
        Sign::Bang => Some(UnaryOp::Not),
        _ => None,
    }
}

/// An operator before one operand, and its place.
pub fn unary_op(tokens: &[Token]) -> Read<'_, (Span, UnaryOp)>
    ensures { Gives (λ x. (x.0, x.1.now)) result (reader.unary_op_at tokens.now) }
{
    let Some((t, rest)) = tokens.split_first() else {
        return Err(Fault::Stuck(tokens));
    };
    let Word::Sign(sign) = t.word else {
        return Err(Fault::Stuck(tokens));
    };
    match unary_of(sign) {
        Some(op) => Ok(((t.span, op), rest)),
        None => Err(Fault::Stuck(tokens)),
    }
}

// ---- operators by their level

fn product_op(sign: Sign) -> Option<BinaryOp>
    ensures { result ≡ words.product_op sign }
{
    match sign {
        Sign::Star => Some(BinaryOp::Mul),
        Sign::Slash => Some(BinaryOp::Div),
        Sign::Percent => Some(BinaryOp::Rem),
        _ => None,
    }
}

fn sum_op(sign: Sign) -> Option<BinaryOp>
    ensures { result ≡ words.sum_op sign }
{
    match sign {
        Sign::Plus => Some(BinaryOp::Add),
        Sign::Minus => Some(BinaryOp::Sub),
        _ => None,
    }
}

fn comparison_op(sign: Sign) -> Option<BinaryOp>
    ensures { result ≡ words.comparison_op sign }
{
    match sign {
        Sign::EqualsEquals => Some(BinaryOp::Eq),
        Sign::BangEquals => Some(BinaryOp::Ne),
        Sign::Less => Some(BinaryOp::Lt),
        Sign::LessEquals => Some(BinaryOp::Le),
        Sign::Greater => Some(BinaryOp::Gt),
        Sign::GreaterEquals => Some(BinaryOp::Ge),
        _ => None,
    }
}

fn and_op(sign: Sign) -> Option<BinaryOp>
    ensures { result ≡ words.and_op sign }
{
    match sign {
        Sign::AndAnd => Some(BinaryOp::And),
        _ => None,
    }
}

fn or_op(sign: Sign) -> Option<BinaryOp>
    ensures { result ≡ words.or_op sign }
{
    match sign {
        Sign::OrOr => Some(BinaryOp::Or),
        _ => None,
    }
}

fn op_of(level: Level, sign: Sign) -> Option<BinaryOp>
    ensures { result ≡ reader.op_of (tighter_ones level) sign }
{
    match level {
        Level::Or => or_op(sign),
        Level::And => and_op(sign),
        Level::Comparison => comparison_op(sign),
        Level::Sum => sum_op(sign),
        Level::Product => product_op(sign),
    }
}

/// An operator of a level.
pub fn operator(level: Level, tokens: &[Token]) -> Read<'_, BinaryOp>
    ensures { Gives (λ x. (x.0, x.1.now)) result (reader.operator_at (tighter_ones level) tokens.now) }
{
    let Some((t, rest)) = tokens.split_first() else {
        return Err(Fault::Stuck(tokens));
    };
    let Word::Sign(sign) = t.word else {
        return Err(Fault::Stuck(tokens));
    };
    match op_of(level, sign) {
        Some(op) => Ok((op, rest)),
        None => Err(Fault::Stuck(tokens)),
    }
}
