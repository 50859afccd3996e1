//! Which operators give ints and truth values of operands that are looked at where they are, and what they gave.

ghost use Rattle.std.specs.Prelude.{◌≡◌, ◌≢◌, ◌∷◌, [], Ok, IfSome, IsTrue};
ghost use Rattle.value_ops.specs.Operators.{takes_of, gives_of};
ghost use Rattle.wave_base.specs.declared.trap.TrapKind.{TrapKind};
ghost use Rattle.wave_base.specs.declared.value.Kind.{Kind};
ghost use Rattle.wave_base.specs.declared.value.Value.{Value};

use crate::stop::Stop;
use value_ops::OpError;
use value_ops::rows::*;
use wave_base::{Kind, TrapKind, Value};

/// The kind of what a row gives.
#[inline(always)]
#[tactic(auto, unfolding(value_ops::specs::Operators::gives_of, value_ops::specs::Operators::operators))]
pub fn kind_given(row: usize) -> Kind
    ensures { result ≡ gives_of row }
{
    match row {
        NOT | EQ | NE | LT | LE | GT | GE => Kind::Bool,
        BEQ | BNE | TEQ | TNE | TLT => Kind::Bool,
        HAS | STARTS => Kind::Bool,
        CAT | STR | PART => Kind::Text,
        PUT | CUT => Kind::Map,
        _ => Kind::Int,
    }
}

/// Whether a row gives an int of two ints.
#[inline(always)]
#[tactic(auto, unfolding(value_ops::specs::Operators::takes_of, value_ops::specs::Operators::operators))]
pub fn reckons(row: usize) -> bool
    ensures { IsTrue result → takes_of row ≡ Kind.Int ∷ Kind.Int ∷ [] }
{
    match row {
        ADD | SUB | MUL | DIV | REM => true,
        MIN | MAX => true,
        _ => false,
    }
}

/// Whether a row says something of two ints.
#[inline(always)]
#[tactic(auto, unfolding(value_ops::specs::Operators::takes_of, value_ops::specs::Operators::operators))]
pub fn compares(row: usize) -> bool
    ensures { IsTrue result → takes_of row ≡ Kind.Int ∷ Kind.Int ∷ [] }
{
    match row {
        EQ | NE | LT | LE | GT | GE => true,
        _ => false,
    }
}

/// Whether a row gives an int of an int.
#[inline(always)]
#[tactic(auto, unfolding(value_ops::specs::Operators::takes_of, value_ops::specs::Operators::gives_of, value_ops::specs::Operators::operators))]
pub fn turns_int(row: usize) -> bool
    ensures takes { IsTrue result → takes_of row ≡ Kind.Int ∷ [] }
    ensures gives { IsTrue result → gives_of row ≢ Kind.Text }
{
    match row {
        NEG => true,
        ABS => true,
        _ => false,
    }
}

/// Whether a row gives an int of a text or of a whole map.
#[inline(always)]
#[tactic(auto, unfolding(value_ops::specs::Operators::gives_of, value_ops::specs::Operators::operators))]
pub fn measures(row: usize) -> bool
    ensures { IsTrue result → gives_of row ≡ Kind.Int }
{
    match row {
        SIZE => true,
        SUM => true,
        LEN => true,
        NUM => true,
        _ => false,
    }
}

/// Whether a row reads an int from a map at an int.
#[inline(always)]
#[tactic(auto, unfolding(value_ops::specs::Operators::takes_of, value_ops::specs::Operators::gives_of, value_ops::specs::Operators::operators))]
pub fn reads_int(row: usize) -> bool
    ensures takes { IsTrue result → takes_of row ≡ Kind.Map ∷ Kind.Int ∷ [] }
    ensures gives { IsTrue result → gives_of row ≢ Kind.Map }
{
    match row {
        AT => true,
        KEY => true,
        _ => false,
    }
}

/// Whether a row says something of a map and an int.
#[inline(always)]
#[tactic(auto, unfolding(value_ops::specs::Operators::takes_of, value_ops::specs::Operators::gives_of, value_ops::specs::Operators::operators))]
pub fn asks(row: usize) -> bool
    ensures takes { IsTrue result → takes_of row ≡ Kind.Map ∷ Kind.Int ∷ [] }
    ensures gives { IsTrue result → gives_of row ≢ Kind.Map }
{
    match row {
        HAS => true,
        _ => false,
    }
}

/// Whether a row says something of two truth values.
#[inline(always)]
#[tactic(auto, unfolding(value_ops::specs::Operators::takes_of, value_ops::specs::Operators::operators))]
pub fn compares_flags(row: usize) -> bool
    ensures { IsTrue result → takes_of row ≡ Kind.Bool ∷ Kind.Bool ∷ [] }
{
    match row {
        BEQ | BNE => true,
        _ => false,
    }
}

/// Whether a row says something of two texts.
#[inline(always)]
#[tactic(auto, unfolding(value_ops::specs::Operators::takes_of, value_ops::specs::Operators::gives_of, value_ops::specs::Operators::operators))]
pub fn compares_texts(row: usize) -> bool
    ensures takes { IsTrue result → takes_of row ≡ Kind.Text ∷ Kind.Text ∷ [] }
    ensures gives { IsTrue result → gives_of row ≡ Kind.Bool }
{
    match row {
        TEQ | TNE | TLT | STARTS => true,
        _ => false,
    }
}

/// Whether a row gives a text of two texts.
#[inline(always)]
#[tactic(auto, unfolding(value_ops::specs::Operators::takes_of, value_ops::specs::Operators::operators))]
pub fn joins(row: usize) -> bool
    ensures { IsTrue result → takes_of row ≡ Kind.Text ∷ Kind.Text ∷ [] }
{
    match row {
        CAT => true,
        _ => false,
    }
}

/// The int that was given, if one was.
#[inline(always)]
pub fn int_in(given: Result<Value, TrapKind>) -> Option<i64>
    ensures { IfSome result (λ n. given ≡ Ok (Value.Int n)) }
{
    match given {
        Ok(Value::Int(n)) => Some(n),
        _ => None,
    }
}

/// The truth value that was given, if one was.
#[inline(always)]
pub fn flag_in(given: Result<Value, TrapKind>) -> Option<bool>
    ensures { IfSome result (λ b. given ≡ Ok (Value.Bool b)) }
{
    match given {
        Ok(Value::Bool(b)) => Some(b),
        _ => None,
    }
}

/// The value that an operator gave, if it did.
#[inline(always)]
pub fn given_value(answer: Result<Value, Stop>) -> Option<Value>
    ensures { IfSome result (λ v. answer ≡ Ok v) }
{
    match answer {
        Ok(value) => Some(value),
        Err(_) => None,
    }
}

/// The same of an answer that has no place.
#[inline(always)]
pub fn answered_value(answer: Result<Value, OpError>) -> Option<Value>
    ensures { IfSome result (λ v. answer ≡ Ok v) }
{
    match answer {
        Ok(value) => Some(value),
        Err(_) => None,
    }
}
