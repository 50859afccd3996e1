//! Texts that write a number.

ghost use Rattle.std.specs.Prelude.{◌≡◌, true};
ghost use Rattle.std.specs.Char.{is_ascii_digit};
ghost use Rattle.std.specs.List.{list_all};
ghost use Rattle.value_ops.specs.Kinds.{answer_of};
ghost use Rattle.value_ops.specs.Meanings as meaning;
ghost use Rattle.value_ops.specs.Meanings.{or_trap, in_int};
ghost use Rattle.value_ops.specs.Numbers.{after_minus, is_number, number_in};
ghost use Rattle.wave_base.specs.Names.{is_digits};
ghost use Rattle.wave_base.specs.declared.trap.TrapKind.{TrapKind};
ghost use Rattle.wave_base.specs.declared.value.Kind.{Kind};

use crate::ints::number;
use wave_base::{TrapKind, Txt, Value};

/// The number that a text writes: a minus or none, and 1 to 19 digits.
pub fn num(t: &Txt) -> Result<Value, TrapKind>
    ensures { result ≡ answer_of Kind.Int (meaning.num t.now) }
{
    if !is_number(t.bytes()) {
        return Err(TrapKind::Absent);
    }
    number(value_of(t.bytes()))
}

fn are_digits(bytes: &[u8]) -> bool
    ensures { result ≡ list_all is_ascii_digit bytes.now }
{
    bytes.iter().all(|b| b.is_ascii_digit())
}

fn is_digits(bytes: &[u8]) -> bool
    ensures { result ≡ is_digits bytes.now }
{
    match bytes {
        [] => false,
        [b, rest @ ..] => b.is_ascii_digit() && are_digits(rest),
    }
}

// What stands behind the minus, if there is one.
fn after_minus(text: &[u8]) -> &[u8]
    ensures { result.now ≡ after_minus text.now }
{
    match text {
        [b'-', rest @ ..] => rest,
        _ => text,
    }
}

// Whether it has the form of a number.
fn is_number(text: &[u8]) -> bool
    ensures { result ≡ is_number text.now }
{
    let digits = after_minus(text);
    digits.len() <= 19 && is_digits(digits)
}

// The int that a number is, where it is one.
fn value_of(text: &[u8]) -> Option<i64>
    requires { is_number text.now ≡ true }
    ensures { or_trap TrapKind.Overflow result ≡ in_int (number_in text.now) }
{
    match std::str::from_utf8(text) {
        Ok(text) => text.parse::<i64>().ok(),
        Err(_) => None,
    }
}
