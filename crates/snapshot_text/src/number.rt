//! Numbers of any length, as they look and as they are ordered.

ghost use Rattle.std.specs.Prelude.{◌≡◌};
ghost use Rattle.snapshot_text.specs.Forms.{is_plain_digits, is_zero, is_plain, is_fewer, has_minus, is_below};

use std::cmp::Ordering;
use wave_text::is_digits;

/// Whether a text is digits, of any number, with no zero in front.
pub fn is_plain_digits(text: &[u8]) -> bool
    ensures { result ≡ is_plain_digits text.now }
{
    match text {
        [b, _, ..] => 49 <= *b && *b <= 57 && is_digits(&text[1..]),
        _ => is_digits(text),
    }
}

fn is_zero(text: &[u8]) -> bool
    ensures { result ≡ is_zero text.now }
{
    match text {
        [b] => *b == b'0',
        _ => false,
    }
}

/// Whether a text is a whole number, of any length, with no zero in front and no minus at 0.
pub(crate) fn is_plain(text: &[u8]) -> bool
    ensures { result ≡ is_plain text.now }
{
    match text {
        [b'-', digits @ ..] => is_plain_digits(digits) && !is_zero(digits),
        _ => is_plain_digits(text),
    }
}

fn has_minus(text: &[u8]) -> bool
    ensures { result ≡ has_minus text.now }
{
    match text {
        [b, ..] => *b == b'-',
        [] => false,
    }
}

// Of two numbers without a minus.
fn is_fewer(digits: &[u8], others: &[u8]) -> bool
    ensures { result ≡ is_fewer digits.now others.now }
{
    digits.len() < others.len()
        || (digits.len() == others.len() && digits.cmp(others) == Ordering::Less)
}

/// Whether a plain number is below another one.
pub(crate) fn is_below(number: &[u8], other: &[u8]) -> bool
    ensures { result ≡ is_below number.now other.now }
{
    if has_minus(number) {
        !has_minus(other) || is_fewer(other, number)
    } else {
        !has_minus(other) && is_fewer(number, other)
    }
}
