//! The pairs of a map, as they look.

ghost use Rattle.std.specs.Prelude.{◌≡◌, ◌∷◌, ◌&&◌, ◌↔◌, IsTrue, IfSome, IfNone};
ghost use Rattle.snapshot_text.specs.Forms.{is_plain};
ghost use Rattle.snapshot_text.specs.inner.Fronts.{BeginsNot, IsPairOf, IsNoPair, IsFirstPair, IsNoFirstPair, IsMapText, IsMapTextBehind};

use crate::number::{is_below, is_plain};
use wave_text::split_at;

/// What stands behind this byte at the front of a text.
pub(crate) fn behind_byte(text: &[u8], byte: u8) -> Option<&[u8]>
    ensures some { IfSome result (λ rest. text.now ≡ byte ∷ rest.now) }
    ensures none { IfNone result (BeginsNot byte text.now) }
{
    match text {
        [b, rest @ ..] if *b == byte => Some(rest),
        _ => None,
    }
}

fn are_plain(key: &[u8], value: &[u8]) -> bool
    ensures { result ≡ (is_plain key.now && is_plain value.now) }
{
    is_plain(key) && is_plain(value)
}

// The key of a pair of plain numbers.
fn key_of(text: &[u8]) -> Option<&[u8]>
    ensures some { IfSome result (λ key. IsPairOf text.now key.now) }
    ensures none { IfNone result (IsNoPair text.now) }
{
    let (key, rest) = split_at(text, b':')?;
    let value = behind_byte(rest, b' ')?;
    if are_plain(key, value) {
        Some(key)
    } else {
        None
    }
}

// The key of the first of several pairs, and the pairs behind it.
fn first_pair(text: &[u8]) -> Option<(&[u8], &[u8])>
    ensures some { IfSome result (λ x. IsFirstPair text.now x.0.now x.1.now) }
    ensures none { IfNone result (IsNoFirstPair text.now) }
{
    let (pair, rest) = split_at(text, b',')?;
    let key = key_of(pair)?;
    let more = behind_byte(rest, b' ')?;
    Some((key, more))
}

// Whether a text is one pair, its key above this one.
fn is_last_pair(text: &[u8], before: &[u8]) -> bool
    requires { IsNoFirstPair text.now }
    ensures { IsTrue result ↔ IsMapTextBehind before.now text.now }
{
    match key_of(text) {
        Some(key) => is_below(before, key),
        None => false,
    }
}

// Whether a text is pairs, their keys ascending from this one on.
fn are_pairs_behind(text: &[u8], before: &[u8]) -> bool
    ensures { IsTrue result ↔ IsMapTextBehind before.now text.now }
{
    let mut last = before;
    let mut rest = text;
    while let Some((key, more)) = first_pair(rest) {
        if !is_below(last, key) {
            return false;
        }
        last = key;
        rest = more;
    }
    is_last_pair(rest, last)
}

// Whether a text is no pair or one.
fn is_short_map(text: &[u8]) -> bool
    requires { IsNoFirstPair text.now }
    ensures { IsTrue result ↔ IsMapText text.now }
{
    match key_of(text) {
        Some(_) => true,
        None => text.is_empty(),
    }
}

/// Whether a text is the pairs of a map.
pub(crate) fn are_pairs(text: &[u8]) -> bool
    ensures { IsTrue result ↔ IsMapText text.now }
{
    match first_pair(text) {
        Some((key, more)) => are_pairs_behind(more, key),
        None => is_short_map(text),
    }
}
