//! The steps of a path as they are written, before a shape is asked.

ghost use Rattle.std.specs.Prelude.{◌≡◌, ◌∷◌, ◌&&◌, [], ℕ, List, IsTrue, ◌↔◌, IfOk, IfSome, IfNone};
ghost use Rattle.wave_base.specs.Names.{is_word};
ghost use Rattle.path_text.specs.Steps.{is_key, HasSteps, HasSomeSteps, HasOnlySteps, HasNoSteps};
ghost use Rattle.path_text.specs.inner.Fronts.{AreParts, IsOnlyFront, HasNoFront};

use std::alloc::Global;
use wave_base::{OutOfMemory, Seq};
use wave_text::{is_whole, is_word, split_at};

/// A step of a path as it is written: its class's name and its key.
#[derive(PartialEq, Eq, Debug, Drop)]
pub struct Written {
    /// The class's name.
    pub name: Seq<u8>,
    /// The digits of the key, behind a `-` where it is negative.
    pub key: Seq<u8>,
}

// Whether a text is an optional `-` and 1 to 19 digits.
fn is_key(text: &[u8]) -> bool
    ensures { result ≡ is_key text.now }
{
    match text {
        [b'-', digits @ ..] => is_whole(text) && digits.len() <= 19,
        _ => is_whole(text) && text.len() <= 19,
    }
}

fn behind_slash(text: &[u8]) -> Option<&[u8]>
    ensures some { IfSome result (λ rest. text.now ≡ 47 ∷ rest.now) }
    ensures none { IfNone result ((rest : List ℕ) → text.now ≡ 47 ∷ rest → ⊥) }
{
    match text {
        [b, rest @ ..] if *b == b'/' => Some(rest),
        _ => None,
    }
}

// A name and a key, as they may stand at the front of a text, and what stands behind them.
fn parts_of(text: &[u8]) -> Option<(&[u8], &[u8], &[u8])>
    ensures some { IfSome result (λ x. AreParts text.now x.0.now x.1.now x.2.now) }
    ensures none { IfNone result (HasNoFront text.now) }
{
    let rest = behind_slash(text)?;
    let (name, rest) = split_at(rest, b'[')?;
    let (key, rest) = split_at(rest, b']')?;
    Some((name, key, rest))
}

fn has_form(name: &[u8], key: &[u8]) -> bool
    ensures { result ≡ (is_word name.now && is_key key.now) }
{
    is_word(name) && is_key(key)
}

// The name and the key of the step at the front of a text, and what stands behind it.
fn front_of(text: &[u8]) -> Option<(&[u8], &[u8], &[u8])>
    ensures some { IfSome result (λ x. IsOnlyFront text.now (record { name = x.0.now; key = x.1.now }) x.2.now) }
    ensures none { IfNone result (HasNoFront text.now) }
{
    let (name, key, rest) = parts_of(text)?;
    if has_form(name, key) {
        Some((name, key, rest))
    } else {
        None
    }
}

fn copied_step(alloc: Global, name: &[u8], key: &[u8]) -> Result<Written, OutOfMemory>
    ensures { IfOk result (λ step. step ≡ record { name = name.now; key = key.now }) }
{
    Ok(Written {
        name: Seq::from_slice(alloc, name)?,
        key: Seq::from_slice(alloc, key)?,
    })
}

fn is_root(text: &[u8]) -> bool
    ensures { IsTrue result ↔ (text.now ≡ 47 ∷ []) }
{
    match text {
        [b] => *b == b'/',
        _ => false,
    }
}

// Whether a text has a path's form. Nothing is copied for that.
fn has_steps(text: &[u8]) -> bool
    ensures { IsTrue result ↔ HasSomeSteps text.now }
{
    if is_root(text) {
        return true;
    }
    let mut rest = text;
    while !rest.is_empty() {
        let Some((_, _, after)) = front_of(rest) else {
            return false;
        };
        rest = after;
    }
    !text.is_empty()
}

/// The steps of a text that has a path's form. No memory is asked for where it has none.
pub fn written_steps(alloc: Global, text: &[u8]) -> Result<Option<Seq<Written>>, OutOfMemory>
    ensures some { IfOk result (λ o. IfSome o (HasSteps text.now)) }
    ensures only { IfOk result (λ o. IfSome o (HasOnlySteps text.now)) }
    ensures none { IfOk result (λ o. IfNone o (HasNoSteps text.now)) }
{
    if !has_steps(text) {
        return Ok(None);
    }
    let mut steps = Seq::new(alloc);
    if is_root(text) {
        return Ok(Some(steps));
    }
    let mut rest = text;
    while let Some((name, key, after)) = front_of(rest) {
        steps.add(copied_step(alloc, name, key)?)?;
        rest = after;
    }
    Ok(Some(steps))
}
