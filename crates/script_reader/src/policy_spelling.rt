//! The form that a policy line's pieces spell.

ghost use Rattle.std.specs.Prelude.{◌≡◌, codes, IfOk, IfSome, IfNone};
ghost use Rattle.script_reader.specs.inner.PolicyParts.{is_policy_word, IsBy, IsNotBy, AreTwoHosts, AreNoTwoHosts, IsOnlyPolicyOf, HasNoPolicyOf, SpellsOnlyPolicy, SpellsNoPolicy};

use crate::piece::Piece;
use crate::policy_form::PolicyForm;
use crate::spelling::{number_alone, path_and_host, run_in};
use std::alloc::Global;
use wave_base::{OutOfMemory, Seq};
use wave_text::is_digits;

/// Whether a word is one that a policy line begins with.
pub(crate) fn is_policy_word(word: &[u8]) -> bool
    ensures { result ≡ is_policy_word word.now }
{
    word == b"balance".as_slice() || word == b"drain".as_slice()
}

// The digits behind the word `by`.
fn count_behind<'t>(rest: &[Piece<'t>]) -> Option<&'t [u8]>
    ensures some { IfSome result (λ digits. IsBy rest.now digits.now) }
    ensures none { IfNone result (IsNotBy rest.now) }
{
    let [by, behind @ ..] = rest else {
        return None;
    };
    let by = run_in(by)?;
    let digits = number_alone(behind)?;
    if by == b"by".as_slice() {
        Some(digits)
    } else {
        None
    }
}

fn balance_form(alloc: Global, rest: &[Piece<'_>]) -> Result<Option<PolicyForm>, OutOfMemory>
    ensures some { IfOk result (λ o. IfSome o (IsOnlyPolicyOf (codes "balance") rest.now)) }
    ensures none { IfOk result (λ o. IfNone o (HasNoPolicyOf (codes "balance") rest.now)) }
{
    match count_behind(rest) {
        Some(digits) => Ok(Some(PolicyForm::Balance(Seq::from_slice(alloc, digits)?))),
        None => Ok(None),
    }
}

// Digits, the word `to`, and digits.
fn two_hosts<'t>(rest: &[Piece<'t>]) -> Option<(&'t [u8], &'t [u8])>
    ensures some { IfSome result (λ x. AreTwoHosts rest.now x.0.now x.1.now) }
    ensures none { IfNone result (AreNoTwoHosts rest.now) }
{
    let Some((from, to)) = path_and_host(rest) else {
        return None;
    };
    if is_digits(from) {
        Some((from, to))
    } else {
        None
    }
}

fn drain_form(alloc: Global, rest: &[Piece<'_>]) -> Result<Option<PolicyForm>, OutOfMemory>
    ensures some { IfOk result (λ o. IfSome o (IsOnlyPolicyOf (codes "drain") rest.now)) }
    ensures none { IfOk result (λ o. IfNone o (HasNoPolicyOf (codes "drain") rest.now)) }
{
    let Some((from, to)) = two_hosts(rest) else {
        return Ok(None);
    };
    let from = Seq::from_slice(alloc, from)?;
    let to = Seq::from_slice(alloc, to)?;
    Ok(Some(PolicyForm::Drain(from, to)))
}

// The form of a policy line with this first word.
fn policy_of_word(
    alloc: Global,
    word: &[u8],
    rest: &[Piece<'_>],
) -> Result<Option<PolicyForm>, OutOfMemory>
    ensures some { IfOk result (λ o. IfSome o (IsOnlyPolicyOf word.now rest.now)) }
    ensures none { IfOk result (λ o. IfNone o (HasNoPolicyOf word.now rest.now)) }
{
    if word == b"balance".as_slice() {
        return balance_form(alloc, rest);
    }
    if word == b"drain".as_slice() {
        return drain_form(alloc, rest);
    }
    Ok(None)
}

/// The form of a policy line with these pieces.
pub(crate) fn policy_form_of(
    alloc: Global,
    pieces: &[Piece<'_>],
) -> Result<Option<PolicyForm>, OutOfMemory>
    ensures some { IfOk result (λ o. IfSome o (SpellsOnlyPolicy pieces.now)) }
    ensures none { IfOk result (λ o. IfNone o (SpellsNoPolicy pieces.now)) }
{
    let [first, rest @ ..] = pieces else {
        return Ok(None);
    };
    let Some(word) = run_in(first) else {
        return Ok(None);
    };
    policy_of_word(alloc, word, rest)
}
