//! The hints: each is tried behind the words, and told where they go on from there.

ghost use Rattle.std.specs.Prelude.{◌≡◌, ◌+◌, ◌<◌, ◌≤◌, ◌↔◌, List, length, take, Contains, IfOk, IsTrue, OnOk};
ghost use Rattle.wave_base.specs.declared.limits.TheConstants.{PLACED_BYTES};
ghost use Rattle.mace_lexer.specs.declared.token.Word.{Word};
ghost use Rattle.mace_grammar.specs.Spelled.{words};
ghost use Rattle.mace_printer.specs.Layout.{layout};
ghost use Rattle.mace_hints.specs.Hints.{IsRead, CanFollow};
ghost use Rattle.mace_hints.specs.inner.Fronts.{IsFront, Tells, TellsOne};

use crate::fault::HintError;
use crate::hint::{HINTS, Hint};
use crate::judging::goes_on;
use crate::layout::{put_hint, put_words};
use mace_lexer::Token;
use std::alloc::Global;
use wave_base::{OutOfMemory, PLACED_BYTES};

// Whether a word of the hint can follow the words with this layout.
fn can_follow(alloc: Global, front: &[u8], hint: Hint) -> Result<bool, OutOfMemory>
    requires { length front.now + 16 ≤ PLACED_BYTES }
    ensures { IfOk result (λ yes. (ws : List Word) → IsFront front.now ws → IsTrue yes ↔ CanFollow ws hint) }
{
    let mut text = Vec::from_slice(alloc, front)?;
    put_hint(alloc, &mut text, hint)?;
    goes_on(alloc, text.as_slice())
}

// Tells the hint, if a word of it can follow.
fn tell(alloc: Global, front: &[u8], hint: &Hint, found: &mut Vec<Hint>) -> Result<(), OutOfMemory>
    requires { length front.now + 16 ≤ PLACED_BYTES }
    ensures { OnOk result ((ws : List Word) → IsFront front.now ws → TellsOne ws hint.now found.old.items found.new.items) }
{
    if can_follow(alloc, front, *hint)? {
        found.push(*hint)?;
    }
    Ok(())
}

// The hints of a table that can follow the words with this layout.
fn following(alloc: Global, front: &[u8], table: &[Hint]) -> Result<Vec<Hint>, OutOfMemory>
    requires { length front.now + 16 ≤ PLACED_BYTES }
    ensures { IfOk result (λ found. (ws : List Word) → IsFront front.now ws → Tells ws table.now found.items) }
{
    let mut found = Vec::new(alloc);
    for hint in table {
        tell(alloc, front, hint, &mut found)?;
    }
    Ok(found)
}

/// The hints that can follow the first `fault` tokens of a text: exactly those with a word from which some words go on to be a
/// service. A text of so many and such long words that their layout is no place to try them in is refused.
pub fn hints(alloc: Global, tokens: &[Token], fault: usize) -> Result<Vec<Hint>, HintError>
    requires read { IsRead tokens.now }
    requires fault { fault ≤ length tokens.now }
    ensures exact { IfOk result (λ found. (h : Hint) → Contains found.items h ↔ CanFollow (take fault (words tokens.now)) h) }

    // It is refused where the layout is too long, and nowhere else.
    ensures large { result ≡ Err HintError.TooLarge → PLACED_BYTES < length (layout (take fault (words tokens.now))) + 16 }
    ensures small { IfOk result (λ _. length (layout (take fault (words tokens.now))) + 16 ≤ PLACED_BYTES) }
{
    let mut front = Vec::new(alloc);
    put_words(alloc, &mut front, &tokens[..fault])?;
    if front.len() > PLACED_BYTES - 16 {
        return Err(HintError::TooLarge);
    }
    Ok(following(alloc, front.as_slice(), &HINTS)?)
}
