// A whole text.

ghost use Rattle.std.specs.Prelude.{◌≡◌, ◌+◌, ◌-◌, ◌<◌, ◌≤◌, ℕ, length, Some, IfOk, IfErr, OnOk};
ghost use Rattle.wave_base.specs.declared.limits.TheConstants.{PLACED_BYTES};
ghost use Rattle.mace_lexer.specs.Lexed.{AreTokens};
ghost use Rattle.mace_ast.specs.Decls.{ServiceTree, service_tree};
ghost use Rattle.mace_parser.specs.inner.Gives.{TakesAll};
ghost use Rattle.mace_grammar.specs.Grammar.{service};
ghost use Rattle.mace_grammar.specs.Nest.{IsShallow, IsFirstDeep};
ghost use Rattle.mace_parser.specs.Parsed.{TellsFault, AnswersTree, AnswersFault};
ghost use Rattle.mace_grammar.specs.inner.Readers as reader;
ghost use Rattle.mace_grammar.specs.Spelled.{words, Spelled, IsExpected, IsTooDeep, place_in};

use crate::context::service;
use crate::fault::{Fault, ParseError};
use crate::nest::first_deep;
use mace_ast::Service;
use mace_lexer::{Token, text_end};
use std::alloc::Global;
use wave_base::Span;

// All tokens as one service.
fn all<'a>(alloc: Global, tokens: &'a [Token]) -> Result<Service, Fault<'a>>
    ensures { TakesAll service_tree result (reader.service_at (length tokens.now + 1) tokens.now) }
{
    match service(alloc, tokens.len() + 1, tokens) {
        Ok((s, [])) => Ok(s),
        Ok((_, rest)) => Err(Fault::Stuck(rest)),
        Err(fault) => Err(fault),
    }
}

// The place of a token, the end of the text among them.
fn place(text: &[u8], tokens: &[Token], k: usize) -> Span
    requires { length text.now ≤ PLACED_BYTES }
    ensures { result ≡ place_in text.now tokens.now k }
{
    match tokens.get(k) {
        Some(t) => t.span,
        None => text_end(text),
    }
}

fn expected_error(text: &[u8], tokens: &[Token], token: usize) -> ParseError
    requires { length text.now ≤ PLACED_BYTES }
    ensures { result ≡ ParseError.Expected token (place_in text.now tokens.now token) }
{
    let at = place(text, tokens, token);
    ParseError::Expected { token, at }
}

// Where no token is nested too deep.
fn shallow(alloc: Global, text: &[u8], tokens: &[Token]) -> Result<Service, ParseError>
    requires text { length text.now ≤ PLACED_BYTES }
    requires nest { IsShallow (words tokens.now) }
    ensures tree { IfOk result (λ s. service.Spells (service_tree s) tokens.now) }
    ensures spelled { IfOk result (λ s. Spelled (service_tree s) (words tokens.now)) }
    ensures error { IfErr result (TellsFault text.now tokens.now) }
{
    match all(alloc, tokens) {
        Ok(s) => Ok(s),
        Err(Fault::Stuck(rest)) => Err(expected_error(text, tokens, tokens.len() - rest.len())),
        Err(Fault::Memory(refused)) => Err(ParseError::OutOfMemory(refused)),
    }
}

fn too_deep(text: &[u8], tokens: &[Token], token: usize) -> ParseError
    requires { length text.now ≤ PLACED_BYTES }
    ensures { result ≡ ParseError.TooDeep token (place_in text.now tokens.now token) }
{
    let at = place(text, tokens, token);
    ParseError::TooDeep { token, at }
}

// Where token `deep` is nested too deep, and so many of the tokens up to it were not read.
fn stop_error(text: &[u8], tokens: &[Token], deep: usize, left: usize) -> ParseError
    requires text { length text.now ≤ PLACED_BYTES }
    requires left { left ≤ deep + 1 }
    requires deep { deep < length tokens.now }
    ensures all { left ≡ 0 → result ≡ ParseError.TooDeep deep (place_in text.now tokens.now deep) }
    ensures some { 0 < left → result ≡ ParseError.Expected (deep + 1 - left) (place_in text.now tokens.now (deep + 1 - left)) }
{
    if left == 0 {
        return too_deep(text, tokens, deep);
    }
    expected_error(text, tokens, deep + 1 - left)
}

// Where token `deep` is the first that is nested too deep: only what stands before it is read, and so no deeper.
fn cut_off(alloc: Global, text: &[u8], tokens: &[Token], deep: usize) -> ParseError
    requires text { length text.now ≤ PLACED_BYTES }
    requires nest { IsFirstDeep (words tokens.now) (Some deep) }
    ensures { TellsFault text.now tokens.now result }
{
    match all(alloc, &tokens[..deep + 1]) {
        Ok(_) => too_deep(text, tokens, deep),
        Err(Fault::Stuck(rest)) => stop_error(text, tokens, deep, rest.len()),
        Err(Fault::Memory(refused)) => ParseError::OutOfMemory(refused),
    }
}

// The answer, with what it tells.
fn read(alloc: Global, text: &[u8], tokens: &[Token]) -> Result<Service, ParseError>
    requires { length text.now ≤ PLACED_BYTES }
    ensures tree { IfOk result (λ s. service.Spells (service_tree s) tokens.now) }
    ensures spelled { IfOk result (λ s. Spelled (service_tree s) (words tokens.now)) }
    ensures nest { OnOk result (IsShallow (words tokens.now)) }
    ensures error { IfErr result (TellsFault text.now tokens.now) }
{
    match first_deep(alloc, tokens) {
        Ok(None) => shallow(alloc, text, tokens),
        Ok(Some(deep)) => Err(cut_off(alloc, text, tokens, deep)),
        Err(refused) => Err(ParseError::OutOfMemory(refused)),
    }
}

/// The service that the tokens of a text spell. Of faults the earlier token decides.
pub fn parse(alloc: Global, text: &[u8], tokens: &[Token]) -> Result<Service, ParseError>
    requires text { length text.now ≤ PLACED_BYTES }
    requires tokens { AreTokens text.now tokens.now }

    // The tree, with its places and up to them.
    ensures tree { IfOk result (λ s. service.Spells (service_tree s) tokens.now) }
    ensures spelled { IfOk result (λ s. Spelled (service_tree s) (words tokens.now)) }
    ensures nest { OnOk result (IsShallow (words tokens.now)) }

    // An error tells the first fault.
    ensures error { IfErr result (TellsFault text.now tokens.now) }

    // What is spelled is read, and what is at fault is refused for it.
    ensures only { (s : ServiceTree) → Spelled s (words tokens.now) → IsShallow (words tokens.now) → AnswersTree result s }
    ensures expected { (k : ℕ) → IsExpected (words tokens.now) k →
        AnswersFault result (ParseError.Expected k (place_in text.now tokens.now k)) }
    ensures deep { (k : ℕ) → IsTooDeep (words tokens.now) k →
        AnswersFault result (ParseError.TooDeep k (place_in text.now tokens.now k)) }
{
    read(alloc, text, tokens)
}
