//! Whether the words of a text go on to be a service.

ghost use Rattle.std.specs.Prelude.{◌≡◌, ◌≤◌, ◌↔◌, List, length, IfOk, IsTrue};
ghost use Rattle.wave_base.specs.declared.limits.TheConstants.{PLACED_BYTES};
ghost use Rattle.mace_lexer.specs.declared.token.Word.{Word};
ghost use Rattle.mace_lexer.specs.Lexed.{AreTokens};
ghost use Rattle.mace_grammar.specs.Nest.{IsShallow};
ghost use Rattle.mace_grammar.specs.Spelled.{words};
ghost use Rattle.mace_printer.specs.Written.{IsCutInto};
ghost use Rattle.mace_hints.specs.Hints.{GoesOn};
ghost use Rattle.mace_hints.specs.inner.Verdicts.{of_parser, of_lexer};

use mace_ast::Service;
use mace_lexer::{LexError, Token, lex};
use mace_parser::{ParseError, parse};
use std::alloc::Global;
use wave_base::OutOfMemory;

// What the parser's answer says of so many tokens.
fn of_parser(parsed: Result<Service, ParseError>, count: usize) -> Result<bool, OutOfMemory>
    ensures { result ≡ of_parser parsed count }
{
    match parsed {
        Ok(_) => Ok(true),
        Err(ParseError::Expected { token, .. }) => Ok(token == count),
        Err(ParseError::TooDeep { .. }) => Ok(false),
        Err(ParseError::OutOfMemory(refused)) => Err(refused),
    }
}

// What a fault of the lexer says: no words are cut from the text.
fn of_lexer(fault: LexError) -> Result<bool, OutOfMemory>
    ensures { result ≡ of_lexer fault }
{
    match fault {
        LexError::OutOfMemory(refused) => Err(refused),
        _ => Ok(false),
    }
}

// Of the tokens of a text.
fn tokens_go_on(alloc: Global, text: &[u8], tokens: &[Token]) -> Result<bool, OutOfMemory>
    requires text { length text.now ≤ PLACED_BYTES }
    requires tokens { AreTokens text.now tokens.now }
    ensures { IfOk result (λ yes. IsTrue yes ↔ (GoesOn (words tokens.now) × IsShallow (words tokens.now))) }
{
    of_parser(parse(alloc, text, tokens), tokens.len())
}

/// Whether the words of a text go on, and none is nested too deep.
pub fn goes_on(alloc: Global, text: &[u8]) -> Result<bool, OutOfMemory>
    requires { length text.now ≤ PLACED_BYTES }
    ensures { IfOk result (λ yes. (ws : List Word) → IsCutInto text.now ws →
        IsTrue yes ↔ (GoesOn ws × IsShallow ws)) }
{
    match lex(alloc, text) {
        Ok(tokens) => tokens_go_on(alloc, text, tokens.as_slice()),
        Err(fault) => of_lexer(fault),
    }
}
