//! A service, as it is read: from bytes to declarations.

ghost use Rattle.std.specs.Prelude.{◌≤◌, length, IfOk};
ghost use Rattle.wave_base.specs.declared.limits.TheConstants.{SERVICE_BYTES};
ghost use Rattle.mace_lexer.specs.Lexed.{AreTokens};
ghost use Rattle.mace_ast.specs.Counts.{IsFew};
ghost use Rattle.mace_ast.specs.Decls.{service_tree};
ghost use Rattle.service_reader.specs.Parsing.{tree_read, Answers};

use crate::fault::TextFault;
use mace_ast::Service;
use mace_lexer::{Token, lex};
use mace_parser::parse;
use mace_printer::declarations_take_words;
use std::alloc::Global;
use wave_base::SERVICE_BYTES;

// The service that the tokens of a text spell.
fn spelled_service(alloc: Global, text: &[u8], tokens: &[Token]) -> Result<Service, TextFault>
    requires short { length text.now ≤ SERVICE_BYTES }
    requires tokens { AreTokens text.now tokens.now }
    ensures { Answers text.now (tree_read result) }
{
    Ok(parse(alloc, text, tokens)?)
}

// The service that a text spells, or the first of its faults.
fn read(alloc: Global, text: &[u8]) -> Result<Service, TextFault>
    ensures { Answers text.now (tree_read result) }
{
    if text.len() > SERVICE_BYTES {
        return Err(TextFault::TooLarge);
    }
    let tokens = lex(alloc, text)?;
    spelled_service(alloc, text, tokens.as_slice())
}

/// The service that a text spells. Of faults the first decides: the length, then the tokens, then the grammar. A text that
/// isn't too long has no words for more classes, methods and events than a service may have.
pub fn parse_text(alloc: Global, text: &[u8]) -> Result<Service, TextFault>
    ensures answer { Answers text.now (tree_read result) }
    ensures few { IfOk result (λ s. IsFew (service_tree s)) }
{
    declarations_take_words();
    read(alloc, text)
}
