//! What the grammar could take where it stops a text.

use crate::phrase::phrase;
use mace_hints::{HintError, hints};
use mace_lexer::lex;
use mace_parser::{ParseError, parse};
use std::alloc::Global;
use wave_base::SERVICE_BYTES;

/// A line that tells what could stand there, if the grammar stops the text; else nothing.
pub fn expected_words(alloc: Global, text: &[u8]) -> Result<Vec<u8>, HintError> {
    if text.len() > SERVICE_BYTES {
        return Ok(Vec::new(alloc));
    }
    let Ok(tokens) = lex(alloc, text) else {
        return Ok(Vec::new(alloc));
    };
    let Err(ParseError::Expected { token, .. }) = parse(alloc, text, tokens.as_slice()) else {
        return Ok(Vec::new(alloc));
    };
    let found = hints(alloc, tokens.as_slice(), token)?;
    Ok(phrase(alloc, found.as_slice())?)
}
