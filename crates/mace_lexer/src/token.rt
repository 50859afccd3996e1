//! What the lexer gives: words with their places.

use crate::keyword::Keyword;
use crate::sign::Sign;
use wave_base::{Span, Txt};

/// What a token says.
#[derive(Debug, Drop, PartialEq, Eq)]
pub enum Word {
    /// A name.
    Name(Txt),
    /// A keyword.
    Key(Keyword),
    /// A whole number that is not negative.
    Number(i64),
    /// The bytes that are meant, without quotes and escapes.
    Text(Txt),
    /// A sign.
    Sign(Sign),
}

/// A word, the place where it begins, and the bytes `from` to `to` that it takes in the text.
#[derive(Debug, Drop, PartialEq, Eq)]
pub struct Token {
    /// What it says.
    pub word: Word,
    /// Where it begins, by line and column.
    pub span: Span,
    /// The place of its first byte, from 0.
    pub from: usize,
    /// The place behind its last byte.
    pub to: usize,
}
