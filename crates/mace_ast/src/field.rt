//! Fields, as they are written.

use crate::name::Name;
use wave_base::{Kind, Span, Txt};

/// A field of a context, with the place of `var`.
#[derive(Debug, Drop, PartialEq, Eq)]
pub struct VarDecl {
    /// Where `var` stands.
    pub at: Span,
    /// The name of the field.
    pub name: Name,
    /// The kind of its values.
    pub kind: Kind,
    /// What it begins with.
    pub initial: Initial,
}

/// The value that a field begins with, with the place of its first token.
#[derive(Debug, Drop, PartialEq, Eq)]
pub struct Initial {
    /// Where its first token stands.
    pub at: Span,
    /// What is written there.
    pub value: Literal,
}

/// A value that is written out.
#[derive(Debug, Drop, PartialEq, Eq)]
pub enum Literal {
    /// `n`
    Number(i64),
    /// `-n`
    Minus(i64),
    /// The bytes that are meant, without quotes and escapes.
    Text(Txt),
    /// `true` or `false`
    Bool(bool),
    /// `empty`, a map with no entry
    Empty,
}
