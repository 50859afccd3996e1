//! What script lines consist of.

use crate::bytes::Bytes;
use crate::quote::Quote;

/// A piece of a script line.
#[derive(Debug, Drop)]
pub enum Piece<'t> {
    /// Bytes without a blank, a quote, a parenthesis and a comma: a word, a number or a path, or what is none of these.
    Run(Bytes<'t>),
    /// A text in quotes.
    Text(Quote),
    /// `(`
    Open,
    /// `)`
    Close,
    /// `,`
    Comma,
}
