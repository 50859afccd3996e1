//! Names, as they are written.

use wave_base::{Span, Txt};

/// A name, with the place of its token.
#[derive(Debug, Drop, PartialEq, Eq)]
pub struct Name {
    /// Where the token stands.
    pub at: Span,
    /// The bytes of the name.
    pub text: Txt,
}
