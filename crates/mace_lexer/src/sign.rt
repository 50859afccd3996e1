//! The signs of the language.

ghost use Rattle.std.specs.Prelude.{◌≡◌, Some};
ghost use Rattle.mace_lexer.specs.Codes.{sign_code};
ghost use Rattle.mace_lexer.specs.Words.{sign, sign_bytes};

use crate::entry::entry_bytes;

/// A sign of one or two bytes.
#[derive(Clone, Copy, Debug, PartialEq, Eq)]
pub enum Sign {
    /// `{`
    LeftBrace,
    /// `}`
    RightBrace,
    /// `(`
    LeftParen,
    /// `)`
    RightParen,
    /// `[`
    LeftBracket,
    /// `]`
    RightBracket,
    /// `,`
    Comma,
    /// `;`
    Semicolon,
    /// `:`
    Colon,
    /// `.`
    Dot,
    /// `=`
    Equals,
    /// `==`
    EqualsEquals,
    /// `!=`
    BangEquals,
    /// `<`
    Less,
    /// `<=`
    LessEquals,
    /// `>`
    Greater,
    /// `>=`
    GreaterEquals,
    /// `+`
    Plus,
    /// `-`
    Minus,
    /// `*`
    Star,
    /// `/`
    Slash,
    /// `%`
    Percent,
    /// `&&`
    AndAnd,
    /// `||`
    OrOr,
    /// `!`
    Bang,
}

/// How each sign is written.
pub const SIGNS: [(&[u8], Sign); 25] = [
    (b"{", Sign::LeftBrace),
    (b"}", Sign::RightBrace),
    (b"(", Sign::LeftParen),
    (b")", Sign::RightParen),
    (b"[", Sign::LeftBracket),
    (b"]", Sign::RightBracket),
    (b",", Sign::Comma),
    (b";", Sign::Semicolon),
    (b":", Sign::Colon),
    (b".", Sign::Dot),
    (b"=", Sign::Equals),
    (b"==", Sign::EqualsEquals),
    (b"!=", Sign::BangEquals),
    (b"<", Sign::Less),
    (b"<=", Sign::LessEquals),
    (b">", Sign::Greater),
    (b">=", Sign::GreaterEquals),
    (b"+", Sign::Plus),
    (b"-", Sign::Minus),
    (b"*", Sign::Star),
    (b"/", Sign::Slash),
    (b"%", Sign::Percent),
    (b"&&", Sign::AndAnd),
    (b"||", Sign::OrOr),
    (b"!", Sign::Bang),
];

impl Sign {
    /// The sign's place in the table.
    pub fn code(self) -> u8
        ensures { result ≡ sign_code self }
    {
        self as u8
    }

    /// How the sign is written.
    #[tactic(auto, using(crate::proofs::Tables::sign_again), unfolding(crate::specs::Words::sign_bytes))]
    pub fn bytes(self) -> &'static [u8]
        ensures value { result.now ≡ sign_bytes self }
        ensures read_back { sign result.now ≡ Some self }
    {
        entry_bytes(&SIGNS, usize::from(self.code()))
    }
}
