//! The words that no name may be.

ghost use Rattle.std.specs.Prelude.{◌≡◌, Some};
ghost use Rattle.mace_lexer.specs.Codes.{key_code};
ghost use Rattle.mace_lexer.specs.Words.{keyword, keyword_bytes};

use crate::entry::entry_bytes;

/// A word that no name may be.
#[derive(Clone, Copy, Debug, PartialEq, Eq)]
pub enum Keyword {
    /// `service`
    Service,
    /// `context`
    Context,
    /// `var`
    Var,
    /// `method`
    Method,
    /// `event`
    Event,
    /// `here`
    Here,
    /// `down`
    Down,
    /// `reply`
    Reply,
    /// `let`
    Let,
    /// `if`
    If,
    /// `else`
    Else,
    /// `while`
    While,
    /// `for`
    For,
    /// `in`
    In,
    /// `to`
    To,
    /// `require`
    Require,
    /// `send`
    Send,
    /// `spawn`
    Spawn,
    /// `drop`
    Drop,
    /// `return`
    Return,
    /// `true`
    True,
    /// `false`
    False,
    /// `empty`
    Empty,
    /// `int`
    Int,
    /// `bool`
    Bool,
    /// `text`
    Text,
    /// `map`
    Map,
}

/// How each keyword is written.
pub const KEYWORDS: [(&[u8], Keyword); 27] = [
    (b"service", Keyword::Service),
    (b"context", Keyword::Context),
    (b"var", Keyword::Var),
    (b"method", Keyword::Method),
    (b"event", Keyword::Event),
    (b"here", Keyword::Here),
    (b"down", Keyword::Down),
    (b"reply", Keyword::Reply),
    (b"let", Keyword::Let),
    (b"if", Keyword::If),
    (b"else", Keyword::Else),
    (b"while", Keyword::While),
    (b"for", Keyword::For),
    (b"in", Keyword::In),
    (b"to", Keyword::To),
    (b"require", Keyword::Require),
    (b"send", Keyword::Send),
    (b"spawn", Keyword::Spawn),
    (b"drop", Keyword::Drop),
    (b"return", Keyword::Return),
    (b"true", Keyword::True),
    (b"false", Keyword::False),
    (b"empty", Keyword::Empty),
    (b"int", Keyword::Int),
    (b"bool", Keyword::Bool),
    (b"text", Keyword::Text),
    (b"map", Keyword::Map),
];

impl Keyword {
    /// The keyword's place in the table.
    pub fn code(self) -> u8
        ensures { result ≡ key_code self }
    {
        self as u8
    }

    /// How the keyword is written.
    #[tactic(auto, using(crate::proofs::Tables::keyword_again), unfolding(crate::specs::Words::keyword_bytes))]
    pub fn bytes(self) -> &'static [u8]
        ensures value { result.now ≡ keyword_bytes self }
        ensures read_back { keyword result.now ≡ Some self }
    {
        entry_bytes(&KEYWORDS, usize::from(self.code()))
    }
}
