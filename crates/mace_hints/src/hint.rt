//! What could stand next: what a hint tells apart of the words.

use mace_lexer::{Keyword, Sign};

/// What a hint tells apart of the words.
#[derive(Clone, Copy, Debug, PartialEq, Eq)]
pub enum Hint {
    /// A name.
    Name,
    /// The word `finish`, which is no name in version 2.
    Finish,
    /// A number.
    Number,
    /// The number 2, which is also that of a version.
    Two,
    /// A quoted text.
    Text,
    /// A keyword.
    Key(Keyword),
    /// A sign.
    Sign(Sign),
}

/// Each hint.
pub const HINTS: [Hint; 57] = [
    Hint::Name,
    Hint::Finish,
    Hint::Number,
    Hint::Two,
    Hint::Text,
    Hint::Key(Keyword::Service),
    Hint::Key(Keyword::Context),
    Hint::Key(Keyword::Var),
    Hint::Key(Keyword::Method),
    Hint::Key(Keyword::Event),
    Hint::Key(Keyword::Here),
    Hint::Key(Keyword::Down),
    Hint::Key(Keyword::Reply),
    Hint::Key(Keyword::Let),
    Hint::Key(Keyword::If),
    Hint::Key(Keyword::Else),
    Hint::Key(Keyword::While),
    Hint::Key(Keyword::For),
    Hint::Key(Keyword::In),
    Hint::Key(Keyword::To),
    Hint::Key(Keyword::Require),
    Hint::Key(Keyword::Send),
    Hint::Key(Keyword::Spawn),
    Hint::Key(Keyword::Drop),
    Hint::Key(Keyword::Return),
    Hint::Key(Keyword::True),
    Hint::Key(Keyword::False),
    Hint::Key(Keyword::Empty),
    Hint::Key(Keyword::Int),
    Hint::Key(Keyword::Bool),
    Hint::Key(Keyword::Text),
    Hint::Key(Keyword::Map),
    Hint::Sign(Sign::LeftBrace),
    Hint::Sign(Sign::RightBrace),
    Hint::Sign(Sign::LeftParen),
    Hint::Sign(Sign::RightParen),
    Hint::Sign(Sign::LeftBracket),
    Hint::Sign(Sign::RightBracket),
    Hint::Sign(Sign::Comma),
    Hint::Sign(Sign::Semicolon),
    Hint::Sign(Sign::Colon),
    Hint::Sign(Sign::Dot),
    Hint::Sign(Sign::Equals),
    Hint::Sign(Sign::EqualsEquals),
    Hint::Sign(Sign::BangEquals),
    Hint::Sign(Sign::Less),
    Hint::Sign(Sign::LessEquals),
    Hint::Sign(Sign::Greater),
    Hint::Sign(Sign::GreaterEquals),
    Hint::Sign(Sign::Plus),
    Hint::Sign(Sign::Minus),
    Hint::Sign(Sign::Star),
    Hint::Sign(Sign::Slash),
    Hint::Sign(Sign::Percent),
    Hint::Sign(Sign::AndAnd),
    Hint::Sign(Sign::OrOr),
    Hint::Sign(Sign::Bang),
];
