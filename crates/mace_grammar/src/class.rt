// What the grammar tells apart, and what its parts may begin with.

use mace_lexer::{Keyword, Sign};

/// What the grammar tells apart of the words.
#[derive(Clone, Copy, PartialEq, Eq)]
pub enum Class {
    /// A name.
    Name,
    /// A number.
    Number,
    /// A quoted text.
    Text,
    /// `return` as a statement, which version 2 has.
    Leave,
    /// The word `finish`, which is no name in version 2.
    Finish,
    /// Any other keyword.
    Key(Keyword),
    /// A sign.
    Sign(Sign),
}

/// What an initial value begins with but for a minus, and so a literal.
pub const INITIALS: [Class; 5] = [
    Class::Number,
    Class::Text,
    Class::Key(Keyword::True),
    Class::Key(Keyword::False),
    Class::Key(Keyword::Empty),
];

/// What an expression begins with.
pub const EXPR_STARTS: [Class; 9] = [
    Class::Number,
    Class::Text,
    Class::Key(Keyword::True),
    Class::Key(Keyword::False),
    Class::Key(Keyword::Empty),
    Class::Sign(Sign::LeftParen),
    Class::Name,
    Class::Sign(Sign::Minus),
    Class::Sign(Sign::Bang),
];

/// The operators before one operand.
pub const UNARY_OPS: [Class; 2] = [Class::Sign(Sign::Minus), Class::Sign(Sign::Bang)];

/// The operators of products.
pub const PRODUCT_OPS: [Class; 3] = [
    Class::Sign(Sign::Star),
    Class::Sign(Sign::Slash),
    Class::Sign(Sign::Percent),
];

/// The operators of sums.
pub const SUM_OPS: [Class; 2] = [Class::Sign(Sign::Plus), Class::Sign(Sign::Minus)];

/// The operators that compare.
pub const COMPARISON_OPS: [Class; 6] = [
    Class::Sign(Sign::EqualsEquals),
    Class::Sign(Sign::BangEquals),
    Class::Sign(Sign::Less),
    Class::Sign(Sign::LessEquals),
    Class::Sign(Sign::Greater),
    Class::Sign(Sign::GreaterEquals),
];

/// What a statement begins with.
pub const STMT_STARTS: [Class; 11] = [
    Class::Key(Keyword::Let),
    Class::Key(Keyword::If),
    Class::Key(Keyword::While),
    Class::Key(Keyword::For),
    Class::Leave,
    Class::Finish,
    Class::Key(Keyword::Require),
    Class::Key(Keyword::Send),
    Class::Key(Keyword::Spawn),
    Class::Key(Keyword::Drop),
    Class::Name,
];
