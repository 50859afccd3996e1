//! Which hints have a name together.

use mace_hints::Hint;
use mace_lexer::{Keyword, Sign};

/// A name for hints that are told together: all of the first, and of the others any.
pub struct Group {
    /// What they are called.
    pub name: &'static [u8],
    /// All of these are told.
    pub all: &'static [Hint],
    /// These are meant by the name too.
    pub others: &'static [Hint],
}

const STATEMENT: [Hint; 9] = [
    Hint::Key(Keyword::Let),
    Hint::Key(Keyword::If),
    Hint::Key(Keyword::While),
    Hint::Key(Keyword::For),
    Hint::Key(Keyword::Require),
    Hint::Key(Keyword::Send),
    Hint::Key(Keyword::Spawn),
    Hint::Key(Keyword::Drop),
    Hint::Name,
];

const ENDINGS: [Hint; 2] = [Hint::Key(Keyword::Return), Hint::Finish];

const EXPRESSION: [Hint; 10] = [
    Hint::Number,
    Hint::Two,
    Hint::Text,
    Hint::Key(Keyword::True),
    Hint::Key(Keyword::False),
    Hint::Key(Keyword::Empty),
    Hint::Sign(Sign::LeftParen),
    Hint::Name,
    Hint::Sign(Sign::Minus),
    Hint::Sign(Sign::Bang),
];

const VALUE: [Hint; 7] = [
    Hint::Number,
    Hint::Two,
    Hint::Text,
    Hint::Key(Keyword::True),
    Hint::Key(Keyword::False),
    Hint::Key(Keyword::Empty),
    Hint::Sign(Sign::Minus),
];

const TYPE: [Hint; 4] = [
    Hint::Key(Keyword::Int),
    Hint::Key(Keyword::Bool),
    Hint::Key(Keyword::Text),
    Hint::Key(Keyword::Map),
];

const OPERATOR: [Hint; 13] = [
    Hint::Sign(Sign::Star),
    Hint::Sign(Sign::Slash),
    Hint::Sign(Sign::Percent),
    Hint::Sign(Sign::Plus),
    Hint::Sign(Sign::Minus),
    Hint::Sign(Sign::EqualsEquals),
    Hint::Sign(Sign::BangEquals),
    Hint::Sign(Sign::Less),
    Hint::Sign(Sign::LessEquals),
    Hint::Sign(Sign::Greater),
    Hint::Sign(Sign::GreaterEquals),
    Hint::Sign(Sign::AndAnd),
    Hint::Sign(Sign::OrOr),
];

const CALCULATION: [Hint; 7] = [
    Hint::Sign(Sign::Star),
    Hint::Sign(Sign::Slash),
    Hint::Sign(Sign::Percent),
    Hint::Sign(Sign::Plus),
    Hint::Sign(Sign::Minus),
    Hint::Sign(Sign::AndAnd),
    Hint::Sign(Sign::OrOr),
];

const NAME: [Hint; 1] = [Hint::Name];

const FINISH: [Hint; 1] = [Hint::Finish];

const NUMBER: [Hint; 2] = [Hint::Number, Hint::Two];

const TWO: [Hint; 1] = [Hint::Two];

const TEXT: [Hint; 1] = [Hint::Text];

const NONE: [Hint; 0] = [];

/// The groups, the larger ones first.
pub const GROUPS: [Group; 10] = [
    Group {
        name: b"a statement",
        all: &STATEMENT,
        others: &ENDINGS,
    },
    Group {
        name: b"an expression",
        all: &EXPRESSION,
        others: &FINISH,
    },
    Group {
        name: b"a value",
        all: &VALUE,
        others: &NONE,
    },
    Group {
        name: b"a type",
        all: &TYPE,
        others: &NONE,
    },
    Group {
        name: b"an operator",
        all: &OPERATOR,
        others: &NONE,
    },
    Group {
        name: b"an operator that doesn't compare",
        all: &CALCULATION,
        others: &NONE,
    },
    Group {
        name: b"a name",
        all: &NAME,
        others: &FINISH,
    },
    Group {
        name: b"a number",
        all: &NUMBER,
        others: &NONE,
    },
    Group {
        name: b"the number 2",
        all: &TWO,
        others: &NONE,
    },
    Group {
        name: b"a text in quotes",
        all: &TEXT,
        others: &NONE,
    },
];
