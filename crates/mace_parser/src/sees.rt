// What is next.

ghost use Rattle.std.specs.Prelude.{◌≡◌, [], ◌∷◌};
ghost use Rattle.mace_grammar.specs.Levels.{tighter_ones};
ghost use Rattle.mace_grammar.specs.Words.{edition_of};
ghost use Rattle.mace_grammar.specs.inner.Classes.{kind};
ghost use Rattle.mace_grammar.specs.inner.Run.{sees};
ghost use Rattle.mace_grammar.specs.inner.Readers as reader;

use crate::class::class_of;
use crate::reader::Reader;
use mace_grammar::{COMPARISON_OPS, Class, Level, PRODUCT_OPS, SUM_OPS};
use mace_lexer::{Keyword, Sign, Token};

impl Reader {
    /// Whether a word of one of these classes is next.
    pub fn sees_any(self, set: &[Class], tokens: &[Token]) -> bool
        ensures { result ≡ sees (kind (edition_of self.version)) set.now tokens.now }
    {
        match tokens.first() {
            None => false,
            Some(t) => set.contains(&class_of(self.version, &t.word)),
        }
    }

    /// Whether a word of this class is next.
    pub fn sees_class(self, want: Class, tokens: &[Token]) -> bool
        ensures { result ≡ sees (kind (edition_of self.version)) (want ∷ []) tokens.now }
    {
        self.sees_any(&[want], tokens)
    }

    /// Whether this keyword is next.
    pub fn sees_key(self, want: Keyword, tokens: &[Token]) -> bool
        ensures { result ≡ sees (kind (edition_of self.version)) (reader.if_key want) tokens.now }
    {
        self.sees_class(Class::Key(want), tokens)
    }

    /// Whether this sign is next.
    pub fn sees_sign(self, want: Sign, tokens: &[Token]) -> bool
        ensures { result ≡ sees (kind (edition_of self.version)) (reader.if_sign want) tokens.now }
    {
        self.sees_class(Class::Sign(want), tokens)
    }

    /// Whether an operator of this level is next.
    pub fn sees_operator(self, level: Level, tokens: &[Token]) -> bool
        ensures { result ≡ sees (kind (edition_of self.version)) (reader.operators_of (tighter_ones level)) tokens.now }
    {
        match level {
            Level::Or => self.sees_sign(Sign::OrOr, tokens),
            Level::And => self.sees_sign(Sign::AndAnd, tokens),
            Level::Comparison => self.sees_any(&COMPARISON_OPS, tokens),
            Level::Sum => self.sees_any(&SUM_OPS, tokens),
            Level::Product => self.sees_any(&PRODUCT_OPS, tokens),
        }
    }
}
