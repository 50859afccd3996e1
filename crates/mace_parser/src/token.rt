// Readers of one token.

ghost use Rattle.std.specs.Prelude.{◌≡◌};
ghost use Rattle.mace_ast.specs.Exprs.{expr_tree};
ghost use Rattle.mace_grammar.specs.Words as words;
ghost use Rattle.mace_grammar.specs.inner.Readers as reader;
ghost use Rattle.mace_parser.specs.inner.Gives.{Gives};

use crate::fault::{Fault, Read};
use crate::reader::Reader;
use mace_ast::Name;
use mace_lexer::{Keyword, Sign, Token, Word};
use wave_base::{Kind, Span, Txt, Version};

/// This keyword, and its place.
pub fn key<'a>(want: Keyword, tokens: &'a [Token]) -> Read<'a, Span>
    ensures { Gives (λ x. (x.0, x.1.now)) result (reader.key_at want tokens.now) }
{
    let Some((t, rest)) = tokens.split_first() else {
        return Err(Fault::Stuck(tokens));
    };
    match t.word {
        Word::Key(k) if k == want => Ok((t.span, rest)),
        _ => Err(Fault::Stuck(tokens)),
    }
}

/// This sign, and its place.
pub fn sign<'a>(want: Sign, tokens: &'a [Token]) -> Read<'a, Span>
    ensures { Gives (λ x. (x.0, x.1.now)) result (reader.sign_at want tokens.now) }
{
    let Some((t, rest)) = tokens.split_first() else {
        return Err(Fault::Stuck(tokens));
    };
    match t.word {
        Word::Sign(s) if s == want => Ok((t.span, rest)),
        _ => Err(Fault::Stuck(tokens)),
    }
}

// Whether a text is the word that ends an event early.
fn is_finish(text: &Txt) -> bool
    ensures { result ≡ words.is_finish text.now }
{
    text.bytes() == b"finish".as_slice()
}

/// Whether a word is a name in this version.
pub fn is_name(version: Version, text: &Txt) -> bool
    ensures { result ≡ (words.edition_of version).is_name text.now }
{
    match version {
        Version::First => true,
        Version::Second => !is_finish(text),
    }
}

/// Whether this version has `return` and `finish` as statements.
pub fn is_early(version: Version) -> bool
    ensures { result ≡ (words.edition_of version).early }
{
    match version {
        Version::First => false,
        Version::Second => true,
    }
}

/// The number of the second version.
pub fn two(tokens: &[Token]) -> Read<'_, Version>
    ensures { Gives (λ x. (x.0, x.1.now)) result (reader.two_at tokens.now) }
{
    let Some((t, rest)) = tokens.split_first() else {
        return Err(Fault::Stuck(tokens));
    };
    match t.word {
        Word::Number(n) if n == 2 => Ok((Version::Second, rest)),
        _ => Err(Fault::Stuck(tokens)),
    }
}

/// A number.
pub fn number(tokens: &[Token]) -> Read<'_, i64>
    ensures { Gives (λ x. (x.0, x.1.now)) result (reader.number_at tokens.now) }
{
    let Some((t, rest)) = tokens.split_first() else {
        return Err(Fault::Stuck(tokens));
    };
    match t.word {
        Word::Number(n) => Ok((n, rest)),
        _ => Err(Fault::Stuck(tokens)),
    }
}

fn kind_of_key(key: Keyword) -> Option<Kind>
    ensures { result ≡ words.kind_of_key key }
{
    match key {
        Keyword::Int => Some(Kind::Int),
        Keyword::Bool => Some(Kind::Bool),
        Keyword::Text => Some(Kind::Text),
        Keyword::Map => Some(Kind::Map),
        _ => None,
    }
}

/// The keyword of a kind.
pub fn kind(tokens: &[Token]) -> Read<'_, Kind>
    ensures { Gives (λ x. (x.0, x.1.now)) result (reader.type_at tokens.now) }
{
    let Some((t, rest)) = tokens.split_first() else {
        return Err(Fault::Stuck(tokens));
    };
    let Word::Key(key) = t.word else {
        return Err(Fault::Stuck(tokens));
    };
    match kind_of_key(key) {
        Some(kind) => Ok((kind, rest)),
        None => Err(Fault::Stuck(tokens)),
    }
}

impl Reader {
    /// A name.
    pub fn name<'a>(self, tokens: &'a [Token]) -> Read<'a, Name>
        ensures { Gives (λ x. (x.0, x.1.now)) result (reader.name_at (words.edition_of self.version) tokens.now) }
    {
        let Some((t, rest)) = tokens.split_first() else {
            return Err(Fault::Stuck(tokens));
        };
        match &t.word {
            Word::Name(text) if is_name(self.version, text) => {
                let text = text.copy(self.alloc)?;
                Ok((Name { at: t.span, text }, rest))
            }
            _ => Err(Fault::Stuck(tokens)),
        }
    }

    /// The keyword `return` as a statement.
    pub fn leave(self, tokens: &[Token]) -> Read<'_, Span>
        ensures { Gives (λ x. (x.0, x.1.now)) result (reader.leave_at (words.edition_of self.version) tokens.now) }
    {
        if !is_early(self.version) {
            return Err(Fault::Stuck(tokens));
        }
        key(Keyword::Return, tokens)
    }

    /// The word `finish`.
    pub fn finish(self, tokens: &[Token]) -> Read<'_, Span>
        ensures { Gives (λ x. (x.0, x.1.now)) result (reader.finish_at (words.edition_of self.version) tokens.now) }
    {
        let Some((t, rest)) = tokens.split_first() else {
            return Err(Fault::Stuck(tokens));
        };
        match &t.word {
            Word::Name(text) if is_early(self.version) && is_finish(text) => Ok((t.span, rest)),
            _ => Err(Fault::Stuck(tokens)),
        }
    }

    /// A text.
    pub fn text<'a>(self, tokens: &'a [Token]) -> Read<'a, Txt>
        ensures { Gives (λ x. (x.0, x.1.now)) result (reader.text_at tokens.now) }
    {
        let Some((t, rest)) = tokens.split_first() else {
            return Err(Fault::Stuck(tokens));
        };
        match &t.word {
            Word::Text(text) => Ok((text.copy(self.alloc)?, rest)),
            _ => Err(Fault::Stuck(tokens)),
        }
    }

    /// `.f`
    pub fn field<'a>(self, tokens: &'a [Token]) -> Read<'a, Name>
        ensures { Gives (λ x. (x.0, x.1.now)) result (reader.field_at (words.edition_of self.version) tokens.now) }
    {
        let (_, rest) = sign(Sign::Dot, tokens)?;
        self.name(rest)
    }
}
