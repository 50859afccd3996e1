// Fields and their initial values.

ghost use Rattle.std.specs.Prelude.{◌≡◌, ◌+◌, ◌-◌};
ghost use Rattle.std.specs.Option.{option_map};
ghost use Rattle.mace_grammar.specs.Words as words;
ghost use Rattle.mace_grammar.specs.Words.{edition_of};
ghost use Rattle.mace_grammar.specs.inner.Readers as reader;
ghost use Rattle.mace_parser.specs.inner.Gives.{Gives};

use crate::fault::{Fault, Read};
use crate::reader::Reader;
use crate::token::{key, kind, number, sign};
use mace_ast::{Initial, Literal, VarDecl};
use mace_grammar::INITIALS;
use mace_lexer::{Keyword, Sign, Token, Word};
use wave_base::{Seq, Span, push};

fn initial_of_key(at: Span, key: Keyword) -> Option<Initial>
    ensures { result ≡ words.initial_of_key at key }
{
    match key {
        Keyword::True => Some(Initial {
            at,
            value: Literal::Bool(true),
        }),
        Keyword::False => Some(Initial {
            at,
            value: Literal::Bool(false),
        }),
        Keyword::Empty => Some(Initial {
            at,
            value: Literal::Empty,
        }),
        _ => None,
    }
}

#[tactic(auto, unfolding(mace_grammar::specs::inner::Readers::minus_number_at))]
fn minus_number(tokens: &[Token]) -> Read<'_, Initial>
    ensures { Gives (λ x. (x.0, x.1.now)) result (reader.minus_number_at tokens.now) }
{
    let (at, rest) = sign(Sign::Minus, tokens)?;
    let (n, rest) = number(rest)?;
    let value = Literal::Minus(n);
    Ok((Initial { at, value }, rest))
}

impl Reader {
    fn literal_initial<'a>(self, tokens: &'a [Token]) -> Read<'a, Initial>
        ensures { Gives (λ x. (x.0, x.1.now)) result (reader.literal_initial_at tokens.now) }
    {
        let Some((t, rest)) = tokens.split_first() else {
            return Err(Fault::Stuck(tokens));
        };
        let at = t.span;
        match &t.word {
            Word::Number(n) => {
                let value = Literal::Number(*n);
                Ok((Initial { at, value }, rest))
            }
            Word::Text(text) => {
                let value = Literal::Text(text.copy(self.alloc)?);
                Ok((Initial { at, value }, rest))
            }
            Word::Key(key) => match initial_of_key(at, *key) {
                Some(initial) => Ok((initial, rest)),
                None => Err(Fault::Stuck(tokens)),
            },
            _ => Err(Fault::Stuck(tokens)),
        }
    }

    #[tactic(auto, unfolding(mace_grammar::specs::inner::Readers::initial_at))]
    fn initial<'a>(self, tokens: &'a [Token]) -> Read<'a, Initial>
        ensures { Gives (λ x. (x.0, x.1.now)) result (reader.initial_at (edition_of self.version) tokens.now) }
    {
        if self.sees_any(&INITIALS, tokens) {
            return self.literal_initial(tokens);
        }
        minus_number(tokens)
    }

    #[tactic(auto, unfolding(mace_grammar::specs::inner::Readers::var_at))]
    fn var<'a>(self, tokens: &'a [Token]) -> Read<'a, VarDecl>
        ensures { Gives (λ x. (x.0, x.1.now)) result (reader.var_at (edition_of self.version) tokens.now) }
    {
        let (at, rest) = key(Keyword::Var, tokens)?;
        let (name, rest) = self.name(rest)?;
        let (_, rest) = sign(Sign::Colon, rest)?;
        let (kind, rest) = kind(rest)?;
        let (_, rest) = sign(Sign::Equals, rest)?;
        let (initial, rest) = self.initial(rest)?;
        let (_, rest) = sign(Sign::Semicolon, rest)?;
        let var = VarDecl {
            at,
            name,
            kind,
            initial,
        };
        Ok((var, rest))
    }

    /// Fields, one behind the other.
    #[tactic(auto, unfolding(mace_grammar::specs::inner::Readers::vars_at))]
    pub fn vars<'a>(self, tokens: &'a [Token]) -> Read<'a, Seq<VarDecl>>
        ensures { Gives (λ x. (x.0, x.1.now)) result (reader.vars_at (edition_of self.version) tokens.now) }
    {
        let mut rest = tokens;
        let mut found = Vec::new(self.alloc);
        'turns: while self.sees_key(Keyword::Var, rest) {
            let (next, after) = self.var(rest)?;
            push(&mut found, next)?;
            rest = after;
        }
        Ok((Seq::from_vec(found), rest))
    }
}
