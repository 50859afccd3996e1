// Contexts and the service.

ghost use Rattle.std.specs.Prelude.{◌≡◌, map};
ghost use Rattle.mace_ast.specs.Decls.{context_tree, service_tree};
ghost use Rattle.mace_grammar.specs.Words.{edition_of};
ghost use Rattle.mace_grammar.specs.inner.Readers as reader;
ghost use Rattle.mace_parser.specs.inner.Gives.{Gives};

use crate::fault::{Fault, Read};
use crate::reader::Reader;
use crate::token::{key, sign, two};
use mace_ast::{ContextDecl, Name, Service};
use mace_grammar::Class;
use mace_lexer::{Keyword, Sign, Token};
use std::alloc::Global;
use wave_base::{Seq, Span, Version, push};

impl Reader {
    #[cycle(context)]
    #[tactic(auto, unfolding(mace_grammar::specs::inner::Readers::one_context_at))]
    fn context<'a>(self, tokens: &'a [Token]) -> Read<'a, ContextDecl>
        ensures { Gives (λ x. (context_tree x.0, x.1.now)) result (reader.context_at (edition_of self.version) self.depth tokens.now) }
    {
        if self.depth == 0 {
            return Err(Fault::Stuck(tokens));
        }
        let inside = Reader {
            depth: self.depth - 1,
            ..self
        };
        let (at, rest) = key(Keyword::Context, tokens)?;
        let (name, rest) = self.name(rest)?;
        let (_, rest) = sign(Sign::LeftBracket, rest)?;
        let (_, rest) = key(Keyword::Int, rest)?;
        let (_, rest) = sign(Sign::RightBracket, rest)?;
        let (_, rest) = sign(Sign::LeftBrace, rest)?;
        let (vars, rest) = self.vars(rest)?;
        let (inner, rest) = inside.contexts(rest)?;
        let (methods, rest) = inside.methods(rest)?;
        let (_, rest) = sign(Sign::RightBrace, rest)?;
        Ok((ContextDecl::new(at, name, vars, inner, methods), rest))
    }

    // Contexts, one behind the other.
    #[cycle(context)]
    #[tactic(auto, unfolding(mace_grammar::specs::inner::Readers::contexts_in))]
    fn contexts<'a>(self, tokens: &'a [Token]) -> Read<'a, Vec<ContextDecl>>
        ensures { Gives (λ x. (map context_tree x.0.items, x.1.now)) result (reader.contexts_in (edition_of self.version) (reader.context_at (edition_of self.version) self.depth) tokens.now) }
    {
        let mut rest = tokens;
        let mut found = Vec::new(self.alloc);
        'turns: while self.sees_key(Keyword::Context, rest) {
            let (next, after) = self.context(rest)?;
            push(&mut found, next)?;
            rest = after;
        }
        Ok((found, rest))
    }

    // The version: the second where its number stands there, and else the first.
    #[tactic(auto, unfolding(mace_grammar::specs::inner::Readers::version_at))]
    fn version_number(self, tokens: &[Token]) -> Read<'_, Version>
        requires { self.version ≡ Version.First }
        ensures { Gives (λ x. (x.0, x.1.now)) result (reader.version_at tokens.now) }
    {
        if !self.sees_class(Class::Number, tokens) {
            return Ok((Version::First, tokens));
        }
        two(tokens)
    }

    // What a service has in its braces, in its version.
    #[tactic(auto, unfolding(mace_grammar::specs::inner::Readers::members_at))]
    fn members<'a>(self, at: Span, name: Name, tokens: &'a [Token]) -> Read<'a, Service>
        ensures { Gives (λ x. (service_tree x.0, x.1.now)) result (reader.members_at self.depth self.version at name tokens.now) }
    {
        let (_, rest) = sign(Sign::LeftBrace, tokens)?;
        let (vars, rest) = self.vars(rest)?;
        let (inner, rest) = self.contexts(rest)?;
        let (methods, rest) = self.methods(rest)?;
        let (events, rest) = self.events(rest)?;
        let (_, rest) = sign(Sign::RightBrace, rest)?;
        let service = Service {
            at,
            name,
            version: self.version,
            vars,
            contexts: Seq::from_vec(inner),
            methods,
            events,
        };
        Ok((service, rest))
    }
}

/// A service. `depth` is more than the tokens.
#[tactic(auto, unfolding(mace_grammar::specs::inner::Readers::service_at))]
pub fn service<'a>(alloc: Global, depth: usize, tokens: &'a [Token]) -> Read<'a, Service>
    ensures { Gives (λ x. (service_tree x.0, x.1.now)) result (reader.service_at depth tokens.now) }
{
    let first = Reader {
        alloc,
        depth,
        version: Version::First,
    };
    let (at, rest) = key(Keyword::Service, tokens)?;
    let (name, rest) = first.name(rest)?;
    let (version, rest) = first.version_number(rest)?;
    let reader = Reader { version, ..first };
    reader.members(at, name, rest)
}
