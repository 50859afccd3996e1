// Methods, and what they share with events.

ghost use Rattle.std.specs.Prelude.{◌≡◌, map};
ghost use Rattle.std.specs.Option.{option_map};
ghost use Rattle.mace_ast.specs.Decls.{last_tree, method_tree};
ghost use Rattle.mace_ast.specs.Stmts.{stmt_tree};
ghost use Rattle.mace_grammar.specs.Words.{edition_of};
ghost use Rattle.mace_grammar.specs.inner.Readers as reader;
ghost use Rattle.mace_parser.specs.inner.Gives.{Gives};

use crate::fault::Read;
use crate::reader::Reader;
use crate::token::{key, kind, sign};
use mace_ast::{Last, MethodDecl, Param, Stmt};
use mace_grammar::Class;
use mace_lexer::{Keyword, Sign, Token};
use wave_base::{Kind, Seq, push};

impl Reader {
    #[tactic(auto, unfolding(mace_grammar::specs::inner::Readers::param_at))]
    fn param<'a>(self, tokens: &'a [Token]) -> Read<'a, Param>
        ensures { Gives (λ x. (x.0, x.1.now)) result (reader.param_at (edition_of self.version) tokens.now) }
    {
        let (name, rest) = self.name(tokens)?;
        let (_, rest) = sign(Sign::Colon, rest)?;
        let (kind, rest) = kind(rest)?;
        Ok((Param { name, kind }, rest))
    }

    #[tactic(auto, unfolding(mace_grammar::specs::inner::Readers::next_at))]
    fn next_param<'a>(self, tokens: &'a [Token]) -> Read<'a, Param>
        ensures { Gives (λ x. (x.0, x.1.now)) result (reader.next_at (edition_of self.version) (reader.param_at (edition_of self.version)) tokens.now) }
    {
        let (_, rest) = sign(Sign::Comma, tokens)?;
        self.param(rest)
    }

    #[tactic(auto, unfolding(mace_grammar::specs::inner::Readers::list_at))]
    fn param_list<'a>(self, tokens: &'a [Token]) -> Read<'a, Vec<Param>>
        ensures { Gives (λ x. (x.0.items, x.1.now)) result (reader.list_at (edition_of self.version) (reader.param_at (edition_of self.version)) tokens.now) }
    {
        let (first, mut rest) = self.param(tokens)?;
        let mut found = Vec::new(self.alloc);
        push(&mut found, first)?;
        'turns: while self.sees_sign(Sign::Comma, rest) {
            let (next, after) = self.next_param(rest)?;
            push(&mut found, next)?;
            rest = after;
        }
        Ok((found, rest))
    }

    /// Parameters in their parentheses.
    #[tactic(auto, unfolding(mace_grammar::specs::inner::Readers::params_at, mace_grammar::specs::inner::Readers::separated_at))]
    pub fn params<'a>(self, tokens: &'a [Token]) -> Read<'a, Seq<Param>>
        ensures { Gives (λ x. (x.0, x.1.now)) result (reader.params_at (edition_of self.version) tokens.now) }
    {
        let (_, rest) = sign(Sign::LeftParen, tokens)?;
        if !self.sees_class(Class::Name, rest) {
            let (_, rest) = sign(Sign::RightParen, rest)?;
            return Ok((Seq::new(self.alloc), rest));
        }
        let (found, rest) = self.param_list(rest)?;
        let (_, rest) = sign(Sign::RightParen, rest)?;
        Ok((Seq::from_vec(found), rest))
    }

    /// `: T`, where it is there.
    #[tactic(auto, unfolding(mace_grammar::specs::inner::Readers::result_at))]
    pub fn result_kind(self, tokens: &[Token]) -> Read<'_, Option<Kind>>
        ensures { Gives (λ x. (x.0, x.1.now)) result (reader.result_at (edition_of self.version) tokens.now) }
    {
        if !self.sees_sign(Sign::Colon, tokens) {
            return Ok((None, tokens));
        }
        let (_, rest) = sign(Sign::Colon, tokens)?;
        let (kind, rest) = kind(rest)?;
        Ok((Some(kind), rest))
    }

    /// The keyword that ends a method or an event, with a value behind it, where it is there.
    #[tactic(auto, unfolding(mace_grammar::specs::inner::Readers::last_at, mace_grammar::specs::inner::Readers::maybe_last_at))]
    pub fn maybe_last<'a>(self, want: Keyword, tokens: &'a [Token]) -> Read<'a, Option<Last>>
        ensures { Gives (λ x. (option_map last_tree x.0, x.1.now)) result (reader.maybe_last_at (edition_of self.version) want self.depth tokens.now) }
    {
        if !self.sees_key(want, tokens) {
            return Ok((None, tokens));
        }
        let (at, rest) = key(want, tokens)?;
        let (value, rest) = self.any_expr(rest)?;
        let (_, rest) = sign(Sign::Semicolon, rest)?;
        Ok((Some(Last { at, value }), rest))
    }

    #[tactic(auto, unfolding(mace_grammar::specs::inner::Readers::stmts_at))]
    fn any_stmts<'a>(self, tokens: &'a [Token]) -> Read<'a, Seq<Stmt>>
        ensures { Gives (λ x. (map stmt_tree x.0, x.1.now)) result (reader.stmts_at (edition_of self.version) self.depth tokens.now) }
    {
        let (found, rest) = self.stmts(tokens)?;
        Ok((Seq::from_vec(found), rest))
    }

    #[tactic(auto, unfolding(mace_grammar::specs::inner::Readers::method_at))]
    fn method<'a>(self, tokens: &'a [Token]) -> Read<'a, MethodDecl>
        ensures { Gives (λ x. (method_tree x.0, x.1.now)) result (reader.method_at (edition_of self.version) self.depth tokens.now) }
    {
        let (at, rest) = key(Keyword::Method, tokens)?;
        let (name, rest) = self.name(rest)?;
        let (params, rest) = self.params(rest)?;
        let (kind, rest) = self.result_kind(rest)?;
        let (_, rest) = sign(Sign::LeftBrace, rest)?;
        let (body, rest) = self.any_stmts(rest)?;
        let (last, rest) = self.maybe_last(Keyword::Return, rest)?;
        let (_, rest) = sign(Sign::RightBrace, rest)?;
        let method = MethodDecl {
            at,
            name,
            params,
            result: kind,
            body,
            last,
        };
        Ok((method, rest))
    }

    /// Methods, one behind the other.
    #[tactic(auto, unfolding(mace_grammar::specs::inner::Readers::methods_at))]
    pub fn methods<'a>(self, tokens: &'a [Token]) -> Read<'a, Seq<MethodDecl>>
        ensures { Gives (λ x. (map method_tree x.0, x.1.now)) result (reader.methods_at (edition_of self.version) self.depth tokens.now) }
    {
        let mut rest = tokens;
        let mut found = Vec::new(self.alloc);
        'turns: while self.sees_key(Keyword::Method, rest) {
            let (next, after) = self.method(rest)?;
            push(&mut found, next)?;
            rest = after;
        }
        Ok((Seq::from_vec(found), rest))
    }
}
