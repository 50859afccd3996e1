// Statements, and those with blocks.

ghost use Rattle.std.specs.Prelude.{◌≡◌, map};
ghost use Rattle.std.specs.Option.{option_map};
ghost use Rattle.mace_ast.specs.Stmts.{stmt_tree};
ghost use Rattle.mace_grammar.specs.Words.{edition_of};
ghost use Rattle.mace_grammar.specs.inner.Readers as reader;
ghost use Rattle.mace_parser.specs.inner.Gives.{Gives};

use crate::fault::{Fault, Read};
use crate::reader::Reader;
use crate::token::{key, sign};
use mace_ast::Stmt;
use mace_grammar::STMT_STARTS;
use mace_lexer::{Keyword, Sign, Token};
use wave_base::push;

impl Reader {
    #[cycle(stmt)]
    #[tactic(auto, unfolding(mace_grammar::specs::inner::Readers::any_stmt_at))]
    fn stmt<'a>(self, tokens: &'a [Token]) -> Read<'a, Stmt>
        ensures { Gives (λ x. (stmt_tree x.0, x.1.now)) result (reader.stmt_at (edition_of self.version) self.depth tokens.now) }
    {
        if self.depth == 0 {
            return Err(Fault::Stuck(tokens));
        }
        let inner = Reader {
            depth: self.depth - 1,
            ..self
        };
        if self.sees_key(Keyword::Let, tokens) {
            return inner.let_stmt(tokens);
        }
        if self.sees_key(Keyword::If, tokens) {
            return inner.if_stmt(tokens);
        }
        if self.sees_key(Keyword::While, tokens) {
            return inner.while_stmt(tokens);
        }
        if self.sees_key(Keyword::For, tokens) {
            return inner.for_stmt(tokens);
        }
        inner.ending(tokens)
    }

    #[cycle(stmt)]
    #[tactic(auto, unfolding(mace_grammar::specs::inner::Readers::if_at))]
    fn if_stmt<'a>(self, tokens: &'a [Token]) -> Read<'a, Stmt>
        ensures { Gives (λ x. (stmt_tree x.0, x.1.now)) result (reader.if_at (edition_of self.version) self.depth (reader.stmt_at (edition_of self.version) self.depth) tokens.now) }
    {
        let (at, rest) = key(Keyword::If, tokens)?;
        let (test, rest) = self.any_expr(rest)?;
        let (body, rest) = self.block(rest)?;
        let (other, rest) = self.maybe_else(rest)?;
        Ok((Stmt::if_else(at, test, body, other), rest))
    }

    #[cycle(stmt)]
    #[tactic(auto, unfolding(mace_grammar::specs::inner::Readers::else_at))]
    fn maybe_else<'a>(self, tokens: &'a [Token]) -> Read<'a, Option<Vec<Stmt>>>
        ensures { Gives (λ x. (option_map (λ b. map stmt_tree b.items) x.0, x.1.now)) result (reader.else_at (edition_of self.version) (reader.block_at (edition_of self.version) (reader.stmt_at (edition_of self.version) self.depth)) tokens.now) }
    {
        if !self.sees_key(Keyword::Else, tokens) {
            return Ok((None, tokens));
        }
        let (_, rest) = key(Keyword::Else, tokens)?;
        let (body, rest) = self.block(rest)?;
        Ok((Some(body), rest))
    }

    #[cycle(stmt)]
    #[tactic(auto, unfolding(mace_grammar::specs::inner::Readers::while_at))]
    fn while_stmt<'a>(self, tokens: &'a [Token]) -> Read<'a, Stmt>
        ensures { Gives (λ x. (stmt_tree x.0, x.1.now)) result (reader.while_at (edition_of self.version) self.depth (reader.stmt_at (edition_of self.version) self.depth) tokens.now) }
    {
        let (at, rest) = key(Keyword::While, tokens)?;
        let (test, rest) = self.any_expr(rest)?;
        let (body, rest) = self.block(rest)?;
        Ok((Stmt::while_do(at, test, body), rest))
    }

    #[cycle(stmt)]
    #[tactic(auto, unfolding(mace_grammar::specs::inner::Readers::for_at))]
    fn for_stmt<'a>(self, tokens: &'a [Token]) -> Read<'a, Stmt>
        ensures { Gives (λ x. (stmt_tree x.0, x.1.now)) result (reader.for_at (edition_of self.version) self.depth (reader.stmt_at (edition_of self.version) self.depth) tokens.now) }
    {
        let (at, rest) = key(Keyword::For, tokens)?;
        let (x, rest) = self.name(rest)?;
        let (_, rest) = key(Keyword::In, rest)?;
        let (low, rest) = self.any_expr(rest)?;
        let (_, rest) = key(Keyword::To, rest)?;
        let (high, rest) = self.any_expr(rest)?;
        let (body, rest) = self.block(rest)?;
        Ok((Stmt::for_in(at, x, low, high, body), rest))
    }

    /// Statements in braces.
    #[cycle(stmt)]
    #[tactic(auto, unfolding(mace_grammar::specs::inner::Readers::block_at))]
    pub fn block<'a>(self, tokens: &'a [Token]) -> Read<'a, Vec<Stmt>>
        ensures { Gives (λ x. (map stmt_tree x.0.items, x.1.now)) result (reader.block_at (edition_of self.version) (reader.stmt_at (edition_of self.version) self.depth) tokens.now) }
    {
        let (_, rest) = sign(Sign::LeftBrace, tokens)?;
        let (found, rest) = self.stmts(rest)?;
        let (_, rest) = sign(Sign::RightBrace, rest)?;
        Ok((found, rest))
    }

    /// Statements, one behind the other.
    #[cycle(stmt)]
    #[tactic(auto, unfolding(mace_grammar::specs::inner::Readers::stmts_in))]
    pub fn stmts<'a>(self, tokens: &'a [Token]) -> Read<'a, Vec<Stmt>>
        ensures { Gives (λ x. (map stmt_tree x.0.items, x.1.now)) result (reader.stmts_in (edition_of self.version) (reader.stmt_at (edition_of self.version) self.depth) tokens.now) }
    {
        let mut rest = tokens;
        let mut found = Vec::new(self.alloc);
        'turns: while self.sees_any(&STMT_STARTS, rest) {
            let (next, after) = self.stmt(rest)?;
            push(&mut found, next)?;
            rest = after;
        }
        Ok((found, rest))
    }
}
