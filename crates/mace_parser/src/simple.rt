// Statements without a block.

ghost use Rattle.std.specs.Prelude.{◌≡◌, Some, None, map};
ghost use Rattle.std.specs.Option.{option_map};
ghost use Rattle.mace_ast.specs.Exprs.{expr_tree};
ghost use Rattle.mace_ast.specs.Stmts.{stmt_tree};
ghost use Rattle.mace_grammar.specs.Grammar.{target};
ghost use Rattle.mace_grammar.specs.Words.{edition_of};
ghost use Rattle.mace_grammar.specs.inner.Readers as reader;
ghost use Rattle.mace_parser.specs.inner.Gives.{Gives};

use crate::fault::Read;
use crate::reader::Reader;
use crate::token::{key, sign};
use mace_ast::{Action, Expr, Name, Stmt, Target};
use mace_grammar::{Class, EXPR_STARTS};
use mace_lexer::{Keyword, Sign, Token};
use wave_base::{Seq, Span};

// `x`, or `C.f` with its class above.
fn target_of(first: Name, field: Option<Name>) -> Target
    ensures { result ≡ target first field }
{
    match field {
        None => Target {
            above: None,
            name: first.text,
        },
        Some(field) => Target {
            above: Some(first.text),
            name: field.text,
        },
    }
}

impl Reader {
    // ---- expressions behind which a statement goes on

    /// An expression of any level.
    #[tactic(auto, unfolding(mace_grammar::specs::inner::Readers::any_expr_at))]
    pub fn any_expr<'a>(self, tokens: &'a [Token]) -> Read<'a, Expr>
        ensures { Gives (λ x. (expr_tree x.0, x.1.now)) result (reader.any_expr_at (edition_of self.version) self.depth tokens.now) }
    {
        self.expr(tokens)
    }

    /// A key in brackets.
    #[tactic(auto, unfolding(mace_grammar::specs::inner::Readers::any_key_at))]
    pub fn any_key<'a>(self, tokens: &'a [Token]) -> Read<'a, Expr>
        ensures { Gives (λ x. (expr_tree x.0, x.1.now)) result (reader.any_key_at (edition_of self.version) self.depth tokens.now) }
    {
        self.bracketed_expr(tokens)
    }

    #[tactic(auto, unfolding(mace_grammar::specs::inner::Readers::any_arguments_at))]
    fn any_arguments<'a>(self, tokens: &'a [Token]) -> Read<'a, Seq<Expr>>
        ensures { Gives (λ x. (map expr_tree x.0, x.1.now)) result (reader.any_arguments_at (edition_of self.version) self.depth tokens.now) }
    {
        let (args, rest) = self.arguments(tokens)?;
        Ok((Seq::from_vec(args), rest))
    }

    // ---- statements that begin with a keyword

    /// `let x = e;`
    #[tactic(auto, unfolding(mace_grammar::specs::inner::Readers::let_at))]
    pub fn let_stmt<'a>(self, tokens: &'a [Token]) -> Read<'a, Stmt>
        ensures { Gives (λ x. (stmt_tree x.0, x.1.now)) result (reader.let_at (edition_of self.version) self.depth tokens.now) }
    {
        let (at, rest) = key(Keyword::Let, tokens)?;
        let (x, rest) = self.name(rest)?;
        let (_, rest) = sign(Sign::Equals, rest)?;
        let (value, rest) = self.any_expr(rest)?;
        let (_, rest) = sign(Sign::Semicolon, rest)?;
        let action = Action::Let(x, value);
        Ok((Stmt { at, action }, rest))
    }

    #[tactic(auto, unfolding(mace_grammar::specs::inner::Readers::require_at))]
    fn require<'a>(self, tokens: &'a [Token]) -> Read<'a, Stmt>
        ensures { Gives (λ x. (stmt_tree x.0, x.1.now)) result (reader.require_at (edition_of self.version) self.depth tokens.now) }
    {
        let (at, rest) = key(Keyword::Require, tokens)?;
        let (test, rest) = self.any_expr(rest)?;
        let (_, rest) = sign(Sign::Semicolon, rest)?;
        let action = Action::Require(test);
        Ok((Stmt { at, action }, rest))
    }

    #[tactic(auto, unfolding(mace_grammar::specs::inner::Readers::send_at))]
    fn send<'a>(self, tokens: &'a [Token]) -> Read<'a, Stmt>
        ensures { Gives (λ x. (stmt_tree x.0, x.1.now)) result (reader.send_at (edition_of self.version) self.depth tokens.now) }
    {
        let (at, rest) = key(Keyword::Send, tokens)?;
        let (label, rest) = self.text(rest)?;
        let (_, rest) = sign(Sign::Comma, rest)?;
        let (value, rest) = self.any_expr(rest)?;
        let (_, rest) = sign(Sign::Semicolon, rest)?;
        let action = Action::Send(label, value);
        Ok((Stmt { at, action }, rest))
    }

    #[tactic(auto, unfolding(mace_grammar::specs::inner::Readers::spawn_at))]
    fn spawn<'a>(self, tokens: &'a [Token]) -> Read<'a, Stmt>
        ensures { Gives (λ x. (stmt_tree x.0, x.1.now)) result (reader.spawn_at (edition_of self.version) self.depth tokens.now) }
    {
        let (at, rest) = key(Keyword::Spawn, tokens)?;
        let (event, rest) = self.name(rest)?;
        let (args, rest) = self.any_arguments(rest)?;
        let (_, rest) = sign(Sign::Semicolon, rest)?;
        let action = Action::Spawn(event.text, args);
        Ok((Stmt { at, action }, rest))
    }

    fn maybe_field<'a>(self, tokens: &'a [Token]) -> Read<'a, Option<Name>>
        ensures { Gives (λ x. (x.0, x.1.now)) result (reader.maybe_field_at (edition_of self.version) tokens.now) }
    {
        if !self.sees_sign(Sign::Dot, tokens) {
            return Ok((None, tokens));
        }
        let (field, rest) = self.field(tokens)?;
        Ok((Some(field), rest))
    }

    #[tactic(auto, unfolding(mace_grammar::specs::inner::Readers::drop_at))]
    fn cut<'a>(self, tokens: &'a [Token]) -> Read<'a, Stmt>
        ensures { Gives (λ x. (stmt_tree x.0, x.1.now)) result (reader.drop_at (edition_of self.version) self.depth tokens.now) }
    {
        let (at, rest) = key(Keyword::Drop, tokens)?;
        let (first, rest) = self.name(rest)?;
        let (field, rest) = self.maybe_field(rest)?;
        let (place, rest) = self.any_key(rest)?;
        let (_, rest) = sign(Sign::Semicolon, rest)?;
        let action = Action::Cut(target_of(first, field), place);
        Ok((Stmt { at, action }, rest))
    }

    // ---- statements that begin with a name, behind what was read of them

    #[tactic(auto, unfolding(mace_grammar::specs::inner::Readers::set_at))]
    fn set<'a>(
        self,
        at: Span,
        target: Target,
        place: Option<Expr>,
        tokens: &'a [Token],
    ) -> Read<'a, Stmt>
        ensures { Gives (λ x. (stmt_tree x.0, x.1.now)) result (reader.set_at (edition_of self.version) self.depth at target (option_map expr_tree place) tokens.now) }
    {
        let (_, rest) = sign(Sign::Equals, tokens)?;
        let (value, rest) = self.any_expr(rest)?;
        let (_, rest) = sign(Sign::Semicolon, rest)?;
        let action = Action::Set(target, place, value);
        Ok((Stmt { at, action }, rest))
    }

    #[tactic(auto, unfolding(mace_grammar::specs::inner::Readers::call_stmt_at))]
    fn call_stmt<'a>(self, method: Name, tokens: &'a [Token]) -> Read<'a, Stmt>
        ensures { Gives (λ x. (stmt_tree x.0, x.1.now)) result (reader.call_stmt_at (edition_of self.version) self.depth method tokens.now) }
    {
        let (args, rest) = self.any_arguments(tokens)?;
        let (_, rest) = sign(Sign::Semicolon, rest)?;
        let at = method.at;
        let action = Action::Call(method.text, args);
        Ok((Stmt { at, action }, rest))
    }

    #[tactic(auto, unfolding(mace_grammar::specs::inner::Readers::child_stmt_at))]
    fn child_stmt<'a>(self, class: Name, place: Expr, tokens: &'a [Token]) -> Read<'a, Stmt>
        ensures { Gives (λ x. (stmt_tree x.0, x.1.now)) result (reader.child_stmt_at (edition_of self.version) self.depth class (expr_tree place) tokens.now) }
    {
        let (method, rest) = self.field(tokens)?;
        let (args, rest) = self.any_arguments(rest)?;
        let (_, rest) = sign(Sign::Semicolon, rest)?;
        let at = class.at;
        let action = Action::ChildCall(class.text, place, method.text, args);
        Ok((Stmt { at, action }, rest))
    }

    fn maybe_key<'a>(self, tokens: &'a [Token]) -> Read<'a, Option<Expr>>
        ensures { Gives (λ x. (option_map expr_tree x.0, x.1.now)) result (reader.maybe_key_at (edition_of self.version) self.depth tokens.now) }
    {
        if !self.sees_sign(Sign::LeftBracket, tokens) {
            return Ok((None, tokens));
        }
        let (place, rest) = self.any_key(tokens)?;
        Ok((Some(place), rest))
    }

    #[tactic(auto, unfolding(mace_grammar::specs::inner::Readers::above_stmt_at))]
    fn above_stmt<'a>(self, class: Name, tokens: &'a [Token]) -> Read<'a, Stmt>
        ensures { Gives (λ x. (stmt_tree x.0, x.1.now)) result (reader.above_stmt_at (edition_of self.version) self.depth class tokens.now) }
    {
        let (field, rest) = self.field(tokens)?;
        let (place, rest) = self.maybe_key(rest)?;
        let at = class.at;
        self.set(at, target_of(class, Some(field)), place, rest)
    }

    #[tactic(auto, unfolding(mace_grammar::specs::inner::Readers::index_stmt_at))]
    fn index_stmt<'a>(self, first: Name, tokens: &'a [Token]) -> Read<'a, Stmt>
        ensures { Gives (λ x. (stmt_tree x.0, x.1.now)) result (reader.index_stmt_at (edition_of self.version) self.depth first tokens.now) }
    {
        let (place, rest) = self.any_key(tokens)?;
        if self.sees_sign(Sign::Dot, rest) {
            return self.child_stmt(first, place, rest);
        }
        let at = first.at;
        self.set(at, target_of(first, None), Some(place), rest)
    }

    #[tactic(auto, unfolding(mace_grammar::specs::inner::Readers::named_stmt_at))]
    fn named_stmt<'a>(self, tokens: &'a [Token]) -> Read<'a, Stmt>
        ensures { Gives (λ x. (stmt_tree x.0, x.1.now)) result (reader.named_stmt_at (edition_of self.version) self.depth tokens.now) }
    {
        let (first, rest) = self.name(tokens)?;
        if self.sees_sign(Sign::Dot, rest) {
            return self.above_stmt(first, rest);
        }
        if self.sees_sign(Sign::LeftBracket, rest) {
            return self.index_stmt(first, rest);
        }
        if self.sees_sign(Sign::LeftParen, rest) {
            return self.call_stmt(first, rest);
        }
        let at = first.at;
        self.set(at, target_of(first, None), None, rest)
    }

    #[tactic(auto, unfolding(mace_grammar::specs::inner::Readers::simple_stmt_at))]
    fn simple<'a>(self, tokens: &'a [Token]) -> Read<'a, Stmt>
        ensures { Gives (λ x. (stmt_tree x.0, x.1.now)) result (reader.simple_stmt_at (edition_of self.version) self.depth tokens.now) }
    {
        if self.sees_key(Keyword::Require, tokens) {
            return self.require(tokens);
        }
        if self.sees_key(Keyword::Send, tokens) {
            return self.send(tokens);
        }
        if self.sees_key(Keyword::Spawn, tokens) {
            return self.spawn(tokens);
        }
        if self.sees_key(Keyword::Drop, tokens) {
            return self.cut(tokens);
        }
        self.named_stmt(tokens)
    }

    // ---- statements that end a method or an event early

    fn maybe_expr<'a>(self, tokens: &'a [Token]) -> Read<'a, Option<Expr>>
        ensures { Gives (λ x. (option_map expr_tree x.0, x.1.now)) result (reader.maybe_expr_at (edition_of self.version) self.depth tokens.now) }
    {
        if !self.sees_any(&EXPR_STARTS, tokens) {
            return Ok((None, tokens));
        }
        let (value, rest) = self.any_expr(tokens)?;
        Ok((Some(value), rest))
    }

    #[tactic(auto, unfolding(mace_grammar::specs::inner::Readers::return_at))]
    fn return_stmt<'a>(self, tokens: &'a [Token]) -> Read<'a, Stmt>
        ensures { Gives (λ x. (stmt_tree x.0, x.1.now)) result (reader.return_at (edition_of self.version) self.depth tokens.now) }
    {
        let (at, rest) = self.leave(tokens)?;
        let (value, rest) = self.maybe_expr(rest)?;
        let (_, rest) = sign(Sign::Semicolon, rest)?;
        let action = Action::Return(value);
        Ok((Stmt { at, action }, rest))
    }

    #[tactic(auto, unfolding(mace_grammar::specs::inner::Readers::finish_stmt_at))]
    fn finish_stmt<'a>(self, tokens: &'a [Token]) -> Read<'a, Stmt>
        ensures { Gives (λ x. (stmt_tree x.0, x.1.now)) result (reader.finish_stmt_at (edition_of self.version) self.depth tokens.now) }
    {
        let (at, rest) = self.finish(tokens)?;
        let (value, rest) = self.maybe_expr(rest)?;
        let (_, rest) = sign(Sign::Semicolon, rest)?;
        let action = Action::Finish(value);
        Ok((Stmt { at, action }, rest))
    }

    /// A statement without a block that is no `let`.
    #[tactic(auto, unfolding(mace_grammar::specs::inner::Readers::ending_at))]
    pub fn ending<'a>(self, tokens: &'a [Token]) -> Read<'a, Stmt>
        ensures { Gives (λ x. (stmt_tree x.0, x.1.now)) result (reader.ending_at (edition_of self.version) self.depth tokens.now) }
    {
        if self.sees_class(Class::Leave, tokens) {
            return self.return_stmt(tokens);
        }
        if self.sees_class(Class::Finish, tokens) {
            return self.finish_stmt(tokens);
        }
        self.simple(tokens)
    }
}
