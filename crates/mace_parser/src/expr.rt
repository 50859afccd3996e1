// Expressions.

ghost use Rattle.std.specs.Prelude.{◌≡◌, map};
ghost use Rattle.std.specs.Option.{option_map};
ghost use Rattle.mace_ast.specs.Exprs.{expr_tree};
ghost use Rattle.mace_grammar.specs.Levels.{tighter_ones, levels_from};
ghost use Rattle.mace_grammar.specs.Words as words;
ghost use Rattle.mace_grammar.specs.Words.{edition_of};
ghost use Rattle.mace_grammar.specs.inner.Readers as reader;
ghost use Rattle.mace_parser.specs.inner.Gives.{Gives};

use crate::fault::{Fault, Read};
use crate::operator::{operator, unary_op};
use crate::reader::Reader;
use crate::token::sign;
use mace_ast::{BinaryOp, Expr, Name};
use mace_grammar::{EXPR_STARTS, INITIALS, Level, UNARY_OPS};
use mace_lexer::{Keyword, Sign, Token, Word};
use wave_base::{Span, push};

fn literal_of_key(at: Span, key: Keyword) -> Option<Expr>
    ensures { option_map expr_tree result ≡ words.literal_of_key at key }
{
    match key {
        Keyword::True => Some(Expr::boolean(at, true)),
        Keyword::False => Some(Expr::boolean(at, false)),
        Keyword::Empty => Some(Expr::empty(at)),
        _ => None,
    }
}

// How many operands a chain of this level may go on with: comparisons don't chain.
fn most_operands(level: Level, tokens: &[Token]) -> usize
    ensures { result ≡ reader.turns_of (tighter_ones level) tokens.now }
{
    match level {
        Level::Comparison => 1,
        Level::Or | Level::And | Level::Sum | Level::Product => tokens.len(),
    }
}

impl Reader {
    fn literal<'a>(self, tokens: &'a [Token]) -> Read<'a, Expr>
        ensures { Gives (λ x. (expr_tree x.0, x.1.now)) result (reader.literal_at tokens.now) }
    {
        let Some((t, rest)) = tokens.split_first() else {
            return Err(Fault::Stuck(tokens));
        };
        match &t.word {
            Word::Number(n) => Ok((Expr::number(t.span, *n), rest)),
            Word::Text(text) => Ok((Expr::text(t.span, text.copy(self.alloc)?), rest)),
            Word::Key(key) => match literal_of_key(t.span, *key) {
                Some(e) => Ok((e, rest)),
                None => Err(Fault::Stuck(tokens)),
            },
            _ => Err(Fault::Stuck(tokens)),
        }
    }

    #[cycle(expr)]
    #[tactic(auto, unfolding(mace_grammar::specs::inner::Readers::signed_or_primary_at))]
    fn unary<'a>(self, tokens: &'a [Token]) -> Read<'a, Expr>
        ensures { Gives (λ x. (expr_tree x.0, x.1.now)) result (reader.unary_at (edition_of self.version) self.depth tokens.now) }
    {
        if self.depth == 0 {
            return Err(Fault::Stuck(tokens));
        }
        let inner = Reader {
            depth: self.depth - 1,
            ..self
        };
        if self.sees_any(&UNARY_OPS, tokens) {
            return inner.signed_expr(tokens);
        }
        inner.primary(tokens)
    }

    #[cycle(expr)]
    #[tactic(auto, unfolding(mace_grammar::specs::inner::Readers::signed_at))]
    fn signed_expr<'a>(self, tokens: &'a [Token]) -> Read<'a, Expr>
        ensures { Gives (λ x. (expr_tree x.0, x.1.now)) result (reader.signed_at (edition_of self.version) (reader.unary_at (edition_of self.version) self.depth) tokens.now) }
    {
        let ((at, op), rest) = unary_op(tokens)?;
        let (operand, rest) = self.unary(rest)?;
        Ok((Expr::unary(self.alloc, at, op, operand)?, rest))
    }

    #[cycle(expr)]
    #[tactic(auto, unfolding(mace_grammar::specs::inner::Readers::primary_at))]
    fn primary<'a>(self, tokens: &'a [Token]) -> Read<'a, Expr>
        ensures { Gives (λ x. (expr_tree x.0, x.1.now)) result (reader.primary_at (edition_of self.version) (reader.unary_at (edition_of self.version) self.depth) tokens.now) }
    {
        if self.sees_any(&INITIALS, tokens) {
            return self.literal(tokens);
        }
        if self.sees_sign(Sign::LeftParen, tokens) {
            return self.parenthesized_expr(tokens);
        }
        self.named_expr(tokens)
    }

    #[cycle(expr)]
    #[tactic(auto, unfolding(mace_grammar::specs::inner::Readers::parenthesized_at))]
    fn parenthesized_expr<'a>(self, tokens: &'a [Token]) -> Read<'a, Expr>
        ensures { Gives (λ x. (expr_tree x.0, x.1.now)) result (reader.parenthesized_at (edition_of self.version) (reader.unary_at (edition_of self.version) self.depth) tokens.now) }
    {
        let (_, rest) = sign(Sign::LeftParen, tokens)?;
        let (inner, rest) = self.expr(rest)?;
        let (_, rest) = sign(Sign::RightParen, rest)?;
        Ok((inner, rest))
    }

    /// `[k]`
    #[cycle(expr)]
    #[tactic(auto, unfolding(mace_grammar::specs::inner::Readers::bracketed_at))]
    pub fn bracketed_expr<'a>(self, tokens: &'a [Token]) -> Read<'a, Expr>
        ensures { Gives (λ x. (expr_tree x.0, x.1.now)) result (reader.bracketed_at (edition_of self.version) (reader.unary_at (edition_of self.version) self.depth) tokens.now) }
    {
        let (_, rest) = sign(Sign::LeftBracket, tokens)?;
        let (key, rest) = self.expr(rest)?;
        let (_, rest) = sign(Sign::RightBracket, rest)?;
        Ok((key, rest))
    }

    #[cycle(expr)]
    #[tactic(auto, unfolding(mace_grammar::specs::inner::Readers::named_at))]
    fn named_expr<'a>(self, tokens: &'a [Token]) -> Read<'a, Expr>
        ensures { Gives (λ x. (expr_tree x.0, x.1.now)) result (reader.named_at (edition_of self.version) (reader.unary_at (edition_of self.version) self.depth) tokens.now) }
    {
        let (first, rest) = self.name(tokens)?;
        if self.sees_sign(Sign::LeftParen, rest) {
            return self.call(first, rest);
        }
        if self.sees_sign(Sign::Dot, rest) {
            return self.above(first, rest);
        }
        if self.sees_sign(Sign::LeftBracket, rest) {
            return self.index(first, rest);
        }
        Ok((Expr::read(first), rest))
    }

    // `f(..)`, behind the name.
    #[cycle(expr)]
    #[tactic(auto, unfolding(mace_grammar::specs::inner::Readers::call_at))]
    fn call<'a>(self, method: Name, tokens: &'a [Token]) -> Read<'a, Expr>
        ensures { Gives (λ x. (expr_tree x.0, x.1.now)) result (reader.call_at (edition_of self.version) (reader.unary_at (edition_of self.version) self.depth) method tokens.now) }
    {
        let (args, rest) = self.arguments(tokens)?;
        Ok((Expr::call(method, args), rest))
    }

    // `C.f` or `C.f[k]`, behind the class.
    #[cycle(expr)]
    #[tactic(auto, unfolding(mace_grammar::specs::inner::Readers::above_at))]
    fn above<'a>(self, class: Name, tokens: &'a [Token]) -> Read<'a, Expr>
        ensures { Gives (λ x. (expr_tree x.0, x.1.now)) result (reader.above_at (edition_of self.version) (reader.unary_at (edition_of self.version) self.depth) class tokens.now) }
    {
        let (field, rest) = self.field(tokens)?;
        if !self.sees_sign(Sign::LeftBracket, rest) {
            return Ok((Expr::above(class, field), rest));
        }
        let (key, rest) = self.bracketed_expr(rest)?;
        Ok((Expr::above_index(self.alloc, class, field, key)?, rest))
    }

    // `m[k]` or `C[k].f(..)`, behind the name.
    #[cycle(expr)]
    #[tactic(auto, unfolding(mace_grammar::specs::inner::Readers::index_at, mace_grammar::specs::inner::Readers::child_call_at))]
    fn index<'a>(self, first: Name, tokens: &'a [Token]) -> Read<'a, Expr>
        ensures { Gives (λ x. (expr_tree x.0, x.1.now)) result (reader.index_at (edition_of self.version) (reader.unary_at (edition_of self.version) self.depth) first tokens.now) }
    {
        let (key, rest) = self.bracketed_expr(tokens)?;
        if !self.sees_sign(Sign::Dot, rest) {
            return Ok((Expr::index(self.alloc, first, key)?, rest));
        }
        let (method, rest) = self.field(rest)?;
        let (args, rest) = self.arguments(rest)?;
        Ok((
            Expr::child_call(self.alloc, first, key, method, args)?,
            rest,
        ))
    }

    /// `(..)`
    #[cycle(expr)]
    #[tactic(auto, unfolding(mace_grammar::specs::inner::Readers::arguments_at, mace_grammar::specs::inner::Readers::separated_at))]
    pub fn arguments<'a>(self, tokens: &'a [Token]) -> Read<'a, Vec<Expr>>
        ensures { Gives (λ x. (map expr_tree x.0.items, x.1.now)) result (reader.arguments_at (edition_of self.version) (reader.unary_at (edition_of self.version) self.depth) tokens.now) }
    {
        let (_, rest) = sign(Sign::LeftParen, tokens)?;
        if !self.sees_any(&EXPR_STARTS, rest) {
            let (_, rest) = sign(Sign::RightParen, rest)?;
            return Ok((Vec::new(self.alloc), rest));
        }
        let (args, rest) = self.expr_list(rest)?;
        let (_, rest) = sign(Sign::RightParen, rest)?;
        Ok((args, rest))
    }

    #[cycle(expr)]
    #[tactic(auto, unfolding(mace_grammar::specs::inner::Readers::list_at))]
    fn expr_list<'a>(self, tokens: &'a [Token]) -> Read<'a, Vec<Expr>>
        ensures { Gives (λ x. (map expr_tree x.0.items, x.1.now)) result (reader.list_at (edition_of self.version) (reader.expr_at (edition_of self.version) (reader.unary_at (edition_of self.version) self.depth)) tokens.now) }
    {
        let (first, mut rest) = self.expr(tokens)?;
        let mut found = Vec::new(self.alloc);
        push(&mut found, first)?;
        'turns: while self.sees_sign(Sign::Comma, rest) {
            let (next, after) = self.next_expr(rest)?;
            push(&mut found, next)?;
            rest = after;
        }
        Ok((found, rest))
    }

    #[cycle(expr)]
    #[tactic(auto, unfolding(mace_grammar::specs::inner::Readers::next_at))]
    fn next_expr<'a>(self, tokens: &'a [Token]) -> Read<'a, Expr>
        ensures { Gives (λ x. (expr_tree x.0, x.1.now)) result (reader.next_at (edition_of self.version) (reader.expr_at (edition_of self.version) (reader.unary_at (edition_of self.version) self.depth)) tokens.now) }
    {
        let (_, rest) = sign(Sign::Comma, tokens)?;
        self.expr(rest)
    }

    // An operand of a chain of this level.
    #[cycle(expr)]
    fn operand<'a>(self, level: Level, tokens: &'a [Token]) -> Read<'a, Expr>
        ensures { Gives (λ x. (expr_tree x.0, x.1.now)) result (reader.level_at (edition_of self.version) (reader.unary_at (edition_of self.version) self.depth) (tighter_ones level) tokens.now) }
    {
        match level.tighter() {
            Some(tighter) => self.chain(tighter, tokens),
            None => self.unary(tokens),
        }
    }

    // An operator of this level, and the operand behind it.
    #[cycle(expr)]
    #[tactic(auto, unfolding(mace_grammar::specs::inner::Readers::operand_at))]
    fn next_operand<'a>(self, level: Level, tokens: &'a [Token]) -> Read<'a, (BinaryOp, Expr)>
        ensures { Gives (λ x. ((x.0.0, expr_tree x.0.1), x.1.now)) result
            (reader.operand_at (reader.operator_at (tighter_ones level)) (reader.level_at (edition_of self.version) (reader.unary_at (edition_of self.version) self.depth) (tighter_ones level)) tokens.now) }
    {
        let (op, rest) = operator(level, tokens)?;
        let (right, rest) = self.operand(level, rest)?;
        Ok(((op, right), rest))
    }

    // A chain of operators of a level, and all that is tighter.
    #[cycle(expr)]
    #[tactic(auto, unfolding(mace_grammar::specs::inner::Readers::operands_at))]
    fn chain<'a>(self, level: Level, tokens: &'a [Token]) -> Read<'a, Expr>
        ensures { Gives (λ x. (expr_tree x.0, x.1.now)) result (reader.level_at (edition_of self.version) (reader.unary_at (edition_of self.version) self.depth) (levels_from level) tokens.now) }
    {
        let (mut left, mut rest) = self.operand(level, tokens)?;
        'turns: for _ in 0..most_operands(level, rest) {
            if !self.sees_operator(level, rest) {
                break;
            }
            let ((op, right), after) = self.next_operand(level, rest)?;
            left = Expr::binary(self.alloc, left, op, right)?;
            rest = after;
        }
        Ok((left, rest))
    }

    /// An expression.
    #[cycle(expr)]
    #[tactic(auto, unfolding(mace_grammar::specs::inner::Readers::expr_at))]
    pub fn expr<'a>(self, tokens: &'a [Token]) -> Read<'a, Expr>
        ensures { Gives (λ x. (expr_tree x.0, x.1.now)) result (reader.expr_at (edition_of self.version) (reader.unary_at (edition_of self.version) self.depth) tokens.now) }
    {
        self.chain(Level::Or, tokens)
    }
}
