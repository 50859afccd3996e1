// Events and their phases.

ghost use Rattle.std.specs.Prelude.{◌≡◌, map};
ghost use Rattle.std.specs.Option.{option_map};
ghost use Rattle.mace_ast.specs.Decls.{event_tree, phase_tree};
ghost use Rattle.mace_ast.specs.Stmts.{stmt_tree};
ghost use Rattle.mace_grammar.specs.Words.{edition_of};
ghost use Rattle.mace_grammar.specs.inner.Readers as reader;
ghost use Rattle.mace_parser.specs.inner.Gives.{Gives};

use crate::fault::Read;
use crate::reader::Reader;
use crate::token::{key, sign};
use mace_ast::{EventDecl, Phase, Stmt};
use mace_lexer::{Keyword, Sign, Token};
use wave_base::{Seq, push};

impl Reader {
    #[tactic(auto, unfolding(mace_grammar::specs::inner::Readers::any_block_at))]
    fn any_block<'a>(self, tokens: &'a [Token]) -> Read<'a, Seq<Stmt>>
        ensures { Gives (λ x. (map stmt_tree x.0, x.1.now)) result (reader.any_block_at (edition_of self.version) self.depth tokens.now) }
    {
        let (found, rest) = self.block(tokens)?;
        Ok((Seq::from_vec(found), rest))
    }

    #[tactic(auto, unfolding(mace_grammar::specs::inner::Readers::down_at))]
    fn phase<'a>(self, tokens: &'a [Token]) -> Read<'a, Phase>
        ensures { Gives (λ x. (phase_tree x.0, x.1.now)) result (reader.down_at (edition_of self.version) self.depth tokens.now) }
    {
        let (at, rest) = key(Keyword::Down, tokens)?;
        let (class, rest) = self.name(rest)?;
        let (key, rest) = self.any_key(rest)?;
        let (body, rest) = self.any_block(rest)?;
        let phase = Phase {
            at,
            class: class.text,
            key,
            body,
        };
        Ok((phase, rest))
    }

    // Phases, one behind the other.
    #[tactic(auto, unfolding(mace_grammar::specs::inner::Readers::phases_at))]
    fn phases<'a>(self, tokens: &'a [Token]) -> Read<'a, Seq<Phase>>
        ensures { Gives (λ x. (map phase_tree x.0, x.1.now)) result (reader.phases_at (edition_of self.version) self.depth tokens.now) }
    {
        let mut rest = tokens;
        let mut found = Vec::new(self.alloc);
        'turns: while self.sees_key(Keyword::Down, rest) {
            let (next, after) = self.phase(rest)?;
            push(&mut found, next)?;
            rest = after;
        }
        Ok((Seq::from_vec(found), rest))
    }

    // The statements at the root, where `here` is there.
    #[tactic(auto, unfolding(mace_grammar::specs::inner::Readers::here_at))]
    fn here<'a>(self, tokens: &'a [Token]) -> Read<'a, Option<Seq<Stmt>>>
        ensures { Gives (λ x. (option_map (map stmt_tree) x.0, x.1.now)) result (reader.here_at (edition_of self.version) self.depth tokens.now) }
    {
        if !self.sees_key(Keyword::Here, tokens) {
            return Ok((None, tokens));
        }
        let (_, rest) = key(Keyword::Here, tokens)?;
        let (body, rest) = self.any_block(rest)?;
        Ok((Some(body), rest))
    }

    #[tactic(auto, unfolding(mace_grammar::specs::inner::Readers::event_at))]
    fn event<'a>(self, tokens: &'a [Token]) -> Read<'a, EventDecl>
        ensures { Gives (λ x. (event_tree x.0, x.1.now)) result (reader.event_at (edition_of self.version) self.depth tokens.now) }
    {
        let (at, rest) = key(Keyword::Event, tokens)?;
        let (name, rest) = self.name(rest)?;
        let (params, rest) = self.params(rest)?;
        let (kind, rest) = self.result_kind(rest)?;
        let (_, rest) = sign(Sign::LeftBrace, rest)?;
        let (here, rest) = self.here(rest)?;
        let (phases, rest) = self.phases(rest)?;
        let (last, rest) = self.maybe_last(Keyword::Reply, rest)?;
        let (_, rest) = sign(Sign::RightBrace, rest)?;
        let event = EventDecl {
            at,
            name,
            params,
            result: kind,
            here,
            phases,
            last,
        };
        Ok((event, rest))
    }

    /// Events, one behind the other.
    #[tactic(auto, unfolding(mace_grammar::specs::inner::Readers::events_at))]
    pub fn events<'a>(self, tokens: &'a [Token]) -> Read<'a, Seq<EventDecl>>
        ensures { Gives (λ x. (map event_tree x.0, x.1.now)) result (reader.events_at (edition_of self.version) self.depth tokens.now) }
    {
        let mut rest = tokens;
        let mut found = Vec::new(self.alloc);
        'turns: while self.sees_key(Keyword::Event, rest) {
            let (next, after) = self.event(rest)?;
            push(&mut found, next)?;
            rest = after;
        }
        Ok((Seq::from_vec(found), rest))
    }
}
