//! All tokens of a text.

ghost use Rattle.std.specs.Prelude.{◌≡◌, ◌≤◌, List, length, All, IfOk, IfErr, Ok, Err};
ghost use Rattle.wave_base.specs.declared.span.Span.{Span};
ghost use Rattle.wave_base.specs.declared.limits.TheConstants.{PLACED_BYTES};
ghost use Rattle.mace_lexer.specs.declared.token.Token.{Token};
ghost use Rattle.mace_lexer.specs.declared.fault.LexFault.{LexFault};
ghost use Rattle.mace_lexer.specs.Lexed.{AreTokens, LiesIn, AreInOrder, IsFirstFault, TellsFault, Answers, error_of};

use crate::cut::{Cut, first_cut};
use crate::fault::{LexError, LexFault};
use crate::place::past;
use crate::token::Token;
use std::alloc::Global;
use wave_base::{Seq, Span, push};

fn error(fault: LexFault, at: Span) -> LexError
    ensures { result ≡ error_of fault at }
{
    match fault {
        LexFault::BadByte => LexError::BadByte(at),
        LexFault::NumberRange => LexError::NumberRange(at),
        LexFault::OpenText => LexError::OpenText(at),
        LexFault::NameLong => LexError::NameLong(at),
        LexFault::TextLong => LexError::TextLong(at),
    }
}

// The tokens of a text, or its first fault.
fn read(alloc: Global, text: &[u8]) -> Result<Seq<Token>, LexError>
    requires { length text.now ≤ PLACED_BYTES }
    ensures found { IfOk result (AreTokens text.now) }
    ensures fault { IfErr result (TellsFault text.now) }
{
    let mut tokens = Vec::new(alloc);
    let mut at = Span { line: 1, col: 1 };
    let mut from = 0;
    let mut rest = text;
    'pieces: while !rest.is_empty() {
        match first_cut(alloc, rest)? {
            Cut::Gap(n) => {
                let (front, back) = rest.split_at(n);
                at = past(at, front);
                from += n;
                rest = back;
            }
            Cut::Spell(n, word) => {
                let token = Token {
                    word,
                    span: at,
                    from,
                    to: from + n,
                };
                push(&mut tokens, token)?;
                let (front, back) = rest.split_at(n);
                at = past(at, front);
                from += n;
                rest = back;
            }
            Cut::Fault(fault, n) => {
                let (front, _) = rest.split_at(n);
                return Err(error(fault, past(at, front)));
            }
        }
    }
    Ok(Seq::from_vec(tokens))
}

/// The tokens of a text. An error tells the first fault, from the left.
pub fn lex(alloc: Global, text: &[u8]) -> Result<Seq<Token>, LexError>
    requires { length text.now ≤ PLACED_BYTES }
    ensures found { IfOk result (AreTokens text.now) }
    ensures fault { IfErr result (TellsFault text.now) }

    // Each token's bytes are its word, its span is their place, and no two tokens overlap.
    ensures places { IfOk result (λ tokens. All (LiesIn text.now) tokens) }
    ensures order { IfOk result (AreInOrder 0) }

    // What has tokens is read, and what has a fault is refused for it.
    ensures only { (tokens : List Token) → AreTokens text.now tokens → Answers result (Ok tokens) }
    ensures refused { (fault : LexFault) (at : Span) → IsFirstFault text.now fault at →
        Answers result (Err (error_of fault at)) }
{
    read(alloc, text)
}
