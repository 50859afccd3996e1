// The nest of the tokens.

ghost use Rattle.std.specs.Prelude.{◌≡◌, ℕ, ◌+◌, ◌<◌, ◌≤◌, length, take, sum, reverse, OnOk, IfOk};
ghost use Rattle.mace_grammar.specs.Nest as spec;
ghost use Rattle.mace_grammar.specs.Spelled.{words};

use mace_lexer::{Sign, Token, Word};
use std::alloc::Global;
use std::marker::Model;
use wave_base::{NEST, OutOfMemory};

/// The operators of the current piece and of those under it, and the nest that they make.
#[derive(Drop)]
pub struct Pieces {
    current: usize,
    under: Vec<usize>,
    nest: usize,
}

impl Model for Pieces {
    ghost use Rattle.std.specs.Prelude.{◌≡◌, reverse};
    ghost use Rattle.mace_grammar.specs.Nest as spec;

    ghost Value = { spec.Pieces };

    ghost view = { λ p. record { current = p.current; under = reverse p.under.items } };

    ghost invariant = { λ p. p.nest ≡ spec.nest (record { current = p.current; under = reverse p.under.items }) };
}

impl Pieces {
    /// Nothing is open.
    pub fn new(alloc: Global) -> Pieces
        ensures { result ≡ spec.no_pieces }
    {
        Pieces {
            current: 0,
            under: Vec::new(alloc),
            nest: 0,
        }
    }

    fn nest(&self) -> usize
        ensures { result ≡ spec.nest self.now }
    {
        self.nest
    }

    fn open(&mut self) -> Result<(), OutOfMemory>
        requires { spec.nest self.old ≤ NEST }
        ensures { OnOk result (self.new ≡ spec.after_open self.old) }
    {
        self.under.push(self.current)?;
        self.current = 0;
        self.nest += 1;
        Ok(())
    }

    fn close(&mut self)
        ensures { self.new ≡ spec.after_close self.old.under }
    {
        match self.under.pop() {
            Some(count) => {
                self.nest -= self.current + 1;
                self.current = count;
            }
            None => {
                self.nest = 0;
                self.current = 0;
            }
        }
    }

    fn clear(&mut self)
        ensures { self.new ≡ spec.after_separator self.old }
    {
        self.nest -= self.current;
        self.current = 0;
    }

    fn count(&mut self)
        requires { spec.nest self.old ≤ NEST }
        ensures { self.new ≡ spec.after_operator self.old }
    {
        self.current += 1;
        self.nest += 1;
    }

    fn pass_sign(&mut self, sign: Sign) -> Result<(), OutOfMemory>
        requires { spec.nest self.old ≤ NEST }
        ensures { OnOk result (self.new ≡ spec.past_sign sign self.old) }
    {
        match sign {
            Sign::LeftParen | Sign::LeftBracket => self.open()?,
            Sign::LeftBrace => {
                self.clear();
                self.open()?;
            }
            Sign::RightParen | Sign::RightBracket => self.close(),
            Sign::RightBrace => {
                self.close();
                self.clear();
            }
            Sign::Comma | Sign::Semicolon => self.clear(),
            Sign::Colon | Sign::Dot | Sign::Equals => {}
            _ => self.count(),
        }
        Ok(())
    }

    fn pass(&mut self, word: &Word) -> Result<(), OutOfMemory>
        requires { spec.nest self.old ≤ NEST }
        ensures { OnOk result (self.new ≡ spec.past_word self.old word.now) }
    {
        match word {
            Word::Sign(sign) => self.pass_sign(*sign),
            _ => Ok(()),
        }
    }
}

/// The first token at which the nest passes the limit.
pub fn first_deep(alloc: Global, tokens: &[Token]) -> Result<Option<usize>, OutOfMemory>
    ensures { IfOk result (spec.IsFirstDeep (words tokens.now)) }
{
    let mut pieces = Pieces::new(alloc);
    for (j, t) in tokens.iter().enumerate() {
        pieces.pass(&t.word)?;
        if pieces.nest() > NEST {
            return Ok(Some(j));
        }
    }
    Ok(None)
}
