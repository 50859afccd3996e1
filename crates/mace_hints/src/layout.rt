//! Words in their layout, and behind them a word of a hint.

ghost use Rattle.std.specs.Prelude.{◌≡◌, ◌++◌, [], ◌∷◌, OnOk};
ghost use Rattle.mace_grammar.specs.Spelled.{words};
ghost use Rattle.mace_printer.specs.Layout.{gap_of, layout};
ghost use Rattle.mace_hints.specs.Hints.{word_of};

use crate::hint::Hint;
use mace_lexer::{Sign, Token, Word};
use std::alloc::Global;
use wave_base::OutOfMemory;
use wave_text::{put_bytes, put_quoted, put_whole};

// The byte behind a sign.
fn gap(sign: Sign) -> &'static [u8]
    ensures { result.now ≡ gap_of sign ∷ [] }
{
    match sign {
        Sign::LeftBrace | Sign::RightBrace | Sign::Semicolon => b"\n",
        _ => b" ",
    }
}

/// Writes a word and the byte behind it.
#[tactic(auto, unfolding(mace_printer::specs::Layout::layout))]
pub fn put_word(alloc: Global, out: &mut Vec<u8>, word: &Word) -> Result<(), OutOfMemory>
    ensures { OnOk result (out.new.items ≡ out.old.items ++ layout (word.now ∷ [])) }
{
    match word {
        Word::Name(text) => put_bytes(out, text.bytes())?,
        Word::Key(key) => put_bytes(out, key.bytes())?,
        Word::Number(n) => put_whole(alloc, out, *n)?,
        Word::Text(text) => put_quoted(out, text.bytes())?,
        Word::Sign(sign) => {
            put_bytes(out, sign.bytes())?;
            return put_bytes(out, gap(*sign));
        }
    }
    put_bytes(out, b" ")
}

/// Writes the words of tokens, each with the byte behind it.
pub fn put_words(alloc: Global, out: &mut Vec<u8>, tokens: &[Token]) -> Result<(), OutOfMemory>
    ensures { OnOk result (out.new.items ≡ out.old.items ++ layout (words tokens.now)) }
{
    for token in tokens {
        put_word(alloc, out, &token.word)?;
    }
    Ok(())
}

/// Writes a word that a hint stands for, and the byte behind it.
#[tactic(auto, unfolding(mace_printer::specs::Layout::layout))]
pub fn put_hint(alloc: Global, out: &mut Vec<u8>, hint: Hint) -> Result<(), OutOfMemory>
    ensures { OnOk result (out.new.items ≡ out.old.items ++ layout (word_of hint ∷ [])) }
{
    match hint {
        Hint::Name => put_bytes(out, b"a "),
        Hint::Finish => put_bytes(out, b"finish "),
        Hint::Number => put_word(alloc, out, &Word::Number(1)),
        Hint::Two => put_word(alloc, out, &Word::Number(2)),
        Hint::Text => put_bytes(out, b"\"\" "),
        Hint::Key(key) => put_word(alloc, out, &Word::Key(key)),
        Hint::Sign(sign) => put_word(alloc, out, &Word::Sign(sign)),
    }
}
