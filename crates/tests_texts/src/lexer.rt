//! Tokens, and the faults of texts.

ghost use Rattle.std.specs.Prelude.{◌≤◌, length};
ghost use Rattle.wave_base.specs.declared.limits.TheConstants.{PLACED_BYTES};

use crate::same::is_lex_fault;
use mace_lexer::{Keyword, LexError, Sign, Token, Word, lex};
use std::alloc::Global;
use std::process::Abort;
use std::test::Fail;
use wave_base::{OutOfMemory, PLACED_BYTES, Seq, Span, Txt};

// What is cut of a text. What the lexer promises is read here alone, not in each test.
fn cut(alloc: Global, text: &[u8]) -> Result<Seq<Token>, LexError>
    requires { length text.now ≤ PLACED_BYTES }
{
    lex(alloc, text)
}

fn refuses(rt: &impl Abort, alloc: Global, text: &[u8], error: LexError)
    requires { length text.now ≤ PLACED_BYTES }
{
    is_lex_fault(rt, cut(alloc, text).err(), Some(error));
}

fn at(line: u32, col: u32) -> Span {
    Span { line, col }
}

#[test]
fn each_fault_has_its_place(rt: HostRuntime) {
    let alloc = rt.alloc();
    refuses(&rt, alloc, b"let a = 1 @ 2;", LexError::BadByte(at(1, 11)));
    refuses(&rt, alloc, b"a & b", LexError::BadByte(at(1, 3)));
    refuses(&rt, alloc, b"a\r\n b\r", LexError::BadByte(at(2, 3)));
    refuses(&rt, alloc, b"x = \"ab\\q\";", LexError::BadByte(at(1, 8)));
    refuses(&rt, alloc, b"x = \"ab\tc\";", LexError::BadByte(at(1, 8)));
    refuses(
        &rt,
        alloc,
        b"// @\n\t9223372036854775808",
        LexError::NumberRange(at(2, 2)),
    );
    refuses(
        &rt,
        alloc,
        b"service A { var t: text = \"ab",
        LexError::OpenText(at(1, 27)),
    );
    refuses(&rt, alloc, b"\"a\\\n\"", LexError::OpenText(at(1, 1)));
    refuses(&rt, alloc, b" \"a\\", LexError::OpenText(at(1, 2)));
}

// What is said of this front, so many letters, and this end.
fn fault_of(
    alloc: Global,
    front: &[u8],
    letters: usize,
    end: &[u8],
) -> Result<Option<LexError>, OutOfMemory> {
    let mut text = Vec::from_slice(alloc, front)?;
    for _ in 0..letters {
        text.push(b'b')?;
    }
    text.extend_from_slice(end)?;
    if text.len() > PLACED_BYTES {
        return Ok(None);
    }
    Ok(cut(alloc, text.as_slice()).err())
}

#[test]
fn words_have_a_greatest_length(rt: HostRuntime) -> Result<(), Fail> {
    let alloc = rt.alloc();
    let long = Some(LexError::NameLong(at(1, 1)));
    assert!(rt; fault_of(alloc, b"", 64, b"")?.is_none());
    is_lex_fault(&rt, fault_of(alloc, b"", 64, b"_")?, long);

    // an escape counts as one
    let long = Some(LexError::TextLong(at(1, 1)));
    assert!(rt; fault_of(alloc, b"\"", 199, b"\\\"\"")?.is_none());
    is_lex_fault(&rt, fault_of(alloc, b"\"", 200, b"\\\"\"")?, long);
    Ok(())
}

fn token(word: Word, span: Span, from: usize, to: usize) -> Token {
    Token {
        word,
        span,
        from,
        to,
    }
}

const TEXT: &[u8] = b"if n_1<=007{ // small\r\nt=\"a\\\"\"";

// The tokens of its first line.
fn first_line(alloc: Global) -> Result<Seq<Token>, OutOfMemory> {
    let mut tokens = Seq::new(alloc);
    tokens.add(token(Word::Key(Keyword::If), at(1, 1), 0, 2))?;
    let name = Word::Name(Txt::from_bytes(alloc, b"n_1")?);
    tokens.add(token(name, at(1, 4), 3, 6))?;
    tokens.add(token(Word::Sign(Sign::LessEquals), at(1, 7), 6, 8))?;
    tokens.add(token(Word::Number(7), at(1, 9), 8, 11))?;
    tokens.add(token(Word::Sign(Sign::LeftBrace), at(1, 12), 11, 12))?;
    Ok(tokens)
}

// And those of its second.
fn add_second_line(alloc: Global, tokens: &mut Seq<Token>) -> Result<(), OutOfMemory> {
    let name = Word::Name(Txt::from_bytes(alloc, b"t")?);
    tokens.add(token(name, at(2, 1), 23, 24))?;
    tokens.add(token(Word::Sign(Sign::Equals), at(2, 2), 24, 25))?;
    let text = Word::Text(Txt::from_bytes(alloc, b"a\"")?);
    tokens.add(token(text, at(2, 3), 25, 30))
}

#[test]
fn cuts_a_text(rt: HostRuntime) -> Result<(), Fail> {
    let alloc = rt.alloc();
    let mut wanted = first_line(alloc)?;
    add_second_line(alloc, &mut wanted)?;
    assert!(rt; cut(alloc, TEXT)? == wanted);
    Ok(())
}
