//! Texts in quotes, as they stand in a service.

ghost use Rattle.std.specs.Prelude.{◌≡◌, ◌<◌, length, IfOk};
ghost use Rattle.mace_lexer.specs.Texts.{escape_of, inside_of};
ghost use Rattle.wave_base.specs.Text.{escaped_byte};
ghost use Rattle.mace_lexer.specs.inner.Fronts.{form_of, IsCut, IsBody};

use crate::cut::{Cut, Form};
use crate::fault::LexFault;
use crate::token::Word;
use std::alloc::Global;
use wave_base::{LITERAL_BYTES, OutOfMemory, Txt};

/// What stands next inside a text.
#[derive(Clone, Copy, Debug, PartialEq, Eq)]
pub enum Inside {
    /// A byte that is meant, with a backslash before it where it needs one.
    Byte(u8),
    /// The closing quote.
    Close,
    /// The end of the line, or of all.
    Open,
    /// What may not stand there.
    Bad,
}

// What a backslash makes of what stands behind it.
fn escape(rest: &[u8]) -> Inside
    ensures { result ≡ escape_of rest.now }
{
    match rest {
        [] | [b'\n' | b'\r', ..] => Inside::Open,
        [b, ..] if *b == b'"' || *b == b'\\' => Inside::Byte(*b),
        _ => Inside::Bad,
    }
}

fn next_inside(rest: &[u8]) -> Inside
    ensures { result ≡ inside_of rest.now }
{
    match rest {
        [] | [b'\n' | b'\r', ..] => Inside::Open,
        [b'"', ..] => Inside::Close,
        [b'\\', escaped @ ..] => escape(escaped),
        [b, ..] if (32..=126).contains(b) => Inside::Byte(*b),
        _ => Inside::Bad,
    }
}

// How many bytes are written for one that is meant.
fn width(b: u8) -> usize
    ensures { result ≡ length (escaped_byte b) }
{
    if b == b'"' || b == b'\\' { 2 } else { 1 }
}

// The bytes that are meant behind the quote at the front, and how far they reach.
fn body(alloc: Global, text: &[u8]) -> Result<(Vec<u8>, usize), OutOfMemory>
    requires some { 0 < length text.now }
    requires form { form_of text.now ≡ Form.Text }
    ensures { IfOk result (λ x. IsBody text.now x.0.items x.1) }
{
    let mut bytes = Vec::new(alloc);
    let mut n = 1;
    while let Inside::Byte(b) = next_inside(&text[n..]) {
        bytes.push(b)?;
        n += width(b);
    }
    Ok((bytes, n))
}

/// The text with the quote at the front.
pub fn quoted_cut(alloc: Global, text: &[u8]) -> Result<Cut, OutOfMemory>
    requires some { 0 < length text.now }
    requires form { form_of text.now ≡ Form.Text }
    ensures { IfOk result (IsCut text.now) }
{
    let (bytes, n) = body(alloc, text)?;
    match next_inside(&text[n..]) {
        Inside::Close if bytes.len() <= LITERAL_BYTES => {
            let text = Txt::from_bytes(alloc, bytes.as_slice())?;
            Ok(Cut::Spell(n + 1, Word::Text(text)))
        }
        Inside::Close => Ok(Cut::Fault(LexFault::TextLong, 0)),
        Inside::Open => Ok(Cut::Fault(LexFault::OpenText, 0)),
        _ => Ok(Cut::Fault(LexFault::BadByte, n)),
    }
}
