//! A script line cut into its pieces.

ghost use Rattle.std.specs.Prelude.{◌≡◌, ◌<◌, ◌≤◌, ◌∷◌, false, length, IfOk, IfSome, IfNone};
ghost use Rattle.std.specs.List.{prefix_len};
ghost use Rattle.wave_text.specs.Words.{is_blank};
ghost use Rattle.script_reader.specs.Pieces.{is_sign, is_solid, begins_sign, IsOnlyFront, HasNoFront, without_blanks, AreOnlyPieces, HasNoPieces};
ghost use Rattle.script_reader.specs.inner.Begins.{first_run};

use crate::bytes::Bytes;
use crate::piece::Piece;
use crate::quote::Quote;
use std::alloc::Global;
use wave_base::{OutOfMemory, Seq};
use wave_text::{is_blank, read_quoted};

fn is_sign(b: u8) -> bool
    ensures { result ≡ is_sign b }
{
    b == b'"' || b == b'(' || b == b')' || b == b','
}

fn is_solid(b: u8) -> bool
    ensures { result ≡ is_solid b }
{
    !(is_blank(b) || is_sign(b))
}

// The number of blanks in front.
fn blanks_before(text: &[u8]) -> usize
    ensures count { result ≡ prefix_len is_blank text.now }
    ensures within { result ≤ length text.now }
{
    text.iter().take_while(|b| is_blank(**b)).count()
}

/// A text without the blanks in front.
pub(crate) fn without_blanks(text: &[u8]) -> &[u8]
    ensures rest { result.now ≡ without_blanks text.now }
    ensures within { length result.now ≤ length text.now }
{
    &text[blanks_before(text)..]
}

// The number of solid bytes in front.
fn run_len(text: &[u8]) -> usize
    ensures count { result ≡ prefix_len is_solid text.now }
    ensures within { result ≤ length text.now }
{
    text.iter().take_while(|b| is_solid(**b)).count()
}

/// The run at the front of a line behind its blanks, which may be empty.
pub(crate) fn first_run(line: &[u8]) -> &[u8]
    ensures { result.now ≡ first_run (without_blanks line.now) }
{
    let text = without_blanks(line);
    &text[..run_len(text)]
}

// The run at the front of a text.
fn run_piece(text: &[u8]) -> Option<(Piece<'_>, &[u8])>
    requires { begins_sign text.now ≡ false }
    ensures some { IfSome result (λ x. IsOnlyFront text.now x.0 x.1.now) }
    ensures shorter { IfSome result (λ x. length x.1.now < length text.now) }
    ensures none { IfNone result (HasNoFront text.now) }
{
    let len = run_len(text);
    if len == 0 {
        return None;
    }
    let bytes = Bytes::of(&text[..len]);
    Some((Piece::Run(bytes), &text[len..]))
}

// The text in quotes at the front of a text; its opening quote is left out.
fn text_piece(alloc: Global, rest: &[u8]) -> Result<Option<(Piece<'_>, &[u8])>, OutOfMemory>
    ensures some { IfOk result (λ o. IfSome o (λ x. IsOnlyFront (34 ∷ rest.now) x.0 x.1.now)) }
    ensures shorter { IfOk result (λ o. IfSome o (λ x. length x.1.now ≤ length rest.now)) }
    ensures none { IfOk result (λ o. IfNone o (HasNoFront (34 ∷ rest.now))) }
{
    match read_quoted(alloc, rest)? {
        Some((text, after)) => Ok(Some((Piece::Text(Quote::new(text)), after))),
        None => Ok(None),
    }
}

/// The piece at the front of a text, and what stands behind it.
fn first_piece(alloc: Global, text: &[u8]) -> Result<Option<(Piece<'_>, &[u8])>, OutOfMemory>
    ensures some { IfOk result (λ o. IfSome o (λ x. IsOnlyFront text.now x.0 x.1.now)) }
    ensures shorter { IfOk result (λ o. IfSome o (λ x. length x.1.now < length text.now)) }
    ensures none { IfOk result (λ o. IfNone o (HasNoFront text.now)) }
{
    match text {
        [b'"', rest @ ..] => text_piece(alloc, rest),
        [b'(', rest @ ..] => Ok(Some((Piece::Open, rest))),
        [b')', rest @ ..] => Ok(Some((Piece::Close, rest))),
        [b',', rest @ ..] => Ok(Some((Piece::Comma, rest))),
        _ => Ok(run_piece(text)),
    }
}

/// The pieces of a line; none where it cannot be cut.
pub(crate) fn pieces_of(alloc: Global, line: &[u8]) -> Result<Option<Seq<Piece<'_>>>, OutOfMemory>
    ensures some { IfOk result (λ o. IfSome o (AreOnlyPieces line.now)) }
    ensures none { IfOk result (λ o. IfNone o (HasNoPieces line.now)) }
{
    let mut pieces = Vec::with_capacity(alloc, 12)?;
    let mut rest = without_blanks(line);
    while !rest.is_empty() {
        let Some((piece, after)) = first_piece(alloc, rest)? else {
            return Ok(None);
        };
        pieces.push(piece)?;
        rest = without_blanks(after);
    }
    Ok(Some(Seq::from_vec(pieces)))
}
