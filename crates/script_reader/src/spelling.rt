//! The form that a line's pieces spell.

ghost use Rattle.std.specs.Prelude.{◌≡◌, ◌∷◌, ◌↔◌, [], List, ℕ, drop, true, IsTrue, IsFalse, codes, IfOk, IfSome, IfNone};
ghost use Rattle.script_reader.specs.inner.Behind.{behind_of};
ghost use Rattle.script_reader.specs.Forms.{IsOnlyFormOf, HasNoFormOf};
ghost use Rattle.script_reader.specs.inner.Parts.{is_literal_run, spells_literal, IsLiteralPiece, SpellLiterals, AreOnlyLiterals, AreNoLiterals, IsNumber, IsNoNumber, IsNamed, IsNotNamed, IsTo, IsNotTo, IsMove, IsNoMove, SpellsOnly, SpellsNone, behind_in};
ghost use Rattle.script_reader.specs.declared.piece.Piece.TheVariants.{Run, Close};

use crate::bytes::Bytes;
use crate::form::{Form, Literal};
use crate::piece::Piece;
use path_text::written_steps;
use std::alloc::Global;
use wave_base::{OutOfMemory, Seq};
use wave_text::{is_digits, is_whole, is_word};

/// The bytes of a run.
pub(crate) fn run_in<'t>(piece: &Piece<'t>) -> Option<&'t [u8]>
    ensures some { IfSome result (λ bytes. piece.now ≡ Run bytes.now) }
    ensures none { IfNone result ((bytes : List ℕ) → piece.now ≡ Run bytes → ⊥) }
{
    match piece {
        Piece::Run(bytes) => Some(bytes.as_slice()),
        _ => None,
    }
}

// ---- literals

// Whether a piece spells a literal.
fn spells_literal(piece: &Piece<'_>) -> bool
    ensures { result ≡ spells_literal piece.now }
{
    match piece {
        Piece::Run(bytes) => is_literal_run(bytes.as_slice()),
        Piece::Text(_) => true,
        Piece::Open | Piece::Close | Piece::Comma => false,
    }
}

fn is_literal_run(bytes: &[u8]) -> bool
    ensures { result ≡ is_literal_run bytes.now }
{
    is_whole(bytes) || bytes == b"true".as_slice() || bytes == b"false".as_slice()
}

// The literal that a run spells.
fn run_literal(bytes: &[u8]) -> Literal<'_>
    requires { is_literal_run bytes.now ≡ true }
    ensures { IsLiteralPiece (Run bytes.now) result }
{
    if bytes == b"true".as_slice() {
        return Literal::Truth(true);
    }
    if bytes == b"false".as_slice() {
        return Literal::Truth(false);
    }
    Literal::Number(Bytes::of(bytes))
}

// The literal that a piece spells.
fn literal_of<'t>(alloc: Global, piece: &Piece<'t>) -> Result<Literal<'t>, OutOfMemory>
    requires { spells_literal piece.now ≡ true }
    ensures { IfOk result (IsLiteralPiece piece.now) }
{
    match piece {
        Piece::Run(bytes) => Ok(run_literal(bytes.as_slice())),
        Piece::Text(text) => Ok(Literal::Text(text.copy(alloc)?)),
        Piece::Open | Piece::Close | Piece::Comma => unreachable!(),
    }
}

// What stands behind a literal.
enum Behind {
    More,
    End,
    Wrong,
}

fn behind_literal(pieces: &[Piece<'_>]) -> Behind
    ensures { behind_of result (drop 1 pieces.now) ≡ behind_in pieces.now }
{
    match pieces {
        [Piece::Comma, ..] => Behind::More,
        [Piece::Close] => Behind::End,
        _ => Behind::Wrong,
    }
}

fn is_close(pieces: &[Piece<'_>]) -> bool
    ensures { IsTrue result ↔ (pieces.now ≡ Close ∷ []) }
{
    matches!(pieces, [Piece::Close])
}

// Whether these pieces spell literals behind an opening parenthesis. Nothing is copied for that.
fn are_literals(pieces: &[Piece<'_>]) -> bool
    ensures some { IsTrue result → SpellLiterals pieces.now }
    ensures none { IsFalse result → AreNoLiterals pieces.now }
{
    if is_close(pieces) {
        return true;
    }
    let mut rest = pieces;
    loop {
        let [piece, after @ ..] = rest else {
            return false;
        };
        if !spells_literal(piece) {
            return false;
        }
        match behind_literal(after) {
            Behind::More => {}
            Behind::End => return true,
            Behind::Wrong => return false,
        }
        let [_, more @ ..] = after else {
            return false;
        };
        rest = more;
    }
}

// These literals: behind each of them stands a sign.
fn literals_of<'t>(alloc: Global, pieces: &[Piece<'t>]) -> Result<Seq<Literal<'t>>, OutOfMemory>
    requires { SpellLiterals pieces.now }
    ensures { IfOk result (AreOnlyLiterals pieces.now) }
{
    let mut literals = Seq::new(alloc);
    let mut rest = pieces;
    while let [piece, _, after @ ..] = rest {
        literals.add(literal_of(alloc, piece)?)?;
        rest = after;
    }
    Ok(literals)
}

// ---- lines

/// The digits of a number that stands alone.
pub(crate) fn number_alone<'t>(rest: &[Piece<'t>]) -> Option<&'t [u8]>
    ensures some { IfSome result (λ n. IsNumber rest.now n.now) }
    ensures none { IfNone result (IsNoNumber rest.now) }
{
    let [piece] = rest else {
        return None;
    };
    let bytes = run_in(piece)?;
    if is_digits(bytes) { Some(bytes) } else { None }
}

fn hosts_form<'t>(rest: &[Piece<'t>]) -> Option<Form<'t>>
    ensures some { IfSome result (IsOnlyFormOf (codes "hosts") rest.now) }
    ensures none { IfNone result (HasNoFormOf (codes "hosts") rest.now) }
{
    match number_alone(rest) {
        Some(digits) => Some(Form::Hosts(Bytes::of(digits))),
        None => None,
    }
}

// A name and an opening parenthesis, and what stands behind them.
fn name_before<'a, 't>(rest: &'a [Piece<'t>]) -> Option<(&'t [u8], &'a [Piece<'t>])>
    ensures some { IfSome result (λ x. IsNamed rest.now x.0.now x.1.now) }
    ensures none { IfNone result (IsNotNamed rest.now) }
{
    let [piece, Piece::Open, args @ ..] = rest else {
        return None;
    };
    let name = run_in(piece)?;
    if is_word(name) {
        Some((name, args))
    } else {
        None
    }
}

fn request_form<'t>(alloc: Global, rest: &[Piece<'t>]) -> Result<Option<Form<'t>>, OutOfMemory>
    ensures some { IfOk result (λ o. IfSome o (IsOnlyFormOf (codes "request") rest.now)) }
    ensures none { IfOk result (λ o. IfNone o (HasNoFormOf (codes "request") rest.now)) }
{
    let Some((name, args)) = name_before(rest) else {
        return Ok(None);
    };
    if !are_literals(args) {
        return Ok(None);
    }
    let args = literals_of(alloc, args)?;
    Ok(Some(Form::Request(Bytes::of(name), args)))
}

// The digits behind the word `to`.
fn host_behind<'t>(rest: &[Piece<'t>]) -> Option<&'t [u8]>
    ensures some { IfSome result (λ digits. IsTo rest.now digits.now) }
    ensures none { IfNone result (IsNotTo rest.now) }
{
    let [to, behind @ ..] = rest else {
        return None;
    };
    let to = run_in(to)?;
    let digits = number_alone(behind)?;
    if to == b"to".as_slice() {
        Some(digits)
    } else {
        None
    }
}

/// A run, the word `to`, and digits.
pub(crate) fn path_and_host<'t>(rest: &[Piece<'t>]) -> Option<(&'t [u8], &'t [u8])>
    ensures some { IfSome result (λ x. IsMove rest.now x.0.now x.1.now) }
    ensures none { IfNone result (IsNoMove rest.now) }
{
    let [path, behind @ ..] = rest else {
        return None;
    };
    let path = run_in(path)?;
    let digits = host_behind(behind)?;
    Some((path, digits))
}

fn move_form<'t>(alloc: Global, rest: &[Piece<'t>]) -> Result<Option<Form<'t>>, OutOfMemory>
    ensures some { IfOk result (λ o. IfSome o (IsOnlyFormOf (codes "move") rest.now)) }
    ensures none { IfOk result (λ o. IfNone o (HasNoFormOf (codes "move") rest.now)) }
{
    let Some((path, digits)) = path_and_host(rest) else {
        return Ok(None);
    };
    let Some(steps) = written_steps(alloc, path)? else {
        return Ok(None);
    };
    Ok(Some(Form::Move(steps, Bytes::of(digits))))
}

fn snapshot_form<'t>(rest: &[Piece<'t>]) -> Option<Form<'t>>
    ensures some { IfSome result (IsOnlyFormOf (codes "snapshot") rest.now) }
    ensures none { IfNone result (HasNoFormOf (codes "snapshot") rest.now) }
{
    if rest.is_empty() {
        Some(Form::Snapshot)
    } else {
        None
    }
}

fn settle_form<'t>(rest: &[Piece<'t>]) -> Option<Form<'t>>
    ensures some { IfSome result (IsOnlyFormOf (codes "settle") rest.now) }
    ensures none { IfNone result (HasNoFormOf (codes "settle") rest.now) }
{
    if rest.is_empty() {
        Some(Form::Settle)
    } else {
        None
    }
}

// The form of a line with this first word.
fn form_of_word<'t>(
    alloc: Global,
    word: &[u8],
    rest: &[Piece<'t>],
) -> Result<Option<Form<'t>>, OutOfMemory>
    ensures some { IfOk result (λ o. IfSome o (IsOnlyFormOf word.now rest.now)) }
    ensures none { IfOk result (λ o. IfNone o (HasNoFormOf word.now rest.now)) }
{
    if word == b"hosts".as_slice() {
        return Ok(hosts_form(rest));
    }
    if word == b"request".as_slice() {
        return request_form(alloc, rest);
    }
    if word == b"move".as_slice() {
        return move_form(alloc, rest);
    }
    if word == b"snapshot".as_slice() {
        return Ok(snapshot_form(rest));
    }
    if word == b"settle".as_slice() {
        return Ok(settle_form(rest));
    }
    Ok(None)
}

/// The form of a line with these pieces.
pub(crate) fn form_of<'t>(
    alloc: Global,
    pieces: &[Piece<'t>],
) -> Result<Option<Form<'t>>, OutOfMemory>
    ensures some { IfOk result (λ o. IfSome o (SpellsOnly pieces.now)) }
    ensures none { IfOk result (λ o. IfNone o (SpellsNone pieces.now)) }
{
    let [first, rest @ ..] = pieces else {
        return Ok(None);
    };
    let Some(word) = run_in(first) else {
        return Ok(None);
    };
    form_of_word(alloc, word, rest)
}
