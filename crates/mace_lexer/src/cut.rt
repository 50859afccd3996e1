//! The next piece of a service text: blanks, a comment, or a token.

ghost use Rattle.std.specs.Prelude.{◌≡◌, ◌<◌, ◌≤◌, length, take, true, All, IfOk, IfSome, IfNone, slice_index};
ghost use Rattle.std.specs.List.{prefix_len};
ghost use Rattle.mace_lexer.specs.Words as words;
ghost use Rattle.mace_lexer.specs.inner.Fronts as fronts;
ghost use Rattle.mace_lexer.specs.inner.Fronts.{IsCut};

use crate::entry::entry_in;
use crate::fault::LexFault;
use crate::keyword::{KEYWORDS, Keyword};
use crate::quoted::quoted_cut;
use crate::sign::{SIGNS, Sign};
use crate::token::Word;
use std::alloc::Global;
use wave_base::{NAME_BYTES, OutOfMemory, Txt};

/// The piece at the front of a text: blanks or a comment, or a word, each of so many bytes; or the fault that is found so far behind the front.
#[derive(Drop)]
pub enum Cut {
    /// Blanks or a comment of so many bytes.
    Gap(usize),
    /// A word of so many bytes.
    Spell(usize, Word),
    /// A fault, so many bytes behind the front.
    Fault(LexFault, usize),
}

/// Which bytes go on with a piece.
#[derive(Clone, Copy)]
pub enum Class {
    /// All but a line end.
    Line,
    /// Letters, digits and `_`.
    Name,
    /// Digits.
    Digit,
}

/// The form of a piece: what its first two bytes tell.
#[derive(Clone, Copy)]
pub enum Form {
    /// Blanks other than a line end.
    Blank,
    /// A line end.
    LineEnd,
    /// `//`, up to the end of the line.
    Comment,
    /// A text in quotes.
    Text,
    /// A name or a keyword.
    Name,
    /// Digits.
    Number,
    /// A sign of one byte or two, or no piece at all.
    Sign,
}

fn is_in(class: Class, b: u8) -> bool
    ensures { result ≡ fronts.is_in class b }
{
    match class {
        Class::Line => b != b'\n',
        Class::Name => b.is_ascii_alphanumeric() || b == b'_',
        Class::Digit => b.is_ascii_digit(),
    }
}

// How many bytes at the front go on with a piece.
fn run(class: Class, text: &[u8]) -> usize
    ensures value { result ≡ prefix_len (fronts.is_in class) text.now }
    ensures within { result ≤ length text.now }
{
    let mut n = 0;
    while n < text.len() && is_in(class, text[n]) {
        n += 1;
    }
    n
}

#[tactic(auto, unfolding(crate::specs::Words::keyword))]
fn keyword(name: &[u8]) -> Option<Keyword>
    ensures { result ≡ words.keyword name.now }
{
    entry_in(&KEYWORDS, name)
}

#[tactic(auto, unfolding(crate::specs::Words::sign))]
fn sign(bytes: &[u8]) -> Option<Sign>
    ensures { result ≡ words.sign bytes.now }
{
    entry_in(&SIGNS, bytes)
}

fn name(alloc: Global, text: &[u8]) -> Result<Cut, OutOfMemory>
    requires some { 0 < length text.now }
    requires form { fronts.form_of text.now ≡ Form.Name }
    ensures { IfOk result (IsCut text.now) }
{
    let n = run(Class::Name, text);
    if NAME_BYTES < n {
        return Ok(Cut::Fault(LexFault::NameLong, 0));
    }
    let bytes = &text[..n];
    match keyword(bytes) {
        Some(k) => Ok(Cut::Spell(n, Word::Key(k))),
        None => Ok(Cut::Spell(n, Word::Name(Txt::from_bytes(alloc, bytes)?))),
    }
}

const GREATEST: u64 = 9223372036854775807;

// The number of these digits, if it isn't above the limit.
fn value(digits: &[u8]) -> Option<u64>
    requires { All (λ b. fronts.is_in Class.Digit b ≡ true) digits.now }
    ensures some { IfSome result (λ v. (v ≡ words.value_of digits.now) × (v ≤ GREATEST)) }
    ensures none { IfNone result (GREATEST < words.value_of digits.now) }
{
    let mut value = 0u64;
    for b in digits {
        let digit = u64::from(*b - b'0');
        if value > (GREATEST - digit) / 10 {
            return None;
        }
        value = 10 * value + digit;
    }
    Some(value)
}

fn number(text: &[u8]) -> Cut
    requires some { 0 < length text.now }
    requires form { fronts.form_of text.now ≡ Form.Number }
    ensures { IsCut text.now result }
{
    let n = run(Class::Digit, text);
    match value(&text[..n]) {
        Some(v) => Cut::Spell(n, Word::Number(v as i64)),
        None => Cut::Fault(LexFault::NumberRange, 0),
    }
}

// The sign of the first two bytes.
fn pair(text: &[u8]) -> Option<Sign>
    ensures some { IfSome result (λ s. (2 ≤ length text.now) × (words.sign (take 2 text.now) ≡ Some s)) }
    ensures none { IfNone result (2 ≤ length text.now → words.sign (take 2 text.now) ≡ None) }
{
    if text.len() < 2 {
        None
    } else {
        sign(&text[..2])
    }
}

// A sign of two bytes where they make one, else of one.
fn punctuation(text: &[u8]) -> Cut
    requires some { 0 < length text.now }
    requires form { fronts.form_of text.now ≡ Form.Sign }
    ensures { IsCut text.now result }
{
    if let Some(s) = pair(text) {
        return Cut::Spell(2, Word::Sign(s));
    }
    match sign(&text[..1]) {
        Some(s) => Cut::Spell(1, Word::Sign(s)),
        None => Cut::Fault(LexFault::BadByte, 0),
    }
}

// The byte at a place, and 0 behind the text.
fn byte(text: &[u8], at: usize) -> u8
    ensures { result ≡ slice_index text.now at }
{
    if at < text.len() { text[at] } else { 0 }
}

// The form of the piece that begins with these two bytes.
fn form_of(a: u8, b: u8) -> Form
    ensures { result ≡ fronts.form_by a b }
{
    match (a, b) {
        (b' ' | b'\t' | b'\n', _) => Form::Blank,
        (b'\r', b'\n') => Form::LineEnd,
        (b'/', b'/') => Form::Comment,
        (b'"', _) => Form::Text,
        _ if a.is_ascii_alphabetic() || a == b'_' => Form::Name,
        _ if a.is_ascii_digit() => Form::Number,
        _ => Form::Sign,
    }
}

/// The piece at the front of a text that isn't empty.
pub fn first_cut(alloc: Global, text: &[u8]) -> Result<Cut, OutOfMemory>
    requires { 0 < length text.now }
    ensures { IfOk result (IsCut text.now) }
{
    match form_of(text[0], byte(text, 1)) {
        Form::Blank => Ok(Cut::Gap(1)),
        Form::LineEnd => Ok(Cut::Gap(2)),
        Form::Comment => Ok(Cut::Gap(run(Class::Line, text))),
        Form::Text => quoted_cut(alloc, text),
        Form::Name => name(alloc, text),
        Form::Number => Ok(number(text)),
        Form::Sign => Ok(punctuation(text)),
    }
}
