//! What a line of a checkpoint looks like, whatever it tells: this parts a line out of form from one that tells something else.

ghost use Rattle.std.specs.Prelude.{◌≡◌, ◌↔◌, IsTrue, IfOk};
ghost use Rattle.std.specs.List.{list_all};
ghost use Rattle.checkpoint_store.specs.Forms.{cut_at, is_numbers, is_count, is_parent, is_kind, is_named_kind, is_field, is_class_line, HasPlainSteps, IsPlaceLine};
ghost use Rattle.checkpoint_store.specs.inner.Steps.{LooksLike};

use path_text::written_steps;
use snapshot_text::{are_plain, is_plain_digits};
use std::alloc::Global;
use wave_base::{OutOfMemory, Seq};
use wave_text::{is_word, split_at};

/// What lines look alike.
#[derive(Clone, Copy, Debug, PartialEq, Eq)]
pub(crate) enum Form {
    /// One line alone.
    Word,
    /// `hosts h lines m next t`.
    Numbers,
    /// `classes c`.
    Count,
    /// `class name parent field:kind ..`.
    Class,
    /// `place path h`.
    Place,
}

// A text cut at each such byte.
fn cut_at(alloc: Global, text: &[u8], byte: u8) -> Result<Seq<Seq<u8>>, OutOfMemory>
    ensures { IfOk result (λ words. words ≡ cut_at byte text.now) }
{
    let mut words = Seq::new(alloc);
    let mut rest = text;
    while let Some((word, after)) = split_at(rest, byte) {
        let copy = Seq::from_slice(alloc, word)?;
        words.add(copy)?;
        rest = after;
    }
    let last = Seq::from_slice(alloc, rest)?;
    words.add(last)?;
    Ok(words)
}

fn is_numbers(words: &[Seq<u8>]) -> bool
    ensures { result ≡ is_numbers words.now }
{
    match words {
        [hosts, h, lines, m, next, t] => {
            hosts.as_slice() == b"hosts".as_slice()
                && is_plain_digits(h.as_slice())
                && lines.as_slice() == b"lines".as_slice()
                && is_plain_digits(m.as_slice())
                && next.as_slice() == b"next".as_slice()
                && is_plain_digits(t.as_slice())
        }
        _ => false,
    }
}

fn is_count(words: &[Seq<u8>]) -> bool
    ensures { result ≡ is_count words.now }
{
    match words {
        [classes, c] => classes.as_slice() == b"classes".as_slice()
            && is_plain_digits(c.as_slice()),
        _ => false,
    }
}

fn is_parent(word: &[u8]) -> bool
    ensures { result ≡ is_parent word.now }
{
    word == b"-".as_slice() || is_word(word)
}

fn is_kind(word: &[u8]) -> bool
    ensures { result ≡ is_kind word.now }
{
    word == b"int".as_slice()
        || word == b"bool".as_slice()
        || word == b"text".as_slice()
        || word == b"map".as_slice()
}

fn is_named_kind(parts: &[Seq<u8>]) -> bool
    ensures { result ≡ is_named_kind parts.now }
{
    match parts {
        [name, kind] => is_word(name.as_slice()) && is_kind(kind.as_slice()),
        _ => false,
    }
}

// Whether each of these is a name, a colon and a kind.
fn are_fields(alloc: Global, words: &[Seq<u8>]) -> Result<bool, OutOfMemory>
    ensures { IfOk result (λ b. b ≡ list_all is_field words.now) }
{
    for word in words {
        let parts = cut_at(alloc, word.as_slice(), b':')?;
        if !is_named_kind(parts.as_slice()) {
            return Ok(false);
        }
    }
    Ok(true)
}

fn is_class_line(alloc: Global, words: &[Seq<u8>]) -> Result<bool, OutOfMemory>
    ensures { IfOk result (λ b. b ≡ is_class_line words.now) }
{
    match words {
        [class, name, parent, fields @ ..] => {
            if class.as_slice() == b"class".as_slice()
                && is_word(name.as_slice())
                && is_parent(parent.as_slice())
            {
                are_fields(alloc, fields)
            } else {
                Ok(false)
            }
        }
        _ => Ok(false),
    }
}

// Whether a text has a path's form, with keys without zeros in front.
fn is_plain_path(alloc: Global, text: &[u8]) -> Result<bool, OutOfMemory>
    ensures { IfOk result (λ b. IsTrue b ↔ HasPlainSteps text.now) }
{
    let Some(steps) = written_steps(alloc, text)? else {
        return Ok(false);
    };
    Ok(are_plain(steps.as_slice()))
}

fn is_place(alloc: Global, words: &[Seq<u8>]) -> Result<bool, OutOfMemory>
    ensures { IfOk result (λ b. IsTrue b ↔ IsPlaceLine words.now) }
{
    match words {
        [place, path, host] => {
            if place.as_slice() == b"place".as_slice() && is_plain_digits(host.as_slice()) {
                is_plain_path(alloc, path.as_slice())
            } else {
                Ok(false)
            }
        }
        _ => Ok(false),
    }
}

/// Whether a line looks like others that tell something else in its place.
pub(crate) fn looks_like(alloc: Global, form: Form, line: &[u8]) -> Result<bool, OutOfMemory>
    ensures { IfOk result (λ b. IsTrue b ↔ LooksLike form line.now) }
{
    let words = cut_at(alloc, line, b' ')?;
    let words = words.as_slice();
    match form {
        Form::Word => Ok(false),
        Form::Numbers => Ok(is_numbers(words)),
        Form::Count => Ok(is_count(words)),
        Form::Class => is_class_line(alloc, words),
        Form::Place => is_place(alloc, words),
    }
}
