//! Quoted texts, as they are read.

ghost use Rattle.std.specs.Prelude.{◌≡◌, IfOk, IfSome, IfNone};
ghost use Rattle.wave_text.specs.Quotes.{Quotes, QuotesNone, QuotesOnly, next_in, next_escaped};
ghost use Rattle.wave_text.specs.NextSeen.{next_of};

use std::alloc::Global;
use wave_base::OutOfMemory;

// What stands next inside a text, and what stands behind it.
enum Seen<'a> {
    Byte(u8, &'a [u8]),
    Close(&'a [u8]),
    Wrong,
}

fn next_escaped(bytes: &[u8]) -> Seen<'_>
    ensures { next_of result ≡ next_escaped bytes.now }
{
    match bytes {
        [b, rest @ ..] if *b == b'"' || *b == b'\\' => Seen::Byte(*b, rest),
        _ => Seen::Wrong,
    }
}

fn next_in(bytes: &[u8]) -> Seen<'_>
    ensures { next_of result ≡ next_in bytes.now }
{
    let [b, rest @ ..] = bytes else {
        return Seen::Wrong;
    };
    if *b == b'"' {
        return Seen::Close(rest);
    }
    if *b == b'\\' {
        return next_escaped(rest);
    }
    if 32 <= *b && *b < 127 {
        return Seen::Byte(*b, rest);
    }
    Seen::Wrong
}

/// The text that stands behind an opening quote, up to its closing quote, and what stands behind that.
pub fn read_quoted(alloc: Global, bytes: &[u8]) -> Result<Option<(Vec<u8>, &[u8])>, OutOfMemory>
    ensures some { IfOk result (λ o. IfSome o (λ x. Quotes bytes.now x.0.items x.1.now)) }
    ensures only { IfOk result (λ o. IfSome o (λ x. QuotesOnly bytes.now x.0.items x.1.now)) }
    ensures none { IfOk result (λ o. IfNone o (QuotesNone bytes.now)) }
{
    let mut text = Vec::new(alloc);
    let mut rest = bytes;
    loop {
        match next_in(rest) {
            Seen::Byte(b, after) => {
                text.push(b)?;
                rest = after;
            }
            Seen::Close(after) => return Ok(Some((text, after))),
            Seen::Wrong => return Ok(None),
        }
    }
}
