//! Texts with a head that tells how many lines stand behind it.

ghost use Rattle.std.specs.Prelude.{◌≡◌, ◌≤◌, ◌++◌, OnOk, IfOk, IfSome, IfNone, count_by, ◌==◌};
ghost use Rattle.std.specs.Fmt.{decimal};
ghost use Rattle.wave_text.specs.Counted.{left_over, line_count, IsBehindHead, HasNoHead};
ghost use Rattle.wave_text.specs.Splits.{HasNone};

use crate::put::{put_bytes, put_number};
use crate::split::split_at;
use std::alloc::Global;
use wave_base::OutOfMemory;

fn left_over(text: &[u8]) -> usize
    ensures count { result ≡ left_over text.now }
    ensures few { result ≤ 1 }
{
    match text {
        [.., last] => { if *last == b'\n' { 0 } else { 1 } }
        [] => 0,
    }
}

fn feeds(text: &[u8]) -> usize
    ensures { result ≡ count_by (λ b. b == 10) text.now }
{
    text.iter().filter(|b| **b == b'\n').count()
}

/// The number of lines of a text: what stands behind its last line feed is a line too.
pub fn line_count(text: &[u8]) -> usize
    ensures { result ≡ line_count text.now }
{
    feeds(text) + left_over(text)
}

/// Appends a head: a word, and how many lines stand behind it; without a line feed.
pub fn put_head(
    alloc: Global,
    out: &mut Vec<u8>,
    word: &[u8],
    count: u64,
) -> Result<(), OutOfMemory>
    ensures { OnOk result (out.new.items ≡ out.old.items ++ (word.now ++ decimal count)) }
{
    put_bytes(out, word)?;
    put_number(alloc, out, count)
}

/// What stands behind a head of that word, where the text begins with one that tells the number of lines behind it.
pub fn behind_head<'t>(
    alloc: Global,
    word: &[u8],
    text: &'t [u8],
) -> Result<Option<&'t [u8]>, OutOfMemory>
    requires { HasNone 10 word.now }
    ensures some { IfOk result (λ o. IfSome o (λ rest. IsBehindHead word.now text.now rest.now)) }
    ensures none { IfOk result (λ o. IfNone o (HasNoHead word.now text.now)) }
{
    let Some((head, rest)) = split_at(text, b'\n') else {
        return Ok(None);
    };
    let mut written = Vec::new(alloc);
    put_head(alloc, &mut written, word, line_count(rest) as u64)?;
    if written.as_slice() == head {
        Ok(Some(rest))
    } else {
        Ok(None)
    }
}
