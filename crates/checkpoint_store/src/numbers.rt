//! The line of a checkpoint's numbers: hosts, next ticket, event lines.

ghost use Rattle.std.specs.Prelude.{◌≡◌, ◌++◌, IsTrue, ◌↔◌, OnOk, IfOk, IfSome, IfNone};
ghost use Rattle.checkpoint_store.specs.CheckpointTexts.{numbers_text};
ghost use Rattle.checkpoint_store.specs.Points.{AreInRange};
ghost use Rattle.checkpoint_store.specs.inner.Steps.{AreNumbersOf, IsNumbersLine, HasNoNumbers};

use std::alloc::Global;
use wave_base::{EVENT_LINES, HOSTS, OutOfMemory, SAVED_TICKET};
use wave_text::{byte_of, parts_at, put_bytes, put_number, u32_of};

/// What the second line of a checkpoint tells.
#[derive(Clone, Copy, Debug, PartialEq, Eq)]
pub(crate) struct Numbers {
    /// How many hosts there are.
    pub(crate) hosts: u8,
    /// How many event lines stand before.
    pub(crate) lines: u32,
    /// The next ticket.
    pub(crate) next: u32,
}

/// Appends the line of the numbers, without a line feed.
pub(crate) fn put_numbers(
    alloc: Global,
    out: &mut Vec<u8>,
    numbers: Numbers,
) -> Result<(), OutOfMemory>
    ensures { OnOk result (out.new.items ≡ out.old.items ++ numbers_text numbers) }
{
    put_bytes(out, b"hosts ")?;
    put_number(alloc, out, u64::from(numbers.hosts))?;
    put_bytes(out, b" lines ")?;
    put_number(alloc, out, u64::from(numbers.lines))?;
    put_bytes(out, b" next ")?;
    put_number(alloc, out, u64::from(numbers.next))
}

fn are_in_range(numbers: Numbers) -> bool
    ensures { IsTrue result ↔ AreInRange numbers }
{
    1 <= numbers.hosts
        && numbers.hosts <= HOSTS
        && numbers.lines as usize <= EVENT_LINES
        && 1 <= numbers.next
        && numbers.next <= SAVED_TICKET
}

// The numbers in range that a line can be written for.
fn numbers_in(line: &[u8]) -> Option<Numbers>
    ensures { AreNumbersOf line.now result }
{
    let (_, rest) = parts_at(line, b' ');
    let (hosts, rest) = parts_at(rest, b' ');
    let (_, rest) = parts_at(rest, b' ');
    let (lines, rest) = parts_at(rest, b' ');
    let (_, next) = parts_at(rest, b' ');
    let hosts = byte_of(hosts)?;
    let lines = u32_of(lines)?;
    let next = u32_of(next)?;
    Some(Numbers { hosts, lines, next })
}

/// The numbers of a line, where it is written just so and they are in range.
pub(crate) fn numbers_of(alloc: Global, line: &[u8]) -> Result<Option<Numbers>, OutOfMemory>
    ensures some { IfOk result (λ o. IfSome o (IsNumbersLine line.now)) }
    ensures none { IfOk result (λ o. IfNone o (HasNoNumbers line.now)) }
{
    let Some(numbers) = numbers_in(line) else {
        return Ok(None);
    };
    if !are_in_range(numbers) {
        return Ok(None);
    }
    let mut written = Vec::new(alloc);
    put_numbers(alloc, &mut written, numbers)?;
    if written.as_slice() == line {
        Ok(Some(numbers))
    } else {
        Ok(None)
    }
}
