//! Hints in words: those that make a group by its name, and the others one by one.

ghost use Rattle.std.specs.Prelude.{◌<◌};

use crate::groups::{GROUPS, Group};
use mace_hints::Hint;
use std::alloc::Global;
use wave_base::OutOfMemory;
use wave_text::put_bytes;

// What is told by one word or more: a group, or a keyword or a sign as it is written.
#[derive(Clone, Copy)]
struct Item {
    words: &'static [u8],
    is_written: bool,
}

// Whether all of a group are told.
fn has_all(told: &[Hint], group: &[Hint]) -> bool {
    group.iter().all(|hint| told.contains(hint))
}

// What is told besides a group.
fn besides(alloc: Global, told: &[Hint], group: &Group) -> Result<Vec<Hint>, OutOfMemory> {
    let mut rest = Vec::new(alloc);
    for hint in told {
        if !group.all.contains(hint) && !group.others.contains(hint) {
            rest.push(*hint)?;
        }
    }
    Ok(rest)
}

// How a keyword or a sign is written, and the word `finish`: all else is of a group.
fn spelling(hint: Hint) -> &'static [u8] {
    match hint {
        Hint::Key(key) => key.bytes(),
        Hint::Sign(sign) => sign.bytes(),
        _ => b"finish",
    }
}

// The groups of which all is told, and then what is left.
fn phrases_of(alloc: Global, hints: &[Hint]) -> Result<Vec<Item>, OutOfMemory> {
    let mut all = Vec::new(alloc);
    let mut told = Vec::from_slice(alloc, hints)?;
    for group in &GROUPS {
        if has_all(told.as_slice(), group.all) {
            all.push(Item {
                words: group.name,
                is_written: false,
            })?;
            told = besides(alloc, told.as_slice(), group)?;
        }
    }
    for hint in &told {
        all.push(Item {
            words: spelling(*hint),
            is_written: true,
        })?;
    }
    Ok(all)
}

fn put_said(out: &mut Vec<u8>, said: &Item) -> Result<(), OutOfMemory> {
    if said.is_written {
        put_bytes(out, b"`")?;
        put_bytes(out, said.words)?;
        return put_bytes(out, b"`");
    }
    put_bytes(out, said.words)
}

// What stands before an item.
fn joint(place: usize, count: usize) -> &'static [u8]
    requires { place < count }
{
    if place == 0 {
        b""
    } else if place + 1 < count {
        b", "
    } else {
        b" or "
    }
}

/// The line that tells what could stand.
pub fn phrase(alloc: Global, hints: &[Hint]) -> Result<Vec<u8>, OutOfMemory> {
    let mut out = Vec::new(alloc);
    let all = phrases_of(alloc, hints)?;
    if all.is_empty() {
        put_bytes(&mut out, b"nothing can stand here: the service has ended\n")?;
        return Ok(out);
    }
    put_bytes(&mut out, b"expected ")?;
    for (place, item) in all.iter().enumerate() {
        put_bytes(&mut out, joint(place, all.len()))?;
        put_said(&mut out, item)?;
    }
    put_bytes(&mut out, b"\n")?;
    Ok(out)
}
