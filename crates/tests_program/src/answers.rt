//! What is told of services by `check`: each thing that is asked of one, and its limits at the number and one past it; of
//! the lines of scripts; of events that trap; and of what the machine runs, which is traced too.

mod demands;
mod limits;
mod rows;
mod schedules;
mod scripts;
mod second;
mod traces;
mod traps;

use crate::tests::rows::call_alone;
use std::alloc::Global;
use std::process::Abort;
use tests_services::words;
use wave_base::{OutOfMemory, Seq};
use wave_io::{MemSink, MemSource};

/// What a call came to: its status, and what it wrote on the output and as a note.
#[derive(Drop)]
struct Answer {
    status: u8,
    out: MemSink,
    notes: MemSink,
}

// What a call on this thread comes to, for words with a blank between them and an input.
fn due(rt: &impl Abort, alloc: Global, text: &str, input: &[u8]) -> Result<Answer, OutOfMemory> {
    let words = words(alloc, text)?;
    let bytes = Seq::from_vec(Vec::from_slice(alloc, input)?);
    let mut source = MemSource::new(bytes, 4096, Seq::new(alloc));
    let mut out = MemSink::new(alloc, 4_000_000, 4096, Seq::new(alloc))?;
    let mut notes = MemSink::new(alloc, 1000, 1000, Seq::new(alloc))?;
    let status = call_alone(alloc, &words, &mut source, &mut out, &mut notes);
    assert!(rt; status.is_some());
    Ok(Answer {
        status: status.unwrap_or(0),
        out,
        notes,
    })
}

// It has this status, this note and this text.
fn has(rt: &impl Abort, answer: &Answer, status: u8, note: &[u8], text: &[u8]) {
    let told = answer.notes.bytes();
    equal(rt, told.strip_suffix(b"\n").unwrap_or(told), note);
    equal(rt, answer.out.bytes(), text);
    assert_eq!(rt; answer.status, status);
}

fn equal(rt: &impl Abort, one: &[u8], other: &[u8]) {
    assert_eq!(rt; one, other);
}

fn join(alloc: Global, pieces: &[&[u8]]) -> Result<Vec<u8>, OutOfMemory> {
    let mut text = Vec::new(alloc);
    for piece in pieces {
        text.extend_from_slice(piece)?;
    }
    Ok(text)
}

// The rows of a table, a line each: those that are not empty and do not begin with `#`.
fn rows_of<'t>(
    rt: &impl Abort,
    alloc: Global,
    table: &'t [u8],
) -> Result<Vec<&'t [u8]>, OutOfMemory> {
    let mut rows = Vec::new(alloc);
    for line in table.split(|byte| *byte == b'\n') {
        if !line.is_empty() && !line.starts_with(b"#") {
            rows.push(line)?;
        }
    }
    assert!(rt; !rows.is_empty());
    Ok(rows)
}

// What stands in a row before its first `: `, and what behind.
fn sides(row: &[u8]) -> (&[u8], &[u8]) {
    let at = row.iter().position(|byte| *byte == b':').unwrap_or(0);
    (
        row.get(..at).unwrap_or(b""),
        row.get(at + 2..).unwrap_or(b""),
    )
}

// The column of the mark `^` in a text of one line, and the text without it.
fn without_mark(alloc: Global, marked: &[u8]) -> Result<(u64, Vec<u8>), OutOfMemory> {
    let at = marked.iter().position(|byte| *byte == b'^').unwrap_or(0);
    let before = marked.get(..at).unwrap_or(b"");
    let behind = marked.get(at + 1..).unwrap_or(b"");
    Ok((before.len() as u64 + 1, join(alloc, &[before, behind])?))
}
