//! Runs of the top call, and what each has to come to.

ghost use Rattle.std.specs.Prelude.{◌<◌};

use eventwave::{eventwave, eventwave_alone, start};
use std::alloc::Global;
use std::process::Abort;
use std::sync::Wait;
use std::test::Fail;
use std::thread::Threads;
use tests_services::words;
use wave_base::{OutOfMemory, Seq, Words};
use wave_io::{Gate, MemSink, MemSource, OpenGate};

/// A text as a list of bytes.
pub fn bytes(alloc: Global, text: &[u8]) -> Result<Seq<u8>, OutOfMemory> {
    Ok(Seq::from_vec(Vec::from_slice(alloc, text)?))
}

/// The numbers of calls that are to fail.
pub fn calls(alloc: Global, numbers: &[u64]) -> Result<Seq<u64>, OutOfMemory> {
    Ok(Seq::from_vec(Vec::from_slice(alloc, numbers)?))
}

/// The top call. What its contract says stands in these three functions alone, not in each test.
pub fn call<R: Threads + Wait + Sync, G: Gate + Sync>(
    rt: &R,
    alloc: Global,
    words: &Words,
    source: &mut MemSource,
    out: &mut MemSink,
    notes: &mut MemSink,
    gate: &G,
) -> u8 {
    eventwave(rt, alloc, words, source, out, notes, gate)
}

/// The same on this thread alone.
pub fn call_alone(
    alloc: Global,
    words: &Words,
    source: &mut MemSource,
    out: &mut MemSink,
    notes: &mut MemSink,
) -> Option<u8> {
    eventwave_alone(alloc, words, source, out, notes)
}

/// The same for words that may have found no memory.
pub fn call_with<R: Threads + Wait + Sync>(
    rt: &R,
    alloc: Global,
    words: Result<Words, OutOfMemory>,
    source: &mut MemSource,
    out: &mut MemSink,
    notes: &mut MemSink,
) -> u8 {
    start(rt, alloc, words, source, out, notes, &OpenGate)
}

/// A run on some words: what comes in, which read and write fail (0 is none), and what has to come out.
#[derive(Clone, Copy)]
pub struct Row<'a> {
    pub words: &'a str,
    pub input: &'a [u8],
    pub failing_read: u64,
    pub failing_write: u64,
    pub status: u8,
    pub out: &'a [u8],
    pub note: &'a [u8],
}

/// The run of a row comes to what has to come out.
pub fn holds<R: Abort + Threads + Wait + Sync>(
    rt: &R,
    alloc: Global,
    row: &Row,
) -> Result<(), OutOfMemory> {
    let words = words(alloc, row.words)?;
    let mut source = MemSource::new(
        bytes(alloc, row.input)?,
        16,
        calls(alloc, &[row.failing_read])?,
    );
    let mut out = MemSink::new(alloc, 10_000, 4, calls(alloc, &[row.failing_write])?)?;
    let mut notes = MemSink::new(alloc, 10_000, 4, Seq::new(alloc))?;
    let got = call(
        rt,
        alloc,
        &words,
        &mut source,
        &mut out,
        &mut notes,
        &OpenGate,
    );
    assert_eq!(rt; got, row.status);
    assert_eq!(rt; out.bytes(), row.out);
    assert_eq!(rt; notes.bytes(), row.note);
    Ok(())
}

/// The status of a run on these words and this input, and what it wrote.
pub fn ran_on<R: Threads + Wait + Sync, G: Gate + Sync>(
    rt: &R,
    alloc: Global,
    text: &str,
    input: &[u8],
    gate: &G,
) -> Result<(u8, MemSink), OutOfMemory> {
    let words = words(alloc, text)?;
    let mut source = MemSource::new(bytes(alloc, input)?, 4096, Seq::new(alloc));
    let mut out = MemSink::new(alloc, 100_000, 100, Seq::new(alloc))?;
    let mut notes = MemSink::new(alloc, 100, 100, Seq::new(alloc))?;
    let status = call(rt, alloc, &words, &mut source, &mut out, &mut notes, gate);
    Ok((status, out))
}

/// A row in which no read and no write fails.
pub fn plain<'a>(
    words: &'a str,
    input: &'a [u8],
    status: u8,
    out: &'a [u8],
    note: &'a [u8],
) -> Row<'a> {
    Row {
        words,
        input,
        failing_read: 0,
        failing_write: 0,
        status,
        out,
        note,
    }
}

/// A service, a script, and what they come to.
#[derive(Clone, Copy)]
pub struct Case<'a> {
    pub words: &'a str,
    pub service: &'a [u8],
    pub script: &'a [u8],
    pub status: u8,
    pub out: &'a [u8],
    pub note: &'a [u8],
}

/// A case that ends with status 0.
pub fn works<'a>(words: &'a str, service: &'a [u8], script: &'a [u8], out: &'a [u8]) -> Case<'a> {
    Case {
        words,
        service,
        script,
        status: 0,
        out,
        note: b"",
    }
}

/// The same where an event traps.
pub fn traps<'a>(words: &'a str, service: &'a [u8], script: &'a [u8], out: &'a [u8]) -> Case<'a> {
    Case {
        status: 1,
        ..works(words, service, script, out)
    }
}

/// A script that is refused.
pub fn refuses<'a>(service: &'a [u8], script: &'a [u8], note: &'a [u8]) -> Case<'a> {
    Case {
        status: 4,
        note,
        ..works("seq", service, script, b"")
    }
}

/// A service, a `----` line, and a script.
pub fn join(alloc: Global, service: &[u8], script: &[u8]) -> Result<Vec<u8>, OutOfMemory> {
    let mut input = Vec::from_slice(alloc, service)?;
    input.extend_from_slice(b"----\n")?;
    input.extend_from_slice(script)?;
    Ok(input)
}

/// Each of the cases comes to what it has to.
pub fn all_hold<R: Abort + Threads + Wait + Sync>(
    rt: &R,
    alloc: Global,
    cases: &[Case],
) -> Result<(), Fail> {
    for case in cases {
        let input = join(alloc, case.service, case.script)?;
        let row = plain(
            case.words,
            input.as_slice(),
            case.status,
            case.out,
            case.note,
        );
        holds(rt, alloc, &row)?;
    }
    Ok(())
}

/// The status of a run in writes of at most so many bytes, of which one fails, what it wrote, and its note.
pub fn break_call<R: Threads + Wait + Sync>(
    rt: &R,
    alloc: Global,
    text: &str,
    input: &[u8],
    piece: usize,
    failing_write: u64,
) -> Result<(u8, MemSink, MemSink), OutOfMemory>
    requires { 0 < piece }
{
    let words = words(alloc, text)?;
    let mut source = MemSource::new(bytes(alloc, input)?, 4096, Seq::new(alloc));
    let mut out = MemSink::new(alloc, 10_000, piece, calls(alloc, &[failing_write])?)?;
    let mut notes = MemSink::new(alloc, 100, 100, Seq::new(alloc))?;
    let status = call(
        rt,
        alloc,
        &words,
        &mut source,
        &mut out,
        &mut notes,
        &OpenGate,
    );
    Ok((status, out, notes))
}
