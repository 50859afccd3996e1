//! Sources and sinks, and what is said where one fails.

ghost use Rattle.std.specs.Prelude.{◌≡◌, ◌<◌, IfOk};

use std::alloc::Global;
use std::io::{self, ErrorKind, Read, Write};
use std::process::Abort;
use std::test::Fail;
use wave_base::{OutOfMemory, Path, Seq, Ticket};
use wave_io::{
    Failed, Gate, MemSink, MemSource, OpenGate, ReadError, Sink, Source, StdSink, StdSource,
    SureSink, SureSource, read_all, write_all,
};

// These bytes were read, or this fault is told. What was read is compared here alone, not in each test.
fn is_read(
    rt: &impl Abort,
    read: Result<Seq<u8>, ReadError>,
    wanted: Result<(), ReadError>,
    bytes: &[u8],
) {
    match read {
        Ok(read) => {
            assert_eq!(rt; wanted, Ok(()));
            assert_eq!(rt; read.as_slice(), bytes);
        }
        Err(error) => assert_eq!(rt; wanted, Err(error)),
    }
}

// What is read of `hello`, where so many bytes come at a time and these reads fail.
fn reads_in_pieces(
    rt: &impl Abort,
    alloc: Global,
    most: usize,
    fails: &[u64],
    limit: usize,
    wanted: Result<(), ReadError>,
) -> Result<(), OutOfMemory>
    requires { 0 < most }
{
    let bytes = Seq::from_slice(alloc, b"hello")?;
    let mut source = MemSource::new(bytes, most, Seq::from_slice(alloc, fails)?);
    is_read(rt, read_all(alloc, &mut source, limit), wanted, b"hello");
    Ok(())
}

#[test]
fn reads_to_the_end_in_small_pieces(rt: HostRuntime) -> Result<(), Fail> {
    let alloc = rt.alloc();
    reads_in_pieces(&rt, alloc, 2, &[], 5, Ok(()))?;
    let mut sure = SureSource::new(Seq::from_slice(alloc, b"hello")?);
    is_read(&rt, read_all(alloc, &mut sure, 9), Ok(()), b"hello");
    let mut none: &[u8] = b"";
    let mut real = StdSource::new(&mut none);
    is_read(&rt, read_all(alloc, &mut real, 9), Ok(()), b"");
    Ok(())
}

#[test]
fn says_why_it_stopped(rt: HostRuntime) -> Result<(), Fail> {
    let alloc = rt.alloc();
    reads_in_pieces(&rt, alloc, 2, &[3], 9, Err(ReadError::ReadFault))?;
    reads_in_pieces(&rt, alloc, 2, &[], 4, Err(ReadError::TooLarge))?;
    Ok(())
}

// `hello` is written two bytes at a time, where so many have room and these writes fail: this is said, and that is there.
fn writes_in_pieces(
    rt: &impl Abort,
    alloc: Global,
    room: usize,
    fails: &[u64],
    said: Result<(), Failed>,
    there: &[u8],
) -> Result<(), OutOfMemory> {
    let mut sink = MemSink::new(alloc, room, 2, Seq::from_slice(alloc, fails)?)?;
    assert_eq!(rt; write_all(&mut sink, b"hello"), said);
    assert_eq!(rt; sink.bytes(), there);
    Ok(())
}

#[test]
fn writes_a_front_where_the_sink_fails(rt: HostRuntime) -> Result<(), Fail> {
    let alloc = rt.alloc();
    writes_in_pieces(&rt, alloc, 9, &[2], Err(Failed), b"he")?;
    writes_in_pieces(&rt, alloc, 3, &[], Err(Failed), b"hel")?;
    Ok(())
}

#[test]
fn writes_all(rt: HostRuntime) -> Result<(), Fail> {
    let alloc = rt.alloc();
    writes_in_pieces(&rt, alloc, 9, &[], Ok(()), b"hello")?;
    assert_eq!(rt; write_all(&mut SureSink::new(), b"hello"), Ok(()));
    let mut kept = Vec::new(alloc);
    let mut real = StdSink::new(&mut kept);
    assert_eq!(rt; write_all(&mut real, b"hello"), Ok(()));
    OpenGate.reach(Ticket(1), &Path::root());
    Ok(())
}

// ---- the standard adapters, over readers and writers that tell their bytes

// What the adapter of a reader gives is what the reader had.
fn read_through(alloc: Global, bytes: &[u8]) -> Result<Seq<u8>, ReadError>
    ensures { IfOk result (λ got. got ≡ bytes.now) }
{
    let mut left = bytes;
    read_all(alloc, &mut StdSource::new(&mut left), usize::MAX)
}

// And what that of a writer takes the writer has.
fn written_through(alloc: Global, bytes: &[u8]) -> Result<Vec<u8>, Failed>
    ensures { IfOk result (λ out. out.items ≡ bytes.now) }
{
    let mut sink = StdSink::new(Vec::new(alloc));
    write_all(&mut sink, bytes)?;
    Ok(sink.into_inner())
}

#[test]
fn the_standard_adapters_pass_all_bytes_on(rt: HostRuntime) -> Result<(), Fail> {
    let alloc = rt.alloc();
    assert_eq!(rt;
        read_through(alloc, b"hello")?.as_slice(),
        b"hello".as_slice()
    );
    match written_through(alloc, b"hello") {
        Ok(out) => assert_eq!(rt; out.as_slice(), b"hello".as_slice()),
        Err(Failed) => panic!(rt; "a fault"),
    }
    Ok(())
}

// What a reader or writer does at a call.
#[derive(Clone, Copy, Debug, PartialEq, Eq)]
enum Turn {
    // It takes at most so many bytes, and one at least.
    Cut(usize),
    // It takes nothing, and says that all is well.
    Nothing,
    Fail,
    Interrupt,
}

// What comes next; behind the last turn nothing is cut.
fn next_turn(turns: &mut &[Turn]) -> Turn {
    match turns.split_first() {
        Some((turn, rest)) => {
            let turn = *turn;
            *turns = rest;
            turn
        }
        None => Turn::Cut(usize::MAX),
    }
}

// A reader that does so. It tells the bytes that it has left.
#[derive(Drop)]
struct Choppy<'l, 't> {
    left: &'l [u8],
    turns: &'t [Turn],
}

impl<'l, 't> Read for Choppy<'l, 't> {
    ghost use Rattle.std.specs.Prelude.{Some};

    ghost remaining = { λ c. Some c.left.now };

    fn read(&mut self, buf: &mut [u8]) -> io::Result<usize> {
        match next_turn(&mut self.turns) {
            Turn::Cut(most) => {
                let n = most.max(1).min(buf.len()).min(self.left.len());
                buf[..n].copy_from_slice(&self.left[..n]);
                self.left = &self.left[n..];
                Ok(n)
            }
            Turn::Nothing | Turn::Fail => Err(ErrorKind::BrokenPipe.into()),
            Turn::Interrupt => Err(ErrorKind::Interrupted.into()),
        }
    }
}

// A writer that does so. It tells the bytes that it was given.
#[derive(Drop)]
struct Narrow<'t> {
    kept: Vec<u8>,
    turns: &'t [Turn],
}

impl<'t> Write for Narrow<'t> {
    ghost use Rattle.std.specs.Prelude.{Some};

    ghost contents = { λ c. Some c.kept.items };

    fn write(&mut self, buf: &[u8]) -> io::Result<usize> {
        match next_turn(&mut self.turns) {
            Turn::Cut(most) => {
                let n = most.max(1).min(buf.len());
                self.kept.extend_from_slice(&buf[..n])?;
                Ok(n)
            }
            Turn::Nothing => Ok(0),
            Turn::Fail => Err(ErrorKind::BrokenPipe.into()),
            Turn::Interrupt => Err(ErrorKind::Interrupted.into()),
        }
    }

    fn flush(&mut self) -> io::Result<()> {
        Ok(())
    }
}

// Read by these turns, all that a reader has comes, or its fault is told.
fn reads(rt: &impl Abort, alloc: Global, turns: &[Turn], wanted: Result<(), ReadError>) {
    let left = b"hello".as_slice();
    let mut source = StdSource::new(Choppy { left, turns });
    is_read(rt, read_all(alloc, &mut source, 5), wanted, left);
}

#[test]
fn a_reader_cuts_fails_and_is_interrupted(rt: HostRuntime) -> Result<(), Fail> {
    let alloc = rt.alloc();
    reads(&rt, alloc, &[], Ok(()));
    reads(&rt, alloc, &[Turn::Cut(1), Turn::Cut(3)], Ok(()));
    let fault = Err(ReadError::ReadFault);
    for fails in [Turn::Fail, Turn::Interrupt] {
        reads(&rt, alloc, &[fails], fault);
        reads(&rt, alloc, &[Turn::Cut(2), fails], fault);
        reads(&rt, alloc, &[Turn::Cut(5), fails], fault);
    }
    Ok(())
}

// Written by these turns, the writer has all of it, or its fault is told and it has a front.
fn writes(
    rt: &impl Abort,
    alloc: Global,
    turns: &[Turn],
    wanted: Result<(), Failed>,
    front: &[u8],
) {
    let kept = Vec::new(alloc);
    let mut sink = StdSink::new(Narrow { kept, turns });
    assert_eq!(rt; write_all(&mut sink, b"hello"), wanted);
    assert_eq!(rt; sink.into_inner().kept.as_slice(), front);
}

#[test]
fn a_writer_cuts_fails_and_is_interrupted(rt: HostRuntime) -> Result<(), Fail> {
    let alloc = rt.alloc();
    writes(&rt, alloc, &[], Ok(()), b"hello");
    writes(&rt, alloc, &[Turn::Cut(1), Turn::Cut(3)], Ok(()), b"hello");
    for fails in [Turn::Nothing, Turn::Fail, Turn::Interrupt] {
        writes(&rt, alloc, &[fails], Err(Failed), b"");
        writes(&rt, alloc, &[Turn::Cut(2), fails], Err(Failed), b"he");
    }
    Ok(())
}
