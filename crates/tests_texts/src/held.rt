//! What is held goes out in few writes, and stays where the sink fails.

ghost use Rattle.std.specs.Prelude.{◌<◌};

use std::alloc::Global;
use std::process::Abort;
use std::test::Fail;
use wave_base::{OutOfMemory, Seq};
use wave_io::{Failed, HELD_BYTES, HeldBytes, MemSink};

// A sink with room for so many bytes, which takes at most so many at a time, and fails at these writes.
fn sink(alloc: Global, room: usize, most: usize, fails: &[u64]) -> Result<MemSink, OutOfMemory>
    requires { 0 < most }
{
    MemSink::new(alloc, room, most, Seq::from_slice(alloc, fails)?)
}

// These bytes are taken, and then the sink has those.
fn takes(rt: &impl Abort, held: &mut HeldBytes, sink: &mut MemSink, bytes: &[u8], has: &[u8]) {
    writes(rt, held, sink, bytes, Ok(()));
    assert_eq!(rt; sink.bytes(), has);
}

// These bytes are written, as is said.
fn writes(
    rt: &impl Abort,
    held: &mut HeldBytes,
    sink: &mut MemSink,
    bytes: &[u8],
    said: Result<(), Failed>,
) {
    assert_eq!(rt; held.write_all(sink, bytes), said);
}

// All that is held goes out, or not, and then the sink has this.
fn flushes(
    rt: &impl Abort,
    held: &mut HeldBytes,
    sink: &mut MemSink,
    said: Result<(), Failed>,
    has: &[u8],
) {
    assert_eq!(rt; held.flush(sink), said);
    assert_eq!(rt; sink.bytes(), has);
}

#[test]
fn small_pieces_go_out_in_one_write(rt: HostRuntime) -> Result<(), Fail> {
    let alloc = rt.alloc();
    let mut second_fails = sink(alloc, 9, 9, &[2])?;
    let mut held = HeldBytes::new(alloc)?;
    flushes(&rt, &mut held, &mut second_fails, Ok(()), b"");
    takes(&rt, &mut held, &mut second_fails, b"ab", b"");
    takes(&rt, &mut held, &mut second_fails, b"", b"");
    takes(&rt, &mut held, &mut second_fails, b"cd", b"");
    flushes(&rt, &mut held, &mut second_fails, Ok(()), b"abcd");
    Ok(())
}

// The sink takes two bytes at a time, so that eight go in four writes, and this one of them fails behind that front.
fn fails_behind(
    rt: &impl Abort,
    alloc: Global,
    write: u64,
    front: &[u8],
) -> Result<(), OutOfMemory> {
    let mut sink = sink(alloc, 12, 2, &[write])?;
    let mut held = HeldBytes::new(alloc)?;
    takes(rt, &mut held, &mut sink, b"abcde", b"");
    takes(rt, &mut held, &mut sink, b"fgh", b"");
    flushes(rt, &mut held, &mut sink, Err(Failed), front);
    takes(rt, &mut held, &mut sink, b"ij", front);
    flushes(rt, &mut held, &mut sink, Ok(()), b"abcdefghij");
    Ok(())
}

#[test]
fn what_a_failing_sink_did_not_take_is_still_held(rt: HostRuntime) -> Result<(), Fail> {
    let alloc = rt.alloc();
    fails_behind(&rt, alloc, 1, b"")?;
    fails_behind(&rt, alloc, 2, b"ab")?;
    fails_behind(&rt, alloc, 3, b"abcd")?;
    fails_behind(&rt, alloc, 4, b"abcdef")?;
    Ok(())
}

// A piece of so many bytes.
fn piece(alloc: Global, count: usize) -> Result<Vec<u8>, OutOfMemory> {
    Ok(Vec::from_elem(alloc, b'x', count)?)
}

// As many bytes as are held, then two, and then one more than are held.
fn goes_behind(
    rt: &impl Abort,
    held: &mut HeldBytes,
    sink: &mut MemSink,
    full: &[u8],
    larger: &[u8],
) {
    takes(rt, held, sink, full, b"");
    writes(rt, held, sink, b"ab", Ok(()));
    assert_eq!(rt; sink.bytes().len(), HELD_BYTES);
    writes(rt, held, sink, larger, Ok(()));
    let bytes = sink.bytes();
    assert!(rt; bytes.len() == 2 * HELD_BYTES + 3);
    assert_eq!(rt; bytes[HELD_BYTES], b'a');
    assert_eq!(rt; bytes[HELD_BYTES + 2], b'x');
    assert_eq!(rt; held.flush(sink), Ok(()));
    assert_eq!(rt; sink.bytes().len(), 2 * HELD_BYTES + 3);
}

#[test]
fn what_does_not_fit_is_written_behind_what_is_held(rt: HostRuntime) -> Result<(), Fail> {
    let alloc = rt.alloc();
    let full = piece(alloc, HELD_BYTES)?;
    let larger = piece(alloc, HELD_BYTES + 1)?;
    let mut sink = sink(alloc, 4 * HELD_BYTES, HELD_BYTES, &[])?;
    let mut held = HeldBytes::new(alloc)?;
    goes_behind(
        &rt,
        &mut held,
        &mut sink,
        full.as_slice(),
        larger.as_slice(),
    );
    Ok(())
}

// These are held, and of them and a piece of so many bytes the sink, which fails, has this front.
fn takes_a_front(
    rt: &impl Abort,
    alloc: Global,
    held: &mut HeldBytes,
    fails: &[u64],
    before: &[u8],
    count: usize,
    front: &[u8],
) -> Result<(), OutOfMemory> {
    let piece = piece(alloc, count)?;
    let mut sink = sink(alloc, 9, 4, fails)?;
    takes(rt, held, &mut sink, before, b"");
    writes(rt, held, &mut sink, piece.as_slice(), Err(Failed));
    assert_eq!(rt; sink.bytes(), front);
    Ok(())
}

#[test]
fn a_front_of_a_large_piece_is_taken_where_the_sink_fails(rt: HostRuntime) -> Result<(), Fail> {
    let alloc = rt.alloc();
    let mut held = HeldBytes::new(alloc)?;
    let more = HELD_BYTES + 1;
    takes_a_front(&rt, alloc, &mut held, &[], b"ab", more, b"abxxxxxxx")?;
    takes_a_front(
        &rt,
        alloc,
        &mut held,
        &[2],
        b"abcdefgh",
        HELD_BYTES,
        b"abcd",
    )?;
    Ok(())
}
