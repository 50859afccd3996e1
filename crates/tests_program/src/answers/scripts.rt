//! Script lines: those that are fine, and what is told of those that aren't.

use super::{Answer, due, equal, has, join, rows_of, sides};
use std::alloc::Global;
use std::process::Abort;
use std::test::Fail;
use wave_base::OutOfMemory;

const FORMS: &[u8] =
    b"service F { context A[int] { context B[int] { } } event i(a: int): int { reply a; } event b(a: bool, t: text): text { reply t; } }\n----\n";

// Each line of it is fine.
const FINE: &[u8] = b"  request\t i ( 7 )  
request i(007)
request i(-0)
request b(true,\"a\\\"b\\\\\")
request b( false , \"\" )
move / to 0
move /A[-1]/B[0099] to 00
\tsnapshot\t
 settle
# request
 \t# x

hosts 01
request i(-9223372036854775808)
move /A[-9223372036854775808] to 0
request i(1)\r";

// What is told of a line, and the line.
const REFUSED: &[u8] = b"
S1 UnknownCommand: requesti(1)
S1 UnknownCommand: request i(1) x
S1 UnknownCommand: request i(1,)
S1 UnknownCommand: request i(--1)
S1 UnknownCommand: request i(1x)
S1 UnknownCommand: request i(+1)
S1 UnknownCommand: request b(true,\"a\\n\")
S1 UnknownCommand: request b(true,\"a\tb\")
S1 UnknownCommand: request b(true,\"a)
S1 UnknownCommand: request b(true \"a\")
S1 UnknownCommand: move/A[1] to 0
S1 UnknownCommand: move /A[1]to 0
S1 UnknownCommand: move /A[1] to0
S1 UnknownCommand: move /A[1]/ to 0
S1 UnknownCommand: move /A [1] to 0
S1 UnknownCommand: move A[1] to 0
S1 UnknownCommand: move /A[12345678901234567890] to 0
S1 UnknownCommand: move /A[+1] to 0
S1 UnknownCommand: move // to 0
S1 UnknownCommand: hosts -1
S1 UnknownCommand: hosts
S1 UnknownCommand: hosts 1 # c
S1 UnknownCommand: Settle
S1 UnknownCommand: settle\r\r
S1 UnknownCommand: ----
S2 UnknownEvent: request x(1)
S2 UnknownEvent: request A()
S3 ArgCount: request i()
S3 ArgCount: request b(1)
S4 ArgType: request i(true)
S4 ArgType: request i(\"1\")
S4 ArgType: request i(9223372036854775808)
S4 ArgType: request i(-9223372036854775809)
S4 ArgType: request b(99999999999999999999999, \"x\")
S5 BadPath: move /B[1] to 9
S5 BadPath: move /F[1] to 0
S5 BadPath: move /A[1]/A[1] to 0
S5 BadPath: move /A[9223372036854775808] to 0
S6 HostRange: move /A[1] to 1
S6 HostRange: move / to 99999999999999999999999
S6 HostRange: hosts 0
S6 HostRange: hosts 9
S6 HostRange: hosts 18446744073709551617
";

// What may stand before a line with the number of hosts no longer.
const EARLIER: [&[u8]; 4] = [b"snapshot", b"settle", b"hosts 2", b"request i(1)"];

// What is due for a script of these pieces.
fn answer_of(rt: &impl Abort, alloc: Global, pieces: &[&[u8]]) -> Result<Answer, OutOfMemory> {
    let script = join(alloc, pieces)?;
    let input = join(alloc, &[FORMS, script.as_slice()])?;
    due(rt, alloc, "seq", input.as_slice())
}

fn runs(rt: &impl Abort, alloc: Global, pieces: &[&[u8]]) -> Result<(), OutOfMemory> {
    let answer = answer_of(rt, alloc, pieces)?;
    equal(rt, answer.notes.bytes(), b"");
    assert_eq!(rt; answer.status, 0);
    Ok(())
}

fn refuses(
    rt: &impl Abort,
    alloc: Global,
    pieces: &[&[u8]],
    name: &[u8],
    line: &[u8],
) -> Result<(), OutOfMemory> {
    let answer = answer_of(rt, alloc, pieces)?;
    let note = join(alloc, &[name, line])?;
    has(rt, &answer, 4, note.as_slice(), b"");
    Ok(())
}

/// With a line feed behind it, and at the end of the text.
#[test]
fn each_form_is_read(rt: HostRuntime) -> Result<(), Fail> {
    let alloc = rt.alloc();
    for line in FINE.split(|byte| *byte == b'\n') {
        runs(&rt, alloc, &[line, b"\n"])?;
        runs(&rt, alloc, &[line])?;
    }
    Ok(())
}

#[test]
fn each_fault_of_a_line_is_told(rt: HostRuntime) -> Result<(), Fail> {
    let alloc = rt.alloc();
    for row in rows_of(&rt, alloc, REFUSED)?.as_slice() {
        let (name, line) = sides(row);
        refuses(&rt, alloc, &[b"# one\n", line, b"\n"], name, b" line 2")?;
    }
    Ok(())
}

#[test]
fn hosts_come_first(rt: HostRuntime) -> Result<(), Fail> {
    let alloc = rt.alloc();
    for line in &EARLIER {
        refuses(
            &rt,
            alloc,
            &[line, b"\n\nhosts 9\n"],
            b"S7 HostsLate",
            b" line 3",
        )?;
    }
    Ok(())
}

// A request with a text of so many bytes.
fn with_text(alloc: Global, count: usize) -> Result<Vec<u8>, OutOfMemory> {
    let text = Vec::from_elem(alloc, b'x', count)?;
    join(alloc, &[b"request b(true,\"", text.as_slice(), b"\")"])
}

#[test]
fn a_text_in_a_script_has_at_most_200_bytes(rt: HostRuntime) -> Result<(), Fail> {
    let alloc = rt.alloc();
    let most = with_text(alloc, 200)?;
    runs(&rt, alloc, &[most.as_slice()])?;
    let more = with_text(alloc, 201)?;
    refuses(&rt, alloc, &[more.as_slice()], b"S4 ArgType", b" line 1")?;
    Ok(())
}

#[test]
fn nine_steps_are_no_path(rt: HostRuntime) -> Result<(), Fail> {
    let alloc = rt.alloc();
    let mut path = Vec::from_slice(alloc, b"move ")?;
    for _ in 0..9 {
        path.extend_from_slice(b"/A[1]")?;
    }
    let pieces = [path.as_slice(), b" to 0".as_slice()];
    refuses(&rt, alloc, &pieces, b"S5 BadPath", b" line 1")?;
    Ok(())
}
