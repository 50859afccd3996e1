//! Services at their limits, and one past them.

use super::demands::{accepts, refuses};
use super::{Answer, due, has, join};
use std::alloc::Global;
use std::process::Abort;
use std::test::Fail;
use wave_base::OutOfMemory;
use wave_text::put_number;

// A service that holds so many pieces with their numbers, each as `before` NUMBER `after`, between a front and a back.
fn many(
    alloc: Global,
    front: &[u8],
    before: &[u8],
    after: &[u8],
    back: &[u8],
    count: u64,
) -> Result<Vec<u8>, OutOfMemory> {
    let mut text = join(alloc, &[b"service L { ", front])?;
    for i in 0..count {
        text.extend_from_slice(before)?;
        put_number(alloc, &mut text, i)?;
        text.extend_from_slice(after)?;
    }
    text.extend_from_slice(back)?;
    text.extend_from_slice(b" }\n")?;
    Ok(text)
}

// So many classes, each in the one before.
fn nest_of(alloc: Global, count: usize) -> Result<Vec<u8>, OutOfMemory> {
    let closing = Vec::from_elem(alloc, b'}', count)?;
    many(
        alloc,
        b"",
        b"context C",
        b"[int] { ",
        closing.as_slice(),
        count as u64,
    )
}

// A service of one declaration, which has so many equal bytes between a front and a back.
fn repeat(
    alloc: Global,
    front: &[u8],
    byte: u8,
    count: usize,
    back: &[u8],
) -> Result<Vec<u8>, OutOfMemory> {
    let bytes = Vec::from_elem(alloc, byte, count)?;
    let text = join(alloc, &[front, bytes.as_slice()])?;
    many(alloc, text.as_slice(), b"", b"", back, 0)
}

#[test]
fn a_name_has_at_most_64_bytes(rt: HostRuntime) -> Result<(), Fail> {
    let alloc = rt.alloc();
    let most = repeat(alloc, b"event ", b'n', 64, b"() { }")?;
    accepts(&rt, alloc, most.as_slice())?;
    let more = repeat(alloc, b"event ", b'n', 65, b"() { }")?;
    refuses(&rt, alloc, more.as_slice(), b"L4 NameLong 1:19")?;
    Ok(())
}

#[test]
fn a_text_in_a_service_has_at_most_200_bytes(rt: HostRuntime) -> Result<(), Fail> {
    let alloc = rt.alloc();
    let most = repeat(alloc, b"var t: text = \"", b'x', 200, b"\";")?;
    accepts(&rt, alloc, most.as_slice())?;
    let more = repeat(alloc, b"var t: text = \"", b'x', 201, b"\";")?;
    refuses(&rt, alloc, more.as_slice(), b"L5 TextLong 1:27")?;
    Ok(())
}

// A service whose event replies a number in so many parentheses.
fn in_parentheses(alloc: Global, count: usize) -> Result<Vec<u8>, OutOfMemory> {
    let closing = Vec::from_elem(alloc, b')', count)?;
    let back = join(alloc, &[b"1", closing.as_slice(), b"; }"])?;
    repeat(
        alloc,
        b"event e(): int { reply ",
        b'(',
        count,
        back.as_slice(),
    )
}

#[test]
fn parentheses_are_at_most_62_deep_in_an_event(rt: HostRuntime) -> Result<(), Fail> {
    let alloc = rt.alloc();
    let most = in_parentheses(alloc, 62)?;
    accepts(&rt, alloc, most.as_slice())?;
    let more = in_parentheses(alloc, 63)?;
    refuses(&rt, alloc, more.as_slice(), b"P2 TooDeep 1:98")?;
    Ok(())
}

#[test]
fn classes_are_at_most_eight_deep(rt: HostRuntime) -> Result<(), Fail> {
    let alloc = rt.alloc();
    let eight = nest_of(alloc, 8)?;
    accepts(&rt, alloc, eight.as_slice())?;
    let nine = nest_of(alloc, 9)?;
    refuses(&rt, alloc, nine.as_slice(), b"Y8 Limit 1:165")?;
    Ok(())
}

#[test]
fn a_class_has_at_most_64_fields(rt: HostRuntime) -> Result<(), Fail> {
    let alloc = rt.alloc();
    let most = many(alloc, b"", b"var f", b": int = 0;\n", b"", 64)?;
    accepts(&rt, alloc, most.as_slice())?;
    let more = many(alloc, b"", b"var f", b": int = 0;\n", b"", 65)?;
    refuses(&rt, alloc, more.as_slice(), b"Y8 Limit 65:5")?;
    Ok(())
}

#[test]
fn an_event_has_at_most_16_parameters(rt: HostRuntime) -> Result<(), Fail> {
    let alloc = rt.alloc();
    let most = many(alloc, b"event e(n: int", b",\np", b": int", b") { }", 15)?;
    accepts(&rt, alloc, most.as_slice())?;
    let more = many(alloc, b"event e(n: int", b",\np", b": int", b") { }", 16)?;
    refuses(&rt, alloc, more.as_slice(), b"Y8 Limit 17:1")?;
    Ok(())
}

#[test]
fn an_event_has_at_most_256_locals(rt: HostRuntime) -> Result<(), Fail> {
    let alloc = rt.alloc();
    let front = b"event e() { here {\n".as_slice();
    let most = many(alloc, front, b"let v", b" = 0;\n", b"} }", 256)?;
    accepts(&rt, alloc, most.as_slice())?;
    let more = many(alloc, front, b"let v", b" = 0;\n", b"} }", 257)?;
    refuses(&rt, alloc, more.as_slice(), b"Y8 Limit 258:5")?;
    Ok(())
}

#[test]
fn a_for_has_three_locals(rt: HostRuntime) -> Result<(), Fail> {
    let alloc = rt.alloc();
    let front = b"event e(a: int) { here {\n".as_slice();
    let most = many(alloc, front, b"for v", b" in 0 to 1 { }\n", b"} }", 85)?;
    accepts(&rt, alloc, most.as_slice())?;
    let more = many(alloc, front, b"for v", b" in 0 to 1 { }\n", b"} }", 86)?;
    refuses(&rt, alloc, more.as_slice(), b"Y8 Limit 87:5")?;
    Ok(())
}

#[test]
fn two_thousand_declarations_are_read_and_typed(rt: HostRuntime) -> Result<(), Fail> {
    let alloc = rt.alloc();
    let events = many(alloc, b"", b"event e", b"() { }\n", b"", 2000)?;
    accepts(&rt, alloc, events.as_slice())?;
    let methods = many(alloc, b"", b"method m", b"() { }\n", b"", 2000)?;
    accepts(&rt, alloc, methods.as_slice())?;
    Ok(())
}

#[test]
fn a_service_has_at_most_262144_bytes(rt: HostRuntime) -> Result<(), Fail> {
    let alloc = rt.alloc();
    let blanks = Vec::from_elem(alloc, b' ', 262_131)?;
    let mut text = join(alloc, &[b"service L { }", blanks.as_slice()])?;
    accepts(&rt, alloc, text.as_slice())?;
    text.push(b' ')?;
    refuses(&rt, alloc, text.as_slice(), b"TooLarge service")?;
    Ok(())
}

// What is due for a script of a service that says nothing.
fn run_script(rt: &impl Abort, alloc: Global, script: &[u8]) -> Result<Answer, OutOfMemory> {
    let input = join(alloc, &[b"service L { }\n----\n", script])?;
    due(rt, alloc, "seq", input.as_slice())
}

#[test]
fn a_script_has_at_most_1048576_bytes(rt: HostRuntime) -> Result<(), Fail> {
    let alloc = rt.alloc();
    let mut script = Vec::from_elem(alloc, b' ', 1_048_576)?;
    let most = run_script(&rt, alloc, script.as_slice())?;
    has(&rt, &most, 0, b"", b"done 0\n");
    script.push(b' ')?;
    let more = run_script(&rt, alloc, script.as_slice())?;
    has(&rt, &more, 4, b"TooLarge script", b"");
    Ok(())
}
