//! Each thing that is asked of a service is told where a text breaks it, and of no other text.

use super::{due, has, join, rows, rows_of, second, sides, without_mark};
use std::alloc::Global;
use std::process::Abort;
use std::test::Fail;
use wave_base::OutOfMemory;
use wave_text::put_number;

/// The service is typed.
pub fn accepts(rt: &impl Abort, alloc: Global, text: &[u8]) -> Result<(), OutOfMemory> {
    let answer = due(rt, alloc, "check", text)?;
    has(rt, &answer, 0, b"", b"ok\n");
    Ok(())
}

/// The service is refused, and this is the note.
pub fn refuses(
    rt: &impl Abort,
    alloc: Global,
    text: &[u8],
    note: &[u8],
) -> Result<(), OutOfMemory> {
    let answer = due(rt, alloc, "check", text)?;
    has(rt, &answer, 3, note, b"");
    Ok(())
}

// Where the texts of a table stand.
#[derive(Clone, Copy, PartialEq, Eq)]
enum Part {
    Whole,
    Below,
    Own,
    Here,
    Rest,
}

// The text where it stands in this part, and what is fine elsewhere.
fn part_or<'t>(here: Part, part: Part, text: &'t [u8], fine: &'t [u8]) -> &'t [u8] {
    if here == part { text } else { fine }
}

// A service with two classes one in the other, three fields, methods of each class, and an event; one part of it is given.
fn service_with(alloc: Global, part: Part, text: &[u8]) -> Result<Vec<u8>, OutOfMemory> {
    if part == Part::Whole {
        return join(alloc, &[text]);
    }
    let pieces = [
        b"service S { var r: int = 0; context A[int] { var f: int = 0; context B[int] { var g: map = empty; method m(x: int): int { ".as_slice(),
        part_or(Part::Below, part, text, b"return 1;"),
        b" } method v() { } } method n() { ",
        part_or(Part::Own, part, text, b""),
        b" } } method k(a: int, t: text): bool { return a < len(t); } method u() { } event e(p: int, t: text): int { here { ",
        part_or(Part::Here, part, text, b""),
        b" } ",
        part_or(Part::Rest, part, text, b"reply 1;"),
        b" } }",
    ];
    join(alloc, &pieces)
}

// The fault of a service of one line is told at its mark.
fn tells_at_mark(
    rt: &impl Abort,
    alloc: Global,
    fault: &[u8],
    marked: &[u8],
) -> Result<(), OutOfMemory> {
    let (column, service) = without_mark(alloc, marked)?;
    let mut note = join(alloc, &[fault, b" 1:"])?;
    put_number(alloc, &mut note, column)?;
    refuses(rt, alloc, service.as_slice(), note.as_slice())
}

// So is that of each row of a table, whose texts stand in this part.
fn tells_each(rt: &impl Abort, alloc: Global, part: Part, table: &[u8]) -> Result<(), OutOfMemory> {
    for row in rows_of(rt, alloc, table)?.as_slice() {
        let (fault, text) = sides(row);
        let marked = service_with(alloc, part, text)?;
        tells_at_mark(rt, alloc, fault, marked.as_slice())?;
    }
    Ok(())
}

#[test]
fn each_demand_is_told_at_its_place(rt: HostRuntime) -> Result<(), Fail> {
    let alloc = rt.alloc();
    tells_each(&rt, alloc, Part::Whole, rows::WHOLE)?;
    tells_each(&rt, alloc, Part::Below, rows::BELOW)?;
    tells_each(&rt, alloc, Part::Own, rows::OWN)?;
    tells_each(&rt, alloc, Part::Here, rows::HERE)?;
    tells_each(&rt, alloc, Part::Rest, rows::REST)?;
    Ok(())
}

#[test]
fn each_demand_of_version_2_is_told_at_its_place(rt: HostRuntime) -> Result<(), Fail> {
    tells_each(&rt, rt.alloc(), Part::Whole, second::WHOLE)?;
    Ok(())
}

// Each service of a table is typed.
fn accepts_each(rt: &impl Abort, alloc: Global, table: &[u8]) -> Result<(), OutOfMemory> {
    for service in rows_of(rt, alloc, table)?.as_slice() {
        accepts(rt, alloc, service)?;
    }
    Ok(())
}

#[test]
fn what_is_typed_is_accepted(rt: HostRuntime) -> Result<(), Fail> {
    let alloc = rt.alloc();
    accepts_each(&rt, alloc, rows::FINE)?;
    accepts_each(&rt, alloc, second::FINE)?;
    Ok(())
}
