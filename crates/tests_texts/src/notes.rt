//! What is told of faults.

use crate::same::is_text;
use fault_notes::{lex_note, script_note, text_note, type_note};
use mace_lexer::LexError;
use mace_parser::ParseError;
use script_reader::ScriptError;
use service_reader::TextFault;
use std::alloc::Global;
use std::process::Abort;
use std::test::Fail;
use type_rules::{TypeError, Which};
use wave_base::{OutOfMemory, Span};

fn tells_of_texts(
    rt: &impl Abort,
    alloc: Global,
    fault: &TextFault,
    note: &[u8],
) -> Result<(), OutOfMemory> {
    is_text(rt, text_note(alloc, fault)?.as_slice(), note);
    Ok(())
}

fn tells_of_types(
    rt: &impl Abort,
    alloc: Global,
    fault: &TypeError,
    note: &[u8],
) -> Result<(), OutOfMemory> {
    is_text(rt, type_note(alloc, fault)?.as_slice(), note);
    Ok(())
}

#[test]
fn tells_number_name_and_place(rt: HostRuntime) -> Result<(), Fail> {
    let alloc = rt.alloc();
    let at = Span { line: 8, col: 23 };
    let stuck = ParseError::Expected { token: 9, at };
    let open = LexError::OpenText(at);
    is_text(&rt, lex_note(alloc, &open)?.as_slice(), b"L3 OpenText 8:23");
    tells_of_texts(&rt, alloc, &TextFault::Parse(stuck), b"P1 Expected 8:23")?;
    tells_of_texts(&rt, alloc, &TextFault::TooLarge, b"TooLarge service")?;
    tells_of_types(
        &rt,
        alloc,
        &TypeError::NotDownward(at),
        b"Y5 NotDownward 8:23",
    )?;
    tells_of_types(
        &rt,
        alloc,
        &TypeError::Limit(Which::Locals, at),
        b"Y8 Limit 8:23",
    )?;
    tells_of_types(
        &rt,
        alloc,
        &TypeError::Unreachable(at),
        b"Y10 Unreachable 8:23",
    )?;
    let count = ScriptError::ArgCount { line: 12 };
    is_text(
        &rt,
        script_note(alloc, &count)?.as_slice(),
        b"S3 ArgCount line 12",
    );
    Ok(())
}
