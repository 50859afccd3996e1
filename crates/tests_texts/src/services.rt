//! Services as they are read, and which fault is told.

use mace_lexer::LexError;
use mace_parser::ParseError;
use service_reader::{TextFault, parse_text};
use std::alloc::Global;
use std::process::Abort;
use std::test::Fail;
use wave_base::{Span, Version};

fn refuses(rt: &impl Abort, alloc: Global, text: &[u8], fault: TextFault) {
    match parse_text(alloc, text) {
        Ok(_) => assert!(rt; false),
        Err(found) => assert_eq!(rt; found, fault),
    }
}

fn stuck_at(token: usize, line: u32, col: u32) -> TextFault {
    let at = Span { line, col };
    TextFault::Parse(ParseError::Expected { token, at })
}

fn open_at(line: u32, col: u32) -> TextFault {
    TextFault::Lex(LexError::OpenText(Span { line, col }))
}

#[test]
fn the_first_fault_decides(rt: HostRuntime) -> Result<(), Fail> {
    let alloc = rt.alloc();
    refuses(&rt, alloc, b"service A { }\n\"", open_at(2, 1));
    refuses(&rt, alloc, b"service { \"", open_at(1, 11));
    refuses(&rt, alloc, b"service { }", stuck_at(1, 1, 9));
    let mut blanks = Vec::from_elem(alloc, b' ', 262_144)?;
    refuses(&rt, alloc, blanks.as_slice(), stuck_at(0, 1, 262_145));
    blanks.push(b' ')?;
    refuses(&rt, alloc, blanks.as_slice(), TextFault::TooLarge);
    Ok(())
}

#[test]
fn a_service_is_read(rt: HostRuntime) -> Result<(), Fail> {
    match parse_text(rt.alloc(), b"service A { var n: int = 0; }") {
        Ok(service) => {
            assert_eq!(rt; service.name.text.bytes(), b"A".as_slice());
            assert_eq!(rt; service.vars.len(), 1);
        }
        Err(_) => assert!(rt; false),
    }
    Ok(())
}

// The service is read, in this version.
fn is_of(rt: &impl Abort, alloc: Global, text: &[u8], version: Version) {
    let read = parse_text(alloc, text);
    assert!(rt; matches!(&read, Ok(service) if service.version == version));
}

// In version 2 `return` and `finish` are statements, and `finish` names nothing behind the number.
#[test]
fn what_stands_behind_the_number_is_of_that_version(rt: HostRuntime) -> Result<(), Fail> {
    let alloc = rt.alloc();
    is_of(
        &rt,
        alloc,
        b"service finish 2 { event e() { here { finish; } } }",
        Version::Second,
    );
    is_of(
        &rt,
        alloc,
        b"service A 2 { method m(): int { return 1; return 2; } }",
        Version::Second,
    );
    is_of(
        &rt,
        alloc,
        b"service A { var finish: int = 0; event finish() { here { finish = 1; } } }",
        Version::First,
    );
    Ok(())
}

#[test]
fn what_is_of_another_version_is_refused(rt: HostRuntime) -> Result<(), Fail> {
    let alloc = rt.alloc();
    refuses(
        &rt,
        alloc,
        b"service A { method m(): int { return 1; return 2; } }",
        stuck_at(13, 1, 41),
    );
    refuses(
        &rt,
        alloc,
        b"service A 2 { var finish: int = 0; }",
        stuck_at(5, 1, 19),
    );
    refuses(&rt, alloc, b"service A 3 { }", stuck_at(2, 1, 11));
    refuses(
        &rt,
        alloc,
        b"service A { event e() { here { finish; } } }",
        stuck_at(11, 1, 38),
    );
    Ok(())
}
