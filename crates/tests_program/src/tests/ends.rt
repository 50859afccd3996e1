//! How calls end: words, refusals in their order, faults of streams, the greatest input.

use super::rows::{Row, bytes, call, call_alone, call_with, calls, holds, plain};
use super::services::{FORMS, FORMS_PRINTED, TICK};
use std::test::Fail;
use tests_services::{MARKET, words};
use wave_base::{OutOfMemory, Seq};
use wave_io::{MemSink, MemSource, OpenGate};

/// What is told of a service alone.
#[test]
fn services(rt: HostRuntime) -> Result<(), Fail> {
    let alloc = rt.alloc();
    let hit =
        b"function 0 hit args 0 locals 0 stack 2\n0 Field 0 @1:62\n1 PushInt 1 @1:66\n2 Op add @1:62\n3 SetField 0 @1:58\n4 Field 0 @1:77\n5 Reply @1:71\n";
    let printed =
        b"service Tick {\nvar n : int = 0 ;\nevent hit ( ) : int {\nhere {\nn = n + 1 ;\n}\nreply n ;\n}\n}\n";
    let past =
        b"service Tick { var n: int = 9223372036854775807; event hit(): int { here { n = n + 1; } reply n; } }\n----\nrequest hit()\n";
    let lifted =
        b"service Market {\n  var seen: int = 0;\n  context Hall[int] {\n    method lift() { Market.seen = 1; }\n  }\n}\n";
    let rows = [
        plain("code", TICK, 0, hit, b""),
        plain("check", MARKET, 0, b"ok\n", b""),
        plain("print", b"service A { }", 0, b"service A {\n}\n", b""),
        plain("print", TICK, 0, printed, b""),
        plain(
            "run",
            past,
            1,
            b"#1 hit trap Overflow at 1:80\ndone 1\n",
            b"",
        ),
        plain("check", lifted, 3, b"", b"Y5 NotDownward 4:21\n"),
        plain(
            "check",
            b"service A { var t: text = \"ab",
            3,
            b"",
            b"L3 OpenText 1:27\n",
        ),
        plain(
            "check",
            b"service A { event e() { down",
            3,
            b"",
            b"P1 Expected 1:29\n",
        ),
        plain("run", b"service A { }", 3, b"", b"NoScript\n"),
    ];
    for row in &rows {
        holds(&rt, alloc, row)?;
    }
    Ok(())
}

/// Words that are no service, at the first of them.
#[test]
fn unexpected_words(rt: HostRuntime) -> Result<(), Fail> {
    let rows: [(&[u8], &[u8]); 6] = [
        (b"", b"P1 Expected 1:1\n"),
        (b"service let { }", b"P1 Expected 1:9\n"),
        (b"service A { event e() { down", b"P1 Expected 1:29\n"),
        (b"service A { }\n}", b"P1 Expected 2:1\n"),
        (
            b"service A { event e() { reply f(1,); } }",
            b"P1 Expected 1:35\n",
        ),
        (
            b"service A { event e() { reply a < b < c; } }\n",
            b"P1 Expected 1:37\n",
        ),
    ];
    for (text, note) in &rows {
        holds(&rt, rt.alloc(), &plain("check", text, 3, b"", note))?;
    }
    Ok(())
}

/// Parentheses that are needed stay, and no others; every form of a service is read and written.
#[test]
fn printed_services(rt: HostRuntime) -> Result<(), Fail> {
    let written =
        b"service A {\nevent e ( x : int , y : int , z : int ) : int {\nreply ( 1 + 2 ) * 3 - ( x - ( y - z ) ) - - z ;\n}\n}\n";
    let rows = [
        plain(
            "print",
            b"service A { event e(x: int, y: int, z: int): int { reply (1 + (2)) * 3 - (x - (y - z)) - (-z); } }",
            0,
            written,
            b"",
        ),
        plain("print", FORMS, 0, FORMS_PRINTED, b""),
    ];
    for row in &rows {
        holds(&rt, rt.alloc(), row)?;
    }
    Ok(())
}

/// Words that are no command.
#[test]
fn wrong_words(rt: HostRuntime) -> Result<(), Fail> {
    let rows = [
        plain("walk", TICK, 2, b"", b"words\n"),
        plain("gen", TICK, 2, b"", b"words\n"),
        plain("seq --workers 2", TICK, 2, b"", b"words\n"),
        plain("run 7", TICK, 2, b"", b"words\n"),
    ];
    for row in &rows {
        holds(&rt, rt.alloc(), row)?;
    }
    Ok(())
}

/// A load is written and summed up, and a source that fails at once is not asked.
#[test]
fn loads_read_nothing(rt: HostRuntime) -> Result<(), Fail> {
    let alloc = rt.alloc();
    let summary = b"events 2211\nreplies 1865\ntraps 0\nmoved 341\nabsent 4\ntotal -5103\n";
    for (text, front) in [("gen 7", MARKET), ("load 7", summary.as_slice())] {
        let words = words(alloc, text)?;
        let mut source = MemSource::new(bytes(alloc, TICK)?, 16, calls(alloc, &[1])?);
        let mut out = MemSink::new(alloc, 100_000, 4096, Seq::new(alloc))?;
        let mut notes = MemSink::new(alloc, 100, 4, Seq::new(alloc))?;
        let got = call(
            &rt,
            alloc,
            &words,
            &mut source,
            &mut out,
            &mut notes,
            &OpenGate,
        );
        assert_eq!(rt; got, 0);
        assert!(rt; out.bytes().starts_with(front));
        assert_eq!(rt; notes.bytes(), b"".as_slice());
    }
    Ok(())
}

/// What is for workers is left alone, and all else is done.
#[test]
fn one_thread(rt: HostRuntime) -> Result<(), Fail> {
    let alloc = rt.alloc();
    for (text, status) in [
        ("run", None),
        ("trace --map --workers 2", None),
        ("load 7", None),
        ("run --schedule 0", Some(0)),
        ("trace --schedule oldest", Some(0)),
        ("seq", Some(0)),
        ("walk", Some(2)),
    ] {
        let words = words(alloc, text)?;
        let mut source = MemSource::new(bytes(alloc, TICK)?, 16, Seq::new(alloc));
        let mut out = MemSink::new(alloc, 1000, 100, Seq::new(alloc))?;
        let mut notes = MemSink::new(alloc, 100, 100, Seq::new(alloc))?;
        let got = call_alone(alloc, &words, &mut source, &mut out, &mut notes);
        assert_eq!(rt; got, status);
        assert_eq!(rt; out.bytes().is_empty(), status != Some(0));
        assert_eq!(rt; notes.bytes().is_empty(), status != Some(2));
    }
    Ok(())
}

/// An input of the greatest size, its service and its script too, and one byte more.
#[test]
fn the_greatest_input(rt: HostRuntime) -> Result<(), Fail> {
    let alloc = rt.alloc();
    let mut input = Vec::from_slice(alloc, b"service A { }\n")?;
    input.extend_from_slice(Vec::from_elem(alloc, b'\n', 262_130)?.as_slice())?;
    input.extend_from_slice(b"----\n")?;
    input.extend_from_slice(Vec::from_elem(alloc, b'\n', 1_048_576)?.as_slice())?;
    assert_eq!(rt; input.len(), 1_310_725);
    holds(
        &rt,
        alloc,
        &plain("seq", input.as_slice(), 0, b"done 0\n", b""),
    )?;
    input.push(b'\n')?;
    holds(
        &rt,
        alloc,
        &plain("seq", input.as_slice(), 3, b"", b"TooLarge input\n"),
    )?;
    Ok(())
}

/// A missing script comes before a fault of the service, and that before one of the script.
#[test]
fn refusals_in_order(rt: HostRuntime) -> Result<(), Fail> {
    let alloc = rt.alloc();
    let rows = [
        plain("run", b"service A { ", 3, b"", b"NoScript\n"),
        plain(
            "run",
            b"service A { \n----\nmiss\n",
            3,
            b"",
            b"P1 Expected 2:1\n",
        ),
        plain(
            "run",
            b"service A { }\n----\nhosts 2\nmiss\n",
            4,
            b"",
            b"S1 UnknownCommand line 2\n",
        ),
        plain(
            "run",
            b"service A { }\n----\nhosts 2\n",
            0,
            b"done 0\n",
            b"",
        ),
        plain("check", b"service A { }\n----\nmiss\n", 0, b"ok\n", b""),
    ];
    for row in &rows {
        holds(&rt, alloc, row)?;
    }
    Ok(())
}

#[test]
fn faults(rt: HostRuntime) -> Result<(), Fail> {
    let alloc = rt.alloc();
    for failing_read in 1..9 {
        let row = Row {
            failing_read,
            ..plain("run", TICK, 5, b"", b"ReadFault\n")
        };
        holds(&rt, alloc, &row)?;
    }
    let written = b"#1 hit = 1\ndone 1\n";
    for words in ["run", "seq"] {
        for (i, front) in [0usize, 4, 8, 11, 15].iter().enumerate() {
            let row = Row {
                failing_write: i as u64 + 1,
                ..plain(words, TICK, 6, &written[..*front], b"WriteFault\n")
            };
            holds(&rt, alloc, &row)?;
        }
    }
    Ok(())
}

/// Also where there was no memory for the words.
#[test]
fn runs_by_the_top_call(rt: HostRuntime) -> Result<(), Fail> {
    let alloc = rt.alloc();
    let words = words(alloc, "run")?;
    let mut source = MemSource::new(bytes(alloc, TICK)?, 16, Seq::new(alloc));
    let mut out = MemSink::new(alloc, 10_000, 4, Seq::new(alloc))?;
    let mut notes = MemSink::new(alloc, 10_000, 4, Seq::new(alloc))?;
    let status = call_with(&rt, alloc, Ok(words), &mut source, &mut out, &mut notes);
    assert_eq!(rt; status, 0);
    assert_eq!(rt; out.bytes(), b"#1 hit = 1\ndone 1\n".as_slice());
    let Err(refused) = Vec::<u64>::with_capacity(alloc, usize::MAX) else {
        return Err("so much memory".into());
    };
    let status = call_with(
        &rt,
        alloc,
        Err(OutOfMemory::from(refused)),
        &mut source,
        &mut out,
        &mut notes,
    );
    assert_eq!(rt; status, 7);
    assert_eq!(rt; notes.bytes(), b"OutOfMemory\n".as_slice());
    Ok(())
}
