//! Words, lines, quoted texts and values in any text.

use crate::same::is_text;
use std::alloc::Global;
use std::test::Fail;
use wave_base::{OutOfMemory, Span, Table, Txt, Value};
use wave_text::{
    first_line, is_blank, is_digits, is_whole, is_word, put_bytes, put_number, put_place,
    put_quoted, put_value, put_whole, read_quoted, whole_of,
};

#[test]
fn reads_words_and_numbers(rt: HostRuntime) -> Result<(), Fail> {
    assert!(rt; is_blank(b'\t'));
    assert!(rt; is_word(b"_a9"));
    assert!(rt; !is_word(b"9a"));
    assert!(rt; is_digits(b"007"));
    assert!(rt; is_whole(b"-007"));
    assert_eq!(rt; whole_of(b"-007"), Some(-7));
    assert!(rt; is_whole(b"9223372036854775808"));
    assert_eq!(rt; whole_of(b"9223372036854775808"), None);
    Ok(())
}

#[test]
fn cuts_lines(rt: HostRuntime) -> Result<(), Fail> {
    let (line, rest) = first_line(b"ab\r\ncd\r");
    assert!(rt; line == b"ab".as_slice());
    let (line, rest) = first_line(rest.ok_or("two lines")?);
    assert!(rt; line == b"cd".as_slice());
    assert!(rt; rest.is_none());
    Ok(())
}

#[test]
fn reads_quoted_texts(rt: HostRuntime) -> Result<(), Fail> {
    match read_quoted(rt.alloc(), b"a\\\"b\\\\\", 1")? {
        Some((text, rest)) => {
            assert!(rt; text.as_slice() == b"a\"b\\".as_slice());
            assert!(rt; rest == b", 1".as_slice());
        }
        None => assert!(rt; false),
    }
    assert!(rt; read_quoted(rt.alloc(), b"open")?.is_none());
    Ok(())
}

fn one_pair(alloc: Global) -> Table {
    let mut table = Table::new(alloc);
    let _ = table.put(1, -5);
    table
}

fn put_numbers(alloc: Global, out: &mut Vec<u8>) -> Result<(), OutOfMemory> {
    put_bytes(out, b"#")?;
    put_number(alloc, out, 7)?;
    put_bytes(out, b" ")?;
    put_whole(alloc, out, i64::MIN)
}

fn put_values(alloc: Global, out: &mut Vec<u8>) -> Result<(), OutOfMemory> {
    let text = Value::Str(Txt::from_bytes(alloc, b"x")?);
    let values = [Value::Bool(true), Value::Map(one_pair(alloc)), text];
    for value in &values {
        put_value(alloc, out, value)?;
    }
    Ok(())
}

fn values(alloc: Global) -> Result<Vec<u8>, OutOfMemory> {
    let mut out = Vec::new(alloc);
    put_numbers(alloc, &mut out)?;
    put_quoted(&mut out, b"\"")?;
    put_values(alloc, &mut out)?;
    put_place(alloc, &mut out, Span { line: 12, col: 3 })?;
    Ok(out)
}

#[test]
fn writes_values(rt: HostRuntime) -> Result<(), Fail> {
    let out = values(rt.alloc())?;
    let wanted = b"#7 -9223372036854775808\"\\\"\"true{1: -5}\"x\"12:3";
    is_text(&rt, out.as_slice(), wanted);
    Ok(())
}
