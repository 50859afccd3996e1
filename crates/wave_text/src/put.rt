//! Numbers, places and values, as they are written.

ghost use Rattle.std.specs.Prelude.{◌≡◌, ◌++◌, OnOk};
ghost use Rattle.std.specs.Fmt.{decimal, signed_decimal};
ghost use Rattle.wave_base.specs.Text.{escaped_text, quoted_text};
ghost use Rattle.wave_text.specs.Places.{place_text};
ghost use Rattle.wave_text.specs.ValueTexts.{pair_text, comma_before, pairs_text, value_text};

use itoa::Buffer;
use std::alloc::Global;
use wave_base::{OutOfMemory, Span, Value};

/// Appends bytes.
pub fn put_bytes(out: &mut Vec<u8>, bytes: &[u8]) -> Result<(), OutOfMemory>
    ensures { OnOk result (out.new.items ≡ out.old.items ++ bytes.now) }
{
    out.extend_from_slice(bytes)?;
    Ok(())
}

/// Appends a number in decimal.
pub fn put_number(_alloc: Global, out: &mut Vec<u8>, n: u64) -> Result<(), OutOfMemory>
    ensures { OnOk result (out.new.items ≡ out.old.items ++ decimal n) }
{
    let mut buffer = Buffer::new();
    put_bytes(out, buffer.format(n).as_bytes())
}

/// Appends a whole number in decimal.
pub fn put_whole(_alloc: Global, out: &mut Vec<u8>, n: i64) -> Result<(), OutOfMemory>
    ensures { OnOk result (out.new.items ≡ out.old.items ++ signed_decimal n) }
{
    let mut buffer = Buffer::new();
    put_bytes(out, buffer.format(n).as_bytes())
}

/// Appends a place in a text.
pub fn put_place(alloc: Global, out: &mut Vec<u8>, at: Span) -> Result<(), OutOfMemory>
    ensures { OnOk result (out.new.items ≡ out.old.items ++ place_text at) }
{
    put_number(alloc, out, u64::from(at.line))?;
    put_bytes(out, b":")?;
    put_number(alloc, out, u64::from(at.col))
}

// Appends a text, with a backslash before each quote and backslash.
fn put_escaped(out: &mut Vec<u8>, text: &[u8]) -> Result<(), OutOfMemory>
    ensures { OnOk result (out.new.items ≡ out.old.items ++ escaped_text text.now) }
{
    for b in text {
        if *b == b'"' || *b == b'\\' {
            out.push(b'\\')?;
        }
        out.push(*b)?;
    }
    Ok(())
}

/// Appends a text in quotes.
pub fn put_quoted(out: &mut Vec<u8>, text: &[u8]) -> Result<(), OutOfMemory>
    ensures { OnOk result (out.new.items ≡ out.old.items ++ quoted_text text.now) }
{
    put_bytes(out, b"\"")?;
    put_escaped(out, text)?;
    put_bytes(out, b"\"")
}

// Appends a pair.
fn put_pair(alloc: Global, out: &mut Vec<u8>, pair: &(i64, i64)) -> Result<(), OutOfMemory>
    ensures { OnOk result (out.new.items ≡ out.old.items ++ pair_text pair.now) }
{
    put_whole(alloc, out, pair.0)?;
    put_bytes(out, b": ")?;
    put_whole(alloc, out, pair.1)
}

// Appends a comma before all pairs but the first.
fn put_comma(out: &mut Vec<u8>, i: usize) -> Result<(), OutOfMemory>
    ensures { OnOk result (out.new.items ≡ out.old.items ++ comma_before i) }
{
    if i == 0 {
        Ok(())
    } else {
        put_bytes(out, b", ")
    }
}

// Appends the pairs of a map in the order of their keys.
fn put_pairs(alloc: Global, out: &mut Vec<u8>, pairs: &[(i64, i64)]) -> Result<(), OutOfMemory>
    ensures { OnOk result (out.new.items ≡ out.old.items ++ pairs_text pairs.now) }
{
    for (i, pair) in pairs.iter().enumerate() {
        put_comma(out, i)?;
        put_pair(alloc, out, pair)?;
    }
    Ok(())
}

/// Appends a value as it is printed.
pub fn put_value(alloc: Global, out: &mut Vec<u8>, value: &Value) -> Result<(), OutOfMemory>
    ensures { OnOk result (out.new.items ≡ out.old.items ++ value_text value.now) }
{
    match value {
        Value::Int(n) => put_whole(alloc, out, *n),
        Value::Bool(true) => put_bytes(out, b"true"),
        Value::Bool(false) => put_bytes(out, b"false"),
        Value::Str(text) => put_quoted(out, text.bytes()),
        Value::Map(table) => {
            put_bytes(out, b"{")?;
            put_pairs(alloc, out, table.pairs())?;
            put_bytes(out, b"}")
        }
    }
}
