// One word in its layout.

ghost use Rattle.std.specs.Prelude.{◌≡◌, ◌++◌, codes, OnOk};
ghost use Rattle.mace_printer.specs.Canon as words;
ghost use Rattle.mace_printer.specs.inner.Parts as parts;
ghost use Rattle.mace_printer.specs.Layout.{layout, gap_of};

use mace_lexer::{Keyword, Sign};
use std::alloc::Global;
use wave_base::{OutOfMemory, Txt};
use wave_text::{put_bytes, put_quoted, put_whole};

/// Writes a keyword and the blank behind it.
#[tactic(auto, unfolding(crate::specs::Layout::layout))]
pub fn put_key(out: &mut Vec<u8>, key: Keyword) -> Result<(), OutOfMemory>
    ensures { OnOk result (out.new.items ≡ out.old.items ++ layout (words.key key)) }
{
    put_bytes(out, key.bytes())?;
    put_bytes(out, b" ")
}

// The byte behind a sign.
fn gap(sign: Sign) -> u8
    ensures { result ≡ gap_of sign }
{
    match sign {
        Sign::LeftBrace | Sign::RightBrace | Sign::Semicolon => b'\n',
        _ => b' ',
    }
}

/// Writes a sign and the byte behind it.
#[tactic(auto, unfolding(crate::specs::Layout::layout))]
pub fn put_sign(out: &mut Vec<u8>, sign: Sign) -> Result<(), OutOfMemory>
    ensures { OnOk result (out.new.items ≡ out.old.items ++ layout (words.sign sign)) }
{
    put_bytes(out, sign.bytes())?;
    out.push(gap(sign))?;
    Ok(())
}

/// Writes a name and the blank behind it.
#[tactic(auto, unfolding(crate::specs::Layout::layout))]
pub fn put_name(out: &mut Vec<u8>, name: &Txt) -> Result<(), OutOfMemory>
    ensures { OnOk result (out.new.items ≡ out.old.items ++ layout (words.name name.now)) }
{
    put_bytes(out, name.bytes())?;
    put_bytes(out, b" ")
}

/// Writes the word `finish` and the blank behind it.
#[tactic(auto, unfolding(crate::specs::Layout::layout))]
pub fn put_finish_word(out: &mut Vec<u8>) -> Result<(), OutOfMemory>
    ensures { OnOk result (out.new.items ≡ out.old.items ++ layout (words.name (codes "finish"))) }
{
    put_bytes(out, b"finish")?;
    put_bytes(out, b" ")
}

/// Writes a number and the blank behind it.
#[tactic(auto, unfolding(crate::specs::Layout::layout))]
pub fn put_number(alloc: Global, out: &mut Vec<u8>, n: i64) -> Result<(), OutOfMemory>
    ensures { OnOk result (out.new.items ≡ out.old.items ++ layout (words.number n)) }
{
    put_whole(alloc, out, n)?;
    put_bytes(out, b" ")
}

/// Writes a text in quotes and the blank behind it.
#[tactic(auto, unfolding(crate::specs::Layout::layout))]
pub fn put_text(out: &mut Vec<u8>, text: &Txt) -> Result<(), OutOfMemory>
    ensures { OnOk result (out.new.items ≡ out.old.items ++ layout (words.text text.now)) }
{
    put_quoted(out, text.bytes())?;
    put_bytes(out, b" ")
}

/// The keyword of a truth value.
pub fn boolean_key(value: bool) -> Keyword
    ensures { result ≡ words.boolean_key value }
{
    if value { Keyword::True } else { Keyword::False }
}

/// A comma before all items but the first.
#[tactic(auto, unfolding(crate::specs::Layout::layout))]
pub fn put_comma(out: &mut Vec<u8>, i: usize) -> Result<(), OutOfMemory>
    ensures { OnOk result (out.new.items ≡ out.old.items ++ layout (parts.comma_before i)) }
{
    if i == 0 {
        return Ok(());
    }
    put_sign(out, Sign::Comma)
}

/// A sign, if it is needed.
#[tactic(auto, unfolding(crate::specs::Layout::layout))]
pub fn put_if(out: &mut Vec<u8>, needed: bool, sign: Sign) -> Result<(), OutOfMemory>
    ensures { OnOk result (out.new.items ≡ out.old.items ++ layout (parts.sign_if needed sign)) }
{
    if needed {
        return put_sign(out, sign);
    }
    Ok(())
}
