//! Code as a text.

ghost use Rattle.std.specs.Prelude.{◌≡◌, ◌++◌, ◌∷◌, [], ◌<◌, ℕ, length, All, IfOk, OnOk, codes};
ghost use Rattle.std.specs.Fmt.{decimal, signed_decimal};
ghost use Rattle.service_code.specs.Instructions.{operands_of, HasOperator};
ghost use Rattle.service_code.specs.Listing.{spaced_words, line_text, lines_text, function_name, head_words, function_text, program_text, CanList};

use crate::instr::Instr;
use crate::program::{Function, Program};
use std::alloc::Global;
use wave_base::{OutOfMemory, Seq, Shape, Span, operator_name};
use wave_text::{put_bytes, put_number, put_place, put_whole};

/// The listing of a program: a line per function, and then a line per instruction with its number, name, operands and place.
pub fn code_listing(alloc: Global, program: &Program) -> Result<Seq<u8>, OutOfMemory>
    requires { All (CanList program.now.shape) program.now.functions }
    ensures { IfOk result (λ text. text ≡ program_text program.now) }
{
    let mut text = Vec::new(alloc);
    for (number, function) in program.functions.as_slice().iter().enumerate() {
        put_function(alloc, &mut text, &program.shape, number, function)?;
    }
    Ok(Seq::from_vec(text))
}

// A function's line, and those of its instructions.
fn put_function(
    alloc: Global,
    text: &mut Vec<u8>,
    shape: &Shape,
    number: usize,
    function: &Function,
) -> Result<(), OutOfMemory>
    requires { CanList shape.now function.now }
    ensures { OnOk result (text.new.items ≡ text.old.items ++ function_text shape.now number function.now) }
{
    put_head(alloc, text, shape, number, function)?;
    put_lines(alloc, text, function)
}

// The line that begins a function.
fn put_head(
    alloc: Global,
    text: &mut Vec<u8>,
    shape: &Shape,
    number: usize,
    function: &Function,
) -> Result<(), OutOfMemory>
    requires { CanList shape.now function.now }
    ensures { OnOk result (text.new.items ≡ text.old.items ++ codes "function" ++ spaced_words (head_words shape.now number function.now) ++ 10 ∷ []) }
{
    put_bytes(text, b"function")?;
    put_spaced_number(alloc, text, number as u64)?;
    put_name(text, shape, function)?;
    put_count(alloc, text, b"args", function.args.len() as u64)?;
    put_count(alloc, text, b"locals", function.locals.len() as u64)?;
    put_count(alloc, text, b"stack", u64::from(function.stack))?;
    put_bytes(text, b"\n")
}

// An event's name, or a method's with its class.
fn put_name(text: &mut Vec<u8>, shape: &Shape, function: &Function) -> Result<(), OutOfMemory>
    requires { CanList shape.now function.now }
    ensures { OnOk result (text.new.items ≡ text.old.items ++ spaced_words (function_name shape.now function.now ∷ [])) }
{
    if function.is_event {
        return put_word(text, function.name.bytes());
    }
    put_word(text, shape.class_name(function.class))?;
    put_bytes(text, b".")?;
    put_bytes(text, function.name.bytes())
}

// A line per instruction.
fn put_lines(alloc: Global, text: &mut Vec<u8>, function: &Function) -> Result<(), OutOfMemory>
    requires places { length function.now.places ≡ length function.now.code }
    requires operators { All HasOperator function.now.code }
    ensures { OnOk result (text.new.items ≡ text.old.items ++ lines_text 0 function.now.code function.now.places) }
{
    let places = function.places.as_slice();
    for (number, instr) in function.code.as_slice().iter().enumerate() {
        put_line(alloc, text, number, instr, places[number])?;
    }
    Ok(())
}

// An instruction's line.
fn put_line(
    alloc: Global,
    text: &mut Vec<u8>,
    number: usize,
    instr: &Instr,
    place: Span,
) -> Result<(), OutOfMemory>
    requires { HasOperator instr.now }
    ensures { OnOk result (text.new.items ≡ text.old.items ++ line_text number instr.now place) }
{
    put_number(alloc, text, number as u64)?;
    put_word(text, instr.name())?;
    put_operands(alloc, text, instr)?;
    put_word(text, b"@")?;
    put_place(alloc, text, place)?;
    put_bytes(text, b"\n")
}

// The operands of an instruction.
fn put_operands(alloc: Global, text: &mut Vec<u8>, instr: &Instr) -> Result<(), OutOfMemory>
    requires { HasOperator instr.now }
    ensures { OnOk result (text.new.items ≡ text.old.items ++ spaced_words (operands_of instr.now)) }
{
    match *instr {
        Instr::PushInt(n) => put_spaced_whole(alloc, text, n),
        Instr::PushBool(true) => put_word(text, b"true"),
        Instr::PushBool(false) => put_word(text, b"false"),
        Instr::PushText(i) | Instr::Send(i) => put_spaced_number(alloc, text, u64::from(i)),
        Instr::Load(n)
        | Instr::Store(n)
        | Instr::Field(n)
        | Instr::SetField(n)
        | Instr::PutLocal(n)
        | Instr::PutField(n)
        | Instr::CutLocal(n)
        | Instr::CutField(n)
        | Instr::Jump(n)
        | Instr::JumpFalse(n)
        | Instr::Call(n)
        | Instr::Spawn(n) => put_spaced_number(alloc, text, u64::from(n)),
        Instr::Go(class) => put_spaced_number(alloc, text, u64::from(class.0)),
        Instr::Above(level, field) => put_two(alloc, text, level, field),
        Instr::CallDown(class, function) => put_two(alloc, text, class.0, function),
        Instr::Op(row) => put_word(text, operator_name(row as usize)),
        Instr::PushEmpty
        | Instr::Tick
        | Instr::Return
        | Instr::Pop
        | Instr::Require
        | Instr::Reply
        | Instr::End => Ok(()),
    }
}

// What is counted, and its number.
fn put_count(alloc: Global, text: &mut Vec<u8>, word: &[u8], n: u64) -> Result<(), OutOfMemory>
    ensures { OnOk result (text.new.items ≡ text.old.items ++ spaced_words (word.now ∷ decimal n ∷ [])) }
{
    put_word(text, word)?;
    put_spaced_number(alloc, text, n)
}

fn put_two(alloc: Global, text: &mut Vec<u8>, first: u16, second: u16) -> Result<(), OutOfMemory>
    ensures { OnOk result (text.new.items ≡ text.old.items ++ spaced_words (decimal first ∷ decimal second ∷ [])) }
{
    put_spaced_number(alloc, text, u64::from(first))?;
    put_spaced_number(alloc, text, u64::from(second))
}

// A space and a number.
fn put_spaced_number(alloc: Global, text: &mut Vec<u8>, n: u64) -> Result<(), OutOfMemory>
    ensures { OnOk result (text.new.items ≡ text.old.items ++ spaced_words (decimal n ∷ [])) }
{
    put_bytes(text, b" ")?;
    put_number(alloc, text, n)
}

// A space and a whole number.
fn put_spaced_whole(alloc: Global, text: &mut Vec<u8>, n: i64) -> Result<(), OutOfMemory>
    ensures { OnOk result (text.new.items ≡ text.old.items ++ spaced_words (signed_decimal n ∷ [])) }
{
    put_bytes(text, b" ")?;
    put_whole(alloc, text, n)
}

// A space and a word.
fn put_word(text: &mut Vec<u8>, word: &[u8]) -> Result<(), OutOfMemory>
    ensures { OnOk result (text.new.items ≡ text.old.items ++ spaced_words (word.now ∷ [])) }
{
    put_bytes(text, b" ")?;
    put_bytes(text, word)
}
