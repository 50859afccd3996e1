//! The notes of faults.

ghost use Rattle.std.specs.Prelude.{◌≡◌, ◌≢◌, IfOk};
ghost use Rattle.mace_lexer.specs.declared.fault.LexError.{LexError};
ghost use Rattle.mace_parser.specs.declared.fault.ParseError.{ParseError};
ghost use Rattle.checkpoint_store.specs.declared.error.CheckError.{CheckError};
ghost use Rattle.journal_text.specs.declared.error.JournalError.{JournalError};
ghost use Rattle.script_reader.specs.declared.error.ScriptError.{ScriptError};
ghost use Rattle.service_reader.specs.declared.fault.TextFault.{TextFault};
ghost use Rattle.type_rules.specs.declared.error.TypeError.{TypeError};
ghost use Rattle.fault_notes.specs.Notes.{note_at, on_line, lex_note, parse_note, text_note, type_note, script_note, check_note, journal_note};
ghost use Rattle.wave_base.specs.Memory.{the_refusal};

use checkpoint_store::CheckError;
use journal_text::JournalError;
use mace_lexer::LexError;
use mace_parser::ParseError;
use script_reader::ScriptError;
use service_reader::TextFault;
use std::alloc::Global;
use type_rules::TypeError;
use wave_base::{OutOfMemory, Span};
use wave_text::{put_bytes, put_number, put_place};

/// What it is, and its line and column.
pub fn note_at(alloc: Global, name: &[u8], at: Span) -> Result<Vec<u8>, OutOfMemory>
    ensures { IfOk result (λ note. note.items ≡ note_at name.now at) }
{
    let mut note = Vec::new(alloc);
    put_bytes(&mut note, name)?;
    put_bytes(&mut note, b" ")?;
    put_place(alloc, &mut note, at)?;
    Ok(note)
}

/// What is told of a text that can't be cut into tokens.
pub fn lex_note(alloc: Global, error: &LexError) -> Result<Vec<u8>, OutOfMemory>
    ensures note { IfOk result (λ note. note.items ≡ lex_note error.now) }
    ensures told { IfOk result (λ _. error.now ≢ LexError.OutOfMemory the_refusal) }
{
    match error {
        LexError::BadByte(at) => note_at(alloc, b"L1 BadByte", *at),
        LexError::NumberRange(at) => note_at(alloc, b"L2 NumberRange", *at),
        LexError::OpenText(at) => note_at(alloc, b"L3 OpenText", *at),
        LexError::NameLong(at) => note_at(alloc, b"L4 NameLong", *at),
        LexError::TextLong(at) => note_at(alloc, b"L5 TextLong", *at),
        LexError::OutOfMemory(refused) => Err(*refused),
    }
}

/// What is told of tokens that are no service.
pub fn parse_note(alloc: Global, error: &ParseError) -> Result<Vec<u8>, OutOfMemory>
    ensures note { IfOk result (λ note. note.items ≡ parse_note error.now) }
    ensures told { IfOk result (λ _. error.now ≢ ParseError.OutOfMemory the_refusal) }
{
    match error {
        ParseError::Expected { at, .. } => note_at(alloc, b"P1 Expected", *at),
        ParseError::TooDeep { at, .. } => note_at(alloc, b"P2 TooDeep", *at),
        ParseError::OutOfMemory(refused) => Err(*refused),
    }
}

/// What is told of a text that is no service.
pub fn text_note(alloc: Global, fault: &TextFault) -> Result<Vec<u8>, OutOfMemory>
    ensures note { IfOk result (λ note. note.items ≡ text_note fault.now) }
    ensures told { IfOk result (λ _. fault.now ≢ TextFault.OutOfMemory the_refusal) }
{
    match fault {
        TextFault::TooLarge => Ok(Vec::from_slice(alloc, b"TooLarge service")?),
        TextFault::Lex(error) => lex_note(alloc, error),
        TextFault::Parse(error) => parse_note(alloc, error),
        TextFault::OutOfMemory(refused) => Err(*refused),
    }
}

/// What is told of a service that isn't typed.
pub fn type_note(alloc: Global, error: &TypeError) -> Result<Vec<u8>, OutOfMemory>
    ensures note { IfOk result (λ note. note.items ≡ type_note error.now) }
    ensures told { IfOk result (λ _. error.now ≢ TypeError.OutOfMemory the_refusal) }
{
    match error {
        TypeError::UnknownName(at) => note_at(alloc, b"Y1 UnknownName", *at),
        TypeError::Duplicate(at) => note_at(alloc, b"Y2 Duplicate", *at),
        TypeError::Mismatch(at) => note_at(alloc, b"Y3 Mismatch", *at),
        TypeError::ArgCount(at) => note_at(alloc, b"Y4 ArgCount", *at),
        TypeError::NotDownward(at) => note_at(alloc, b"Y5 NotDownward", *at),
        TypeError::CalleeLater(at) => note_at(alloc, b"Y6 CalleeLater", *at),
        TypeError::MissingReply(at) => note_at(alloc, b"Y7 MissingReply", *at),
        TypeError::Limit(_, at) => note_at(alloc, b"Y8 Limit", *at),
        TypeError::Unreachable(at) => note_at(alloc, b"Y10 Unreachable", *at),
        TypeError::OutOfMemory(refused) => Err(*refused),
    }
}

// What it is, and the line of the script, the checkpoint or the journal.
fn on_line(alloc: Global, name: &[u8], line: u32) -> Result<Vec<u8>, OutOfMemory>
    ensures { IfOk result (λ note. note.items ≡ on_line name.now line) }
{
    let mut note = Vec::new(alloc);
    put_bytes(&mut note, name)?;
    put_bytes(&mut note, b" line ")?;
    put_number(alloc, &mut note, u64::from(line))?;
    Ok(note)
}

/// What is told of a script line that is refused.
pub fn script_note(alloc: Global, error: &ScriptError) -> Result<Vec<u8>, OutOfMemory>
    ensures note { IfOk result (λ note. note.items ≡ script_note error.now) }
    ensures told { IfOk result (λ _. error.now ≢ ScriptError.OutOfMemory the_refusal) }
{
    match error {
        ScriptError::UnknownCommand { line } => on_line(alloc, b"S1 UnknownCommand", *line),
        ScriptError::UnknownEvent { line } => on_line(alloc, b"S2 UnknownEvent", *line),
        ScriptError::ArgCount { line } => on_line(alloc, b"S3 ArgCount", *line),
        ScriptError::ArgType { line } => on_line(alloc, b"S4 ArgType", *line),
        ScriptError::BadPath { line } => on_line(alloc, b"S5 BadPath", *line),
        ScriptError::HostRange { line } => on_line(alloc, b"S6 HostRange", *line),
        ScriptError::HostsLate { line } => on_line(alloc, b"S7 HostsLate", *line),
        ScriptError::TooMany { line } => on_line(alloc, b"S8 TooMany", *line),
        ScriptError::PolicyLate { line } => on_line(alloc, b"S10 PolicyLate", *line),
        ScriptError::CountRange { line } => on_line(alloc, b"S11 CountRange", *line),
        ScriptError::OutOfMemory(refused) => Err(*refused),
    }
}

/// What is told of a checkpoint's line that is refused.
pub fn check_note(alloc: Global, error: &CheckError) -> Result<Vec<u8>, OutOfMemory>
    ensures note { IfOk result (λ note. note.items ≡ check_note error.now) }
    ensures told { IfOk result (λ _. error.now ≢ CheckError.OutOfMemory the_refusal) }
{
    match error {
        CheckError::Syntax { line } => on_line(alloc, b"K1 Syntax", *line),
        CheckError::Service { line } => on_line(alloc, b"K2 Service", *line),
        CheckError::Tree { line } => on_line(alloc, b"K3 Tree", *line),
        CheckError::OutOfMemory(refused) => Err(*refused),
    }
}

/// What is told of a journal's line that is refused.
pub fn journal_note(alloc: Global, error: &JournalError) -> Result<Vec<u8>, OutOfMemory>
    ensures note { IfOk result (λ note. note.items ≡ journal_note error.now) }
    ensures told { IfOk result (λ _. error.now ≢ JournalError.OutOfMemory the_refusal) }
{
    match error {
        JournalError::Syntax { line } => on_line(alloc, b"J1 Syntax", *line),
        JournalError::OutOfMemory(refused) => Err(*refused),
    }
}
