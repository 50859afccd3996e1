// Methods and events.

ghost use Rattle.std.specs.Prelude.{◌≡◌, ◌++◌, map, OnOk};
ghost use Rattle.std.specs.Option.{option_map};
ghost use Rattle.mace_ast.specs.Stmts.{stmt_tree};
ghost use Rattle.mace_ast.specs.Decls.{last_tree, method_tree, phase_tree, event_tree};
ghost use Rattle.mace_printer.specs.Canon as words;
ghost use Rattle.mace_printer.specs.Layout.{layout};

use crate::expr::put_index;
use crate::field::{put_params, put_result};
use crate::stmt::{put_block, put_ended, put_stmts};
use crate::word::{put_key, put_name, put_sign};
use mace_ast::{EventDecl, Last, MethodDecl, Phase, Stmt};
use mace_lexer::{Keyword, Sign};
use std::alloc::Global;
use wave_base::{OutOfMemory, Seq};

// The value at the end, where there is one.
fn put_last(
    alloc: Global,
    out: &mut Vec<u8>,
    key: Keyword,
    last: &Option<Last>,
) -> Result<(), OutOfMemory>
    ensures { OnOk result (out.new.items ≡ out.old.items ++ layout (words.last_words key (option_map last_tree last.now))) }
{
    match last {
        None => Ok(()),
        Some(last) => {
            put_key(out, key)?;
            put_ended(alloc, out, &last.value)
        }
    }
}

fn put_method(alloc: Global, out: &mut Vec<u8>, method: &MethodDecl) -> Result<(), OutOfMemory>
    ensures { OnOk result (out.new.items ≡ out.old.items ++ layout (words.method_words (method_tree method.now))) }
{
    put_key(out, Keyword::Method)?;
    put_name(out, &method.name.text)?;
    put_params(out, method.params.as_slice())?;
    put_result(out, method.result)?;
    put_sign(out, Sign::LeftBrace)?;
    put_stmts(alloc, out, method.body.as_slice())?;
    put_last(alloc, out, Keyword::Return, &method.last)?;
    put_sign(out, Sign::RightBrace)
}

/// Methods, one behind the other.
pub fn put_methods(
    alloc: Global,
    out: &mut Vec<u8>,
    methods: &[MethodDecl],
) -> Result<(), OutOfMemory>
    ensures { OnOk result (out.new.items ≡ out.old.items ++ layout (words.all_of words.method_words (map method_tree methods.now))) }
{
    for method in methods {
        put_method(alloc, out, method)?;
    }
    Ok(())
}

fn put_phase(alloc: Global, out: &mut Vec<u8>, phase: &Phase) -> Result<(), OutOfMemory>
    ensures { OnOk result (out.new.items ≡ out.old.items ++ layout (words.phase_words (phase_tree phase.now))) }
{
    put_key(out, Keyword::Down)?;
    put_name(out, &phase.class)?;
    put_index(alloc, out, &phase.key)?;
    put_block(alloc, out, phase.body.as_slice())
}

fn put_phases(alloc: Global, out: &mut Vec<u8>, phases: &[Phase]) -> Result<(), OutOfMemory>
    ensures { OnOk result (out.new.items ≡ out.old.items ++ layout (words.all_of words.phase_words (map phase_tree phases.now))) }
{
    for phase in phases {
        put_phase(alloc, out, phase)?;
    }
    Ok(())
}

// The statements at the root, where `here` is there.
fn put_here(alloc: Global, out: &mut Vec<u8>, here: &Option<Seq<Stmt>>) -> Result<(), OutOfMemory>
    ensures { OnOk result (out.new.items ≡ out.old.items ++ layout (words.here_words (option_map (map stmt_tree) here.now))) }
{
    match here {
        None => Ok(()),
        Some(body) => {
            put_key(out, Keyword::Here)?;
            put_block(alloc, out, body.as_slice())
        }
    }
}

fn put_event(alloc: Global, out: &mut Vec<u8>, event: &EventDecl) -> Result<(), OutOfMemory>
    ensures { OnOk result (out.new.items ≡ out.old.items ++ layout (words.event_words (event_tree event.now))) }
{
    put_key(out, Keyword::Event)?;
    put_name(out, &event.name.text)?;
    put_params(out, event.params.as_slice())?;
    put_result(out, event.result)?;
    put_sign(out, Sign::LeftBrace)?;
    put_here(alloc, out, &event.here)?;
    put_phases(alloc, out, event.phases.as_slice())?;
    put_last(alloc, out, Keyword::Reply, &event.last)?;
    put_sign(out, Sign::RightBrace)
}

/// Events, one behind the other.
pub fn put_events(alloc: Global, out: &mut Vec<u8>, events: &[EventDecl]) -> Result<(), OutOfMemory>
    ensures { OnOk result (out.new.items ≡ out.old.items ++ layout (words.all_of words.event_words (map event_tree events.now))) }
{
    for event in events {
        put_event(alloc, out, event)?;
    }
    Ok(())
}
