// Statements.

ghost use Rattle.std.specs.Prelude.{◌≡◌, ◌++◌, map, codes, OnOk};
ghost use Rattle.std.specs.Option.{option_map};
ghost use Rattle.mace_ast.specs.Exprs.{expr_tree};
ghost use Rattle.mace_ast.specs.Stmts.{stmt_tree};
ghost use Rattle.mace_printer.specs.Canon as words;
ghost use Rattle.mace_printer.specs.Canon.{◌⧺◌};
ghost use Rattle.mace_printer.specs.inner.Parts as parts;
ghost use Rattle.mace_printer.specs.Layout.{layout};

use crate::expr::{put_above, put_call, put_child_key, put_expr, put_index};
use crate::word::{put_finish_word, put_key, put_name, put_sign, put_text};
use mace_ast::{Action, Expr, Stmt, Target};
use mace_grammar::Level;
use mace_lexer::{Keyword, Sign};
use std::alloc::Global;
use wave_base::{OutOfMemory, Txt};

/// An expression and a semicolon.
pub fn put_ended(alloc: Global, out: &mut Vec<u8>, value: &Expr) -> Result<(), OutOfMemory>
    ensures { OnOk result (out.new.items ≡ out.old.items ++ layout (parts.ended_words (expr_tree value.now))) }
{
    put_expr(alloc, out, value, Some(Level::Or))?;
    put_sign(out, Sign::Semicolon)
}

fn put_let(alloc: Global, out: &mut Vec<u8>, name: &Txt, value: &Expr) -> Result<(), OutOfMemory>
    ensures { OnOk result (out.new.items ≡ out.old.items ++ layout (words.key Keyword.Let ⧺ words.name name.now ⧺ words.sign Sign.Equals ⧺ parts.ended_words (expr_tree value.now))) }
{
    put_key(out, Keyword::Let)?;
    put_name(out, name)?;
    put_sign(out, Sign::Equals)?;
    put_ended(alloc, out, value)
}

fn put_send(alloc: Global, out: &mut Vec<u8>, label: &Txt, value: &Expr) -> Result<(), OutOfMemory>
    ensures { OnOk result (out.new.items ≡ out.old.items ++ layout (words.key Keyword.Send ⧺ words.text label.now ⧺ words.sign Sign.Comma ⧺ parts.ended_words (expr_tree value.now))) }
{
    put_key(out, Keyword::Send)?;
    put_text(out, label)?;
    put_sign(out, Sign::Comma)?;
    put_ended(alloc, out, value)
}

fn put_target(out: &mut Vec<u8>, target: &Target) -> Result<(), OutOfMemory>
    ensures { OnOk result (out.new.items ≡ out.old.items ++ layout (words.target_words target.now)) }
{
    match &target.above {
        None => put_name(out, &target.name),
        Some(class) => put_above(out, class, &target.name),
    }
}

fn put_cut(alloc: Global, out: &mut Vec<u8>, target: &Target, key: &Expr) -> Result<(), OutOfMemory>
    ensures { OnOk result (out.new.items ≡ out.old.items ++ layout (words.key Keyword.Drop ⧺ words.target_words target.now ⧺ words.index_words (expr_tree key.now) ⧺ words.sign Sign.Semicolon)) }
{
    put_key(out, Keyword::Drop)?;
    put_target(out, target)?;
    put_index(alloc, out, key)?;
    put_sign(out, Sign::Semicolon)
}

fn put_maybe_index(alloc: Global, out: &mut Vec<u8>, key: &Option<Expr>) -> Result<(), OutOfMemory>
    ensures { OnOk result (out.new.items ≡ out.old.items ++ layout (words.maybe_index (option_map expr_tree key.now))) }
{
    match key {
        None => Ok(()),
        Some(key) => put_index(alloc, out, key),
    }
}

fn put_set(
    alloc: Global,
    out: &mut Vec<u8>,
    target: &Target,
    key: &Option<Expr>,
    value: &Expr,
) -> Result<(), OutOfMemory>
    ensures { OnOk result (out.new.items ≡ out.old.items ++ layout (words.target_words target.now ⧺ words.maybe_index (option_map expr_tree key.now) ⧺ words.sign Sign.Equals ⧺ parts.ended_words (expr_tree value.now))) }
{
    put_target(out, target)?;
    put_maybe_index(alloc, out, key)?;
    put_sign(out, Sign::Equals)?;
    put_ended(alloc, out, value)
}

fn put_require(alloc: Global, out: &mut Vec<u8>, test: &Expr) -> Result<(), OutOfMemory>
    ensures { OnOk result (out.new.items ≡ out.old.items ++ layout (words.key Keyword.Require ⧺ parts.ended_words (expr_tree test.now))) }
{
    put_key(out, Keyword::Require)?;
    put_ended(alloc, out, test)
}

fn put_spawn(
    alloc: Global,
    out: &mut Vec<u8>,
    event: &Txt,
    args: &[Expr],
) -> Result<(), OutOfMemory>
    ensures { OnOk result (out.new.items ≡ out.old.items ++ layout (words.key Keyword.Spawn ⧺ words.call_words event.now (map expr_tree args.now) ⧺ words.sign Sign.Semicolon)) }
{
    put_key(out, Keyword::Spawn)?;
    put_call(alloc, out, event, args)?;
    put_sign(out, Sign::Semicolon)
}

fn put_called(
    alloc: Global,
    out: &mut Vec<u8>,
    name: &Txt,
    args: &[Expr],
) -> Result<(), OutOfMemory>
    ensures { OnOk result (out.new.items ≡ out.old.items ++ layout (words.call_words name.now (map expr_tree args.now) ⧺ words.sign Sign.Semicolon)) }
{
    put_call(alloc, out, name, args)?;
    put_sign(out, Sign::Semicolon)
}

fn put_child_called(
    alloc: Global,
    out: &mut Vec<u8>,
    class: &Txt,
    key: &Expr,
    name: &Txt,
    args: &[Expr],
) -> Result<(), OutOfMemory>
    ensures { OnOk result (out.new.items ≡ out.old.items ++ layout (parts.child_key_words class.now (expr_tree key.now) ⧺ words.call_words name.now (map expr_tree args.now) ⧺ words.sign Sign.Semicolon)) }
{
    put_child_key(alloc, out, class, key)?;
    put_called(alloc, out, name, args)
}

fn put_maybe_value(
    alloc: Global,
    out: &mut Vec<u8>,
    value: &Option<Expr>,
) -> Result<(), OutOfMemory>
    ensures { OnOk result (out.new.items ≡ out.old.items ++ layout (words.maybe_words (option_map expr_tree value.now))) }
{
    match value {
        None => Ok(()),
        Some(value) => put_expr(alloc, out, value, Some(Level::Or)),
    }
}

fn put_return(alloc: Global, out: &mut Vec<u8>, value: &Option<Expr>) -> Result<(), OutOfMemory>
    ensures { OnOk result (out.new.items ≡ out.old.items ++ layout (words.key Keyword.Return ⧺ words.maybe_words (option_map expr_tree value.now) ⧺ words.sign Sign.Semicolon)) }
{
    put_key(out, Keyword::Return)?;
    put_maybe_value(alloc, out, value)?;
    put_sign(out, Sign::Semicolon)
}

fn put_finish(alloc: Global, out: &mut Vec<u8>, value: &Option<Expr>) -> Result<(), OutOfMemory>
    ensures { OnOk result (out.new.items ≡ out.old.items ++ layout (words.name (codes "finish") ⧺ words.maybe_words (option_map expr_tree value.now) ⧺ words.sign Sign.Semicolon)) }
{
    put_finish_word(out)?;
    put_maybe_value(alloc, out, value)?;
    put_sign(out, Sign::Semicolon)
}

// What stands before the block of a loop over numbers.
fn put_range(
    alloc: Global,
    out: &mut Vec<u8>,
    name: &Txt,
    low: &Expr,
    high: &Expr,
) -> Result<(), OutOfMemory>
    ensures { OnOk result (out.new.items ≡ out.old.items ++ layout (parts.range_words name.now (expr_tree low.now) (expr_tree high.now))) }
{
    put_key(out, Keyword::For)?;
    put_name(out, name)?;
    put_key(out, Keyword::In)?;
    put_expr(alloc, out, low, Some(Level::Or))?;
    put_key(out, Keyword::To)?;
    put_expr(alloc, out, high, Some(Level::Or))
}

// A keyword and a condition.
fn put_test(alloc: Global, out: &mut Vec<u8>, key: Keyword, test: &Expr) -> Result<(), OutOfMemory>
    ensures { OnOk result (out.new.items ≡ out.old.items ++ layout (words.key key ⧺ words.whole_words (expr_tree test.now))) }
{
    put_key(out, key)?;
    put_expr(alloc, out, test, Some(Level::Or))
}

// ---- statements with blocks

#[cycle(stmt)]
fn put_stmt(alloc: Global, out: &mut Vec<u8>, stmt: &Stmt) -> Result<(), OutOfMemory>
    ensures { OnOk result (out.new.items ≡ out.old.items ++ layout (words.stmt_words (stmt_tree stmt.now))) }
{
    match &stmt.action {
        Action::Let(name, value) => put_let(alloc, out, &name.text, value),
        Action::If(test, body, other) => {
            put_test(alloc, out, Keyword::If, test)?;
            put_block(alloc, out, body)?;
            put_else(alloc, out, other)
        }
        Action::While(test, body) => {
            put_test(alloc, out, Keyword::While, test)?;
            put_block(alloc, out, body)
        }
        Action::For(name, low, high, body) => {
            put_range(alloc, out, &name.text, low, high)?;
            put_block(alloc, out, body)
        }
        Action::Require(test) => put_require(alloc, out, test),
        Action::Send(label, value) => put_send(alloc, out, label, value),
        Action::Spawn(event, args) => put_spawn(alloc, out, event, args.as_slice()),
        Action::Cut(target, key) => put_cut(alloc, out, target, key),
        Action::Set(target, key, value) => put_set(alloc, out, target, key, value),
        Action::Call(name, args) => put_called(alloc, out, name, args.as_slice()),
        Action::ChildCall(class, key, name, args) => {
            put_child_called(alloc, out, class, key, name, args.as_slice())
        }
        Action::Return(value) => put_return(alloc, out, value),
        Action::Finish(value) => put_finish(alloc, out, value),
    }
}

#[cycle(stmt)]
fn put_else(alloc: Global, out: &mut Vec<u8>, other: &Option<Vec<Stmt>>) -> Result<(), OutOfMemory>
    ensures { OnOk result (out.new.items ≡ out.old.items ++ layout (parts.maybe_else (option_map (λ b. map stmt_tree b.items) other.now))) }
{
    match other {
        None => Ok(()),
        Some(body) => {
            put_key(out, Keyword::Else)?;
            put_block(alloc, out, body)
        }
    }
}

/// Statements in braces.
#[cycle(stmt)]
pub fn put_block(alloc: Global, out: &mut Vec<u8>, body: &[Stmt]) -> Result<(), OutOfMemory>
    ensures { OnOk result (out.new.items ≡ out.old.items ++ layout (words.braced_words (map stmt_tree body.now))) }
{
    put_sign(out, Sign::LeftBrace)?;
    put_stmts(alloc, out, body)?;
    put_sign(out, Sign::RightBrace)
}

/// Statements, one behind the other.
#[cycle(stmt)]
pub fn put_stmts(alloc: Global, out: &mut Vec<u8>, stmts: &[Stmt]) -> Result<(), OutOfMemory>
    ensures { OnOk result (out.new.items ≡ out.old.items ++ layout (words.body_words (map stmt_tree stmts.now))) }
{
    for stmt in stmts {
        put_stmt(alloc, out, stmt)?;
    }
    Ok(())
}
