// Fields and parameters.

ghost use Rattle.std.specs.Prelude.{◌≡◌, ◌++◌, OnOk};
ghost use Rattle.mace_printer.specs.Canon as words;
ghost use Rattle.mace_printer.specs.Layout.{layout};

use crate::word::{boolean_key, put_comma, put_key, put_name, put_number, put_sign, put_text};
use mace_ast::{Literal, Param, VarDecl};
use mace_lexer::{Keyword, Sign};
use std::alloc::Global;
use wave_base::{Kind, OutOfMemory};

/// The keyword of a kind.
pub fn kind_key(kind: Kind) -> Keyword
    ensures { result ≡ words.kind_key kind }
{
    match kind {
        Kind::Int => Keyword::Int,
        Kind::Bool => Keyword::Bool,
        Kind::Text => Keyword::Text,
        Kind::Map => Keyword::Map,
    }
}

fn put_minus(alloc: Global, out: &mut Vec<u8>, n: i64) -> Result<(), OutOfMemory>
    ensures { OnOk result (out.new.items ≡ out.old.items ++ layout (words.minus_words n)) }
{
    put_sign(out, Sign::Minus)?;
    put_number(alloc, out, n)
}

fn put_literal(alloc: Global, out: &mut Vec<u8>, literal: &Literal) -> Result<(), OutOfMemory>
    ensures { OnOk result (out.new.items ≡ out.old.items ++ layout (words.literal_words literal.now)) }
{
    match literal {
        Literal::Number(n) => put_number(alloc, out, *n),
        Literal::Minus(n) => put_minus(alloc, out, *n),
        Literal::Text(text) => put_text(out, text),
        Literal::Bool(b) => put_key(out, boolean_key(*b)),
        Literal::Empty => put_key(out, Keyword::Empty),
    }
}

fn put_var(alloc: Global, out: &mut Vec<u8>, var: &VarDecl) -> Result<(), OutOfMemory>
    ensures { OnOk result (out.new.items ≡ out.old.items ++ layout (words.var_words var.now)) }
{
    put_key(out, Keyword::Var)?;
    put_name(out, &var.name.text)?;
    put_sign(out, Sign::Colon)?;
    put_key(out, kind_key(var.kind))?;
    put_sign(out, Sign::Equals)?;
    put_literal(alloc, out, &var.initial.value)?;
    put_sign(out, Sign::Semicolon)
}

/// Fields, one behind the other.
pub fn put_vars(alloc: Global, out: &mut Vec<u8>, vars: &[VarDecl]) -> Result<(), OutOfMemory>
    ensures { OnOk result (out.new.items ≡ out.old.items ++ layout (words.all_of words.var_words vars.now)) }
{
    for var in vars {
        put_var(alloc, out, var)?;
    }
    Ok(())
}

fn put_param(out: &mut Vec<u8>, param: &Param) -> Result<(), OutOfMemory>
    ensures { OnOk result (out.new.items ≡ out.old.items ++ layout (words.param_words param.now)) }
{
    put_name(out, &param.name.text)?;
    put_sign(out, Sign::Colon)?;
    put_key(out, kind_key(param.kind))
}

// Parameters, with commas between them.
fn put_list(out: &mut Vec<u8>, params: &[Param]) -> Result<(), OutOfMemory>
    ensures { OnOk result (out.new.items ≡ out.old.items ++ layout (words.listed_words words.param_words params.now)) }
{
    for (i, param) in params.iter().enumerate() {
        put_comma(out, i)?;
        put_param(out, param)?;
    }
    Ok(())
}

/// Parameters in parentheses.
pub fn put_params(out: &mut Vec<u8>, params: &[Param]) -> Result<(), OutOfMemory>
    ensures { OnOk result (out.new.items ≡ out.old.items ++ layout (words.params_words params.now)) }
{
    put_sign(out, Sign::LeftParen)?;
    put_list(out, params)?;
    put_sign(out, Sign::RightParen)
}

/// `: T`, where it is there.
pub fn put_result(out: &mut Vec<u8>, kind: Option<Kind>) -> Result<(), OutOfMemory>
    ensures { OnOk result (out.new.items ≡ out.old.items ++ layout (words.result_words kind)) }
{
    match kind {
        None => Ok(()),
        Some(kind) => {
            put_sign(out, Sign::Colon)?;
            put_key(out, kind_key(kind))
        }
    }
}
