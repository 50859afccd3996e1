//! The places of expressions.

ghost use Rattle.wave_base.specs.Text.{IsText};

use mace_ast::{BinaryOp, Expr, Name, Node, UnaryOp};
use std::alloc::Global;
use std::test::Fail;
use wave_base::{OutOfMemory, Span, Txt};

fn at(col: u32) -> Span {
    Span { line: 1, col }
}

fn name(alloc: Global, col: u32, text: &[u8]) -> Result<Name, OutOfMemory>
    requires { IsText text.now }
{
    Ok(Name {
        at: at(col),
        text: Txt::from_bytes(alloc, text)?,
    })
}

// -m[1]
fn negation(alloc: Global) -> Result<Expr, OutOfMemory> {
    let index = Expr::index(alloc, name(alloc, 2, b"m")?, Expr::number(at(4), 1))?;
    Expr::unary(alloc, at(1), UnaryOp::Neg, index)
}

// "", x
fn arguments(alloc: Global) -> Result<Vec<Expr>, OutOfMemory> {
    let mut args = Vec::new(alloc);
    args.push(Expr::text(at(18), Txt::from_bytes(alloc, b"")?))?;
    args.push(Expr::read(name(alloc, 22, b"x")?))?;
    Ok(args)
}

// C[true].f("", x)
fn call_of(alloc: Global) -> Result<Expr, OutOfMemory> {
    let args = arguments(alloc)?;
    let class = name(alloc, 9, b"C")?;
    let method = name(alloc, 16, b"f")?;
    Expr::child_call(alloc, class, Expr::boolean(at(11), true), method, args)
}

#[test]
fn nodes_start_at_their_first_token(rt: HostRuntime) -> Result<(), Fail> {
    let alloc = rt.alloc();
    // -m[1] + C[true].f("", x)
    let right = call_of(alloc)?;
    assert_eq!(rt; right.at, at(9));
    let sum = Expr::binary(alloc, negation(alloc)?, BinaryOp::Add, right)?;
    assert_eq!(rt; sum.at, at(1));
    assert!(rt; matches!(&sum.node, Node::Binary(BinaryOp::Add, _, _)));
    Ok(())
}
