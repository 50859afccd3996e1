//! Code as a text.

ghost use Rattle.std.specs.Prelude.{◌≡◌, ◌<◌, length, IfOk};
ghost use Rattle.service_code.specs.Listing.{CanList};

use crate::same::is_text;
use service_code::{Function, Instr, Program, code_listing};
use std::alloc::Global;
use std::test::Fail;
use tests_services::tick_shape;
use wave_base::{Class, Kind, OutOfMemory, Seq, Shape, Span, Txt};

fn at(col: u32) -> Span {
    Span { line: 1, col }
}

fn hit(alloc: Global, shape: &Shape) -> Result<Function, OutOfMemory>
    requires { 0 < length shape.now.classes }
    ensures { IfOk result (CanList shape.now) }
{
    let (zero, one) = (Instr::Field(0), Instr::PushInt(1));
    let code = vec![in alloc;
        zero,
        one,
        Instr::Op(0),
        Instr::SetField(0),
        zero,
        Instr::Reply,
    ]?;
    let places = vec![in alloc; at(62), at(66), at(62), at(58), at(77), at(71)]?;
    Ok(Function {
        name: Txt::from_bytes(alloc, b"hit")?,
        class: Class(0),
        is_event: true,
        args: Seq::new(alloc),
        result: Some(Kind::Int),
        locals: Seq::new(alloc),
        stack: 2,
        code: Seq::from_vec(code),
        places: Seq::from_vec(places),
    })
}

#[test]
fn lists_the_code_of_a_counter(rt: HostRuntime) -> Result<(), Fail> {
    let alloc = rt.alloc();
    let shape = tick_shape(alloc)?;
    let function = hit(alloc, &shape)?;
    let program = Program {
        shape,
        functions: Seq::from_vec(vec![in alloc; function]?),
        texts: Seq::new(alloc),
        events: Seq::from_vec(vec![in alloc; 0]?),
    };
    let text = code_listing(alloc, &program)?;
    let due =
        b"function 0 hit args 0 locals 0 stack 2\n0 Field 0 @1:62\n1 PushInt 1 @1:66\n2 Op add @1:62\n3 SetField 0 @1:58\n4 Field 0 @1:77\n5 Reply @1:71\n";
    is_text(&rt, text.as_slice(), due);
    Ok(())
}
