//! The program that is timed, as instructions.

ghost use Rattle.std.specs.Prelude.{◌≡◌, IfOk};
ghost use Rattle.service_vm.specs.Spin.{spin};

use service_code::{Function, Instr, Program};
use std::alloc::Global;
use wave_base::{Class, ClassInfo, EventInfo, Kind, OutOfMemory, Seq, Shape, Span, Txt};

fn shape(alloc: Global) -> Result<Shape, OutOfMemory>
    ensures { IfOk result (λ s. s ≡ spin.shape) }
{
    let class = ClassInfo {
        name: Txt::from_bytes(alloc, b"Spin")?,
        parent: None,
        fields: Seq::new(alloc),
    };
    let event = EventInfo {
        name: Txt::from_bytes(alloc, b"spin")?,
        params: Seq::from_vec(vec![in alloc; Kind::Int]?),
        reply: Some(Kind::Int),
    };
    Ok(Shape {
        classes: Seq::from_vec(vec![in alloc; class]?),
        events: Seq::from_vec(vec![in alloc; event]?),
    })
}

/// An event that counts to a number, a tick each.
pub fn program(alloc: Global) -> Result<Program, OutOfMemory>
    ensures { IfOk result (λ p. p ≡ spin) }
{
    let code = vec![in alloc;
        Instr::Load(1),
        Instr::Load(0),
        Instr::Op(9),
        Instr::JumpFalse(10),
        Instr::Tick,
        Instr::Load(1),
        Instr::PushInt(1),
        Instr::Op(0),
        Instr::Store(1),
        Instr::Jump(0),
        Instr::Load(1),
        Instr::Reply,
    ]?;
    let function = Function {
        name: Txt::from_bytes(alloc, b"spin")?,
        class: Class(0),
        is_event: true,
        args: Seq::from_vec(vec![in alloc; Kind::Int]?),
        result: Some(Kind::Int),
        locals: Seq::from_vec(vec![in alloc; Kind::Int, Kind::Int]?),
        stack: 2,
        code: Seq::from_vec(code),
        places: Seq::from_vec(vec![in alloc; Span { line: 1, col: 1 }; 12]?),
    };
    Ok(Program {
        shape: shape(alloc)?,
        functions: Seq::from_vec(vec![in alloc; function]?),
        texts: Seq::new(alloc),
        events: Seq::from_vec(vec![in alloc; 0]?),
    })
}
