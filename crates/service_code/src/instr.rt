//! The instructions.

ghost use Rattle.std.specs.Prelude.{◌≡◌};
ghost use Rattle.service_code.specs.Instructions.{name_of};

use wave_base::Class;

/// An instruction. Locals, fields, levels, functions, events, operators, texts and instructions go by their numbers from 0.
#[derive(Clone, Copy, Debug, PartialEq, Eq)]
pub enum Instr {
    /// Puts a whole number on the stack.
    PushInt(i64),
    /// Puts a truth value on the stack.
    PushBool(bool),
    /// Puts a text of the program on the stack.
    PushText(u32),
    /// Puts the empty map on the stack.
    PushEmpty,
    /// Puts a local on the stack.
    Load(u16),
    /// Takes a value for a local.
    Store(u16),
    /// Puts an own field on the stack.
    Field(u16),
    /// Takes a value for an own field.
    SetField(u16),
    /// Puts a field of an ancestor on the stack: its level, the root's being 0, and its field.
    Above(u16, u16),
    /// Takes an operator's operands, and puts its result.
    Op(u16),
    /// Takes a key and a value, and puts them into a local.
    PutLocal(u16),
    /// Takes a key and a value, and puts them into an own field.
    PutField(u16),
    /// Takes a key, and cuts it from a local.
    CutLocal(u16),
    /// Takes a key, and cuts it from an own field.
    CutField(u16),
    /// Goes on at an instruction.
    Jump(u16),
    /// Takes a truth value, and goes on at an instruction where it is false.
    JumpFalse(u16),
    /// Takes a tick.
    Tick,
    /// Takes the arguments of a method of the context's own, and runs it.
    Call(u16),
    /// Takes a key and the arguments of a method of a child class, and runs it in that child.
    CallDown(Class, u16),
    /// Takes the method's result, if it has one, and ends the method.
    Return,
    /// Takes a value.
    Pop,
    /// Takes a truth value, and traps where it is false.
    Require,
    /// Takes a value, and sends it under a text of the program.
    Send(u32),
    /// Takes the arguments of an event, and creates it.
    Spawn(u16),
    /// Takes a key, and goes into that child of this class for good.
    Go(Class),
    /// Takes the event's reply, and ends the event.
    Reply,
    /// Ends an event without a reply.
    End,
}

impl Instr {
    /// The name, as the code listing shows it.
    pub fn name(&self) -> &'static [u8]
        ensures { result.now ≡ name_of self.now }
    {
        match self {
            Instr::PushInt(_) => b"PushInt",
            Instr::PushBool(_) => b"PushBool",
            Instr::PushText(_) => b"PushText",
            Instr::PushEmpty => b"PushEmpty",
            Instr::Load(_) => b"Load",
            Instr::Store(_) => b"Store",
            Instr::Field(_) => b"Field",
            Instr::SetField(_) => b"SetField",
            Instr::Above(_, _) => b"Above",
            Instr::Op(_) => b"Op",
            Instr::PutLocal(_) => b"PutLocal",
            Instr::PutField(_) => b"PutField",
            Instr::CutLocal(_) => b"CutLocal",
            Instr::CutField(_) => b"CutField",
            Instr::Jump(_) => b"Jump",
            Instr::JumpFalse(_) => b"JumpFalse",
            Instr::Tick => b"Tick",
            Instr::Call(_) => b"Call",
            Instr::CallDown(_, _) => b"CallDown",
            Instr::Return => b"Return",
            Instr::Pop => b"Pop",
            Instr::Require => b"Require",
            Instr::Send(_) => b"Send",
            Instr::Spawn(_) => b"Spawn",
            Instr::Go(_) => b"Go",
            Instr::Reply => b"Reply",
            Instr::End => b"End",
        }
    }
}
