//! Functions and programs.

use crate::instr::Instr;
use wave_base::{Class, Kind, Seq, Shape, Span, Txt};

/// A method or an event. Its locals are the parameters and then all others, and begin as 0, false, empty text and
/// empty map. `stack` is the greatest height of its stack.
#[derive(PartialEq, Eq, Debug, Drop)]
pub struct Function {
    /// The name of the method or the event, which the listing tells.
    pub name: Txt,
    /// The class of the contexts where it begins; the root's for an event.
    pub class: Class,
    /// Whether it is an event, and not a method.
    pub is_event: bool,
    /// The kinds of its parameters, in order.
    pub args: Seq<Kind>,
    /// The kind that it returns or replies with, if any.
    pub result: Option<Kind>,
    /// The kinds of all its locals, parameters first.
    pub locals: Seq<Kind>,
    /// The greatest height of its stack, in values.
    pub stack: u16,
    /// Its instructions; targets of jumps count them from 0.
    pub code: Seq<Instr>,
    /// The place in the service text of each instruction.
    pub places: Seq<Span>,
}

/// The code of a service: its functions, methods and events, its texts, and for each event of the shape its function.
#[derive(PartialEq, Eq, Debug, Drop)]
pub struct Program {
    /// What the service declares.
    pub shape: Shape,
    /// Methods in text order, and then events in the order of the shape.
    pub functions: Seq<Function>,
    /// The texts that instructions name by their places.
    pub texts: Seq<Txt>,
    /// For each event of the shape, the number of its function.
    pub events: Seq<u16>,
}
