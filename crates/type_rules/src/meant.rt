//! What names stand for.

use wave_base::{Kind, Txt};

/// A local that may be named, with its kind and its slot.
#[derive(Debug, Drop, PartialEq, Eq)]
pub struct Local {
    /// Its name.
    pub name: Txt,
    /// The kind of its values.
    pub kind: Kind,
    /// Its slot in the function.
    pub slot: u16,
}

/// What a name of a value stands for: the slot of a local or the number of a field, with its kind.
#[derive(Clone, Copy, Debug, PartialEq, Eq)]
pub enum Variable {
    /// A local: its slot and its kind.
    Local(u16, Kind),
    /// A field: its place in its class, and its kind.
    Field(u16, Kind),
}

/// What a call names: the row of a builtin, or the number of a method.
#[derive(Clone, Copy, Debug, PartialEq, Eq)]
pub enum Callee {
    /// A builtin: its row in the operator table.
    Builtin(u16),
    /// A method: its place among all methods.
    Method(u16),
}
