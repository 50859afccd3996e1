//! What a table says of an operator.

ghost use Rattle.std.specs.Prelude.{◌≡◌, ◌<◌};
ghost use Rattle.wave_base.specs.declared.operators.TheConstants.{OPERATORS};

use wave_base::{Kind, operator_name};

/// An operator or a builtin: its name, whether a service writes it as a call, the kinds of its operands, the first
/// ones first, and the kind of what it gives.
#[derive(Clone, Copy, Debug)]
pub struct OpRow {
    /// How the code listing names it.
    pub name: &'static [u8],
    /// Whether a service writes it as a call.
    pub builtin: bool,
    /// The kinds of its operands, the first ones first; none behind the last.
    pub takes: [Option<Kind>; 3],
    /// The kind of its value.
    pub gives: Kind,
}

/// A row as a table keeps it: whose name it has, and the rest as it is.
#[derive(Clone, Copy, Debug)]
pub struct KeptRow {
    /// The row of the operator table whose name it has.
    pub operator: usize,
    /// Whether a service writes it as a call.
    pub builtin: bool,
    /// The kinds of its operands, the first ones first; none behind the last.
    pub takes: [Option<Kind>; 3],
    /// The kind of its value.
    pub gives: Kind,
    ghost known: { operator < OPERATORS },
}

impl KeptRow {
    ghost use Rattle.value_ops.specs.Rows.{row_of, kept_row};

    /// The row itself.
    pub fn row(&self) -> OpRow
        ensures { row_of result ≡ kept_row self.now }
    {
        OpRow {
            name: operator_name(self.operator),
            builtin: self.builtin,
            takes: self.takes,
            gives: self.gives,
        }
    }
}
