//! The tables of the operators, one for each version of the language.

ghost use Rattle.std.specs.Prelude.{◌≡◌, ◌<◌, length, map, Some, slice_get};
ghost use Rattle.value_ops.specs.Operators.{takes_of};
ghost use Rattle.value_ops.specs.Rows.{row_of, kept_row, three, wave_rows, wave_rows_2, first_builtin};
ghost use Rattle.wave_base.specs.Operators.{name_of_operator};
ghost use Rattle.wave_base.specs.declared.operators.TheConstants.{OPERATORS};

use crate::row::{KeptRow, OpRow};
use crate::rows::*;
use crate::takes::takes_of;
use std::marker::Model;
use wave_base::Kind;

/// A table of `N` operators, each at its row.
#[derive(Debug, Drop)]
pub struct OpTable<const N: usize> {
    rows: [KeptRow; N],
}

impl<const N: usize> Model for OpTable<N> {
    ghost use Rattle.std.specs.Prelude.{List, map};
    ghost use Rattle.value_ops.specs.Rows.{Row, kept_row};

    ghost Value = { List Row };

    ghost view = { λ t. map kept_row t.rows };
}

impl<const N: usize> OpTable<N> {
    /// The number of rows.
    pub fn len(&self) -> usize
        ensures len { result ≡ length self.now }
        ensures rows { result ≡ N }
    {
        let rows: &[KeptRow] = &self.rows;
        rows.len()
    }

    /// The operator of a row.
    pub fn row(&self, row: usize) -> OpRow
        requires { row < N }
        ensures { slice_get self.now row ≡ Some (row_of result) }
    {
        self.rows[row].row()
    }
}

/// The row of the first builtin of a name.
pub fn find<const N: usize>(table: &OpTable<N>, name: &[u8]) -> Option<usize>
    ensures { result ≡ first_builtin table.now name.now }
{
    for i in 0..table.len() {
        let row = table.row(i);
        if row.builtin && row.name == name {
            return Some(i);
        }
    }
    None
}

// A row by its operator, whether it is written as a call, and the kind that it gives.
fn kept_row(operator: usize, builtin: bool, gives: Kind) -> KeptRow
    requires { operator < OPERATORS }
    ensures { kept_row result ≡ record { name = name_of_operator operator; builtin = builtin; takes = three (takes_of operator); gives = gives } }
{
    KeptRow {
        operator,
        builtin,
        takes: takes_of(operator).kinds(),
        gives,
    }
}

// Whether a row is written as a call.
macro_rules! builtin {
    (sign) => {
        false
    };
    (call) => {
        true
    };
}

// Rows by their operator, how they are written, and the kind that they give.
macro_rules! rows {
    ($($operator:ident $written:ident $gives:ident;)*) => {
        [$(kept_row($operator, builtin!($written), Kind::$gives)),*]
    };
}

// The rows of version 1, and more behind them.
macro_rules! rows_and {
    ($($more:tt)*) => {
        rows! {
            ADD sign Int;
            SUB sign Int;
            MUL sign Int;
            DIV sign Int;
            REM sign Int;
            NEG sign Int;
            NOT sign Bool;
            EQ sign Bool;
            NE sign Bool;
            LT sign Bool;
            LE sign Bool;
            GT sign Bool;
            GE sign Bool;
            BEQ sign Bool;
            BNE sign Bool;
            TEQ sign Bool;
            TNE sign Bool;
            TLT sign Bool;
            CAT sign Text;
            AT sign Int;
            PUT sign Map;
            CUT sign Map;
            HAS call Bool;
            SIZE call Int;
            KEY call Int;
            LEN call Int;
            STR call Text;
            PART call Text;
            $($more)*
        }
    };
}

/// The operators and builtins of version 1 of the language.
#[tactic(auto, unfolding(crate::specs::Rows::wave_rows, crate::specs::Operators::operators))]
pub fn wave_ops() -> OpTable<28>
    ensures { result ≡ wave_rows }
{
    let rows = rows_and! {};
    OpTable { rows }
}

/// The operators and builtins of version 2 of the language: those of version 1, and six more builtins.
#[tactic(auto, unfolding(crate::specs::Rows::wave_rows_2, crate::specs::Operators::operators))]
pub fn wave_ops_2() -> OpTable<34>
    ensures { result ≡ wave_rows_2 }
{
    let rows = rows_and! {
        MIN call Int;
        MAX call Int;
        ABS call Int;
        SUM call Int;
        STARTS call Bool;
        NUM call Int;
    };
    OpTable { rows }
}
