//! Operators and builtins, by name and by operands.

ghost use Rattle.std.specs.Prelude.{◌≡◌, ◌≤◌, All, take, find, IfSome};
ghost use Rattle.value_ops.specs.Operators.{takes_of, gives_of};
ghost use Rattle.value_ops.specs.Rows.{wave_rows, wave_rows_2, first_builtin};
ghost use Rattle.type_rules.specs.Kinds.{takes_kinds};
ghost use Rattle.type_tables.specs.Rows.{IsRow, operands, front, fits};

use crate::kinds::has_kind;
use value_ops::{OpTable, find, wave_ops, wave_ops_2};
use wave_base::Kind;

/// The operators and builtins of the language: those of version 2, and those of version 1 by their names.
#[derive(Drop)]
pub struct Operators {
    table: OpTable<34>,
    first: OpTable<28>,
    ghost wave: { table ≡ wave_rows_2 },
    ghost before: { first ≡ wave_rows },
}

impl Operators {
    /// The tables of the language.
    pub fn new() -> Operators {
        Operators {
            table: wave_ops_2(),
            first: wave_ops(),
        }
    }

    /// The row of the builtin of a name in version 1.
    pub fn builtin(&self, name: &[u8]) -> Option<u16>
        ensures found { result ≡ first_builtin wave_rows name.now }
        ensures within { IfSome result IsRow }
    {
        match find(&self.first, name) {
            None => None,
            Some(row) => Some(row as u16),
        }
    }

    /// The row of the builtin of a name in version 2.
    pub fn builtin_2(&self, name: &[u8]) -> Option<u16>
        ensures found { result ≡ first_builtin wave_rows_2 name.now }
        ensures within { IfSome result IsRow }
    {
        match find(&self.table, name) {
            None => None,
            Some(row) => Some(row as u16),
        }
    }

    /// The kind that a row gives.
    pub fn gives(&self, row: u16) -> Kind
        requires { IsRow row }
        ensures { result ≡ gives_of row }
    {
        self.table.row(row as usize).gives
    }

    /// The kinds that a row takes: the first ones of three.
    pub fn takes(&self, row: u16) -> ([Kind; 3], usize)
        requires { IsRow row }
        ensures kinds { take result.1 result.0 ≡ takes_of row }
        ensures within { result.1 ≤ 3 }
    {
        let takes = self.table.row(row as usize).takes;
        first_ones(takes[0], takes[1], takes[2])
    }

    /// The first of these rows that takes these operands: one, and maybe another one.
    pub fn first(&self, rows: &[u16], a: Kind, b: Option<Kind>) -> Option<u16>
        requires { All IsRow rows.now }
        ensures found { result ≡ find (takes_kinds (operands a b)) rows.now }
        ensures within { IfSome result IsRow }
    {
        for row in rows {
            if self.takes_operands(*row, a, b) {
                return Some(*row);
            }
        }
        None
    }

    fn takes_operands(&self, row: u16, a: Kind, b: Option<Kind>) -> bool
        requires { IsRow row }
        ensures { result ≡ takes_kinds (operands a b) row }
    {
        let takes = self.table.row(row as usize).takes;
        if !has_kind(takes[0], a) {
            return false;
        }
        if !is_operand(takes[1], b) {
            return false;
        }
        takes[2].is_none()
    }
}

// Whether there is such an operand, or there is none on either side.
fn is_operand(takes: Option<Kind>, given: Option<Kind>) -> bool
    ensures { result ≡ fits takes given }
{
    match given {
        None => takes.is_none(),
        Some(given) => has_kind(takes, given),
    }
}

// The kinds that are there, before those that are not.
fn first_ones(a: Option<Kind>, b: Option<Kind>, c: Option<Kind>) -> ([Kind; 3], usize)
    ensures kinds { take result.1 result.0 ≡ front a b c }
    ensures within { result.1 ≤ 3 }
{
    match (a, b, c) {
        (Some(a), Some(b), Some(c)) => ([a, b, c], 3),
        (Some(a), Some(b), None) => ([a, b, b], 2),
        (Some(a), None, _) => ([a, a, a], 1),
        (None, _, _) => ([Kind::Int, Kind::Int, Kind::Int], 0),
    }
}
