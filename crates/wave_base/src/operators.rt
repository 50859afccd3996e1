//! How many operators there are, and their names.

ghost use Rattle.std.specs.Prelude.{◌≡◌, ◌<◌};
ghost use Rattle.wave_base.specs.Operators.{name_of_operator};

/// Operators and builtins of the language, of both its versions. Each has a number below this one: its row.
pub const OPERATORS: usize = 34;

/// The name of an operator's row, as the code listing shows it. The names of the builtins are those that a service calls.
pub fn operator_name(row: usize) -> &'static [u8]
    requires { row < OPERATORS }
    ensures { result.now ≡ name_of_operator row }
{
    match row {
        0 => b"add",
        1 => b"sub",
        2 => b"mul",
        3 => b"div",
        4 => b"rem",
        5 => b"neg",
        6 => b"not",
        7 => b"eq",
        8 => b"ne",
        9 => b"lt",
        10 => b"le",
        11 => b"gt",
        12 => b"ge",
        13 => b"beq",
        14 => b"bne",
        15 => b"teq",
        16 => b"tne",
        17 => b"tlt",
        18 => b"cat",
        19 => b"at",
        20 => b"put",
        21 => b"cut",
        22 => b"has",
        23 => b"size",
        24 => b"key",
        25 => b"len",
        26 => b"str",
        27 => b"part",
        28 => b"min",
        29 => b"max",
        30 => b"abs",
        31 => b"sum",
        32 => b"starts",
        _ => b"num",
    }
}
