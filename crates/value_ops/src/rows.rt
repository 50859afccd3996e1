//! The rows of the operator table by name. Ints are `a` and `b`, truth values `p` and `q`, texts `s` and `t`, and `m` is
//! a map. The rows from `MIN` on are builtins of version 2 of the language alone.

/// `a + b`
pub const ADD: usize = 0;
/// `a - b`
pub const SUB: usize = 1;
/// `a * b`
pub const MUL: usize = 2;
/// `a / b`
pub const DIV: usize = 3;
/// `a % b`
pub const REM: usize = 4;
/// `-a`
pub const NEG: usize = 5;
/// `!p`
pub const NOT: usize = 6;
/// `a == b`
pub const EQ: usize = 7;
/// `a != b`
pub const NE: usize = 8;
/// `a < b`
pub const LT: usize = 9;
/// `a <= b`
pub const LE: usize = 10;
/// `a > b`
pub const GT: usize = 11;
/// `a >= b`
pub const GE: usize = 12;
/// `p == q`
pub const BEQ: usize = 13;
/// `p != q`
pub const BNE: usize = 14;
/// `s == t`
pub const TEQ: usize = 15;
/// `s != t`
pub const TNE: usize = 16;
/// `s < t`
pub const TLT: usize = 17;
/// `s + t`
pub const CAT: usize = 18;
/// `m[a]`
pub const AT: usize = 19;
/// The statement `m[a] = b;`
pub const PUT: usize = 20;
/// The statement `drop m[a];`
pub const CUT: usize = 21;
/// `has(m, a)`
pub const HAS: usize = 22;
/// `size(m)`
pub const SIZE: usize = 23;
/// `key(m, a)`
pub const KEY: usize = 24;
/// `len(t)`
pub const LEN: usize = 25;
/// `str(a)`
pub const STR: usize = 26;
/// `part(t, a, b)`
pub const PART: usize = 27;
/// `min(a, b)`
pub const MIN: usize = 28;
/// `max(a, b)`
pub const MAX: usize = 29;
/// `abs(a)`
pub const ABS: usize = 30;
/// `sum(m)`
pub const SUM: usize = 31;
/// `starts(s, t)`
pub const STARTS: usize = 32;
/// `num(t)`
pub const NUM: usize = 33;
