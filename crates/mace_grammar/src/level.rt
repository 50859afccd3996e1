//! The levels of operators between two operands.

ghost use Rattle.std.specs.Prelude.{◌≡◌, ◌+◌, nat_lt, IfSome, IfNone};
ghost use Rattle.mace_grammar.specs.Levels.{looser_ones, tighter_ones, levels_from, wanted_looser};

/// A level of operators, from the loosest: the operands of one have the operators of the next.
#[derive(Clone, Copy, PartialEq, Eq)]
pub enum Level {
    /// `||`
    Or,
    /// `&&`
    And,
    /// `==`, `!=`, `<`, `<=`, `>` and `>=`, which don't chain.
    Comparison,
    /// `+` and `-`
    Sum,
    /// `*`, `/` and `%`
    Product,
}

impl Level {
    /// The level of its operands, or none where they have no operator between two operands.
    pub fn tighter(self) -> Option<Level>
        ensures looser { wanted_looser result ≡ looser_ones self + 1 }
        ensures some { IfSome result (λ level. levels_from level ≡ tighter_ones self) }
        ensures none { IfNone result (tighter_ones self ≡ 0) }
    {
        match self {
            Level::Or => Some(Level::And),
            Level::And => Some(Level::Comparison),
            Level::Comparison => Some(Level::Sum),
            Level::Sum => Some(Level::Product),
            Level::Product => None,
        }
    }

    /// Whether it is looser than what is wanted: a level, or none.
    pub fn is_looser(self, level: Option<Level>) -> bool
        ensures { result ≡ nat_lt (looser_ones self) (wanted_looser level) }
    {
        match level {
            Some(level) => self.place() < level.place(),
            None => true,
        }
    }

    // Its place among the levels, from 0 on.
    fn place(self) -> u8
        ensures { result ≡ looser_ones self }
    {
        self as u8
    }
}
