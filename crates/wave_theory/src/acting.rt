//! The kind of actors that the laws of the machine are proved for.

ghost use Rattle.wave_states.specs.Kinds.{Kind};
ghost use Rattle.wave_states.specs.Owes.{Owes};

/// A kind of actors for each code that they may run, and what they owe.
pub trait Acting {
    ghost Code: { Type 0 };

    ghost Actor: { Type 0 };

    ghost Fields: { Type 0 };

    ghost Outcome: { Type 0 };

    ghost Job: { Type 0 };

    /// The actors that run a code, and what fits them.
    ghost kind: { Code → Kind Actor Fields Outcome Job };

    /// What they owe.
    ghost owed: { (c : Code) → Owes (kind c) };
}
