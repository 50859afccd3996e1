// What a value has to say of itself to be kept.
ghost use Rattle.std.specs.Prelude.{ℕ, List};

/// A value with a history, which stands for a name.
/// The lock keeps the name for proofs alone, and lets the name's value go when it is made.
pub trait Kept {
    /// What the value stands for, as the plan that it carries out.
    type Name: Drop;

    /// One entry of the history.
    type Entry;

    // The history, oldest entry first.
    ghost history: { Self → List Self.Entry };

    // The number of the pass that made the entry.
    ghost owner: { Self.Entry → ℕ };

    // Whether the value with its history stands for the name.
    ghost stands: { Self → Self.Name → Type 0 };
}
