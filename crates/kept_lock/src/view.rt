// What a pass knows. It stands in contracts and proofs alone: no value of these types is made.
use std::collections::LinkedList;

/// What contracts see of a pass.
pub struct Known<E> {
    /// The pass's number, which no other pass of the lock has. The first pass has 0.
    pub number: u64,
    /// The history, as far as the pass has seen it.
    pub seen: LinkedList<E>,
    /// The entries that the pass made, in order.
    pub made: LinkedList<E>,
    /// How many passes were made so far, the first among them. Only the first pass counts; the others have 0.
    pub passes: u64,
    /// The passes that were joined to this one, and those that had been joined to them.
    pub accounts: LinkedList<Account<E>>,
}

/// A pass that was joined to another.
pub struct Account<E> {
    /// Its number.
    pub number: u64,
    /// All entries that it made, in order.
    pub made: LinkedList<E>,
}

/// Where a pass is.
pub enum Place {
    /// The pass is not inside, and may enter.
    Outside,
    /// The value is out with the pass.
    Inside,
    /// The pass closes the lock, and the value stays in its place.
    Closing,
}

/// What the rule of the table sees of a pass.
pub struct View<N, E> {
    /// The lock's name; none once the pass is joined to another.
    pub name: Option<N>,
    /// Where it is.
    pub place: Place,
    /// What a pass that was joined to this one had seen, until the next look.
    pub told: LinkedList<E>,
    /// What its holder knows.
    pub known: Known<E>,
}
