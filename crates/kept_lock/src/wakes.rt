/// Whom a leave wakes of those who nap.
#[derive(Clone, Copy, PartialEq, Eq, Debug)]
pub enum Wakes {
    /// Nobody.
    Nobody,
    /// The pass of this number. Another may wake with it.
    One(u32),
    /// Each of them.
    All,
}
