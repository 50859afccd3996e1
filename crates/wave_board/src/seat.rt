/// Where a worker is.
#[derive(Clone, Copy, PartialEq, Eq, Debug)]
pub enum Seat {
    /// It has not come yet, or it has ended.
    Away,
    /// It will come again.
    Awake,
    /// It naps, or is about to, until it is woken.
    Napping,
}
