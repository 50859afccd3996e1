//! What the machine keeps of one ticket: its event, what that holds, and its mails under way.
#![tactic(auto)]

mod cell;
mod held;
mod laws;
mod live;
mod outbox;
mod status;

pub use cell::{Cell, JobKind};
pub use held::Hold;
pub use laws::cells_stand;
pub use outbox::Envelope;
pub use status::Status;
