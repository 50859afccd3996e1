//! The machine under the lock: a board keeps a machine, the journal of its labels, and the word that stops its workers.
#![tactic(auto)]

mod always;
mod board;
mod crew;
mod crewing;
mod giving;
mod holder;
mod known;
mod laws;
mod origin;
mod parcel;
mod parts;
mod reply;
mod returned;
mod seat;
mod showing;
mod taking;
mod trail;
mod turn;

pub use always::{boards_go_on, journals_are_short, workers_wait_for_segments};
pub use board::{Board, StopWord};
pub use crew::Crew;
pub use laws::{finished_stays, leases_stay, results_stay};
pub use origin::Origin;
pub use parcel::Parcel;
pub use reply::Reply;
pub use returned::Returned;
pub use seat::Seat;
pub use trail::{StopCause, Trail};
pub use turn::Turn;
