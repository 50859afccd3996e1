//! Laws of whole runs: each finished run of the machine ends where a serial run ends, which takes all labels of one ticket, and then
//! all of the next; at all actors, and at plans.
#![tactic(auto)]

mod laws;
mod plans;

pub use laws::{
    either_order, neighbours_change, oldest_is_serial, one_end, origins, owners_take,
    records_agree, serial,
};
pub use plans::{
    plans_are_serial, plans_change_neighbours, plans_come_in_order, plans_drive_serially,
    plans_end_in_one_state, plans_have_owners, plans_keep_records, plans_leave_trails,
    plans_take_either_order, tickets_have_origins,
};
