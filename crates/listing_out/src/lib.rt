//! The listing of a run, as bytes and onto a sink.
#![tactic(auto)]

mod law;
mod line_texts;
mod lines;
mod whole;
mod write;

pub use law::parts_make_a_listing;
pub use whole::listing;
pub use write::{
    ListError, write_end, write_lines, write_listing, write_listing_at, write_results,
};
