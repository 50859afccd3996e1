//! Paths and contexts as texts: `/` or `/Class[key]..`, and `at path field=value ..`.
#![tactic(auto)]

mod classes;
mod fields;
mod found;
mod parse;
mod put;
mod resolve;
mod written;

pub use classes::{ChildClasses, ClassNames};
pub use fields::fields_at;
pub use found::path_for;
pub use parse::{PathError, parse_path};
pub use put::{put_path, put_place, put_shot, write_path};
pub use resolve::resolve_steps;
pub use written::{Written, written_steps};
