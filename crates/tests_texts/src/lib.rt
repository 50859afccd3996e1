//! The tests of crates that cut, read and write texts, a module a crate: a crate with tests is proved twice, so theirs stand here, above
//! them. It has no code of its own.
#![tactic(auto)]

#[cfg(test)]
mod checkpoints;
#[cfg(test)]
mod commands;
#[cfg(test)]
mod elastics;
#[cfg(test)]
mod held;
#[cfg(test)]
mod inputs;
#[cfg(test)]
mod journals;
#[cfg(test)]
mod lexer;
#[cfg(test)]
mod listing;
#[cfg(test)]
mod listings;
#[cfg(test)]
mod loads;
#[cfg(test)]
mod nodes;
#[cfg(test)]
mod notes;
#[cfg(test)]
mod paths;
#[cfg(test)]
mod same;
#[cfg(test)]
mod scripts;
#[cfg(test)]
mod services;
#[cfg(test)]
mod shapes;
#[cfg(test)]
mod snapshots;
#[cfg(test)]
mod stages;
#[cfg(test)]
mod streams;
#[cfg(test)]
mod tables;
#[cfg(test)]
mod words;
