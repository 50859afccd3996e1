//! The tests of crates of values, code and the machine's parts, a module a crate: a crate with tests is proved twice, so theirs stand here,
//! above them. It has no code of its own.
#![tactic(auto)]

#[cfg(test)]
mod base;
#[cfg(test)]
mod cells;
#[cfg(test)]
mod commits;
#[cfg(test)]
mod heads;
#[cfg(test)]
mod hosts;
#[cfg(test)]
mod labels;
#[cfg(test)]
mod logs;
#[cfg(test)]
mod moves;
#[cfg(test)]
mod outputs;
#[cfg(test)]
mod paths;
#[cfg(test)]
mod policies;
#[cfg(test)]
mod queues;
#[cfg(test)]
mod trees;
#[cfg(test)]
mod values;
#[cfg(test)]
mod verifier;
#[cfg(test)]
mod views;
#[cfg(test)]
mod walks;
