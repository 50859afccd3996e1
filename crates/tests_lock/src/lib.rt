//! The tests of the kept lock, over notes and over the counter of `lock_counter`: a crate with tests is proved twice, so they stand here, above
//! it. It has no code of its own.
#![tactic(auto)]

#[cfg(test)]
mod adding;
#[cfg(test)]
mod cross;
#[cfg(test)]
mod notes;
