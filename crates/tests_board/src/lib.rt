//! Tests alone: boards by one worker and by two, to the end of a run, and stopped.
#![tactic(auto)]

#[cfg(test)]
mod tests;
