//! Tests alone: plans of texts, run by one worker and by many, to the listing that is due.
#![tactic(auto)]

#[cfg(test)]
mod tests;
