//! The machine as definitions, over any actors: its state, its labels, runs and drives, one event alone, and two kinds of actors,
//! movers and walkers.
#![tactic(auto)]

ghost use Rattle.std.specs.Prelude.{◌≡◌};

/// There is nothing to call here: what this crate gives stands in `specs/`.
pub fn nothing() {}
