//! Two kinds of actors without events: movers and walkers.

ghost use Rattle.std.specs.Prelude.{ℕ, List};
ghost use Rattle.wave_base.specs.declared.path.Path.{Path};
ghost use Rattle.wave_states.specs.Movers.{Move, Mover, MoveEnd};
ghost use Rattle.wave_states.specs.Walkers.{Walker};
ghost use Rattle.wave_states.proofs.Moving.{movers_owe};
ghost use Rattle.wave_states.proofs.Walking.{walkers_owe};
ghost use Rattle.wave_theory.specs.Movers.{Setting, Fits, movers_in, walkers_in};

use crate::acting::Acting;

/// Moves of contexts from host to host.
pub struct Movers;

impl Acting for Movers {
    ghost Code = { Setting };

    ghost Actor = { Mover };

    ghost Fields = { ℕ };

    ghost Outcome = { MoveEnd };

    ghost Job = { Move };

    ghost kind = { movers_in };

    ghost owed = { λ c. movers_owe c.initial c.hosts Fits (λ p. tt) };
}

/// Walks through all contexts.
pub struct Walkers;

impl Acting for Walkers {
    ghost Code = { Setting };

    ghost Actor = { Walker ℕ };

    ghost Fields = { ℕ };

    ghost Outcome = { List (Path × ℕ) };

    ghost Job = { Unit {0} };

    ghost kind = { walkers_in };

    ghost owed = { λ c. walkers_owe c.initial c.hosts Fits (λ p. tt) };
}
