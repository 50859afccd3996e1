//! The one who runs a script's calls as the language means them.

use context_tree::Tree;
use resolved_service::Resolved;
use script_fold::Runner;
use service_eval::run_event;
use std::alloc::Global;
use wave_base::{Call, EventResult, OutOfMemory, Path, Shape};

/// Runs the calls of a service's events, each whole, on the tree that it is given.
#[derive(Clone, Copy)]
pub struct Evaluator<'s> {
    /// What the service declares.
    pub shape: &'s Shape,
    /// Its methods and events, with each name resolved.
    pub service: &'s Resolved,
}

impl<'s> Runner for Evaluator<'s> {
    ghost use Rattle.service_eval.specs.Worlds.{Holds};
    ghost use Rattle.meaning_laws.specs.Kept.{IsEarly};
    ghost use Rattle.wave_meaning.specs.Meaning.{call_ran, IsFit};
    ghost use Rattle.wave_meaning.specs.inner.Owing.{evaluator_owes};

    ghost shape = { λ e. e.shape.now };

    ghost meaning = { λ e. call_ran e.service.now };

    ghost sound = { λ e. IsFit e.shape.now e.service.now };

    ghost fits_tree = { λ e. Holds e.shape.now };

    ghost fits_call = { λ _. IsEarly };

    fn run(
        &self,
        alloc: Global,
        contexts: &mut Tree,
        call: &Call,
    ) -> Result<(EventResult, Vec<Path>), OutOfMemory> {
        let ran = run_event(alloc, self.shape, self.service, contexts, call)?;
        Ok((ran.result, ran.entered.into_vec()))
    }

    ghost owed = { λ e. evaluator_owes e.shape.now e.service.now };
}
