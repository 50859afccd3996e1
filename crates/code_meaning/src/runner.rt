//! The one who runs a script's calls by the code of their service.

use code_runner::run_call;
use context_tree::Tree;
use resolved_service::Resolved;
use script_fold::Runner;
use service_verify::Verified;
use std::alloc::Global;
use wave_base::{Call, EventResult, OutOfMemory, Path};

/// Runs the calls of a service's events by its code, each whole, on the tree that it is given.
#[derive(Clone, Copy)]
pub struct CodeRunner<'p> {
    /// The verified code that runs.
    pub program: &'p Verified,
    /// The service whose code it is. It is there for contracts alone.
    pub service: &'p Resolved,
}

impl<'p> Runner for CodeRunner<'p> {
    ghost use Rattle.code_runner.specs.Coded.{IsCode, IsTree, IsJob};
    ghost use Rattle.code_meaning.specs.inner.Owing.{code_owes};
    ghost use Rattle.wave_meaning.specs.Meaning.{call_ran};

    ghost shape = { λ r. r.program.now.shape };

    ghost meaning = { λ r. call_ran r.service.now };

    ghost sound = { λ r. IsCode r.service.now r.program.now };

    ghost fits_tree = { λ r. IsTree r.program.now.shape };

    ghost fits_call = { λ r. IsJob r.program.now };

    fn run(
        &self,
        alloc: Global,
        contexts: &mut Tree,
        call: &Call,
    ) -> Result<(EventResult, Vec<Path>), OutOfMemory> {
        let ran = run_call(alloc, self.program, contexts, call)?;
        Ok((ran.result, ran.entered.into_vec()))
    }

    ghost owed = { λ r. code_owes r.service.now r.program.now };
}
