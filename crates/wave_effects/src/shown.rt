//! What is committed, as it is shown while the run goes on.

ghost use Rattle.std.specs.Prelude.{◌≡◌, ◌≤◌, ◌<◌, ◌+◌, ◌-◌, ℕ, IfOk, Some, length, min, slice_get};
ghost use Rattle.script_fold.specs.Runs.{finished_of};
ghost use Rattle.wave_base.specs.declared.start.Start.{Start};
ghost use Rattle.plan_actors.specs.Calls.{code_ran};
ghost use Rattle.wave_effects.specs.Machines.{Stands, TheState};
ghost use Rattle.wave_effects.specs.Showing.{IsLineOf};
ghost use Rattle.wave_effects.specs.inner.Lines.{IsKept};

use crate::always::machines_follow_the_fold;
use crate::engine::Engine;
use crate::kept::Settled;
use crate::known::heads_are_known;
use crate::makes::name_in;
use crate::settlements::Settlements;
use event_cells::JobKind;
use plan_actors::folds_end;
use std::alloc::Global;
use wave_base::{OutOfMemory, Seq, Shown};

impl<'p> Engine<'p> {
    ghost use Rattle.wave_effects.specs.Keeping.{kept_of};

    /// Copies of the committed tickets without the first `from`, at most so many.
    pub fn shown_lines(
        &self,
        alloc: Global,
        from: u32,
        most: usize,
    ) -> Result<Seq<Shown>, OutOfMemory>
        requires stands { (start : Start) × (s : TheState) × Stands (kept_of self.now) start s }
        requires from { from ≤ length self.now.settled.items }
        ensures count { IfOk result (λ xs. length xs ≡ min most (length self.now.settled.items - from)) }
        ensures lines { IfOk result (λ xs. (start : Start) (s : TheState) → Stands (kept_of self.now) start s → (i : ℕ) (x : Shown) → slice_get xs i ≡ Some x → IsLineOf (finished_of (code_ran self.now.plan.now.program) self.now.plan.now.program.shape start self.now.plan.now.script) (from + i) x) }
    {
        machines_follow_the_fold();
        heads_are_known();
        folds_end();
        let count = most.min(self.settled.len() - from as usize);
        let shown = copies(alloc, &self.settled, &self.kinds, from as usize, count)?;
        Ok(shown)
    }
}

// Copies of so many of them, from one on.
fn copies(
    alloc: Global,
    settled: &Settlements,
    kinds: &[JobKind],
    from: usize,
    count: usize,
) -> Result<Seq<Shown>, OutOfMemory>
    requires settled { from + count ≤ length settled.now.items }
    requires kinds { from + count ≤ length kinds.now }
    ensures count { IfOk result (λ xs. length xs ≡ count) }
    ensures each { IfOk result (λ xs. (i : ℕ) (x : Shown) → slice_get xs i ≡ Some x → IsKept settled.now.items kinds.now (from + i) x) }
{
    let mut shown = Vec::new(alloc);
    for i in 0..count {
        let x = one(alloc, settled, kinds, from + i)?;
        shown.push(x)?;
    }
    Ok(Seq::from_vec(shown))
}

// A copy of one.
fn one(
    alloc: Global,
    settled: &Settlements,
    kinds: &[JobKind],
    i: usize,
) -> Result<Shown, OutOfMemory>
    requires settled { i < length settled.now.items }
    requires kinds { i < length kinds.now }
    ensures { IfOk result (λ x. IsKept settled.now.items kinds.now i x) }
{
    let Settled { result, made } = settled.copy(alloc, i)?;
    Ok(Shown {
        name: name_in(kinds[i]),
        result,
        made,
    })
}
