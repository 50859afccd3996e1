//! Laws of the actors of a plan: each is the contract of a function that does nothing.

ghost use Rattle.std.specs.Prelude.{◌≡◌, ◌≢◌, ◌↔◌, ◌≤◌, ◌+◌, ◌^◌, ℕ, suc, length, sum_by, None};
ghost use Rattle.wave_base.specs.declared.finished.Finished.{Finished};
ghost use Rattle.wave_base.specs.declared.outcome.EventResult.{EventResult};
ghost use Rattle.wave_base.specs.declared.script.Line.{Line};
ghost use Rattle.wave_base.specs.declared.start.Start.{Start};
ghost use Rattle.wave_base.specs.Tree.{Tree};
ghost use Rattle.script_fold.specs.Lines.{FitsJob, line_by, most_jobs};
ghost use Rattle.script_fold.specs.Owed.{Owed};
ghost use Rattle.script_fold.specs.Runs.{after_jobs, whole_run, hosts_after, finished_of};
ghost use Rattle.service_code.specs.declared.program.Program.{Program};
ghost use Rattle.service_verify.specs.Fit.{IsFit};
ghost use Rattle.service_verify.specs.Points.{IsVerified};
ghost use Rattle.wave_states.specs.Alone.{run_alone, segments_of, fold_alone, job_after, places_alone};
ghost use Rattle.wave_states.specs.Owes.{Owes, IsBegin, IsPlan};
ghost use Rattle.wave_states.specs.Runs as runs;
ghost use Rattle.wave_states.specs.Work.{work_after};
ghost use Rattle.wave_theory.specs.Counted.{pass_count};
ghost use Rattle.wave_theory.specs.Drives.{Picks, HasDrive};
ghost use Rattle.code_actor.specs.CodeActors.{Fields};
ghost use Rattle.code_actor.specs.CodeActors as code;
ghost use Rattle.plan_actors.specs.Calls.{code_ran, IsTree, segments_on};
ghost use Rattle.plan_actors.specs.Efforts.{work_of, whole_work, least_labels, most_labels};
ghost use Rattle.plan_actors.specs.Finishing.{Tells};
ghost use Rattle.plan_actors.specs.PlanActors.{Actor, plan_actors, plan_kind};
ghost use Rattle.plan_actors.specs.Plans.{Plan, Fits, FitsStart, begin_in};
ghost use Rattle.plan_actors.specs.Runs.{OfRuns, OfWholeRuns};

use crate::actors::PlanActors;
use wave_theory::{complete, drives_end, label_bounds, loads, results, tickets};

/// A plan that fits is one that fits the machine, and a Start that fits it a beginning.
pub fn plans_begin()
    ensures { (plan : Plan) (start : Start) → Fits plan → FitsStart plan start → IsPlan (plan_kind plan.program plan.script.hosts) plan.workers plan.script.batches × IsBegin (plan_kind plan.program plan.script.hosts) (begin_in plan start) }
{}

/// The actors of a fit verified program owe all that the machine asks, however many hosts there are.
pub fn actors_owe()
    ensures { (program : Program) (hosts : ℕ) → IsFit program → IsVerified program → Owes (plan_kind program hosts) }
{}

/// Each job alone, whole, is what the line of a script does, in as many segments: a move enters what is there of its path, a
/// snapshot tells all contexts in path order.
pub fn jobs_are_lines()
    ensures runs { (program : Program) (ticket : ℕ) (tree : Tree Fields) (line : Line) → IsFit program → IsVerified program → IsTree program tree → FitsJob (code.IsJob program) line → run_alone (plan_actors program) ticket tree line ≡ line_by (code_ran program) ticket tree line }
    ensures segments { (program : Program) (ticket : ℕ) (tree : Tree Fields) (line : Line) → IsFit program → IsVerified program → IsTree program tree → FitsJob (code.IsJob program) line → segments_of (plan_actors program) ticket tree line ≡ segments_on program tree line }
{}

/// What stands for no result is no job's.
pub fn jobs_have_results()
    ensures { (program : Program) (ticket : ℕ) (tree : Tree Fields) (line : Line) → IsFit program → IsVerified program → IsTree program tree → FitsJob (code.IsJob program) line → (run_alone (plan_actors program) ticket tree line).result ≢ (plan_actors program).unended }
{}

/// The code of calls owes what a script's fold asks of one who runs calls.
pub fn code_owes()
    ensures { (program : Program) → IsFit program → IsVerified program → Owed program.shape (code_ran program) (IsTree program) (code.IsJob program) }
{}

/// The machine's fold of a plan is the script's fold by code: results, created jobs, tree, and the contexts entered; the tickets
/// count on from the Start's, and each context is on the same host.
pub fn folds_meet()
    ensures fold { (plan : Plan) (start : Start) (n : ℕ) → Fits plan → FitsStart plan start → fold_alone (plan_actors plan.program) (begin_in plan start) plan.script.batches n ≡ after_jobs (code_ran plan.program) plan.program.shape start plan.script n }
    ensures first { (plan : Plan) (start : Start) → FitsStart plan start → suc (begin_in plan start).before ≡ start.next.0 }
    ensures places { (plan : Plan) (start : Start) (n : ℕ) → Fits plan → FitsStart plan start → places_alone (plan_actors plan.program) (begin_in plan start) plan.script.batches n ≡ hosts_after start (after_jobs (code_ran plan.program) plan.program.shape start plan.script n) }
{}

/// It is over after as many jobs as the lines may make at most; and where it is over it is the script's whole run.
pub fn folds_end()
    ensures most { (plan : Plan) (start : Start) → Fits plan → FitsStart plan start → job_after (plan_actors plan.program) (begin_in plan start) plan.script.batches (most_jobs plan.script.batches) ≡ None }
    ensures whole { (plan : Plan) (start : Start) (n : ℕ) → Fits plan → FitsStart plan start → job_after (plan_actors plan.program) (begin_in plan start) plan.script.batches n ≡ None
        → fold_alone (plan_actors plan.program) (begin_in plan start) plan.script.batches n ≡ whole_run (code_ran plan.program) plan.program.shape start plan.script }
{}

/// The jobs that are known, and the lines that are still to come, have tickets of 32 bits.
pub fn tickets_fit()
    ensures { (plan : Plan) (start : Start) (n : ℕ) → Fits plan → FitsStart plan start → start.next.0 + length (fold_alone (plan_actors plan.program) (begin_in plan start) plan.script.batches n).head.known + sum_by length (fold_alone (plan_actors plan.program) (begin_in plan start) plan.script.batches n).head.later ≤ 2 ^ 32 }
{}

/// The machine's work numbers are those of the plan; T is the number of results, and E that of all contexts entered.
pub fn work_is()
    ensures same { (plan : Plan) (start : Start) (n : ℕ) → Fits plan → FitsStart plan start → work_after (plan_actors plan.program) (begin_in plan start) plan.script.batches n ≡ work_of plan start n }
    ensures tickets { (plan : Plan) (start : Start) → (whole_work plan start).tickets ≡ length (whole_run (code_ran plan.program) plan.program.shape start plan.script).results }
    ensures entered { (plan : Plan) (start : Start) → (whole_work plan start).entered ≡ sum_by length (whole_run (code_ran plan.program) plan.program.shape start plan.script).entered }
{}

/// What a finished state tells is exactly what the script gives with calls run by their code: results, tickets of created calls, names,
/// places, shots and loads.
pub fn finished_states_tell()
    ensures { OfWholeRuns (λ plan start labels s. (f : Finished) → Tells s start plan.script.batches f ↔ (f ≡ finished_of (code_ran plan.program) plan.program.shape start plan.script)) }
{
    complete::<PlanActors>();
    loads::<PlanActors>();
    results::<PlanActors>();
    tickets::<PlanActors>();
}

/// A run has at most 2T + 3S + 2E + E * M labels, and a finished one 2T + 3S + 2E besides its Passes.
pub fn runs_are_short()
    ensures most { OfRuns (λ plan start labels s. length labels ≤ most_labels plan start) }
    ensures finished { OfWholeRuns (λ plan start labels s. length labels ≡ least_labels plan start + pass_count labels) }
{
    label_bounds::<PlanActors>();
    complete::<PlanActors>();
    loads::<PlanActors>();
    results::<PlanActors>();
    tickets::<PlanActors>();
}

/// Each rule that picks has one drive from each number, which is a run and ends in a finished state.
pub fn plans_drive()
    ensures { (plan : Plan) (start : Start) → Fits plan → FitsStart plan start → (rule : runs.Rule Actor Fields EventResult Line) → Picks rule → (x : ℕ) → HasDrive (plan_kind plan.program plan.script.hosts) plan.workers (begin_in plan start) plan.script.batches rule x }
{
    drives_end::<PlanActors>();
}
