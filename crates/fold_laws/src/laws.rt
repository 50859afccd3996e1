//! Laws of folds: each is the contract of a function that does nothing.

ghost use Rattle.std.specs.Prelude.{◌≡◌, ◌≤◌, ◌<◌, ◌+◌, ◌*◌, ◌^◌, ℕ, List, length, sum_by, Some};
ghost use Rattle.wave_base.specs.declared.limits.TheConstants.{CLASS_DEPTH, CONTEXTS, SAVED_TICKET, TICKS};
ghost use Rattle.wave_base.specs.declared.call.Call.{Call};
ghost use Rattle.wave_base.specs.declared.value.Value.{Value};
ghost use Rattle.wave_base.specs.declared.finished.Finished.{Finished};
ghost use Rattle.wave_base.specs.declared.outcome.EventResult.{EventResult};
ghost use Rattle.wave_base.specs.declared.script.Line.{Line};
ghost use Rattle.wave_base.specs.declared.script.Script.{Script};
ghost use Rattle.wave_base.specs.declared.shape.Shape.{Shape};
ghost use Rattle.wave_base.specs.declared.start.Start.{Start};
ghost use Rattle.wave_base.specs.Scripts.{IsScript};
ghost use Rattle.wave_base.specs.Starts.{IsStart, first_start};
ghost use Rattle.wave_base.specs.Tree.{Tree};
ghost use Rattle.script_fold.specs.Lines.{most_jobs};
ghost use Rattle.script_fold.specs.Owed.{KeepsShape};
ghost use Rattle.script_fold.specs.Runs.{finished_of, start_after, IsFew};
ghost use Rattle.service_code.specs.declared.program.Program.{Program};
ghost use Rattle.service_verify.specs.Fit.{IsFit};
ghost use Rattle.service_verify.specs.Points.{IsVerified};
ghost use Rattle.service_verify.specs.Tours.{code_tour};
ghost use Rattle.wave_states.specs.Alone.{job_after};
ghost use Rattle.wave_states.specs.Begins.{start_state};
ghost use Rattle.wave_states.specs.Labels.{Label};
ghost use Rattle.wave_states.specs.Runs.{run};
ghost use Rattle.wave_states.specs.States.{State};
ghost use Rattle.wave_theory.specs.Sent.{shares};
ghost use Rattle.code_actor.specs.CodeActors.{Fields};
ghost use Rattle.plan_actors.specs.Calls.{code_ran};
ghost use Rattle.plan_actors.specs.PlanActors.{Actor, plan_actors, plan_kind};
ghost use Rattle.plan_actors.specs.Plans.{Plan, Fits, FitsStart, begin_in};
ghost use Rattle.fold_laws.specs.Cuts.{both, start_behind, Comes, IsCut};
ghost use Rattle.fold_laws.specs.Growth.{most_contexts, GrowsBy, StaysFew};
ghost use Rattle.fold_laws.specs.Mails.{HaveNumbers};

use script_fold::Runner;

/// A call enters at most 256 contexts, whatever its code; it adds no more to the tree than it enters; and it has at most two
/// segments for each tick, one for each level of classes, and one more.
pub fn calls_enter_few()
    ensures entered { (program : Program) (call : Call) (tree : Tree (List Value)) → length (code_tour program call tree).entered ≤ CONTEXTS }
    ensures contexts { (program : Program) (call : Call) (tree : Tree (List Value)) → length (code_tour program call tree).tree.paths ≤ length tree.paths + length (code_tour program call tree).entered }
    ensures segments { (program : Program) (call : Call) (tree : Tree (List Value)) → (code_tour program call tree).segments ≤ 2 * TICKS + CLASS_DEPTH + 1 }
{}

/// A line makes at most 341 jobs, and adds at most 256 contexts for each of them.
pub fn lines_are_few()
    ensures jobs { (batches : List (List Line)) → most_jobs batches ≤ sum_by length batches * 341 }
    ensures contexts { (batches : List (List Line)) → most_contexts batches ≤ sum_by length batches * 87296 }
{}

/// So a script that fits makes at most 1,364,000 jobs, which add at most 349,184,000 contexts. What it leaves that began with the root
/// alone is few enough for a Start, and for one that is saved.
pub fn scripts_are_few()
    ensures jobs { (shape : Shape) (script : Script) → IsScript shape script → most_jobs script.batches ≤ 1364000 }
    ensures contexts { (shape : Shape) (script : Script) → IsScript shape script → most_contexts script.batches ≤ 349184000 }
    ensures saved { (shape : Shape) (script : Script) (f : Finished) → IsScript shape script → StaysFew (first_start shape) script.batches f → IsFew (start_after (first_start shape) f) × ((start_after (first_start shape) f).next.0 ≤ SAVED_TICKET) }
{}

/// Where each call adds at most as many contexts as one call enters, a run leaves at most as many as there were and its lines may
/// add, and has at most as many results as they may make jobs.
pub fn runs_stay_few<R: Runner>(runner: &R)
    requires sound { R.sound runner.now }
    requires grows { GrowsBy (R.meaning runner.now) (R.fits_tree runner.now) (R.fits_call runner.now) }
    ensures { (start : Start) (script : Script) → IsScript (R.shape runner.now) script → IsStart (R.shape runner.now) script.hosts start
        → StaysFew start script.batches (finished_of (R.meaning runner.now) (R.shape runner.now) start script) }
{}

/// A run of a plan stays few: its calls run their code.
pub fn plans_stay_few()
    ensures { (plan : Plan) (start : Start) → Fits plan → FitsStart plan start → StaysFew start plan.script.batches (finished_of (code_ran plan.program) plan.program.shape start plan.script) }
{}

/// The segments of a job of a plan, and the contexts that it enters, are together so few that a mail for each of them, and one more,
/// have numbers of 32 bits.
pub fn jobs_send_few()
    ensures { (plan : Plan) (start : Start) (index : ℕ) (job : Line) → Fits plan → FitsStart plan start → job_after (plan_actors plan.program) (begin_in plan start) plan.script.batches index ≡ Some job
        → shares (plan_kind plan.program plan.script.hosts) (begin_in plan start) plan.script.batches index job + 1 < 2 ^ 32 }
{}

/// So in each state to which labels lead each event has numbers for the mails that it sent, and for all that one segment more may
/// send: one by which it goes on, and a Release for each context that it holds.
pub fn events_send_few()
    ensures { (plan : Plan) (start : Start) → Fits plan → FitsStart plan start → (labels : List Label) (s : State Actor Fields EventResult Line) → run (plan_actors plan.program) plan.workers (start_state (begin_in plan start) plan.script.batches) labels ≡ Some s → HaveNumbers s }
{}

/// Where calls keep the shape of a tree, a run is cut where a script ends: that of a script and another behind it is the run of the
/// one, and then of the other from what the one leaves. This goes on from script to script: both together may have any number of
/// lines, as long as what they leave is few enough for a Start.
pub fn runs_are_cut<R: Runner>(runner: &R)
    requires sound { R.sound runner.now }
    requires keeps { KeepsShape (R.shape runner.now) (R.meaning runner.now) (R.fits_tree runner.now) (R.fits_call runner.now) }
    ensures first { (start : Start) (a : Script) → IsScript (R.shape runner.now) a → IsStart (R.shape runner.now) a.hosts start → IsFew (start_behind (R.meaning runner.now) (R.shape runner.now) start a)
        → Comes (R.meaning runner.now) (R.shape runner.now) start a }
    ensures cut { (start : Start) (a b : Script) → Comes (R.meaning runner.now) (R.shape runner.now) start a → IsScript (R.shape runner.now) b → a.hosts ≡ b.hosts
        → IsCut (R.meaning runner.now) (R.shape runner.now) start a b }
    ensures more { (start : Start) (a b : Script) → Comes (R.meaning runner.now) (R.shape runner.now) start a → IsScript (R.shape runner.now) b → a.hosts ≡ b.hosts → IsFew (start_behind (R.meaning runner.now) (R.shape runner.now) start (both a b))
        → Comes (R.meaning runner.now) (R.shape runner.now) start (both a b) }
{}

/// And where each call adds few contexts besides, both together stay few.
pub fn cut_runs_stay_few<R: Runner>(runner: &R)
    requires sound { R.sound runner.now }
    requires keeps { KeepsShape (R.shape runner.now) (R.meaning runner.now) (R.fits_tree runner.now) (R.fits_call runner.now) }
    requires grows { GrowsBy (R.meaning runner.now) (R.fits_tree runner.now) (R.fits_call runner.now) }
    ensures { (start : Start) (a b : Script) → Comes (R.meaning runner.now) (R.shape runner.now) start a → IsScript (R.shape runner.now) b → a.hosts ≡ b.hosts
        → StaysFew start a.batches (finished_of (R.meaning runner.now) (R.shape runner.now) start a)
        → StaysFew start (both a b).batches (finished_of (R.meaning runner.now) (R.shape runner.now) start (both a b)) }
{}

/// Scripts of a fit verified program, whose calls run their code, are cut so, and stay few.
pub fn code_runs_are_cut()
    ensures first { (program : Program) (start : Start) (a : Script) → IsFit program → IsVerified program → IsScript program.shape a → IsStart program.shape a.hosts start → IsFew (start_behind (code_ran program) program.shape start a)
        → Comes (code_ran program) program.shape start a }
    ensures cut { (program : Program) (start : Start) (a b : Script) → IsFit program → IsVerified program → Comes (code_ran program) program.shape start a → IsScript program.shape b → a.hosts ≡ b.hosts
        → IsCut (code_ran program) program.shape start a b }
    ensures more { (program : Program) (start : Start) (a b : Script) → IsFit program → IsVerified program → Comes (code_ran program) program.shape start a → IsScript program.shape b → a.hosts ≡ b.hosts → IsFew (start_behind (code_ran program) program.shape start (both a b))
        → Comes (code_ran program) program.shape start (both a b) }
    ensures few { (program : Program) (start : Start) (a b : Script) → IsFit program → IsVerified program → Comes (code_ran program) program.shape start a → IsScript program.shape b → a.hosts ≡ b.hosts
        → StaysFew start a.batches (finished_of (code_ran program) program.shape start a) → StaysFew start (both a b).batches (finished_of (code_ran program) program.shape start (both a b)) }
{}
