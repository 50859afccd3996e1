//! Laws of plans whose program is the code of a service: each is the contract of a function that does nothing.

ghost use Rattle.std.specs.Prelude.{◌≡◌, ◌≤◌, ◌-◌, ◌^◌, ◌↔◌, List, length, suc};
ghost use Rattle.wave_base.specs.declared.call.Call.{Call};
ghost use Rattle.wave_base.specs.declared.finished.Finished.{Finished};
ghost use Rattle.wave_base.specs.declared.script.Script.{Script};
ghost use Rattle.wave_base.specs.declared.start.Start.{Start};
ghost use Rattle.wave_base.specs.Scripts.{IsScript};
ghost use Rattle.wave_base.specs.Starts.{IsStart};
ghost use Rattle.wave_base.specs.Tree.{Tree};
ghost use Rattle.resolved_service.specs.declared.service.Resolved.{Resolved};
ghost use Rattle.resolved_service.specs.Jobs.{call_meaning};
ghost use Rattle.fold_laws.specs.Cuts.{both, start_behind, Comes, IsCut};
ghost use Rattle.fold_laws.specs.Growth.{StaysFew};
ghost use Rattle.script_fold.specs.Runs.{finished_of, IsFew};
ghost use Rattle.service_code.specs.declared.program.Program.{Program};
ghost use Rattle.service_verify.specs.Tours.{code_tour};
ghost use Rattle.wave_meaning.specs.Meaning.{call_ran, results_at, IsWholeAt};
ghost use Rattle.wave_states.specs.Labels.{Label};
ghost use Rattle.code_actor.specs.CodeActors.{Fields};
ghost use Rattle.code_runner.specs.Coded.{IsCode, IsTree, IsJob};
ghost use Rattle.plan_actors.specs.Calls.{code_ran};
ghost use Rattle.plan_actors.specs.Finishing.{Tells};
ghost use Rattle.plan_actors.specs.Plans.{Plan, Fits, FitsStart};
ghost use Rattle.plan_actors.specs.Runs.{IsOver, IsRunTo, PlanState};

use plan_actors::finished_states_tell;

/// What a call does by its code is what the service says, in one segment more than its changes of place.
pub fn calls_mean()
    ensures same { (service : Resolved) (program : Program) (tree : Tree Fields) (call : Call) → IsCode service program → IsTree program.shape tree → IsJob program call → code_ran program tree call ≡ call_ran service tree call }
    ensures segments { (service : Resolved) (program : Program) (tree : Tree Fields) (call : Call) → IsCode service program → IsTree program.shape tree → IsJob program call → (code_tour program call tree).segments ≡ suc (call_meaning service tree call).changes }
{}

/// What a script gives with calls run by their code is what it means for the service.
pub fn plans_mean()
    ensures { (service : Resolved) (program : Program) (start : Start) (script : Script) → IsCode service program → IsStart program.shape script.hosts start → IsScript program.shape script → finished_of (code_ran program) program.shape start script ≡ results_at program.shape service start script }
{}

/// It comes to its end, and there is a ticket for each of its results.
pub fn plans_end()
    ensures over { (service : Resolved) (program : Program) (start : Start) (script : Script) → IsCode service program → IsStart program.shape script.hosts start → IsScript program.shape script → IsWholeAt program.shape service start script }
    ensures few { (service : Resolved) (program : Program) (start : Start) (script : Script) → IsCode service program → IsStart program.shape script.hosts start → IsScript program.shape script → length (results_at program.shape service start script).results ≤ 2 ^ 32 - 1 }
{}

/// What a finished state of the machine tells is exactly what the script means for the service.
pub fn finished_states_mean()
    ensures { (service : Resolved) (plan : Plan) (start : Start) → IsCode service plan.program → Fits plan → FitsStart plan start → (labels : List Label) (s : PlanState) → IsRunTo plan start labels s → IsOver plan s
        → (f : Finished) → Tells s start plan.script.batches f ↔ (f ≡ results_at plan.program.shape service start plan.script) }
{
    finished_states_tell();
}

/// What a script of a service gives is cut where the script ends: a script and another behind it give what the one gives, and then what
/// the other gives from what the one leaves. This goes on from script to script, however many lines they have together.
pub fn scripts_are_cut()
    ensures first { (service : Resolved) (program : Program) (start : Start) (a : Script) → IsCode service program → IsScript program.shape a → IsStart program.shape a.hosts start → IsFew (start_behind (call_ran service) program.shape start a)
        → Comes (call_ran service) program.shape start a }
    ensures cut { (service : Resolved) (program : Program) (start : Start) (a b : Script) → IsCode service program → Comes (call_ran service) program.shape start a → IsScript program.shape b → a.hosts ≡ b.hosts
        → IsCut (call_ran service) program.shape start a b }
    ensures more { (service : Resolved) (program : Program) (start : Start) (a b : Script) → IsCode service program → Comes (call_ran service) program.shape start a → IsScript program.shape b → a.hosts ≡ b.hosts
        → IsFew (start_behind (call_ran service) program.shape start (both a b)) → Comes (call_ran service) program.shape start (both a b) }
{}

/// It leaves few contexts, and takes few tickets; and so do scripts one behind the other.
pub fn scripts_stay_few()
    ensures one { (service : Resolved) (program : Program) (start : Start) (a : Script) → IsCode service program → IsScript program.shape a → IsStart program.shape a.hosts start
        → StaysFew start a.batches (results_at program.shape service start a) }
    ensures both { (service : Resolved) (program : Program) (start : Start) (a b : Script) → IsCode service program → Comes (call_ran service) program.shape start a → IsScript program.shape b → a.hosts ≡ b.hosts
        → StaysFew start a.batches (results_at program.shape service start a) → StaysFew start (both a b).batches (results_at program.shape service start (both a b)) }
{}
