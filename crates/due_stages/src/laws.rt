//! Laws of what is due for scripts with policies: each is the contract of a function that does nothing.

ghost use Rattle.std.specs.Prelude.{◌≡◌, ◌↔◌, ◌++◌, ℕ, Bool, false, List, [], take, Ok, Some, None};
ghost use Rattle.wave_base.specs.declared.script.Script.{Script};
ghost use Rattle.wave_base.specs.declared.shape.Shape.{Shape};
ghost use Rattle.resolved_service.specs.declared.service.Resolved.{Resolved};
ghost use Rattle.service_code.specs.declared.program.Program.{Program};
ghost use Rattle.script_reader.specs.declared.elastic.Elastic.{Elastic};
ghost use Rattle.script_reader.specs.Judged.{nothing_earlier};
ghost use Rattle.script_reader.specs.Scripts.{IsScriptOf};
ghost use Rattle.command_words.specs.declared.command.Places.{Places};
ghost use Rattle.elastic_policy.specs.Stages.{Staged, piece_of};
ghost use Rattle.due_parts.specs.declared.answer.Answer.{Answer};
ghost use Rattle.due_parts.specs.declared.report.Report.{Report};
ghost use Rattle.due_parts.specs.declared.telling.Telling.{Telling};
ghost use Rattle.due_parts.specs.Scripts.{IsDueScripted};
ghost use Rattle.due_stages.specs.declared.work.StagedWork.{StagedWork};
ghost use Rattle.due_stages.specs.Accepted.{CanStage};
ghost use Rattle.due_stages.specs.Elastic.{IsDueElastic};
ghost use Rattle.due_stages.specs.Listed.{IsFrontListed, IsListedTo, IsPieceListed, IsWholeListed, events_from, ran_by};
ghost use Rattle.due_stages.specs.Plain.{HasNoPolicy, HasPlainScript};

use elastic_meaning::{pieces_are_fronts, pieces_go_on, plain_scripts_expand_to_themselves};

/// A script no line of which is a policy is due just what it is due where policies are unknown, whether it is run or refused. What can be run where
/// they are unknown is such a script.
pub fn plain_scripts_are_due_the_same()
    ensures same { (places : Places) (bytes : List ℕ) (due : Answer) → HasPlainScript bytes → IsDueElastic places bytes due ↔ IsDueScripted (Telling.Reports (Report.Listing places)) bytes due }
    ensures plain { (shape : Shape) (text : List ℕ) (script : Script) → IsScriptOf shape nothing_earlier text (Ok script) → HasNoPolicy text }
{
    plain_scripts_expand_to_themselves();
}

/// A script with policies is listed piece by piece. Before the first piece nothing is; where a piece is left it may be run, and the lines of its
/// events come behind those before; what is listed so far is a front of what is due, also within a piece; and where no piece is left, what ends the
/// listing makes it what is due, whose status tells whether a piece trapped.
pub fn pieces_are_listed()
    ensures first { (elastic : Elastic) (work : StagedWork) → CanStage elastic work → IsListedTo work.service work.program elastic work.stages [] false }
    ensures piece { (service : Resolved) (program : Program) (elastic : Elastic) (s : Staged) (text : List ℕ) (trapped : Bool) (script : Script) → IsListedTo service program elastic s text trapped → piece_of s ≡ Some script
        → IsPieceListed service program elastic s text trapped script }
    ensures front { (service : Resolved) (program : Program) (elastic : Elastic) (s : Staged) (text : List ℕ) (trapped : Bool) → IsListedTo service program elastic s text trapped → IsFrontListed service program elastic text }
    ensures within { (service : Resolved) (program : Program) (elastic : Elastic) (s : Staged) (text : List ℕ) (trapped : Bool) (script : Script) (n : ℕ) → IsPieceListed service program elastic s text trapped script
        → IsFrontListed service program elastic (text ++ take n (events_from program.shape s.start.next.0 (ran_by program s.start script))) }
    ensures end { (service : Resolved) (program : Program) (elastic : Elastic) (s : Staged) (text : List ℕ) (trapped : Bool) → IsListedTo service program elastic s text trapped → piece_of s ≡ None
        → IsWholeListed service program elastic s.start text trapped }
{
    pieces_go_on();
    pieces_are_fronts();
}
