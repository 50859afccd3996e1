//! Laws of scripts with policies: each is the contract of a function that does nothing.

ghost use Rattle.std.specs.Prelude.{◌≡◌, ◌≤◌, ◌<◌, ◌-◌, ◌^◌, List, [], Some, None, length};
ghost use Rattle.wave_base.specs.declared.finished.Finished.{Finished};
ghost use Rattle.wave_base.specs.declared.script.Line.{Line};
ghost use Rattle.wave_base.specs.declared.script.Script.{Script};
ghost use Rattle.wave_base.specs.declared.shape.Shape.{Shape};
ghost use Rattle.wave_base.specs.declared.start.Start.{Start};
ghost use Rattle.wave_base.specs.Scripts.{IsScript};
ghost use Rattle.wave_base.specs.Starts.{first_start};
ghost use Rattle.resolved_service.specs.declared.service.Resolved.{Resolved};
ghost use Rattle.script_fold.specs.Lines.{Meaning};
ghost use Rattle.script_reader.specs.declared.elastic.Elastic.{Elastic};
ghost use Rattle.script_reader.specs.Elastics.{IsElastic, plain_elastic};
ghost use Rattle.service_code.specs.declared.program.Program.{Program};
ghost use Rattle.wave_meaning.specs.Meaning.{results_of, IsWhole};
ghost use Rattle.code_runner.specs.Coded.{IsCode};
ghost use Rattle.elastic_policy.specs.Expansions.{expansion};
ghost use Rattle.elastic_policy.specs.Stages.{Staged, first_staged, stages_left, staged_after, piece_of};
ghost use Rattle.elastic_meaning.specs.Walks.{AreAt, IsDone, IsFront, IsPiece, IsUntold, expanded_script, told_of};

/// A script with policies is run piece by piece. It begins with no batch done, which tells nothing; where a piece is left, that may be
/// run, and then its batches are done too; where none is left, all is done that the script stands for.
pub fn pieces_go_on()
    ensures first { (service : Resolved) (program : Program) (elastic : Elastic) → IsCode service program → IsElastic program.shape elastic → AreAt service program elastic [] (first_staged program.shape elastic) }
    ensures nothing { (service : Resolved) (program : Program) (elastic : Elastic) → IsUntold (first_start program.shape) (told_of service program elastic []) }
    ensures piece { (service : Resolved) (program : Program) (elastic : Elastic) (done : List (List Line)) (s : Staged) (script : Script) → AreAt service program elastic done s → piece_of s ≡ Some script → IsPiece service program elastic done s script }
    ensures end { (service : Resolved) (program : Program) (elastic : Elastic) (done : List (List Line)) (s : Staged) → AreAt service program elastic done s → piece_of s ≡ None → IsDone service program elastic done }
{}

/// However far it has come, what is done is a front of all that the script stands for, and what it told a front of what that tells.
pub fn pieces_are_fronts()
    ensures { (service : Resolved) (program : Program) (elastic : Elastic) (done : List (List Line)) (s : Staged) → AreAt service program elastic done s → IsFront service program elastic done }
{}

/// The run of all that it stands for comes to its end, and there is a ticket for each of its results.
pub fn expansions_end()
    ensures over { (service : Resolved) (program : Program) (elastic : Elastic) → IsCode service program → IsElastic program.shape elastic → IsWhole program.shape service (expanded_script program.shape service elastic) }
    ensures few { (service : Resolved) (program : Program) (elastic : Elastic) → IsCode service program → IsElastic program.shape elastic → length (results_of program.shape service (expanded_script program.shape service elastic)).results ≤ 2 ^ 32 - 1 }
{}

/// A script without policies stands for itself, and is one piece.
pub fn plain_scripts_expand_to_themselves()
    ensures same { (meaning : Meaning) (shape : Shape) (start : Start) (script : Script) → expansion meaning shape start (plain_elastic script) ≡ script }
    ensures fits { (shape : Shape) (script : Script) → IsScript shape script → IsElastic shape (plain_elastic script) }
    ensures piece { (shape : Shape) (script : Script) → 0 < length script.batches → piece_of (first_staged shape (plain_elastic script)) ≡ Some script }
    ensures one { (shape : Shape) (script : Script) (done : Finished) → 0 < length script.batches → piece_of (staged_after (stages_left (first_staged shape (plain_elastic script))) done) ≡ None }
    ensures none { (shape : Shape) (script : Script) → length script.batches ≡ 0 → piece_of (first_staged shape (plain_elastic script)) ≡ None }
{}
