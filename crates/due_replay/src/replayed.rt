//! What is due for a service, a script and a journal: what the journal comes to where its labels are taken one after the other.

ghost use Rattle.std.specs.Prelude.{◌≡◌, ◌≢◌, ◌≤◌, ◌<◌, ◌^◌, length, IfOk};
ghost use Rattle.wave_base.specs.declared.limits.TheConstants.{LONG_INPUT_BYTES, PLACED_BYTES};
ghost use Rattle.wave_base.specs.Memory.{the_refusal};
ghost use Rattle.wave_base.specs.Names.{HasNames};
ghost use Rattle.wave_base.specs.Scripts.{IsScript};
ghost use Rattle.wave_base.specs.Shapes.{IsShape};
ghost use Rattle.fault_notes.specs.Notes.{journal_note};
ghost use Rattle.journal_text.specs.declared.error.JournalError.{JournalError};
ghost use Rattle.mace_ast.specs.Decls.{ServiceTree};
ghost use Rattle.due_parts.specs.Accepted.{IsOnlyDueOf};
ghost use Rattle.due_parts.specs.Answers.{refusal};
ghost use Rattle.due_parts.specs.Coded.{IsCoded};
ghost use Rattle.due_parts.specs.Scripts.{IsDueScript};
ghost use Rattle.due_parts.specs.Served.{IsTypedTree};
ghost use Rattle.plan_actors.specs.Plans.{Fits};
ghost use Rattle.type_rules.specs.Known.{shape_of};
ghost use Rattle.wave_effects.specs.Plans.{plan_of};
ghost use Rattle.due_replay.specs.Replayed.{IsDueJournal, IsDueReplay, IsDueReplayed, refused_label};
ghost use Rattle.due_replay.specs.inner.Outcomes.{IsOnlyOutcomeOf};
ghost use Rattle.due_replay.specs.inner.Trees.{HasTree};

use command_words::Crew;
use context_types::Typed;
use due_parts::{
    Answer, Refusal, refusal_answer, refused_script, service_of_text, text_answer, three_parts,
};
use fault_notes::journal_note;
use journal_replay::{ReplayError, refused_text, replay, replayed_text};
use journal_text::{JournalError, read_journal};
use script_reader::read_script;
use service_verify::Verified;
use std::alloc::Global;
use wave_base::{OutOfMemory, SCRIPT_BYTES, Script, Seq, Shape, WORKERS};
use wave_effects::Plan;
use wave_labels::Label;

/// What a journal is shown after, and by whom it is replayed.
#[derive(Clone, Copy)]
pub(crate) struct Asked {
    // After how many labels.
    show: u64,
    // By how many workers.
    crew: Crew,
}

fn refused_journal(alloc: Global, error: &JournalError) -> Result<Answer, OutOfMemory>
    ensures refused { IfOk result (λ a. a ≡ refusal 10 (journal_note error.now)) }
    ensures told { IfOk result (λ _. error.now ≢ JournalError.OutOfMemory the_refusal) }
{
    let note = journal_note(alloc, error)?;
    refusal_answer(alloc, 10, note.as_slice())
}

/// What is due for a journal that a crew replays, and that is shown after so many labels, or after the last where there are fewer.
pub fn judge_replay(alloc: Global, show: u64, crew: Crew, input: &[u8]) -> Result<Answer, Refusal>
    requires { length input.now ≤ LONG_INPUT_BYTES }
    ensures { IsOnlyDueOf (IsDueReplayed show crew input.now) result }
{
    let (text, parts) = three_parts(input);
    let Some((script, journal)) = parts else {
        return Err(Refusal::Due(refusal_answer(alloc, 3, b"NoScript")?));
    };
    match service_of_text(alloc, text) {
        Ok((typed, program)) => {
            judge_script(alloc, Asked { show, crew }, typed, program, script, journal)
        }
        Err(refusal) => Err(refusal),
    }
}

// A typed service with its code, and the texts of a script and a journal.
fn judge_script(
    alloc: Global,
    asked: Asked,
    typed: Typed,
    program: Verified,
    script: &[u8],
    journal: &[u8],
) -> Result<Answer, Refusal>
    requires shape { IsShape typed.shape }
    requires names { HasNames typed.shape }
    requires tree { HasTree typed program }
    requires short { length journal.now ≤ PLACED_BYTES }
    ensures { (tree : ServiceTree) → IsTypedTree tree typed → IsCoded typed.shape typed.resolved program → IsOnlyDueOf (IsDueScript (λ t s. IsDueJournal (IsDueReplay asked.show asked.crew t s) (shape_of t) journal.now) script.now tree) result }
{
    if script.len() > SCRIPT_BYTES {
        return Err(Refusal::Due(refusal_answer(alloc, 4, b"TooLarge script")?));
    }
    match read_script(alloc, &typed.shape, script) {
        Ok(script) => judge_journal(alloc, asked, typed, program, script, journal),
        Err(error) => Err(Refusal::Due(refused_script(alloc, &error)?)),
    }
}

// The text of a journal, for a script that was read.
fn judge_journal(
    alloc: Global,
    asked: Asked,
    typed: Typed,
    program: Verified,
    script: Script,
    journal: &[u8],
) -> Result<Answer, Refusal>
    requires shape { IsShape typed.shape }
    requires names { HasNames typed.shape }
    requires tree { HasTree typed program }
    requires short { length journal.now ≤ PLACED_BYTES }
    requires script { IsScript typed.shape script }
    ensures { (tree : ServiceTree) → IsTypedTree tree typed → IsCoded typed.shape typed.resolved program → IsOnlyDueOf (IsDueJournal (IsDueReplay asked.show asked.crew tree script) typed.shape journal.now) result }
{
    match read_journal(alloc, &typed.shape, journal) {
        Ok(labels) => {
            let plan = Plan {
                program,
                script,
                workers: asked.crew.workers.clamp(1, WORKERS),
            };
            Ok(judge_labels(alloc, asked.show, &plan, &labels)?)
        }
        Err(error) => Err(Refusal::Due(refused_journal(alloc, &error)?)),
    }
}

// The labels of a journal.
fn judge_labels(
    alloc: Global,
    show: u64,
    plan: &Plan,
    journal: &Seq<Label>,
) -> Result<Answer, OutOfMemory>
    requires fits { Fits (plan_of plan.now) }
    requires few { length journal.now < 2 ^ 32 }
    ensures { IfOk result (IsOnlyOutcomeOf (plan_of plan.now) journal.now show) }
{
    let shape = &plan.program.program().shape;
    match replay(alloc, plan, journal, show.min(u64::from(u32::MAX)) as u32) {
        Ok(replayed) => Ok(text_answer(alloc, replayed_text(alloc, shape, &replayed)?)),
        Err(ReplayError::Refused { step, enabled, .. }) => {
            refused_label(alloc, shape, step, &enabled)
        }
        Err(ReplayError::OutOfMemory(refused)) => Err(refused),
    }
}

// A label that can't be taken is told, with those that can.
fn refused_label(
    alloc: Global,
    shape: &Shape,
    step: u32,
    enabled: &Seq<Label>,
) -> Result<Answer, OutOfMemory>
    ensures { IfOk result (λ a. a ≡ refused_label shape.now step enabled.now) }
{
    let note = Vec::from_slice(alloc, b"Refused")?;
    let text = refused_text(alloc, shape, step, enabled)?;
    Ok(Answer {
        status: 11,
        note: Seq::from_vec(note),
        text,
    })
}
