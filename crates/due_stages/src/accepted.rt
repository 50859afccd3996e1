//! An input of a service and a script with policies: accepted, or refused.

ghost use Rattle.std.specs.Prelude.{◌≤◌, length};
ghost use Rattle.wave_base.specs.declared.limits.TheConstants.{SCRIPT_BYTES};
ghost use Rattle.wave_base.specs.Shapes.{IsShape};
ghost use Rattle.mace_ast.specs.Decls.{ServiceTree};
ghost use Rattle.script_reader.specs.Elastics.{IsElastic};
ghost use Rattle.script_reader.specs.declared.elastic.Elastic.{Elastic};
ghost use Rattle.elastic_policy.specs.Stages.{first_staged, IsStaged};
ghost use Rattle.due_parts.specs.Coded.{IsCoded};
ghost use Rattle.due_parts.specs.Served.{IsTypedTree};
ghost use Rattle.due_stages.specs.Accepted.{IsAcceptedElastic, IsAcceptedStaged, IsReadyStaged};
ghost use Rattle.due_stages.specs.Elastic.{IsDueElasticLines, IsDueElasticScript, IsDueExpansion};
ghost use Rattle.std.specs.Prelude.{◌≡◌};

use crate::work::StagedWork;
use context_types::Typed;
use due_parts::{Refusal, refusal_answer, refused_script, service_of_text};
use elastic_meaning::expansions_end;
use elastic_policy::Stages;
use input_parts::parts_of;
use script_reader::read_elastic;
use service_verify::Verified;
use std::alloc::Global;
use wave_base::SCRIPT_BYTES;

/// Reads a service and a script with policies. A refusal that is due is the only answer that is; and where there is something to run, the listing of
/// the script that it stands for, from the first Start, is the only answer that is due.
pub fn accept_elastic(alloc: Global, input: &[u8]) -> Result<StagedWork, Refusal>
    ensures { IsAcceptedElastic input.now result }
{
    let (text, script) = parts_of(input);
    let Some(script) = script else {
        return Err(Refusal::Due(refusal_answer(alloc, 3, b"NoScript")?));
    };
    match service_of_text(alloc, text) {
        Ok((typed, program)) => accept_script(alloc, typed, program, script),
        Err(refusal) => Err(refusal),
    }
}

// A typed service with its code, and the text of a script.
fn accept_script(
    alloc: Global,
    typed: Typed,
    program: Verified,
    text: &[u8],
) -> Result<StagedWork, Refusal>
    requires { IsShape typed.shape }
    ensures { (tree : ServiceTree) → IsTypedTree tree typed → IsCoded typed.shape typed.resolved program → IsAcceptedStaged (λ places. IsDueElasticScript places text.now tree) result }
{
    if text.len() > SCRIPT_BYTES {
        return Err(Refusal::Due(refusal_answer(alloc, 4, b"TooLarge script")?));
    }
    accept_lines(alloc, typed, program, text)
}

// The text of a script that isn't too long.
fn accept_lines(
    alloc: Global,
    typed: Typed,
    program: Verified,
    text: &[u8],
) -> Result<StagedWork, Refusal>
    requires shape { IsShape typed.shape }
    requires short { length text.now ≤ SCRIPT_BYTES }
    ensures { (tree : ServiceTree) → IsTypedTree tree typed → IsCoded typed.shape typed.resolved program → IsAcceptedStaged (λ places. IsDueElasticLines (IsDueExpansion places tree) typed.shape text.now) result }
{
    match read_elastic(alloc, &typed.shape, text) {
        Ok(elastic) => {
            let stages = Stages::first(alloc, &typed.shape, elastic)?;
            Ok(ready(typed, program, stages))
        }
        Err(error) => Err(Refusal::Due(refused_script(alloc, &error)?)),
    }
}

// A script that was read, before its first piece, with its service and the code.
fn ready(typed: Typed, program: Verified, stages: Stages) -> StagedWork
    requires { IsStaged stages }
    ensures { (tree : ServiceTree) (elastic : Elastic) → IsTypedTree tree typed → IsCoded typed.shape typed.resolved program → IsElastic typed.shape elastic → stages ≡ first_staged typed.shape elastic → IsReadyStaged (λ places. IsDueExpansion places tree elastic) result }
{
    expansions_end();
    let Typed {
        service: _,
        shape: _,
        resolved,
    } = typed;
    StagedWork {
        service: resolved,
        program,
        stages,
    }
}
